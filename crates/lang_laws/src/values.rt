ghost use Rattle.std.specs.FinMap.{get};
ghost use Rattle.std.specs.Prelude.{◌≡◌, ◌∷◌, Ok, None, Some, [], false, map, negsuc, pos, true};
ghost use Rattle.sopl_ast.specs.UnfoldEvents.{first_failure};
ghost use Rattle.sopl_ast.specs.Unfolding.{problem_of, text_events};
ghost use Rattle.sopl_ast.specs.Policies.{Policy};
ghost use Rattle.sopl_ast.specs.Optimal.{numerator, denominator, weight_of};
ghost use Rattle.sopl_ast.specs.TermNodes.{nodes};
ghost use Rattle.sopl_ast.specs.Limits.{usual_limits, first_passed};
ghost use Rattle.lang_laws.specs.WorkedTexts.{hard, chance, holds_in, Decides};
ghost use Rattle.lang_laws.specs.WorkedValues.{undefined, settled, measured, greatest_worst, least_worst, greatest_expected, over_nothing, truths_in};

/// What is undefined makes a comparison false, and an objective without value.
pub fn undefined_values()
    ensures undefined_outside { (policy : Policy) → Decides policy 0 (pos 0) → truths_in undefined policy 16
        ≡ true ∷ true ∷ false ∷ true ∷ true ∷ true ∷ true ∷ false ∷ true ∷ false ∷ false ∷ true ∷ false ∷ false ∷ false ∷ false ∷ [] }
    ensures undefined_inside { (policy : Policy) → Decides policy 0 (pos 1) → truths_in undefined policy 16
        ≡ false ∷ false ∷ true ∷ true ∷ false ∷ true ∷ true ∷ true ∷ false ∷ false ∷ false ∷ false ∷ true ∷ true ∷ false ∷ true ∷ [] }
    ensures undefined_decided { (policy : Policy) → Decides policy 0 (pos 2) → Decides policy 1 (pos 4) → holds_in undefined policy 10 ≡ true }
    ensures undefined_no_value { (policy : Policy) → Decides policy 0 (pos 0) → numerator (problem_of undefined) policy ≡ None }
    ensures undefined_value { (policy : Policy) → Decides policy 0 (pos 1) → numerator (problem_of undefined) policy ≡ Some (pos 3) }
{}

/// Conditions and objectives at one decision.
pub fn defined_values()
    ensures settled_truths { (policy : Policy) → Decides policy 0 (pos 3) → Decides policy 1 (pos 1) → truths_in settled policy 12
        ≡ true ∷ true ∷ true ∷ true ∷ true ∷ true ∷ true ∷ true ∷ true ∷ true ∷ true ∷ true ∷ [] }
    ensures settled_none_counted { (policy : Policy) → Decides policy 0 (pos 3) → numerator (problem_of settled) policy ≡ Some (pos 0) }
    ensures settled_one_counted { (policy : Policy) → Decides policy 0 (pos 2) → numerator (problem_of settled) policy ≡ Some (pos 6) }
    ensures settled_not_often { (policy : Policy) → Decides policy 0 (pos 2) → holds_in settled policy 11 ≡ false }
    ensures measured_nodes { map (nodes (problem_of measured).known) (problem_of measured).conditions ≡ 6 ∷ 6 ∷ 14 ∷ 7 ∷ 7 ∷ 7 ∷ [] }
    ensures measured_truths { (policy : Policy) → Decides policy 0 (pos 3) → Decides policy 5 (pos 4) → Decides policy 7 (pos 3) → truths_in measured policy 6
        ≡ true ∷ true ∷ true ∷ false ∷ false ∷ true ∷ [] }
{}

/// The least and the greatest value over scenarios, and the expected one, of one policy.
pub fn valued_policies()
    ensures greatest_worst { (policy : Policy) → Decides policy 0 (pos 1) → get policy (1, pos 1 ∷ []) ≡ Some (pos 1) → get policy (1, pos 3 ∷ []) ≡ Some (pos 2) → get policy (2, pos 1 ∷ pos 0 ∷ [])
        ≡ Some (pos 0) → get policy (2, pos 1 ∷ pos 5 ∷ []) ≡ Some (pos 4) → get policy (2, pos 3 ∷ pos 0 ∷ []) ≡ Some (pos 1) → get policy (2, pos 3 ∷ pos 5 ∷ []) ≡ Some (pos 2)
        → numerator (problem_of greatest_worst) policy ≡ Some (negsuc 1) }
    ensures greatest_worst_denominator { denominator (problem_of greatest_worst) ≡ pos 1 }
    ensures greatest_worst_weight { (policy : Policy) → get policy (1, pos 1 ∷ []) ≡ Some (pos 1) → get policy (1, pos 3 ∷ []) ≡ Some (pos 2)
        → weight_of (problem_of greatest_worst) policy (chance 0 [] (pos 2) (pos 3)) ≡ pos 4 }
    ensures least_worst { (policy : Policy) → Decides policy 0 (pos 1) → get policy (1, pos 1 ∷ []) ≡ Some (pos 1) → get policy (1, pos 3 ∷ []) ≡ Some (pos 2) → get policy (2, pos 1 ∷ pos 0 ∷ [])
        ≡ Some (pos 0) → get policy (2, pos 1 ∷ pos 5 ∷ []) ≡ Some (pos 4) → get policy (2, pos 3 ∷ pos 0 ∷ []) ≡ Some (pos 1) → get policy (2, pos 3 ∷ pos 5 ∷ []) ≡ Some (pos 2)
        → numerator (problem_of least_worst) policy ≡ Some (pos 2) }
    ensures least_worst_denominator { denominator (problem_of least_worst) ≡ pos 1 }
    ensures least_worst_weight { (policy : Policy) → get policy (1, pos 1 ∷ []) ≡ Some (pos 1) → get policy (1, pos 3 ∷ []) ≡ Some (pos 2)
        → weight_of (problem_of least_worst) policy (chance 0 [] (pos 2) (pos 3)) ≡ pos 4 }
    ensures greatest_expected { (policy : Policy) → Decides policy 0 (pos 1) → get policy (1, pos 1 ∷ []) ≡ Some (pos 1) → get policy (1, pos 3 ∷ []) ≡ Some (pos 2)
        → get policy (2, pos 1 ∷ pos 0 ∷ []) ≡ Some (pos 0) → get policy (2, pos 1 ∷ pos 5 ∷ []) ≡ Some (pos 4) → get policy (2, pos 3 ∷ pos 0 ∷ []) ≡ Some (pos 1)
        → get policy (2, pos 3 ∷ pos 5 ∷ []) ≡ Some (pos 2) → numerator (problem_of greatest_expected) policy ≡ Some (pos 6) }
    ensures greatest_expected_denominator { denominator (problem_of greatest_expected) ≡ pos 12 }
    ensures greatest_expected_weight { (policy : Policy) → get policy (1, pos 1 ∷ []) ≡ Some (pos 1) → get policy (1, pos 3 ∷ []) ≡ Some (pos 2)
        → weight_of (problem_of greatest_expected) policy (chance 0 [] (pos 2) (pos 3)) ≡ pos 4 }
{}

/// Sums and conditions over an empty set.
pub fn empty_sets()
    ensures over_nothing { first_failure 0 (text_events over_nothing) ≡ Ok 3 }
    ensures over_nothing_hards { (problem_of over_nothing).hards ≡ hard 0 [] ∷ hard 1 [] ∷ hard 3 [] ∷ [] }
    ensures over_nothing_sum { (policy : Policy) → holds_in over_nothing policy 0 ≡ true }
    ensures over_nothing_different { (policy : Policy) → holds_in over_nothing policy 1 ≡ true }
    ensures over_nothing_none { first_passed usual_limits (problem_of over_nothing) ≡ None }
{}
