//! Worked values.

ghost use Rattle.std.specs.Prelude.{◌≡◌, ◌+◌, ◌-◌, ◌^◌, pos, true, false, [], ◌∷◌, map, Some, None};
ghost use Rattle.sopl_base.specs.declared.comparison.CmpOp.TheVariants.{Eq, Le};
ghost use Rattle.term_language.specs.Terms.{Constant, Product, Number, Sum, no_part, part, Compare, Not, All, Implies, AllDifferent, Cumulative, no_cond, condition};
ghost use Rattle.term_language.specs.WorkedIntervals.{absolute, least, quotient, remainder, x, y, z, number, sum, difference, one, two, three, price_at, two_tasks};
ghost use Rattle.compile_laws.specs.WorkedInstances.{drawing};
ghost use Rattle.term_problem.specs.WorkedProgram.{ordering};
ghost use Rattle.compile_laws.specs.Measured.{large_excess, measured_terms, first_large, term_excess, goal_excess, measured_excess};
ghost use Rattle.compile_laws.specs.Subterms.{subterms, condition_subterms};
ghost use Rattle.compile_laws.specs.Texts.{program_excess};
ghost use Rattle.compile_laws.specs.WorkedSizes.{wide, large, larger, likely, maximal, positive, posed};
ghost use Rattle.sopl_ast.specs.UnfoldEvents.{excess};

/// The number expressions in a term and in a condition: each left part of a chain of products and divisions is one, no divisor is,
/// and a chain of sums and differences is one as a whole.
pub fn worked_subterms()
    ensures products { subterms (remainder (quotient (Product x (number 3)) (pos 2)) (pos 5))
        ≡ x ∷ number 3 ∷ Product x (number 3) ∷ quotient (Product x (number 3)) (pos 2) ∷ remainder (quotient (Product x (number 3)) (pos 2)) (pos 5) ∷ [] }
    ensures chain { subterms (Sum (part false x (part true (Product (number 2) y) (part false z no_part))))
        ≡ x ∷ number 2 ∷ y ∷ Product (number 2) y ∷ z ∷ Sum (part false x (part true (Product (number 2) y) (part false z no_part))) ∷ [] }
    ensures element { subterms (price_at (sum x y)) ≡ x ∷ y ∷ sum x y ∷ price_at (sum x y) ∷ [] }
    ensures extreme { subterms (least (absolute x) (two y z)) ≡ x ∷ absolute x ∷ y ∷ z ∷ least (absolute x) (two y z) ∷ [] }
    ensures number { subterms (Product (Number (Compare Le x y)) z)
        ≡ x ∷ y ∷ Number (Compare Le x y) ∷ z ∷ Product (Number (Compare Le x y)) z ∷ [] }
    ensures comparison { condition_subterms (Compare Eq (sum x y) z) ≡ x ∷ y ∷ sum x y ∷ z ∷ [] }
    ensures logic { condition_subterms (Implies (Not (Compare Le x y)) (All (condition (Compare Le y z) (condition (AllDifferent (three z y x)) no_cond))))
        ≡ x ∷ y ∷ y ∷ z ∷ z ∷ y ∷ x ∷ [] }
    ensures tasks { condition_subterms (Cumulative (two_tasks (pos 4) (pos 5)) z)
        ≡ x ∷ number 2 ∷ number 4 ∷ y ∷ number 3 ∷ number 5 ∷ z ∷ [] }
{}

/// In a problem: the hard constraints, the chance constraints, the objective, and of each the first scenario before the second.
pub fn worked_order()
    ensures problem { measured_terms ordering
        ≡ y ∷ x ∷ z ∷ x ∷ y ∷ number 1 ∷ z ∷ number 2
        ∷ number 2 ∷ y ∷ Product (number 2) y ∷ x ∷ difference (Product (number 2) y) x
        ∷ number 2 ∷ z ∷ Product (number 2) z ∷ x ∷ difference (Product (number 2) z) x ∷ [] }
{}

/// Which size passes its limit first, if one does.
pub fn worked_excesses()
    ensures large { term_excess wide (posed (pos 4) ((positive large ∷ positive large ∷ []) ∷ []) [] None)
        ≡ Some (excess 207 (pos 72056494526300160) (pos 1099511627776)) }
    ensures at_most { first_large wide (Product y (Constant (pos (2 ^ 40))) ∷ Constant (pos (2 ^ 40)) ∷ []) ≡ None }
    ensures one_more { first_large wide (sum (Product y (Constant (pos (2 ^ 40)))) (number 1) ∷ []) ≡ Some (2 ^ 40 + 1) }
    ensures left_part { first_large wide (subterms (quotient large (pos 65536))) ≡ Some 72056494526300160 }
    ensures operand { first_large wide (subterms (difference larger large)) ≡ Some 72056494526300160 }
    ensures cancelled { first_large wide (difference large large ∷ []) ≡ None }
    ensures hards_first { term_excess wide (posed (pos 4) ((positive x ∷ positive x ∷ []) ∷ (positive x ∷ positive (sum large (number 1)) ∷ []) ∷ [])
        (likely (positive (Product large y) ∷ positive x ∷ []) ∷ []) (Some (maximal false (Product larger y ∷ x ∷ [])))) ≡ Some (large_excess 72056494526300160) }
    ensures chances_next { term_excess wide (posed (pos 4) ((positive x ∷ positive x ∷ []) ∷ [])
        (likely (positive x ∷ positive (sum y (Constant (pos (2 ^ 40)))) ∷ []) ∷ []) (Some (maximal false (large ∷ x ∷ [])))) ≡ Some (large_excess (2 ^ 40 + 1)) }
    ensures scenarios { term_excess wide (posed (pos 4) [] [] (Some (maximal true (sum y (Constant (pos (2 ^ 40))) ∷ large ∷ [])))) ≡ Some (large_excess (2 ^ 40 + 1)) }
    ensures objective { goal_excess wide (posed (pos (2 ^ 100)) [] [] (Some (maximal false (y ∷ Product y (Constant (pos (2 ^ 26))) ∷ []))))
        ≡ Some (excess 207 (pos (2 ^ 126 + 2 ^ 100)) (pos (2 ^ 126))) }
    ensures objective_at_most { goal_excess wide (posed (pos (2 ^ 100)) [] [] (Some (maximal false (y ∷ Product y (Constant (pos (2 ^ 26 - 1))) ∷ [])))) ≡ None }
    ensures objective_cut_off { goal_excess wide (posed (pos (2 ^ 100)) [] [] (Some (maximal false (y ∷ Product y (Constant (pos (2 ^ 40))) ∷ []))))
        ≡ Some (excess 207 (pos (2 ^ 127 - 1)) (pos (2 ^ 126))) }
    ensures worst { measured_excess wide (posed (pos (2 ^ 100)) [] [] (Some (maximal true (y ∷ Product y (Constant (pos (2 ^ 40))) ∷ [])))) ≡ None }
    ensures objective_last { measured_excess wide (posed (pos (2 ^ 100)) [] (likely (positive large ∷ positive x ∷ []) ∷ [])
        (Some (maximal false (y ∷ Product y (Constant (pos (2 ^ 26))) ∷ [])))) ≡ Some (large_excess 72056494526300160) }
    ensures none { map (measured_excess wide) (posed (pos (2 ^ 100)) [] [] None ∷ ordering ∷ []) ≡ None ∷ None ∷ [] }
    ensures text { program_excess drawing ≡ None }
{}
