ghost use Rattle.std.specs.FinMap.{get};
ghost use Rattle.std.specs.Prelude.{◌≡◌, pos, negsuc, true, false, [], ◌∷◌, map, Some, None, Ok, codes};
ghost use Rattle.sopl_ast.specs.declared.operators.MulOp.TheVariants.{Div, Mod};
ghost use Rattle.sopl_ast.specs.UnfoldEvents.{excess, first_failure, met_within};
ghost use Rattle.sopl_ast.specs.Unfolding.{problem_of, text_events};
ghost use Rattle.sopl_ast.specs.Scenarios.{scenarios, total_weight};
ghost use Rattle.sopl_ast.specs.Histories.{histories};
ghost use Rattle.sopl_ast.specs.Policies.{Policy};
ghost use Rattle.sopl_ast.specs.Optimal.{numerator, denominator, weight_of};
ghost use Rattle.sopl_ast.specs.TermNodes.{nodes, text_nodes};
ghost use Rattle.sopl_ast.specs.Limits.{usual_limits, first_passed, weight_excess, scenario_excess, copy_excess};
ghost use Rattle.lang_laws.specs.WorkedTexts.{stages, ordering, seller, blocks, elements, different, tasks, sums, bits, heavy, by_zero, empty_domain, short_bracket, no_weight};
ghost use Rattle.lang_laws.specs.WorkedTexts.{late_stage, threshold, wide_domain, long_range, pairs, two_numbers, refusal, limit, values_of, weights_of, history_counts};
ghost use Rattle.lang_laws.specs.WorkedTexts.{element, decision, outcome, stochastic, bound_to, hard, chance, quotients, quotient, lit, times_greatest, sum_to, constant, meant};
ghost use Rattle.lang_laws.specs.WorkedTexts.{Decides, holds_in};

/// The instances of `seller` and of `blocks`.
pub fn worked_instances()
    ensures constants { (problem_of seller).known.constants ≡ element (codes "n") [] (pos 1) ∷ element (codes "price") (pos 1 ∷ []) (pos 7)
        ∷ element (codes "cost") (pos 1 ∷ []) (pos 2) ∷ element (codes "low") (pos 1 ∷ []) (pos 1)
        ∷ element (codes "high") (pos 1 ∷ []) (pos 3) ∷ element (codes "weight") (pos 1 ∷ []) (pos 2) ∷ [] }
    ensures decisions { (problem_of seller).decisions ≡ decision (codes "x") (pos 1 ∷ []) (pos 0) (pos 3) 1 ∷ [] }
    ensures stochastics { (problem_of seller).stochastics
        ≡ stochastic (codes "d") (pos 1 ∷ []) (outcome (pos 1) (pos 1) ∷ outcome (pos 3) (pos 2) ∷ []) 1 ∷ [] }
    ensures hards { (problem_of seller).hards ≡ hard 0 (bound_to (codes "t") (pos 1)) ∷ [] }
    ensures chances { (problem_of seller).chances ≡ chance 1 [] (pos 1) (pos 4) ∷ [] }
    ensures numbered { (problem_of blocks).hards
        ≡ hard 0 (bound_to (codes "i") (pos 1)) ∷ hard 0 (bound_to (codes "i") (pos 2)) ∷ hard 2 [] ∷ [] }
    ensures thresholds { (problem_of blocks).chances
        ≡ chance 1 (bound_to (codes "i") (pos 1)) (pos 1) (pos 2) ∷ chance 1 (bound_to (codes "i") (pos 2)) (pos 2) (pos 2) ∷ [] }
    ensures counted { first_failure 0 (text_events blocks) ≡ Ok 7 }
{}

/// The scenarios and histories of `stages`.
pub fn worked_scenarios()
    ensures values { values_of (scenarios (problem_of stages).stochastics)
        ≡ (pos 0 ∷ pos 0 ∷ []) ∷ (pos 0 ∷ pos 2 ∷ []) ∷ (pos 1 ∷ pos 0 ∷ []) ∷ (pos 1 ∷ pos 2 ∷ []) ∷ [] }
    ensures weights { weights_of (scenarios (problem_of stages).stochastics) ≡ pos 1 ∷ pos 2 ∷ pos 2 ∷ pos 4 ∷ [] }
    ensures all { total_weight (problem_of stages).stochastics ≡ pos 9 }
    ensures histories { histories 2 (problem_of stages).stochastics ≡ (pos 0 ∷ []) ∷ (pos 1 ∷ []) ∷ [] }
    ensures counts { history_counts (1 ∷ 2 ∷ 3 ∷ []) (problem_of stages).stochastics ≡ 1 ∷ 2 ∷ 4 ∷ [] }
{}

/// Where the unfolding of small texts stops; `-1/(1 div 0)` is refused at its second number, though the first is too small.
pub fn worked_refusals()
    ensures by_zero { first_failure 0 (text_events by_zero) ≡ refusal 110 8 }
    ensures empty_domain { first_failure 0 (text_events empty_domain) ≡ refusal 111 14 }
    ensures short_bracket { first_failure 0 (text_events short_bracket) ≡ refusal 112 27 }
    ensures no_weight { first_failure 0 (text_events no_weight) ≡ refusal 113 18 }
    ensures late_stage { first_failure 0 (text_events late_stage) ≡ refusal 114 25 }
    ensures threshold { first_failure 0 (text_events threshold) ≡ refusal 115 29 }
    ensures two_numbers { first_failure 0 (text_events two_numbers) ≡ refusal 110 32 }
    ensures wide_domain { first_failure 0 (text_events wide_domain) ≡ limit 203 65537 65536 }
    ensures long_range { first_failure 0 (text_events long_range) ≡ limit 208 65537 65536 }
    ensures pairs { first_failure 0 (text_events pairs) ≡ Ok 21 }
    ensures one_too_many { met_within 20 0 (text_events pairs) ≡ limit 205 21 20 }
{}

/// The limits of small texts, and what they count.
pub fn worked_limits()
    ensures heavy { weight_excess usual_limits (problem_of heavy)
        ≡ Some (excess 201 (pos 2535301200456458802993406410752) (pos 1267650600228229401496703205376)) }
    ensures many { scenario_excess (record usual_limits { scenarios = 3 }) (problem_of sums) ≡ Some (excess 202 (pos 4) (pos 3)) }
    ensures product { copy_excess (record usual_limits { copies = 15 }) (problem_of sums) ≡ Some (excess 209 (pos 16) (pos 15)) }
    ensures bits { first_passed usual_limits (problem_of bits) ≡ Some (excess 204 (pos 1040) (pos 1024)) }
    ensures nodes { map (nodes (problem_of sums).known) (problem_of sums).conditions ≡ 303 ∷ 3 ∷ [] }
    ensures in_scenarios { text_nodes (problem_of sums) ≡ 1224 }
    ensures too_many_nodes { first_passed (record usual_limits { nodes = 1223 }) (problem_of sums) ≡ Some (excess 206 (pos 1224) (pos 1223)) }
    ensures within { first_passed usual_limits (problem_of sums) ≡ None }
{}

/// What expressions without variables are worth, as constants and in constraints.
pub fn worked_numbers()
    ensures quotients { map constant (quotients Div) ≡ Some (pos 3) ∷ Some (negsuc 2) ∷ Some (negsuc 2) ∷ Some (pos 3) ∷ [] }
    ensures remainders { map constant (quotients Mod) ≡ Some (pos 1) ∷ Some (negsuc 0) ∷ Some (pos 1) ∷ Some (negsuc 0) ∷ [] }
    ensures quotients_meant { (policy : Policy) → map (λ e. (meant policy e).value) (quotients Div)
        ≡ Some (pos 3) ∷ Some (negsuc 2) ∷ Some (negsuc 2) ∷ Some (pos 3) ∷ [] }
    ensures remainders_meant { (policy : Policy) → map (λ e. (meant policy e).value) (quotients Mod)
        ≡ Some (pos 1) ∷ Some (negsuc 0) ∷ Some (pos 1) ∷ Some (negsuc 0) ∷ [] }
    ensures by_zero { constant (quotient Div (lit 0 1) (lit 0 0)) ≡ None }
    ensures greatest { constant (times_greatest 1) ≡ Some (pos 1099511627776) }
    ensures past_greatest { constant (times_greatest 2) ≡ None }
    ensures no_bound { (policy : Policy) → (meant policy (times_greatest 2)).value ≡ Some (pos 2199023255552) }
    ensures sum { constant (sum_to 4) ≡ Some (pos 10) }
    ensures empty_sum { constant (sum_to 0) ≡ Some (pos 0) }
    ensures empty_sum_meant { (policy : Policy) → (meant policy (sum_to 0)).value ≡ Some (pos 0) }
{}

/// Elements at a decided index: outside the index set they are undefined, so a comparison is false and its negation true.
pub fn worked_elements()
    ensures outside { (policy : Policy) → Decides policy 0 (pos 0) → numerator (problem_of elements) policy ≡ None }
    ensures outside_false { (policy : Policy) → Decides policy 0 (pos 0) → holds_in elements policy 0 ≡ false }
    ensures outside_negated { (policy : Policy) → Decides policy 0 (pos 0) → holds_in elements policy 1 ≡ true }
    ensures inside { (policy : Policy) → Decides policy 0 (pos 2) → numerator (problem_of elements) policy ≡ Some (pos 7) }
    ensures decided { (policy : Policy) → Decides policy 0 (pos 2) → Decides policy 2 (pos 4) → holds_in elements policy 2 ≡ true }
{}

/// `allDifferent` and `cumulative`.
pub fn worked_conditions()
    ensures alike { (policy : Policy) → Decides policy 0 (pos 1) → Decides policy 1 (pos 2) → Decides policy 2 (pos 1)
        → holds_in different policy 0 ≡ false }
    ensures different { (policy : Policy) → Decides policy 0 (pos 1) → Decides policy 1 (pos 2) → Decides policy 2 (pos 3)
        → holds_in different policy 0 ≡ true }
    ensures apart { (policy : Policy) → Decides policy 0 (pos 0) → Decides policy 1 (pos 2) → holds_in tasks policy 0 ≡ true }
    ensures together { (policy : Policy) → Decides policy 0 (pos 0) → Decides policy 1 (pos 1) → holds_in tasks policy 0 ≡ false }
    ensures end { (policy : Policy) → Decides policy 0 (pos 0) → Decides policy 1 (pos 2) → numerator (problem_of tasks) policy ≡ Some (pos 4) }
{}

/// What policies of `ordering` and of `seller` are worth, and the weight of a chance constraint.
pub fn worked_policies()
    ensures ordered { (policy : Policy) → get policy (0, []) ≡ Some (pos 1) → get policy (1, pos 1 ∷ []) ≡ Some (pos 1)
        → get policy (1, pos 3 ∷ []) ≡ Some (pos 1) → numerator (problem_of ordering) policy ≡ Some (pos 2) }
    ensures over_both { denominator (problem_of ordering) ≡ pos 2 }
    ensures sold { (policy : Policy) → Decides policy 0 (pos 2) → numerator (problem_of seller) policy ≡ Some (pos 23) }
    ensures over_three { denominator (problem_of seller) ≡ pos 3 }
    ensures often { (policy : Policy) → Decides policy 0 (pos 2) → weight_of (problem_of seller) policy (chance 1 [] (pos 1) (pos 4)) ≡ pos 1 }
{}
