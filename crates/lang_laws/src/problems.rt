ghost use Rattle.std.specs.FinMap.{get};
ghost use Rattle.std.specs.Prelude.{◌≡◌, ◌∷◌, Ok, None, Some, [], codes, map, negsuc, pos};
ghost use Rattle.sopl_ast.specs.UnfoldEvents.{excess, first_failure, met_within};
ghost use Rattle.sopl_ast.specs.Instances.{Hard};
ghost use Rattle.sopl_ast.specs.Unfolding.{problem_of, text_events};
ghost use Rattle.sopl_ast.specs.Scenarios.{scenarios, total_weight};
ghost use Rattle.sopl_ast.specs.PlacedScenarios.{Scenario as Placed, scenarios as placed_scenarios};
ghost use Rattle.sopl_ast.specs.Histories.{histories, number_of};
ghost use Rattle.sopl_ast.specs.Policies.{Policy};
ghost use Rattle.sopl_ast.specs.Optimal.{weight_of};
ghost use Rattle.sopl_ast.specs.TermNodes.{text_nodes, condition_nodes, objective_nodes};
ghost use Rattle.sopl_ast.specs.Limits.{usual_limits, first_passed, bits_of};
ghost use Rattle.lang_laws.specs.WorkedTexts.{limit, values_of, weights_of, element, decision, outcome, stochastic, bound_to, hard, chance, Decides};
ghost use Rattle.lang_laws.specs.WorkedProblems.{within_sum, within_terms, empty_arrays, no_inner_range, bracket_names, conditions_counted, functions_counted, tasks_counted};
ghost use Rattle.lang_laws.specs.WorkedProblems.{operators_in_turn, negative_elements, least_constant, crossed, drawn_against_text, set_of_three, counts, staged, nested};
ghost use Rattle.lang_laws.specs.WorkedProblems.{summed_ends, threshold_of_conditions, many_nodes, heaviest, heavy_late, sizes, digits};

/// The elements of constants.
pub fn stated_constants()
    ensures within_sum { first_failure 0 (text_events within_sum) ≡ Ok 1 }
    ensures within_sum_value { (problem_of within_sum).known.constants ≡ element (codes "n") [] (pos 1099511627776) ∷ [] }
    ensures within_terms { first_failure 0 (text_events within_terms) ≡ Ok 4 }
    ensures within_terms_value { (problem_of within_terms).known.constants ≡ element (codes "n") [] (pos 0) ∷ [] }
    ensures empty_arrays { first_failure 0 (text_events empty_arrays) ≡ Ok 0 }
    ensures no_inner_range { first_failure 0 (text_events no_inner_range) ≡ Ok 1 }
    ensures bracket_names { first_failure 0 (text_events bracket_names) ≡ Ok 4 }
    ensures bracket_names_values { (problem_of bracket_names).known.constants
        ≡ element (codes "a") (pos 1 ∷ pos 2 ∷ []) (pos 2) ∷ element (codes "a") (pos 1 ∷ pos 3 ∷ []) (pos 4) ∷ element (codes "a") (pos 2 ∷ pos 2 ∷ []) (pos 0)
        ∷ element (codes "a") (pos 2 ∷ pos 3 ∷ []) (pos 3) ∷ [] }
    ensures conditions_counted { first_failure 0 (text_events conditions_counted) ≡ Ok 1 }
    ensures conditions_counted_value { (problem_of conditions_counted).known.constants ≡ element (codes "n") [] (pos 3) ∷ [] }
    ensures functions_counted { first_failure 0 (text_events functions_counted) ≡ Ok 5 }
    ensures functions_counted_value { (problem_of functions_counted).known.constants ≡ element (codes "n") [] (pos 1001327) ∷ [] }
    ensures tasks_counted { first_failure 0 (text_events tasks_counted) ≡ Ok 10 }
    ensures tasks_counted_value { (problem_of tasks_counted).known.constants ≡ element (codes "n") [] (pos 1002) ∷ [] }
    ensures operators_in_turn { first_failure 0 (text_events operators_in_turn) ≡ Ok 11 }
    ensures operators_in_turn_values { (problem_of operators_in_turn).known.constants
        ≡ element (codes "n") [] (pos 4) ∷ element (codes "m") [] (pos 6) ∷ element (codes "k") [] (negsuc 0) ∷ element (codes "j") [] (negsuc 5) ∷ element (codes "h") [] (negsuc 4)
        ∷ element (codes "g") [] (negsuc 5) ∷ element (codes "f") [] (pos 5) ∷ [] }
    ensures negative_elements { first_failure 0 (text_events negative_elements) ≡ Ok 3 }
    ensures negative_elements_values { (problem_of negative_elements).known.constants
        ≡ element (codes "a") (negsuc 0 ∷ []) (pos 10) ∷ element (codes "a") (pos 5 ∷ []) (pos 20) ∷ element (codes "b") [] (pos 1020) ∷ [] }
    ensures least_constant { first_failure 0 (text_events least_constant) ≡ Ok 1 }
    ensures least_constant_value { (problem_of least_constant).known.constants ≡ element (codes "n") [] (negsuc 1099511627775) ∷ [] }
{}

/// The instances, scenarios and histories of `crossed` and `drawn_against_text`.
pub fn stated_instances()
    ensures crossed { first_failure 0 (text_events crossed) ≡ Ok 12 }
    ensures crossed_constants { (problem_of crossed).known.constants ≡ element (codes "a") (pos 1 ∷ []) (pos 1) ∷ element (codes "a") (pos 2 ∷ []) (pos 2) ∷ [] }
    ensures crossed_decisions { (problem_of crossed).decisions
        ≡ decision (codes "x") (pos 1 ∷ []) (pos 0) (pos 1) 1 ∷ decision (codes "x") (pos 2 ∷ []) (pos 0) (pos 2) 2 ∷ decision (codes "z") [] (pos 0) (pos 1) 3 ∷ [] }
    ensures crossed_stochastics { (problem_of crossed).stochastics
        ≡ stochastic (codes "s") (pos 2 ∷ []) (outcome (pos 2) (pos 2) ∷ outcome (pos 0) (pos 1) ∷ []) 1
        ∷ stochastic (codes "s") (pos 1 ∷ []) (outcome (pos 1) (pos 1) ∷ outcome (pos 0) (pos 1) ∷ []) 2 ∷ [] }
    ensures crossed_hards { (problem_of crossed).hards ≡ hard 1 [] ∷ [] }
    ensures crossed_chances { (problem_of crossed).chances ≡ chance 0 (bound_to (codes "i") (pos 1)) (pos 1) (pos 2) ∷ chance 0 (bound_to (codes "i") (pos 2)) (pos 2) (pos 2) ∷ [] }
    ensures crossed_weight { total_weight (problem_of crossed).stochastics ≡ pos 6 }
    ensures crossed_values { values_of (scenarios (problem_of crossed).stochastics) ≡ (pos 2 ∷ pos 1 ∷ []) ∷ (pos 2 ∷ pos 0 ∷ []) ∷ (pos 0 ∷ pos 1 ∷ []) ∷ (pos 0 ∷ pos 0 ∷ []) ∷ [] }
    ensures crossed_weights { weights_of (scenarios (problem_of crossed).stochastics) ≡ pos 2 ∷ pos 2 ∷ pos 1 ∷ pos 1 ∷ [] }
    ensures crossed_history { histories 2 (problem_of crossed).stochastics ≡ (pos 2 ∷ []) ∷ (pos 0 ∷ []) ∷ [] }
    ensures crossed_histories { histories 3 (problem_of crossed).stochastics ≡ (pos 2 ∷ pos 1 ∷ []) ∷ (pos 2 ∷ pos 0 ∷ []) ∷ (pos 0 ∷ pos 1 ∷ []) ∷ (pos 0 ∷ pos 0 ∷ []) ∷ [] }
    ensures crossed_always { (policy : Policy) → get policy (1, pos 2 ∷ []) ≡ Some (pos 2) → get policy (1, pos 0 ∷ []) ≡ Some (pos 0)
        → weight_of (problem_of crossed) policy (chance 0 (bound_to (codes "i") (pos 2)) (pos 2) (pos 2)) ≡ pos 6 }
    ensures crossed_seldom { (policy : Policy) → get policy (1, pos 2 ∷ []) ≡ Some (pos 1) → get policy (1, pos 0 ∷ []) ≡ Some (pos 0)
        → weight_of (problem_of crossed) policy (chance 0 (bound_to (codes "i") (pos 2)) (pos 2) (pos 2)) ≡ pos 2 }
    ensures crossed_at_one { (policy : Policy) → Decides policy 0 (pos 1) → weight_of (problem_of crossed) policy (chance 0 (bound_to (codes "i") (pos 1)) (pos 1) (pos 2)) ≡ pos 6 }
    ensures drawn_against_text { first_failure 0 (text_events drawn_against_text) ≡ Ok 3 }
    ensures drawn_against_text_decisions { (problem_of drawn_against_text).decisions ≡ decision (codes "x") [] (negsuc 1) (pos 3) 2 ∷ [] }
    ensures drawn_against_text_second { number_of (pos 0 ∷ []) 2 (problem_of drawn_against_text).stochastics ≡ Some 1 }
    ensures drawn_against_text_last { number_of (pos 1 ∷ pos 5 ∷ []) 3 (problem_of drawn_against_text).stochastics ≡ Some 1 }
    ensures drawn_against_text_only { number_of [] 1 (problem_of drawn_against_text).stochastics ≡ Some 0 }
    ensures drawn_against_text_none { number_of (pos 7 ∷ []) 2 (problem_of drawn_against_text).stochastics ≡ None }
    ensures drawn_against_text_one { histories 1 (problem_of drawn_against_text).stochastics ≡ [] ∷ [] }
    ensures drawn_against_text_places { map (λ (s : Placed). s.places) (placed_scenarios (problem_of drawn_against_text).stochastics) ≡ (0 ∷ 0 ∷ []) ∷ (0 ∷ 1 ∷ []) ∷ (1 ∷ 0 ∷ []) ∷ (1 ∷ 1 ∷ []) ∷ [] }
{}

/// Instances of other texts.
pub fn stated_parts()
    ensures set_of_three { first_failure 0 (text_events set_of_three) ≡ Ok 12 }
    ensures set_of_three_decisions { (problem_of set_of_three).decisions ≡ decision (codes "x") (pos 1 ∷ []) (pos 0) (pos 1) 1 ∷ decision (codes "x") (pos 3 ∷ []) (pos 0) (pos 3) 1 ∷ [] }
    ensures set_of_three_hards { (problem_of set_of_three).hards
        ≡ hard 0 ((record { name = codes "i"; value = (pos 1) }) ∷ (record { name = codes "j"; value = (pos 1) }) ∷ [])
        ∷ hard 0 ((record { name = codes "i"; value = (pos 1) }) ∷ (record { name = codes "j"; value = (pos 2) }) ∷ [])
        ∷ hard 0 ((record { name = codes "i"; value = (pos 1) }) ∷ (record { name = codes "j"; value = (pos 3) }) ∷ [])
        ∷ hard 0 ((record { name = codes "i"; value = (pos 3) }) ∷ (record { name = codes "j"; value = (pos 3) }) ∷ []) ∷ [] }
    ensures counts { first_failure 0 (text_events counts) ≡ Ok 22 }
    ensures counts_within { met_within 22 0 (text_events counts) ≡ Ok 22 }
    ensures counts_past { met_within 21 0 (text_events counts) ≡ limit 205 22 21 }
    ensures staged { first_failure 0 (text_events staged) ≡ Ok 4 }
    ensures staged_stochastics { (problem_of staged).stochastics
        ≡ stochastic (codes "a") (pos 3 ∷ []) (outcome (pos 3) (pos 1) ∷ []) 1 ∷ stochastic (codes "a") (pos 2 ∷ []) (outcome (pos 2) (pos 1) ∷ []) 2
        ∷ stochastic (codes "b") [] (outcome (pos 0) (pos 1) ∷ []) 2 ∷ stochastic (codes "a") (pos 1 ∷ []) (outcome (pos 1) (pos 1) ∷ []) 3 ∷ [] }
    ensures nested { first_failure 0 (text_events nested) ≡ Ok 6 }
    ensures nested_hards { (problem_of nested).hards ≡ hard 2 (bound_to (codes "i") (pos 1)) ∷ hard 2 (bound_to (codes "i") (pos 2)) ∷ hard 4 [] ∷ [] }
    ensures nested_chances { (problem_of nested).chances ≡ chance 3 [] (pos 1) (pos 1) ∷ [] }
    ensures summed_ends { first_failure 0 (text_events summed_ends) ≡ Ok 12 }
    ensures threshold_of_conditions { first_failure 0 (text_events threshold_of_conditions) ≡ Ok 1 }
    ensures threshold_of_conditions_chances { (problem_of threshold_of_conditions).chances ≡ chance 0 [] (pos 1) (pos 1) ∷ [] }
{}

/// The sizes that the limits are about.
pub fn counted_sizes()
    ensures many_nodes { text_nodes (problem_of many_nodes) ≡ 101 }
    ensures many_nodes_each { map (λ (h : Hard). condition_nodes (problem_of many_nodes) h.text h.bound) (problem_of many_nodes).hards ≡ 39 ∷ 47 ∷ [] }
    ensures many_nodes_objective { objective_nodes (problem_of many_nodes) ≡ 5 }
    ensures heaviest { first_passed usual_limits (problem_of heaviest) ≡ Some (excess 201 (pos 170141183460469231731687303715884105727) (pos 1267650600228229401496703205376)) }
    ensures heavy_late { first_passed usual_limits (problem_of heavy_late) ≡ Some (excess 201 (pos 2658455991569831745807614120560689152) (pos 1267650600228229401496703205376)) }
    ensures sizes_scenarios { first_passed (record usual_limits { scenarios = 8 }) (problem_of sizes) ≡ Some (excess 202 (pos 9) (pos 8)) }
    ensures sizes_copies { first_passed (record usual_limits { scenarios = 27; copies = 134 }) (problem_of sizes) ≡ Some (excess 209 (pos 135) (pos 134)) }
    ensures sizes_bits { first_passed (record usual_limits { copies = 135; bits = 80 }) (problem_of sizes) ≡ Some (excess 204 (pos 81) (pos 80)) }
    ensures sizes_weight { first_passed (record usual_limits { weight = 8; scenarios = 2; copies = 1; bits = 1 }) (problem_of sizes) ≡ Some (excess 201 (pos 9) (pos 8)) }
    ensures sizes_none { first_passed usual_limits (problem_of sizes) ≡ None }
    ensures digits { map (bits_of []) (problem_of digits).decisions ≡ 0 ∷ 1 ∷ 2 ∷ 2 ∷ 3 ∷ 3 ∷ 4 ∷ 16 ∷ [] }
{}
