//! Worked values of a small problem.

ghost use Rattle.std.specs.Prelude.{◌≡◌, pos, true, false, [], ◌∷◌, map, Some, None};
ghost use Rattle.sopl_base.specs.declared.direction.Direction.TheVariants.{Minimize, Maximize};
ghost use Rattle.sopl_base.specs.declared.reason.Reason.TheVariants.{Hard, Chance, Undefined, Bound};
ghost use Rattle.term_language.specs.Ends.{ends};
ghost use Rattle.term_language.specs.Terms.{Product};
ghost use Rattle.term_language.specs.WorkedIntervals.{box, minus, x, y, z, number, difference};
ghost use Rattle.term_problem.specs.Problems.{denominator_in};
ghost use Rattle.term_problem.specs.Points.{worth};
ghost use Rattle.term_problem.specs.Objective.{goal_ends};
ghost use Rattle.term_problem.specs.Search.{reasons_of, satisfies};
ghost use Rattle.term_problem.specs.WorkedProgram.{all_orders, closing, expected_over, gains, goal_by, ordering, pricing, with_goal, worst_over};

/// Which points satisfy, and what they are worth: as an expected value, by the worst scenario, and without an objective.
pub fn worked_points()
    ensures satisfies { map (satisfies ordering)
        ((pos 3 ∷ pos 1 ∷ pos 3 ∷ []) ∷ (pos 3 ∷ pos 0 ∷ pos 2 ∷ []) ∷ (pos 3 ∷ pos 1 ∷ pos 1 ∷ []) ∷ (pos 2 ∷ pos 1 ∷ pos 3 ∷ []) ∷ [])
        ≡ true ∷ true ∷ false ∷ false ∷ [] }
    ensures undefined { map (satisfies pricing) ((pos 3 ∷ pos 1 ∷ pos 3 ∷ []) ∷ (pos 4 ∷ pos 1 ∷ pos 3 ∷ []) ∷ []) ≡ true ∷ false ∷ [] }
    ensures expected { worth ordering (pos 3 ∷ pos 1 ∷ pos 3 ∷ []) ≡ Some (pos 8) }
    ensures over_all { denominator_in ordering ≡ pos 4 }
    ensures worst { worth (with_goal (Some (goal_by Maximize true gains))) (pos 3 ∷ pos 1 ∷ pos 3 ∷ []) ≡ Some (minus 1) }
    ensures worst_cost { worth (with_goal (Some (goal_by Minimize true gains))) (pos 3 ∷ pos 1 ∷ pos 3 ∷ []) ≡ Some (pos 3) }
    ensures over_one { denominator_in (with_goal (Some (goal_by Maximize true gains))) ≡ pos 1 }
    ensures none { worth (with_goal None) (pos 3 ∷ pos 1 ∷ pos 3 ∷ []) ≡ Some (pos 0) }
{}

/// Intervals of objectives: cells are combined over all scenarios, other things never; of the worst scenario both ends are the worse ones.
pub fn worked_objectives()
    ensures expected { expected_over all_orders gains ≡ ends (minus 12) (pos 20) }
    ensures cancelled { expected_over all_orders (Product (number 3) x ∷ difference (number 0) x ∷ []) ≡ ends (pos 0) (pos 0) }
    ensures never_cancelled { expected_over all_orders (Product (number 3) (Product x y) ∷ difference (number 0) (Product x y) ∷ []) ≡ ends (minus 9) (pos 9) }
    ensures worst { worst_over Maximize (box (pos 1) (pos 5) (pos 2) (pos 3) (pos 0) (pos 9)) (x ∷ y ∷ []) ≡ ends (pos 1) (pos 3) }
    ensures worst_cost { worst_over Minimize (box (pos 1) (pos 5) (pos 2) (pos 3) (pos 0) (pos 9)) (x ∷ y ∷ []) ≡ ends (pos 2) (pos 5) }
    ensures worst_of_three { worst_over Maximize (box (pos 1) (pos 5) (pos 2) (pos 3) (pos 0) (pos 9)) (x ∷ y ∷ z ∷ []) ≡ ends (pos 0) (pos 3) }
    ensures none { goal_ends all_orders all_orders (with_goal None) ≡ ends (pos 0) (pos 0) }
{}

/// What closes a box: a condition that is False in a scenario, too little weight, an objective that is Never defined, and a value that is
/// as good as all numbers of the interval. What is not there closes nothing.
pub fn worked_reasons()
    ensures all { reasons_of ordering ≡ Hard 0 0 ∷ Hard 0 1 ∷ Chance 0 ∷ Undefined 0 ∷ Undefined 1 ∷ Bound ∷ [] }
    ensures open { closing ordering (reasons_of ordering) all_orders None ≡ false ∷ false ∷ false ∷ false ∷ false ∷ false ∷ [] }
    ensures hard { closing ordering (reasons_of ordering) (box (pos 0) (pos 1) (pos 0) (pos 1) (pos 2) (pos 3)) None
        ≡ false ∷ true ∷ false ∷ false ∷ false ∷ false ∷ [] }
    ensures enough { closing ordering (Chance 0 ∷ []) (box (pos 0) (pos 3) (pos 0) (pos 0) (pos 0) (pos 3)) None ≡ false ∷ [] }
    ensures too_little { closing ordering (Chance 0 ∷ []) (box (pos 0) (pos 3) (pos 0) (pos 1) (pos 0) (pos 1)) None ≡ true ∷ [] }
    ensures undefined { closing pricing (Undefined 0 ∷ Undefined 1 ∷ []) (box (pos 0) (pos 0) (pos 0) (pos 1) (pos 1) (pos 3)) None ≡ true ∷ false ∷ [] }
    ensures as_good { closing ordering (Bound ∷ []) all_orders (Some (pos 20)) ≡ true ∷ [] }
    ensures better { closing ordering (Bound ∷ []) all_orders (Some (pos 19)) ≡ false ∷ [] }
    ensures as_cheap { closing (with_goal (Some (goal_by Minimize false gains))) (Bound ∷ []) all_orders (Some (minus 12)) ≡ true ∷ [] }
    ensures cheaper { closing (with_goal (Some (goal_by Minimize false gains))) (Bound ∷ []) all_orders (Some (minus 11)) ≡ false ∷ [] }
    ensures without { closing (with_goal None) (Bound ∷ Undefined 0 ∷ []) all_orders (Some (pos 0)) ≡ true ∷ false ∷ [] }
    ensures not_there { closing ordering (Hard 1 0 ∷ Hard 0 2 ∷ Chance 1 ∷ Undefined 2 ∷ []) (box (pos 0) (pos 0) (pos 1) (pos 1) (pos 1) (pos 1)) None
        ≡ false ∷ false ∷ false ∷ false ∷ [] }
{}
