ghost use Rattle.std.specs.Prelude.{◌≡◌, pos, true, false, [], ◌∷◌, map};
ghost use Rattle.term_language.specs.declared.answers.Truth.TheVariants.{False, Unknown, True};
ghost use Rattle.term_language.specs.Ends.{ends};
ghost use Rattle.term_language.specs.Globals.{are_crowded, never_differ, always_differ, never_fit, always_fit};
ghost use Rattle.term_language.specs.Sizes.{size};
ghost use Rattle.term_language.specs.Terms.{Constant, Product, AllDifferent, Cumulative};
ghost use Rattle.term_language.specs.WorkedIntervals.{minus, box, x, y, z, number, sum, difference, quotient, remainder, absolute, least, greatest, one, two, three, truth_over};
ghost use Rattle.term_crowds.specs.Crowds.{some_found};
ghost use Rattle.term_crowds.specs.WorkedCrowds.{from_to, task_from, two_from, and_later, four, tasks_for_z, several_parts};

/// Crowds: of some intervals alone, of equal points, between ends of different intervals, below 0 and across it; and which of these the
/// search finds. Truths of terms of which one stands twice.
pub fn worked_crowds()
    ensures of_some { never_differ (from_to 1 2 ∷ from_to 1 2 ∷ from_to 1 2 ∷ from_to 5 9 ∷ []) ≡ true }
    ensures of_too_few { never_differ (from_to 1 2 ∷ from_to 1 2 ∷ from_to 5 9 ∷ []) ≡ false }
    ensures at_these_alone { map (are_crowded (from_to 1 2 ∷ from_to 1 2 ∷ from_to 1 2 ∷ from_to 5 9 ∷ []) (pos 1)) (pos 1 ∷ pos 2 ∷ pos 3 ∷ pos 9 ∷ [])
        ≡ false ∷ true ∷ false ∷ false ∷ [] }
    ensures of_equal_points { never_differ (from_to 3 3 ∷ from_to 3 3 ∷ []) ≡ true }
    ensures of_two_points { never_differ (from_to 3 3 ∷ from_to 4 4 ∷ []) ≡ false }
    ensures between_different_ends { never_differ (from_to 1 2 ∷ from_to 2 3 ∷ from_to 1 2 ∷ from_to 2 3 ∷ []) ≡ true }
    ensures beside_a_wide_one { never_differ (from_to 1 2 ∷ from_to 0 3 ∷ from_to 1 2 ∷ from_to 1 1 ∷ []) ≡ true }
    ensures below_zero { never_differ (ends (minus 2) (minus 1) ∷ ends (minus 1) (minus 1) ∷ ends (minus 2) (minus 2) ∷ []) ≡ true }
    ensures across_zero { never_differ (ends (minus 1) (pos 1) ∷ ends (minus 1) (pos 1) ∷ ends (minus 1) (pos 1) ∷ []) ≡ false }
    ensures of_none { never_differ [] ≡ false }
    ensures found { map some_found
        ((from_to 1 2 ∷ from_to 1 2 ∷ from_to 1 2 ∷ from_to 5 9 ∷ []) ∷ (from_to 1 2 ∷ from_to 1 2 ∷ from_to 5 9 ∷ []) ∷ (from_to 1 2 ∷ from_to 2 3 ∷ from_to 1 2 ∷ from_to 2 3 ∷ []) ∷ [])
        ≡ true ∷ false ∷ true ∷ [] }
    ensures apart { map always_differ
        ((from_to 1 2 ∷ from_to 5 9 ∷ from_to 3 4 ∷ []) ∷ (from_to 1 2 ∷ from_to 2 4 ∷ []) ∷ (from_to 3 3 ∷ from_to 3 3 ∷ []) ∷ (from_to 1 2 ∷ from_to 3 4 ∷ from_to 4 5 ∷ []) ∷ [] ∷ [])
        ≡ true ∷ false ∷ false ∷ false ∷ true ∷ [] }
    ensures of_terms { map (truth_over (box (pos 1) (pos 2) (pos 1) (pos 2) (pos 5) (pos 9))) (AllDifferent (four x y x z) ∷ AllDifferent (three x y z) ∷ []) ≡ False ∷ Unknown ∷ [] }
    ensures of_points { map (truth_over (box (pos 4) (pos 4) (pos 4) (pos 4) (pos 5) (pos 5))) (AllDifferent (two x y) ∷ AllDifferent (two x z) ∷ []) ≡ False ∷ True ∷ [] }
{}

/// Tasks whose lengths and demands are open, under a capacity that is open: what is surely asked for goes by the least of each, and what may
/// be by the greatest. Lengths and demands that may be negative, that are surely so, and lengths of 0; a negative capacity with no task.
pub fn worked_open_tasks()
    ensures surely_not { map (never_fit (two_from (from_to 2 3) (from_to 2 2))) (from_to 1 3 ∷ from_to 1 4 ∷ []) ≡ true ∷ false ∷ [] }
    ensures surely { map (always_fit (two_from (from_to 2 3) (from_to 2 2))) (from_to 1 3 ∷ from_to 3 9 ∷ from_to 4 9 ∷ []) ≡ false ∷ false ∷ true ∷ [] }
    ensures shorter { never_fit (two_from (from_to 1 3) (from_to 2 2)) (from_to 1 3) ≡ false }
    ensures less_asked { map (never_fit (two_from (from_to 2 3) (from_to 1 2))) (from_to 1 3 ∷ from_to 0 1 ∷ []) ≡ false ∷ true ∷ [] }
    ensures more_asked { map (always_fit (two_from (from_to 2 3) (from_to 1 2))) (from_to 3 3 ∷ from_to 4 4 ∷ []) ≡ false ∷ true ∷ [] }
    ensures one_after_the_other { map (always_fit (and_later (from_to 3 4))) (from_to 1 9 ∷ from_to 2 2 ∷ []) ≡ false ∷ true ∷ [] }
    ensures perhaps_at_once { (never_fit (and_later (from_to 2 4)) (from_to 2 2) ≡ false) × (always_fit (and_later (from_to 2 4)) (from_to 2 2) ≡ false) }
    ensures perhaps_negative_demand { map (never_fit (task_from (from_to 1 1) (from_to 1 1) (from_to 3 3) ∷ task_from (from_to 0 1) (from_to 2 3) (ends (minus 1) (pos 2)) ∷ []))
        (from_to 2 2 ∷ from_to 3 3 ∷ []) ≡ true ∷ false ∷ [] }
    ensures never_sound { always_fit (task_from (from_to 0 1) (from_to 2 3) (ends (minus 1) (pos 2)) ∷ []) (from_to 9 9) ≡ false }
    ensures perhaps_negative_length { map (never_fit (task_from (from_to 0 0) (ends (minus 1) (pos 2)) (from_to 5 5) ∷ [])) (from_to 1 1 ∷ from_to 9 9 ∷ []) ≡ false ∷ false ∷ [] }
    ensures negative_length { never_fit (task_from (from_to 0 0) (ends (minus 2) (minus 1)) (from_to 0 0) ∷ []) (from_to 5 5) ≡ true }
    ensures negative_demand { never_fit (task_from (from_to 0 0) (from_to 1 1) (ends (minus 3) (minus 1)) ∷ []) (from_to 5 5) ≡ true }
    ensures of_no_length { always_fit (task_from (from_to 0 0) (from_to 0 0) (from_to 9 9) ∷ []) (from_to 0 0) ≡ true }
    ensures no_task { map (never_fit []) (ends (minus 3) (minus 1) ∷ ends (minus 1) (pos 1) ∷ []) ≡ true ∷ false ∷ [] }
    ensures no_task_fits { map (always_fit []) (ends (minus 1) (pos 1) ∷ from_to 0 1 ∷ []) ≡ false ∷ true ∷ [] }
    ensures of_terms { map (truth_over (box (pos 0) (pos 0) (pos 0) (pos 1) (pos 2) (pos 3)))
        (Cumulative tasks_for_z (difference z (number 1)) ∷ Cumulative tasks_for_z (sum z (number 1)) ∷ Cumulative tasks_for_z (sum z (number 2)) ∷ [])
        ≡ False ∷ Unknown ∷ True ∷ [] }
{}

/// Sizes of terms that are not linear, for x from -7 to 9, y from -5 to 4 and z from 3 to 9: each such part weighs as the greater end of its
/// interval, and 1 where that is 0 alone; parts that are alike are not combined; and what folds is a constant.
pub fn worked_sizes_of_parts()
    ensures quotients { map (size (box (minus 7) (pos 9) (minus 5) (pos 4) (pos 3) (pos 9)))
        (quotient x (pos 2) ∷ quotient x (minus 2) ∷ quotient y (pos 100) ∷ quotient (Constant (minus 7)) (pos 2) ∷ []) ≡ 4 ∷ 4 ∷ 1 ∷ 3 ∷ [] }
    ensures remainders { map (size (box (minus 7) (pos 9) (minus 5) (pos 4) (pos 3) (pos 9)))
        (remainder x (pos 4) ∷ remainder y (pos 4) ∷ remainder z (pos 4) ∷ remainder z (pos 100) ∷ remainder (Constant (minus 7)) (pos 2) ∷ []) ≡ 3 ∷ 3 ∷ 3 ∷ 9 ∷ 1 ∷ [] }
    ensures extremes { map (size (box (minus 7) (pos 9) (minus 5) (pos 4) (pos 3) (pos 9)))
        (least x (one y) ∷ greatest x (one y) ∷ least z (one (number 2)) ∷ least (number 5) (two (number 3) (number 4)) ∷ []) ≡ 7 ∷ 9 ∷ 2 ∷ 3 ∷ [] }
    ensures sizes { map (size (box (minus 7) (pos 9) (minus 5) (pos 4) (pos 3) (pos 9)))
        (absolute x ∷ absolute y ∷ absolute z ∷ absolute (difference z (number 20)) ∷ absolute (Constant (minus 4)) ∷ []) ≡ 9 ∷ 5 ∷ 9 ∷ 17 ∷ 4 ∷ [] }
    ensures several { size (box (minus 7) (pos 9) (minus 5) (pos 4) (pos 3) (pos 9)) several_parts ≡ 127 }
    ensures alike { size (box (minus 7) (pos 9) (minus 5) (pos 4) (pos 3) (pos 9)) (difference (absolute y) (absolute y)) ≡ 10 }
    ensures multiples { map (size (box (minus 7) (pos 9) (minus 5) (pos 4) (pos 3) (pos 9)))
        (Product (number 4) (absolute y) ∷ Product (Constant (minus 4)) (sum (quotient x (pos 2)) (number 3)) ∷ Product (number 6) (quotient y (pos 100)) ∷ []) ≡ 20 ∷ 28 ∷ 6 ∷ [] }
    ensures of_each_other { map (size (box (minus 7) (pos 9) (minus 5) (pos 4) (pos 3) (pos 9)))
        (quotient (Product x z) (pos 5) ∷ remainder (sum x z) (pos 10) ∷ absolute (Product x y) ∷ []) ≡ 16 ∷ 9 ∷ 45 ∷ [] }
{}
