ghost use Rattle.std.specs.Prelude.{◌≡◌, pos, true, false, [], ◌∷◌, map, Some, None};
ghost use Rattle.sopl_base.specs.declared.comparison.CmpOp.TheVariants.{Eq, Ne, Lt, Le, Gt, Ge};
ghost use Rattle.term_language.specs.declared.answers.Defined.TheVariants.{Never, Maybe, Always};
ghost use Rattle.term_language.specs.declared.answers.Truth.TheVariants.{False, Unknown, True};
ghost use Rattle.term_language.specs.Terms.{Constant, Product, Element, Number, Sum, no_part, no_term, Compare, Not, All, Any, Implies};
ghost use Rattle.term_language.specs.Terms.{AllDifferent, Cumulative, no_cond, condition, no_task};
ghost use Rattle.term_language.specs.Forms.{number_form, cell_form, atom_form};
ghost use Rattle.term_language.specs.Rules.{Wide, form};
ghost use Rattle.term_language.specs.Values.{value, holds};
ghost use Rattle.term_language.specs.Sizes.{size};
ghost use Rattle.term_language.specs.WorkedIntervals.{absolute, greatest, least, quotient, remainder};
ghost use Rattle.term_language.specs.WorkedIntervals.{minus, box, x, y, z, number, sum, difference, one, two, three, prices, empty, cells, grid, price_at, true_number, seen, seen_by};
ghost use Rattle.term_language.specs.WorkedIntervals.{over, truth_over, two_tasks};

/// Intervals of each operation, for x from -7 to 9 and y from -5 to 4, and for other boxes where that says more.
pub fn worked_intervals()
    ensures sums { map (over (box (minus 7) (pos 9) (minus 5) (pos 4) (pos 0) (pos 0)))
        (number 3 ∷ x ∷ sum x y ∷ difference x y ∷ Product (Constant (minus 2)) x ∷ Sum no_part ∷ [])
        ≡ seen (pos 3) (pos 3) Always ∷ seen (minus 7) (pos 9) Always ∷ seen (minus 12) (pos 13) Always
        ∷ seen (minus 11) (pos 14) Always ∷ seen (minus 18) (pos 14) Always ∷ seen (pos 0) (pos 0) Always ∷ [] }
    ensures products { over (box (minus 7) (pos 9) (minus 5) (pos 4) (pos 0) (pos 0)) (Product x y) ≡ seen (minus 45) (pos 36) Always }
    ensures negative { over (box (minus 7) (minus 2) (minus 5) (minus 4) (pos 0) (pos 0)) (Product x y) ≡ seen (pos 8) (pos 35) Always }
    ensures quotients { map (over (box (minus 7) (pos 9) (pos 0) (pos 0) (pos 0) (pos 0))) (quotient x (pos 2) ∷ quotient x (minus 2) ∷ [])
        ≡ seen (minus 3) (pos 4) Always ∷ seen (minus 4) (pos 3) Always ∷ [] }
    ensures remainders { map (over (box (minus 7) (pos 9) (pos 5) (pos 7) (pos 3) (pos 9)))
        (remainder x (pos 4) ∷ remainder x (minus 4) ∷ remainder y (pos 4) ∷ remainder z (pos 4) ∷ remainder y (pos 100) ∷ [])
        ≡ seen (minus 3) (pos 3) Always ∷ seen (minus 3) (pos 3) Always ∷ seen (pos 1) (pos 3) Always
        ∷ seen (pos 0) (pos 3) Always ∷ seen (pos 5) (pos 7) Always ∷ [] }
    ensures across_a_multiple { over (box (minus 2) (pos 1) (pos 0) (pos 0) (pos 0) (pos 0)) (remainder x (pos 2)) ≡ seen (minus 1) (pos 1) Always }
    ensures extremes { map (over (box (pos 1) (pos 5) (pos 2) (pos 3) (pos 0) (pos 9))) (least x (one y) ∷ greatest x (one y) ∷ least x (two y z) ∷ [])
        ≡ seen (pos 1) (pos 3) Always ∷ seen (pos 2) (pos 5) Always ∷ seen (pos 0) (pos 3) Always ∷ [] }
    ensures sizes { map (over (box (minus 7) (pos 3) (minus 7) (minus 3) (pos 3) (pos 7))) (absolute x ∷ absolute y ∷ absolute z ∷ [])
        ≡ seen (pos 0) (pos 7) Always ∷ seen (pos 3) (pos 7) Always ∷ seen (pos 3) (pos 7) Always ∷ [] }
    ensures conditions { map (over (box (pos 0) (pos 3) (pos 4) (pos 5) (pos 0) (pos 0)))
        (Number (Compare Lt x y) ∷ Number (Compare Gt x y) ∷ Number (Compare Eq x (number 2)) ∷ [])
        ≡ seen (pos 1) (pos 1) Always ∷ seen (pos 0) (pos 0) Always ∷ seen (pos 0) (pos 1) Always ∷ [] }
{}

/// Elements of 1, 2, 9 at 1 to 3: at x from 1 to 2, from 3 to 4, and from 4 to 5, where all of the array is read; of an array with no
/// element; of cells; and of one with two indices.
pub fn worked_elements()
    ensures within { over (box (pos 1) (pos 2) (pos 0) (pos 0) (pos 0) (pos 0)) (price_at x) ≡ seen (pos 1) (pos 2) Always }
    ensures partly { over (box (pos 3) (pos 4) (pos 0) (pos 0) (pos 0) (pos 0)) (price_at x) ≡ seen (pos 9) (pos 9) Maybe }
    ensures outside { over (box (pos 4) (pos 5) (pos 0) (pos 0) (pos 0) (pos 0)) (price_at x) ≡ seen (pos 1) (pos 9) Never }
    ensures none { over (box (pos 1) (pos 2) (pos 0) (pos 0) (pos 0) (pos 0)) (Element empty (one x)) ≡ seen (pos 0) (pos 0) Never }
    ensures of_cells { over (box (pos 1) (pos 2) (pos 8) (pos 9) (pos 0) (pos 1)) (Element cells (one z)) ≡ seen (pos 1) (pos 9) Always }
    ensures of_two { map (over (box (pos 1) (pos 2) (pos 2) (pos 2) (pos 2) (pos 3)))
        (Element grid (two x y) ∷ Element grid (two z x) ∷ Element grid (two y y) ∷ [])
        ≡ seen (pos 2) (pos 4) Always ∷ seen (pos 3) (pos 4) Maybe ∷ seen (pos 4) (pos 4) Always ∷ [] }
    ensures of_an_undefined_index { over (box (pos 1) (pos 2) (pos 0) (pos 0) (pos 0) (pos 0)) (price_at (price_at (number 7))) ≡ seen (pos 1) (pos 9) Never }
    ensures wide { seen_by Wide (box (pos 1) (pos 2) (pos 0) (pos 0) (pos 0) (pos 0)) (price_at x) ≡ seen (pos 1) (pos 9) Always }
    ensures wide_index { seen_by Wide (box (pos 1) (pos 1) (pos 0) (pos 0) (pos 0) (pos 0)) (price_at (price_at x)) ≡ seen (pos 1) (pos 9) Maybe }
{}

/// Linear forms: what cancels is gone, elements at numbers of the index set are their items, and conditions and what is not Always
/// defined never fold.
pub fn worked_forms()
    ensures cancelled { map (form (box (minus 2) (pos 3) (pos 0) (pos 9) (pos 0) (pos 0)))
        (difference x x ∷ Product (number 0) (Product x y) ∷ Product (difference x x) y ∷ [])
        ≡ number_form (pos 0) ∷ number_form (pos 0) ∷ number_form (pos 0) ∷ [] }
    ensures elements { map (form (box (pos 1) (pos 9) (pos 0) (pos 9) (pos 0) (pos 9)))
        (price_at (number 2) ∷ price_at (sum (difference x x) (number 3)) ∷ Element cells (one (number 1)) ∷ price_at (number 7) ∷ price_at x ∷ [])
        ≡ number_form (pos 2) ∷ number_form (pos 9) ∷ cell_form 1 ∷ atom_form ∷ atom_form ∷ [] }
    ensures folded { map (form (box (pos 1) (pos 9) (pos 0) (pos 9) (pos 0) (pos 9)))
        (quotient (Constant (minus 7)) (pos 2) ∷ remainder (Constant (minus 7)) (pos 2) ∷ least (number 5) (two (number 3) (number 4)) ∷ absolute (Constant (minus 4)) ∷ [])
        ≡ number_form (minus 3) ∷ number_form (minus 1) ∷ number_form (pos 3) ∷ number_form (pos 4) ∷ [] }
    ensures of_a_condition { over (box (minus 2) (pos 3) (pos 0) (pos 0) (pos 0) (pos 0)) (difference (Product true_number x) x) ≡ seen (minus 5) (pos 5) Always }
    ensures undefined { map (over (box (pos 0) (pos 0) (pos 0) (pos 0) (pos 0) (pos 0)))
        (price_at (number 7) ∷ Product (number 0) (price_at (number 7)) ∷ absolute (sum (Product (number 0) (price_at (number 7))) (number 3)) ∷ [])
        ≡ seen (pos 1) (pos 9) Never ∷ seen (pos 0) (pos 0) Never ∷ seen (pos 3) (pos 3) Never ∷ [] }
    ensures atom { form (box (pos 0) (pos 0) (pos 0) (pos 0) (pos 0) (pos 0)) (absolute (sum (Product (number 0) (price_at (number 7))) (number 3))) ≡ atom_form }
    ensures mark_kept { over (box (pos 3) (pos 4) (pos 0) (pos 0) (pos 0) (pos 0)) (difference (price_at x) (price_at x)) ≡ seen (pos 0) (pos 0) Maybe }
{}

/// Truths of comparisons for x from 0 to 3 and y from 3 to 5, of undefined operands, and of three-valued logic.
pub fn worked_truths()
    ensures comparisons { map (truth_over (box (pos 0) (pos 3) (pos 3) (pos 5) (pos 0) (pos 0)))
        (Compare Eq x y ∷ Compare Ne x y ∷ Compare Lt x y ∷ Compare Le x y ∷ Compare Gt x y ∷ Compare Ge x y ∷ [])
        ≡ Unknown ∷ Unknown ∷ Unknown ∷ True ∷ False ∷ Unknown ∷ [] }
    ensures alike { map (truth_over (box (pos 0) (pos 3) (pos 3) (pos 5) (pos 0) (pos 0)))
        (Compare Eq x x ∷ Compare Lt x x ∷ Compare Eq x (number 4) ∷ Compare Ne x (number 4) ∷ Compare Ne x x ∷ []) ≡ True ∷ False ∷ False ∷ True ∷ False ∷ [] }
    ensures undefined { map (truth_over (box (pos 4) (pos 5) (pos 3) (pos 4) (pos 0) (pos 0)))
        (Compare Le (price_at x) (number 100) ∷ Not (Compare Le (price_at x) (number 100)) ∷ Compare Le (price_at y) (number 100) ∷ Compare Gt (price_at y) (number 100) ∷ [])
        ≡ False ∷ True ∷ Unknown ∷ False ∷ [] }
    ensures logic { map (truth_over (box (pos 0) (pos 1) (pos 0) (pos 0) (pos 1) (pos 1)))
        (All (condition (Compare Eq x z) (condition (Compare Eq y z) no_cond)) ∷ All (condition (Compare Eq x z) no_cond) ∷ All no_cond
        ∷ Any (condition (Compare Eq x z) (condition (Compare Eq z z) no_cond)) ∷ Any (condition (Compare Eq x z) (condition (Compare Eq y z) no_cond)) ∷ Any no_cond
        ∷ Implies (Compare Eq y z) (Compare Eq x z) ∷ Implies (Compare Eq z z) (Compare Eq y z) ∷ Implies (Compare Eq x z) (Compare Eq y z) ∷ [])
        ≡ False ∷ Unknown ∷ True ∷ True ∷ Unknown ∷ False ∷ True ∷ False ∷ Unknown ∷ [] }
    ensures crowded { truth_over (box (pos 1) (pos 2) (pos 1) (pos 2) (pos 1) (pos 2)) (AllDifferent (three x y z)) ≡ False }
    ensures apart { truth_over (box (pos 1) (pos 2) (pos 3) (pos 4) (pos 0) (pos 0)) (AllDifferent (three x y z)) ≡ True }
    ensures touching { truth_over (box (pos 1) (pos 2) (pos 2) (pos 4) (pos 0) (pos 0)) (AllDifferent (two x y)) ≡ Unknown }
    ensures different_undefined { truth_over (box (pos 4) (pos 4) (pos 1) (pos 1) (pos 0) (pos 0)) (AllDifferent (two (price_at x) y)) ≡ False }
{}

/// Tasks from x for 2 and from y for 3, each asking for 2, under a capacity of 3: both run at 1, surely, perhaps, and surely not; lengths
/// and demands below 0; and a negative capacity with no task.
pub fn worked_tasks()
    ensures at_once { truth_over (box (pos 0) (pos 1) (pos 0) (pos 1) (pos 0) (pos 0)) (Cumulative (two_tasks (pos 2) (pos 2)) (number 3)) ≡ False }
    ensures perhaps { truth_over (box (pos 0) (pos 1) (pos 0) (pos 3) (pos 0) (pos 0)) (Cumulative (two_tasks (pos 2) (pos 2)) (number 3)) ≡ Unknown }
    ensures apart { truth_over (box (pos 0) (pos 1) (pos 3) (pos 5) (pos 0) (pos 0)) (Cumulative (two_tasks (pos 2) (pos 2)) (number 3)) ≡ True }
    ensures enough { truth_over (box (pos 0) (pos 1) (pos 0) (pos 1) (pos 0) (pos 0)) (Cumulative (two_tasks (pos 2) (pos 2)) (number 4)) ≡ True }
    ensures negative { truth_over (box (pos 0) (pos 1) (pos 3) (pos 5) (pos 0) (pos 0)) (Cumulative (two_tasks (pos 2) (minus 1)) (number 3)) ≡ False }
    ensures no_task { map (truth_over (box (pos 0) (pos 0) (pos 0) (pos 0) (minus 1) (pos 1)))
        (Cumulative no_task (Constant (minus 1)) ∷ Cumulative no_task z ∷ Cumulative no_task (number 0) ∷ []) ≡ False ∷ Unknown ∷ True ∷ [] }
{}

/// Values and truths at the point where x, y and z are 7, -7 and 2.
pub fn worked_values()
    ensures numbers { map (value (pos 7 ∷ minus 7 ∷ pos 2 ∷ []))
        (difference x y ∷ Product x y ∷ quotient y (pos 2) ∷ remainder y (pos 2) ∷ least x (two y z) ∷ greatest x (two y z) ∷ absolute y ∷ Number (Compare Lt x y) ∷ Sum no_part ∷ [])
        ≡ Some (pos 14) ∷ Some (minus 49) ∷ Some (minus 3) ∷ Some (minus 1) ∷ Some (minus 7) ∷ Some (pos 7) ∷ Some (pos 7) ∷ Some (pos 0) ∷ Some (pos 0) ∷ [] }
    ensures elements { map (value (pos 7 ∷ minus 7 ∷ pos 2 ∷ []))
        (price_at z ∷ price_at x ∷ sum (price_at x) x ∷ Product (number 0) (price_at x) ∷ Element grid (two z z) ∷ [])
        ≡ Some (pos 2) ∷ None ∷ None ∷ None ∷ Some (pos 4) ∷ [] }
    ensures truths { map (holds (pos 7 ∷ minus 7 ∷ pos 2 ∷ []))
        (Compare Le x (number 7) ∷ Compare Ne x (number 7) ∷ Compare Le (price_at x) (number 100) ∷ Not (Compare Le (price_at x) (number 100)) ∷ Compare Eq (price_at x) (price_at x) ∷ [])
        ≡ true ∷ false ∷ false ∷ true ∷ false ∷ [] }
    ensures different { map (holds (pos 7 ∷ minus 7 ∷ pos 2 ∷ []))
        (AllDifferent (three x y z) ∷ AllDifferent (two z (number 2)) ∷ AllDifferent (two x (price_at x)) ∷ AllDifferent no_term ∷ [])
        ≡ true ∷ false ∷ false ∷ true ∷ [] }
    ensures tasks { map (holds (pos 0 ∷ pos 1 ∷ pos 3 ∷ []))
        (Cumulative (two_tasks (pos 2) (pos 2)) z ∷ Cumulative (two_tasks (pos 2) (pos 1)) z ∷ Cumulative no_task (Constant (minus 1)) ∷ [])
        ≡ false ∷ true ∷ false ∷ [] }
{}

/// Sizes: of linear forms, where a cell that is 0 alone still weighs 1, of products, and of elements at indices of which the box allows
/// a few alone.
pub fn worked_sizes()
    ensures linear { map (size (box (minus 2) (pos 4) (pos 0) (pos 0) (pos 1) (pos 2)))
        (difference (Product (number 3) x) (number 5) ∷ difference (Product (number 3) y) (number 5) ∷ difference x x ∷ Sum no_part ∷ [])
        ≡ 17 ∷ 8 ∷ 0 ∷ 0 ∷ [] }
    ensures products { map (size (box (minus 2) (pos 4) (pos 0) (pos 0) (pos 1) (pos 2))) (Product x z ∷ Product (Product x z) (Constant (minus 3)) ∷ Product (difference x x) z ∷ [])
        ≡ 8 ∷ 24 ∷ 0 ∷ [] }
    ensures elements { map (size (box (pos 1) (pos 2) (pos 1) (pos 2) (pos 0) (pos 0))) (price_at x ∷ Product (price_at x) (price_at y) ∷ price_at (number 1) ∷ Element empty (one x) ∷ [])
        ≡ 9 ∷ 81 ∷ 1 ∷ 1 ∷ [] }
    ensures conditions { size (box (pos 1) (pos 2) (pos 1) (pos 2) (pos 0) (pos 0)) (Product (number 5) (Number (Compare Lt x y))) ≡ 5 }
{}
