ghost use Rattle.std.specs.Prelude.{◌≡◌, ℕ, pos, false, List, [], ◌∷◌, Some};
ghost use Rattle.sopl_base.specs.declared.comparison.CmpOp.TheVariants.{Le};
ghost use Rattle.term_language.specs.Terms as c;
ghost use Rattle.term_language.specs.WorkedIntervals.{quotient};
ghost use Rattle.compile_laws.specs.Instances.{instance, undefined};
ghost use Rattle.compile_laws.specs.Whole.{cell_numbers, place_at, condition_at, problem_terms};
ghost use Rattle.term_problem.specs.Points.{worth};
ghost use Rattle.compile_laws.specs.WorkedInstances.{array, at, c_array, divided_by, drawing, first_scenario, given, second_scenario, summed, x_array};

/// The terms of a small problem: numbers of cells, elements inside and outside their arrays, divisors that are there and that are
/// not, and a sum; and what one point of its cells is worth.
pub fn worked_terms()
    ensures cells { cell_numbers drawing first_scenario ≡ 0 ∷ 2 ∷ [] }
    ensures later_cells { cell_numbers drawing second_scenario ≡ 1 ∷ 3 ∷ [] }
    ensures inside { condition_at drawing 0 (given (pos 1)) first_scenario
        ≡ c.Compare Le (at (x_array 0 2) (pos 1)) (at c_array (pos 1)) }
    ensures outside { condition_at drawing 0 (given (pos 2)) second_scenario
        ≡ c.Compare Le (at (x_array 1 3) (pos 3)) (at c_array (pos 2)) }
    ensures never { condition_at drawing 1 [] first_scenario ≡ c.Any c.no_cond }
    ensures quotient { (instance (place_at drawing (given (pos 1)) first_scenario) divided_by).term
        ≡ quotient (c.Constant (pos 7)) (pos 2) }
    ensures by_zero { (instance (place_at drawing (given (pos 2)) first_scenario) divided_by).term ≡ undefined }
    ensures sum { (instance (place_at drawing [] second_scenario) summed).term
        ≡ c.Sum (c.part false (at (x_array 1 3) (pos 1)) (c.part false (at (x_array 1 3) (pos 2)) c.no_part)) }
    ensures worth { worth (problem_terms drawing) (pos 1 ∷ pos 2 ∷ pos 3 ∷ pos 4 ∷ []) ≡ Some (pos 28) }
{}
