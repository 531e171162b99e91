ghost use Rattle.std.specs.Prelude.{◌≡◌, ℤ, List, Some};
ghost use Rattle.sopl_ast.specs.Instances.{Problem};
ghost use Rattle.sopl_ast.specs.Cells.{cells, IsPoint, policy_at};
ghost use Rattle.sopl_ast.specs.Optimal.{Satisfies, numerator, IsOptimal, IsInfeasible};
ghost use Rattle.policy_tree.specs.Best.{NoPointIsBetter, NoPointSatisfies};

/// A point that satisfies, and that no point that satisfies is better than, is an optimal policy.
pub fn optimal_from()
    ensures optimal { (problem : Problem) (values : List ℤ) (value : ℤ)
        → IsPoint (cells problem) values
        → Satisfies problem (policy_at (cells problem) values)
        → numerator problem (policy_at (cells problem) values) ≡ Some value
        → NoPointIsBetter problem value
        → IsOptimal problem (policy_at (cells problem) values) value }
{}

/// Where no point satisfies, no policy does.
pub fn infeasible_from()
    ensures infeasible { (problem : Problem) → NoPointSatisfies problem → IsInfeasible problem }
{}
