ghost use Rattle.std.specs.Prelude.{◌≡◌, ℕ, ℤ, List, Some, slice_get};
ghost use Rattle.std.specs.FinMap.{get};
ghost use Rattle.sopl_ast.specs.Instances.{Problem};
ghost use Rattle.sopl_ast.specs.Policies.{Policy, IsPolicy};
ghost use Rattle.sopl_ast.specs.Cells.{Cell, cells, IsPoint, policy_at};

/// Each point of a problem's cells is a policy of the problem.
pub fn points_are_policies()
    ensures policy { (problem : Problem) (values : List ℤ)
        → IsPoint (cells problem) values
        → IsPolicy problem (policy_at (cells problem) values) }
{}

/// Each policy of a problem is a point of its cells.
pub fn policies_are_points()
    ensures point { (problem : Problem) (policy : Policy) → IsPolicy problem policy
        → (values : List ℤ) × IsPoint (cells problem) values
        × (policy ≡ policy_at (cells problem) values) }
{}

/// Different points are different policies.
pub fn points_differ()
    ensures once { (problem : Problem) (xs ys : List ℤ)
        → IsPoint (cells problem) xs → IsPoint (cells problem) ys
        → policy_at (cells problem) xs ≡ policy_at (cells problem) ys → xs ≡ ys }
{}

/// The policy of a point has at the key of each cell the value that the point has for the cell.
pub fn cell_value()
    ensures value { (problem : Problem) (values : List ℤ) (i : ℕ) (cell : Cell) (v : ℤ)
        → slice_get (cells problem) i ≡ Some cell → slice_get values i ≡ Some v
        → get (policy_at (cells problem) values) cell.key ≡ Some v }
{}
