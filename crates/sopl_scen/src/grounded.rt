//! From a ground problem to the tree of its scenarios.

ghost use Rattle.std.specs.Prelude.{◌≡◌, ◌+◌, ◌⊎◌, length, Some, None, IfOk, IfErr};
ghost use Rattle.sopl_base.specs.declared.fault.Excess.{Excess};
ghost use Rattle.sopl_ast.specs.Limits.{size_excess, usual_limits};
ghost use Rattle.sopl_scen.specs.Layout.{IsTreeOf};
ghost use Rattle.sopl_unfold.specs.GroundProblem.{ground_problem};

use crate::tree::Tree;
use sopl_base::Fault;
use sopl_unfold::Ground;
use std::alloc::Global;

/// How many instances of constraints a ground problem has, hard and chance together.
fn constraints(ground: &Ground) -> usize
    ensures { result ≡ length (ground_problem ground.now).hards + length (ground_problem ground.now).chances }
{
    ground.hards().len() + ground.chances().len()
}

/// The scenarios of a ground problem; or the first limit that is passed, of these: the weight of all scenarios (201), their number
/// (202), instances times scenarios (209), and the bits of all decisions, one value for each history (204).
pub fn scenarios(alloc: Global, ground: &Ground) -> Result<Tree, Fault>
    ensures tree { IfOk result (λ tree. IsTreeOf (ground_problem ground.now).decisions (ground_problem ground.now).stochastics tree) }
    ensures within { IfOk result (λ tree. size_excess usual_limits (ground_problem ground.now) ≡ None) }
    ensures limit { IfErr result (λ fault. (fault ≡ Fault.NoMemory)
        ⊎ ((e : Excess) × (fault ≡ Fault.Limit e) × (size_excess usual_limits (ground_problem ground.now) ≡ Some e))) }
{
    let constraints = constraints(ground);
    Tree::of(alloc, ground.decisions(), ground.stochs(), constraints)
}
