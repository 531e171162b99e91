//! The limit on term nodes.

ghost use Rattle.std.specs.Prelude.{◌≡◌, IfOk, map};
ghost use Rattle.sopl_scen.specs.Layout.{IsTreeOf};
ghost use Rattle.sopl_ast.specs.Limits.{node_excess, usual_limits};
ghost use Rattle.sopl_ast.specs.References.{now_of};
ghost use Rattle.sopl_unfold.specs.GroundProblem.{ground_problem};

use crate::instance_counts::nodes_of_instances;
use sopl_ast::Expr;
use sopl_base::Excess;
use sopl_scen::Tree;
use sopl_unfold::Ground;
use std::alloc::{AllocError, Global};

/// The limit on term nodes that a text passes, if it does: a node for each name, literal and operator of an instance of a constraint or of the objective, in each
/// scenario. The conditions of the text are made once by the caller. No term is made; what it takes memory for are the places that the binders of one expression give.
pub fn node_excess(
    alloc: Global,
    ground: &Ground,
    conditions: &[&Expr],
    tree: &Tree,
) -> Result<Option<Excess>, AllocError>
    requires laid_out { IsTreeOf (ground_problem ground.now).decisions (ground_problem ground.now).stochastics tree.now }
    requires conditions { map now_of conditions.now ≡ (ground_problem ground.now).conditions }
    ensures excess { IfOk result (λ excess. excess ≡ node_excess usual_limits (ground_problem ground.now)) }
{
    let nodes = nodes_of_instances(alloc, ground, conditions)?;
    Ok(nodes.times(tree.count()).excess())
}
