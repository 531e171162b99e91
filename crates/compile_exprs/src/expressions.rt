//! Expressions at a place in a scenario.

ghost use Rattle.std.specs.Prelude.{◌<◌, IfOk, OnOk};
ghost use Rattle.compile_exprs.specs.Over.{IsOver};
ghost use Rattle.compile_laws.specs.Instances.{instance};
ghost use Rattle.compile_laws.specs.Measured.{Measures};
ghost use Rattle.compile_laws.specs.Subterms.{condition_subterms, subterms};
ghost use Rattle.sopl_scen.specs.Layout.{count_in};
ghost use Rattle.compile_scene.specs.Scenes.{place_of, root_in};
ghost use Rattle.compile_scene.specs.Works.{Extends, IsReady, Stands, things_of};
ghost use Rattle.sopl_ast.specs.UnfoldEvents.{expression_events};
ghost use Rattle.term_nodes.specs.Things.{a_cond, a_term};
ghost use Rattle.unfold_constants.specs.Here.{known_in};
ghost use Rattle.unfold_laws.specs.Passing.{NothingFails};

use crate::walk::{condition, term};
use compile_scene::{Lowering, NumberedScenario};
use sopl_ast::Expr;
use sopl_base::Fault;
use sopl_term::{CondId, TermId};
use unfold_constants::ConstantScope;

/// Adds the term of an expression.
pub fn term_of<'a>(
    scene: &NumberedScenario<'_, '_>,
    known: &ConstantScope<'a>,
    work: &mut Lowering,
    e: &'a Expr,
) -> Result<TermId, Fault>
    requires ready { IsReady scene.now.setting.now work.old }
    requires exists { scene.now.scenario < count_in scene.now.setting.now.tree.now }
    requires table { IsOver scene.now.setting.now known.now }
    requires passes { NothingFails (expression_events (known_in known.now) e.now) }
    ensures extends { OnOk result (Extends scene.now.setting.now work.old work.new) }
    ensures stands { IfOk result (λ id. Stands (things_of work.new) id.0 (a_term (instance (place_of scene.now (known_in known.now)) e.now).term)) }
    ensures measured { Measures (root_in scene.now.setting.now) (subterms (instance (place_of scene.now (known_in known.now)) e.now).term) result }
{
    term(scene, known, work, e)
}

/// Adds the condition of an expression.
pub fn condition_of<'a>(
    scene: &NumberedScenario<'_, '_>,
    known: &ConstantScope<'a>,
    work: &mut Lowering,
    e: &'a Expr,
) -> Result<CondId, Fault>
    requires ready { IsReady scene.now.setting.now work.old }
    requires exists { scene.now.scenario < count_in scene.now.setting.now.tree.now }
    requires table { IsOver scene.now.setting.now known.now }
    requires passes { NothingFails (expression_events (known_in known.now) e.now) }
    ensures extends { OnOk result (Extends scene.now.setting.now work.old work.new) }
    ensures stands { IfOk result (λ id. Stands (things_of work.new) id.0 (a_cond (instance (place_of scene.now (known_in known.now)) e.now).cond)) }
    ensures measured { Measures (root_in scene.now.setting.now) (condition_subterms (instance (place_of scene.now (known_in known.now)) e.now).cond) result }
{
    condition(scene, known, work, e)
}
