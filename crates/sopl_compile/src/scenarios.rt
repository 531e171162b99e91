//! What an expression is in each scenario.

ghost use Rattle.std.specs.Prelude.{◌≡◌, ◌<◌, ◌∷◌, ◌++◌, [], IfOk, IfSome, OnOk};
ghost use Rattle.compile_laws.specs.Measured.{Measures, constraint_subterms};
ghost use Rattle.compile_laws.specs.Subterms.{condition_subterms, subterms};
ghost use Rattle.compile_exprs.specs.Over.{IsOver};
ghost use Rattle.std.specs.List.{flat_map};
ghost use Rattle.compile_scene.specs.Scenes.{root_in};
ghost use Rattle.compile_scene.specs.Works.{Extends, IsReady, Stands, things_of};
ghost use Rattle.sopl_ast.specs.UnfoldEvents.{expression_events};
ghost use Rattle.sopl_compile.specs.Listed.{AreListed, condition_at, conditions_in, expression_at, terms_in};
ghost use Rattle.sopl_compile.specs.Repeats.{IsAlready};
ghost use Rattle.sopl_scen.specs.Layout.{count_in};
ghost use Rattle.sopl_term.specs.Built.{cond_ids, term_ids};
ghost use Rattle.term_nodes.specs.Things.{a_cond, a_term, cond_in, term_in};
ghost use Rattle.unfold_constants.specs.Here.{known_in};
ghost use Rattle.unfold_laws.specs.Passing.{NothingFails};

use crate::repeats::{repeated, variables_in};
use compile_exprs::{condition_of, term_of};
use compile_names::Scenarios;
use compile_scene::{Lowering, NumberedScenario};
use sopl_ast::Expr;
use sopl_base::Fault;
use sopl_term::{CondId, TermId};
use std::alloc::{AllocError, Global};
use unfold_constants::ConstantScope;

/// Puts one more behind a list.
fn put<T: Drop>(list: &mut Vec<T>, item: T) -> Result<(), AllocError>
    ensures ok { OnOk result (list.new.items ≡ list.old.items ++ item ∷ []) }
{
    list.push(item)?;
    Ok(())
}

/// The condition in a scenario, which stands already where it is repeated.
fn next_condition<'a>(
    scene: &NumberedScenario<'_, '_>,
    known: &ConstantScope<'a>,
    work: &mut Lowering,
    e: &'a Expr,
    repeated: Option<CondId>,
) -> Result<CondId, Fault>
    requires ready { IsReady scene.now.setting.now work.old }
    requires exists { scene.now.scenario < count_in scene.now.setting.now.tree.now }
    requires table { IsOver scene.now.setting.now known.now }
    requires passes { NothingFails (expression_events (known_in known.now) e.now) }
    requires repeated { IfSome repeated (λ id. IsAlready scene.now.setting.now work.old id.0 (a_cond (condition_at scene.now.setting.now (known_in known.now) e.now scene.now.scenario))
        (condition_subterms (condition_at scene.now.setting.now (known_in known.now) e.now scene.now.scenario))) }
    ensures extends { OnOk result (Extends scene.now.setting.now work.old work.new) }
    ensures stands { IfOk result (λ id. Stands (things_of work.new) id.0 (a_cond (condition_at scene.now.setting.now (known_in known.now) e.now scene.now.scenario))) }
    ensures measured { Measures (root_in scene.now.setting.now) (condition_subterms (condition_at scene.now.setting.now (known_in known.now) e.now scene.now.scenario)) result }
{
    match repeated {
        Some(id) => Ok(id),
        None => condition_of(scene, known, work, e),
    }
}

/// The term in a scenario, which stands already where it is repeated.
fn next_term<'a>(
    scene: &NumberedScenario<'_, '_>,
    known: &ConstantScope<'a>,
    work: &mut Lowering,
    e: &'a Expr,
    repeated: Option<TermId>,
) -> Result<TermId, Fault>
    requires ready { IsReady scene.now.setting.now work.old }
    requires exists { scene.now.scenario < count_in scene.now.setting.now.tree.now }
    requires table { IsOver scene.now.setting.now known.now }
    requires passes { NothingFails (expression_events (known_in known.now) e.now) }
    requires repeated { IfSome repeated (λ id. IsAlready scene.now.setting.now work.old id.0 (a_term (expression_at scene.now.setting.now (known_in known.now) e.now scene.now.scenario))
        (subterms (expression_at scene.now.setting.now (known_in known.now) e.now scene.now.scenario))) }
    ensures extends { OnOk result (Extends scene.now.setting.now work.old work.new) }
    ensures stands { IfOk result (λ id. Stands (things_of work.new) id.0 (a_term (expression_at scene.now.setting.now (known_in known.now) e.now scene.now.scenario))) }
    ensures measured { Measures (root_in scene.now.setting.now) (subterms (expression_at scene.now.setting.now (known_in known.now) e.now scene.now.scenario)) result }
{
    match repeated {
        Some(id) => Ok(id),
        None => term_of(scene, known, work, e),
    }
}

/// A condition in each scenario. It is made once for scenarios that stand behind one another and have the same values and cells in it.
pub(crate) fn conditions_of<'a>(
    alloc: Global,
    setting: &Scenarios<'_>,
    known: &ConstantScope<'a>,
    work: &mut Lowering,
    e: &'a Expr,
) -> Result<Vec<CondId>, Fault>
    requires ready { IsReady setting.now work.old }
    requires table { IsOver setting.now known.now }
    requires passes { NothingFails (expression_events (known_in known.now) e.now) }
    ensures extends { OnOk result (Extends setting.now work.old work.new) }
    ensures listed { IfOk result (λ ids. AreListed cond_in (things_of work.new) (cond_ids ids.items) (conditions_in setting.now (known_in known.now) e.now)) }
    ensures measured { Measures (root_in setting.now) (constraint_subterms (conditions_in setting.now (known_in known.now) e.now)) result }
{
    let needed = variables_in(setting, e);
    let mut before = None;
    let mut found = Vec::new(alloc);
    'scenarios: for scenario in 0..setting.tree.count() {
        let scene = NumberedScenario { setting, scenario };
        let id = next_condition(&scene, known, work, e, repeated(&scene, needed, before))?;
        put(&mut found, id)?;
        before = Some(id);
    }
    Ok(found)
}

/// A number expression in each scenario, made once for scenarios as a condition is.
pub(crate) fn terms_of<'a>(
    alloc: Global,
    setting: &Scenarios<'_>,
    known: &ConstantScope<'a>,
    work: &mut Lowering,
    e: &'a Expr,
) -> Result<Vec<TermId>, Fault>
    requires ready { IsReady setting.now work.old }
    requires table { IsOver setting.now known.now }
    requires passes { NothingFails (expression_events (known_in known.now) e.now) }
    ensures extends { OnOk result (Extends setting.now work.old work.new) }
    ensures listed { IfOk result (λ ids. AreListed term_in (things_of work.new) (term_ids ids.items) (terms_in setting.now (known_in known.now) e.now)) }
    ensures measured { Measures (root_in setting.now) (flat_map subterms (terms_in setting.now (known_in known.now) e.now)) result }
{
    let needed = variables_in(setting, e);
    let mut before = None;
    let mut found = Vec::new(alloc);
    'terms: for scenario in 0..setting.tree.count() {
        let scene = NumberedScenario { setting, scenario };
        let id = next_term(&scene, known, work, e, repeated(&scene, needed, before))?;
        put(&mut found, id)?;
        before = Some(id);
    }
    Ok(found)
}
