//! The walk over an expression.

ghost use Rattle.std.specs.Prelude.{◌<◌, None, map};
ghost use Rattle.std.specs.List.{AllByRecursion};
ghost use Rattle.compile_counts.specs.Walked.{AreMet, AreWalked, FactorsAreWalked, IsDivisor, IsWalked, TermsAreWalked, whole_of};
ghost use Rattle.term_language.specs.Terms as c;
ghost use Rattle.compile_exprs.specs.Made.{IsBody, IsOperand, IsPlaced, IsTaskBody, MakesCond, MakesConds, MakesParts, MakesTask, MakesTasks, MakesTerm, MakesTerms};
ghost use Rattle.compile_laws.specs.Instances.{chain_instance, conditions, instance, instances, places, product_instance, shape_instance, tasks_of, terms_of};
ghost use Rattle.sopl_scen.specs.Layout.{count_in};
ghost use Rattle.compile_scene.specs.Scenes.{place_of};
ghost use Rattle.compile_scene.specs.Works.{IsReady, things_of};
ghost use Rattle.sopl_ast.specs.Constants.{all_bindings};
ghost use Rattle.sopl_ast.specs.Known as place;
ghost use Rattle.sopl_ast.specs.Lists.{binders, factors, terms, trees};
ghost use Rattle.sopl_ast.specs.Tree as t;
ghost use Rattle.term_nodes.specs.Things.{term_at};
ghost use Rattle.unfold_constants.specs.Here.{known_in};

use crate::adding::{add_cond, add_term};
use crate::chains::{added_up, called, extreme};
use crate::elements::{element, named};
use crate::lists::listed;
use compile_counts::{all_places, divisor};
use compile_scene::{Lowering, NumberedScenario};
use sopl_ast::{Binders, Expr, Factors, Kind, MulOp, Name};
use sopl_base::{CmpOp, Fault};
use sopl_term::{CondId, NewCond, NewTerm, TermId};
use term_math::{Divisor, Operation};
use unfold_constants::{ConstantScope, TaskText};

/// Adds the term of an expression; a condition is a number.
#[cycle(walk)]
pub(crate) fn term<'a>(
    scene: &NumberedScenario<'_, '_>,
    known: &ConstantScope<'a>,
    work: &mut Lowering,
    e: &'a Expr,
) -> Result<TermId, Fault>
    requires ready { IsReady scene.now.setting.now work.old }
    requires placed { IsPlaced scene.now known.now }
    requires walked { IsWalked None (known_in known.now) e.now }
    ensures made { MakesTerm scene.now.setting.now work.old work.new (instance (place_of scene.now (known_in known.now)) e.now).term result }
{
    match &e.kind {
        Kind::Lit(value) => add_term(work, &NewTerm::Constant(*value)),
        Kind::Name(name) => named(scene, known, work, name),
        Kind::Index(name, at) => indexed(scene, known, work, name, at.as_slice()),
        Kind::Call(function, part) => {
            let id = term(scene, known, work, part)?;
            called(work, *function, id)
        }
        Kind::Add(parts) => {
            let ids = chain(scene, known, work, parts.as_slice())?;
            add_term(work, &NewTerm::Sum(ids.as_slice()))
        }
        Kind::Mul(parts) => product(scene, known, work, parts),
        Kind::Sum(over, part) => {
            let ids = behind(scene, known, work, over, part)?;
            added_up(work, ids.as_slice())
        }
        Kind::Selected(which, parts) => {
            let ids = terms(scene, known, work, parts.as_slice())?;
            extreme(scene, work, *which, ids.as_slice())
        }
        Kind::Cmp(_, _, _)
        | Kind::Not(_)
        | Kind::And(_)
        | Kind::Or(_)
        | Kind::Implies(_, _)
        | Kind::AllDifferent(_, _)
        | Kind::Cumulative(_, _, _, _, _) => {
            let id = condition(scene, known, work, e)?;
            add_term(work, &NewTerm::Number(id))
        }
    }
}

/// Adds the condition of an expression; a number is none that holds.
#[cycle(walk)]
pub(crate) fn condition<'a>(
    scene: &NumberedScenario<'_, '_>,
    known: &ConstantScope<'a>,
    work: &mut Lowering,
    e: &'a Expr,
) -> Result<CondId, Fault>
    requires ready { IsReady scene.now.setting.now work.old }
    requires placed { IsPlaced scene.now known.now }
    requires walked { IsWalked None (known_in known.now) e.now }
    ensures made { MakesCond scene.now.setting.now work.old work.new (instance (place_of scene.now (known_in known.now)) e.now).cond result }
{
    match &e.kind {
        Kind::Cmp(op, a, b) => comparison(scene, known, work, *op, a, b),
        Kind::Not(part) => {
            let id = condition(scene, known, work, part)?;
            add_cond(work, &NewCond::Not(id))
        }
        Kind::And(parts) => {
            let ids = conditions(scene, known, work, parts.as_slice())?;
            add_cond(work, &NewCond::All(ids.as_slice()))
        }
        Kind::Or(parts) => {
            let ids = conditions(scene, known, work, parts.as_slice())?;
            add_cond(work, &NewCond::Any(ids.as_slice()))
        }
        Kind::Implies(a, b) => implication(scene, known, work, a, b),
        Kind::AllDifferent(over, part) => {
            let ids = behind(scene, known, work, over, part)?;
            add_cond(work, &NewCond::AllDifferent(ids.as_slice()))
        }
        Kind::Cumulative(over, start, duration, demand, most) => {
            let task = TaskText {
                start,
                duration,
                demand,
            };
            scheduled(scene, known, work, over, &task, most)
        }
        Kind::Lit(_)
        | Kind::Name(_)
        | Kind::Index(_, _)
        | Kind::Call(_, _)
        | Kind::Add(_)
        | Kind::Mul(_)
        | Kind::Sum(_, _)
        | Kind::Selected(_, _) => add_cond(work, &NewCond::Any(&[])),
    }
}

/// Adds a comparison, its left side first.
#[cycle(walk)]
fn comparison<'a>(
    scene: &NumberedScenario<'_, '_>,
    known: &ConstantScope<'a>,
    work: &mut Lowering,
    op: CmpOp,
    a: &'a Expr,
    b: &'a Expr,
) -> Result<CondId, Fault>
    requires ready { IsReady scene.now.setting.now work.old }
    requires placed { IsPlaced scene.now known.now }
    requires left { IsWalked None (known_in known.now) a.now }
    requires right { IsWalked None (known_in known.now) b.now }
    ensures made { MakesCond scene.now.setting.now work.old work.new
        (c.Compare op (instance (place_of scene.now (known_in known.now)) a.now).term (instance (place_of scene.now (known_in known.now)) b.now).term) result }
{
    let left = term(scene, known, work, a)?;
    let right = term(scene, known, work, b)?;
    add_cond(work, &NewCond::Compare(op, left, right))
}

/// Adds an implication, its condition first.
#[cycle(walk)]
fn implication<'a>(
    scene: &NumberedScenario<'_, '_>,
    known: &ConstantScope<'a>,
    work: &mut Lowering,
    a: &'a Expr,
    b: &'a Expr,
) -> Result<CondId, Fault>
    requires ready { IsReady scene.now.setting.now work.old }
    requires placed { IsPlaced scene.now known.now }
    requires left { IsWalked None (known_in known.now) a.now }
    requires right { IsWalked None (known_in known.now) b.now }
    ensures made { MakesCond scene.now.setting.now work.old work.new
        (c.Implies (instance (place_of scene.now (known_in known.now)) a.now).cond (instance (place_of scene.now (known_in known.now)) b.now).cond) result }
{
    let left = condition(scene, known, work, a)?;
    let right = condition(scene, known, work, b)?;
    add_cond(work, &NewCond::Implies(left, right))
}

/// Adds the element of a name at indices; without an index it is what the name stands for.
#[cycle(walk)]
fn indexed<'a>(
    scene: &NumberedScenario<'_, '_>,
    known: &ConstantScope<'a>,
    work: &mut Lowering,
    name: &Name,
    at: &'a [Expr],
) -> Result<TermId, Fault>
    requires ready { IsReady scene.now.setting.now work.old }
    requires placed { IsPlaced scene.now known.now }
    requires walked { AreWalked None (known_in known.now) (trees at.now) }
    ensures made { MakesTerm scene.now.setting.now work.old work.new (shape_instance (place_of scene.now (known_in known.now)) (t.Index name.now (trees at.now))).term result }
{
    if at.is_empty() {
        return named(scene, known, work, name);
    }
    let ids = terms(scene, known, work, at)?;
    element(scene, known, work, name, ids.as_slice())
}

/// Adds terms, in order.
#[cycle(walk)]
fn terms<'a>(
    scene: &NumberedScenario<'_, '_>,
    known: &ConstantScope<'a>,
    work: &mut Lowering,
    parts: &'a [Expr],
) -> Result<Vec<TermId>, Fault>
    requires ready { IsReady scene.now.setting.now work.old }
    requires placed { IsPlaced scene.now known.now }
    requires walked { AreWalked None (known_in known.now) (trees parts.now) }
    ensures made { MakesTerms scene.now.setting.now work.old work.new (instances (place_of scene.now (known_in known.now)) (trees parts.now)) result }
{
    let mut ids = Vec::new(work.alloc);
    'parts: for part in parts {
        let id = term(scene, known, work, part)?;
        listed(&mut ids, id)?;
    }
    Ok(ids)
}

/// Adds conditions, in order.
#[cycle(walk)]
fn conditions<'a>(
    scene: &NumberedScenario<'_, '_>,
    known: &ConstantScope<'a>,
    work: &mut Lowering,
    parts: &'a [Expr],
) -> Result<Vec<CondId>, Fault>
    requires ready { IsReady scene.now.setting.now work.old }
    requires placed { IsPlaced scene.now known.now }
    requires walked { AreWalked None (known_in known.now) (trees parts.now) }
    ensures made { MakesConds scene.now.setting.now work.old work.new (conditions (place_of scene.now (known_in known.now)) (trees parts.now)) result }
{
    let mut ids = Vec::new(work.alloc);
    'parts: for part in parts {
        let id = condition(scene, known, work, part)?;
        listed(&mut ids, id)?;
    }
    Ok(ids)
}

/// Adds the parts of a chain of `+` and `-`.
#[cycle(walk)]
fn chain<'a>(
    scene: &NumberedScenario<'_, '_>,
    known: &ConstantScope<'a>,
    work: &mut Lowering,
    parts: &'a [(bool, Expr)],
) -> Result<Vec<(bool, TermId)>, Fault>
    requires ready { IsReady scene.now.setting.now work.old }
    requires placed { IsPlaced scene.now known.now }
    requires walked { TermsAreWalked None (known_in known.now) (terms parts.now) }
    ensures made { MakesParts scene.now.setting.now work.old work.new (chain_instance (place_of scene.now (known_in known.now)) (terms parts.now)) result }
{
    let mut ids = Vec::new(work.alloc);
    'parts: for part in parts {
        let id = term(scene, known, work, &part.1)?;
        listed(&mut ids, (part.0, id))?;
    }
    Ok(ids)
}

/// Adds a product, its factors from left to right.
#[cycle(walk)]
fn product<'a>(
    scene: &NumberedScenario<'_, '_>,
    known: &ConstantScope<'a>,
    work: &mut Lowering,
    parts: &'a Factors,
) -> Result<TermId, Fault>
    requires ready { IsReady scene.now.setting.now work.old }
    requires placed { IsPlaced scene.now known.now }
    requires first { IsWalked None (known_in known.now) parts.now.first }
    requires others { FactorsAreWalked None (known_in known.now) (factors parts.now.others) }
    ensures made { MakesTerm scene.now.setting.now work.old work.new
        (product_instance (place_of scene.now (known_in known.now)) (instance (place_of scene.now (known_in known.now)) parts.now.first).term (factors parts.now.others)) result }
{
    let first = term(scene, known, work, parts.first())?;
    multiply(scene, known, work, first, parts.as_slice())
}

/// Adds the product of a term and the factors behind it.
#[cycle(walk)]
fn multiply<'a>(
    scene: &NumberedScenario<'_, '_>,
    known: &ConstantScope<'a>,
    work: &mut Lowering,
    first: TermId,
    parts: &'a [(MulOp, Expr)],
) -> Result<TermId, Fault>
    requires ready { IsReady scene.now.setting.now work.old }
    requires placed { IsPlaced scene.now known.now }
    requires operand { IsOperand scene.now.setting.now work.old first.0 }
    requires walked { FactorsAreWalked None (known_in known.now) (factors parts.now) }
    ensures made { MakesTerm scene.now.setting.now work.old work.new
        (product_instance (place_of scene.now (known_in known.now)) (term_at (things_of work.old) first.0) (factors parts.now)) result }
{
    let mut before = first;
    'parts: for part in parts {
        before = factor(scene, known, work, before, part)?;
    }
    Ok(before)
}

/// Adds the product of a term and a factor, or its quotient or remainder by a divisor.
#[cycle(walk)]
fn factor<'a>(
    scene: &NumberedScenario<'_, '_>,
    known: &ConstantScope<'a>,
    work: &mut Lowering,
    before: TermId,
    part: &'a (MulOp, Expr),
) -> Result<TermId, Fault>
    requires ready { IsReady scene.now.setting.now work.old }
    requires placed { IsPlaced scene.now known.now }
    requires operand { IsOperand scene.now.setting.now work.old before.0 }
    requires divides { IsDivisor None (known_in known.now) part.now.0 part.now.1 }
    requires walked { IsWalked (whole_of None part.now.0 part.now.1) (known_in known.now) part.now.1 }
    ensures made { MakesTerm scene.now.setting.now work.old work.new
        (product_instance (place_of scene.now (known_in known.now)) (term_at (things_of work.old) before.0) (t.factor part.now.0 part.now.1 t.no_factor)) result }
{
    match part.0 {
        MulOp::Times => {
            let second = term(scene, known, work, &part.1)?;
            add_term(work, &NewTerm::Product(before, second))
        }
        MulOp::Div => {
            let number = divisor(known, &part.1)?;
            let by = Operation::Quotient(Divisor { number });
            add_term(work, &NewTerm::Operation(by, before))
        }
        MulOp::Mod => {
            let number = divisor(known, &part.1)?;
            let by = Operation::Remainder(Divisor { number });
            add_term(work, &NewTerm::Operation(by, before))
        }
    }
}

/// Adds the terms of what stands behind binders, one for each way in which they take their values.
#[cycle(walk)]
fn behind<'a>(
    scene: &NumberedScenario<'_, '_>,
    known: &ConstantScope<'a>,
    work: &mut Lowering,
    over: &'a Binders,
    e: &'a Expr,
) -> Result<Vec<TermId>, Fault>
    requires ready { IsReady scene.now.setting.now work.old }
    requires placed { IsPlaced scene.now known.now }
    requires met { AreMet (known_in known.now) None (binders over.now) }
    requires bodies { AllByRecursion (λ (here : place.Known). IsWalked None here e.now) (all_bindings (known_in known.now) (binders over.now)) }
    ensures made { MakesTerms scene.now.setting.now work.old work.new
        (terms_of (map (λ here. (instance here e.now).term) (places (place_of scene.now (known_in known.now)) (binders over.now)))) result }
{
    let here = all_places(work.alloc, known, None, over.as_slice())?;
    each(scene, work, here.as_slice(), e)
}

/// Adds the terms of an expression at each of some places.
#[cycle(walk)]
fn each<'a>(
    scene: &NumberedScenario<'_, '_>,
    work: &mut Lowering,
    here: &[ConstantScope<'a>],
    e: &'a Expr,
) -> Result<Vec<TermId>, Fault>
    requires ready { IsReady scene.now.setting.now work.old }
    requires exists { scene.now.scenario < count_in scene.now.setting.now.tree.now }
    requires bodies { AllByRecursion (IsBody scene.now.setting.now e.now) (map known_in here.now) }
    ensures made { MakesTerms scene.now.setting.now work.old work.new
        (terms_of (map (λ known. (instance (place_of scene.now known) e.now).term) (map known_in here.now))) result }
{
    let mut ids = Vec::new(work.alloc);
    'here: for known in here {
        let id = term(scene, known, work, e)?;
        listed(&mut ids, id)?;
    }
    Ok(ids)
}

/// Adds `cumulative`: its tasks first, and its capacity last.
#[cycle(walk)]
fn scheduled<'a>(
    scene: &NumberedScenario<'_, '_>,
    known: &ConstantScope<'a>,
    work: &mut Lowering,
    over: &'a Binders,
    task: &TaskText<'a>,
    most: &'a Expr,
) -> Result<CondId, Fault>
    requires ready { IsReady scene.now.setting.now work.old }
    requires placed { IsPlaced scene.now known.now }
    requires met { AreMet (known_in known.now) None (binders over.now) }
    requires bodies { AllByRecursion
        (λ (here : place.Known). IsWalked None here task.now.start.now × IsWalked None here task.now.duration.now × IsWalked None here task.now.demand.now)
        (all_bindings (known_in known.now) (binders over.now)) }
    requires most { IsWalked None (known_in known.now) most.now }
    ensures made { MakesCond scene.now.setting.now work.old work.new
        (c.Cumulative
        (tasks_of (map (λ here. record { start = (instance here task.now.start.now).term; duration = (instance here task.now.duration.now).term; demand = (instance here task.now.demand.now).term })
        (places (place_of scene.now (known_in known.now)) (binders over.now))))
        (instance (place_of scene.now (known_in known.now)) most.now).term) result }
{
    let tasks = tasks_behind(scene, known, work, over, task)?;
    let capacity = term(scene, known, work, most)?;
    add_cond(work, &NewCond::Cumulative(tasks.as_slice(), capacity))
}

/// Adds the terms of tasks, one task for each way in which their binders take their values.
#[cycle(walk)]
fn tasks_behind<'a>(
    scene: &NumberedScenario<'_, '_>,
    known: &ConstantScope<'a>,
    work: &mut Lowering,
    over: &'a Binders,
    task: &TaskText<'a>,
) -> Result<Vec<(TermId, TermId, TermId)>, Fault>
    requires ready { IsReady scene.now.setting.now work.old }
    requires placed { IsPlaced scene.now known.now }
    requires met { AreMet (known_in known.now) None (binders over.now) }
    requires bodies { AllByRecursion
        (λ (here : place.Known). IsWalked None here task.now.start.now × IsWalked None here task.now.duration.now × IsWalked None here task.now.demand.now)
        (all_bindings (known_in known.now) (binders over.now)) }
    ensures made { MakesTasks scene.now.setting.now work.old work.new
        (tasks_of (map (λ here. record { start = (instance here task.now.start.now).term; duration = (instance here task.now.duration.now).term; demand = (instance here task.now.demand.now).term })
        (places (place_of scene.now (known_in known.now)) (binders over.now)))) result }
{
    let here = all_places(work.alloc, known, None, over.as_slice())?;
    each_task(scene, work, here.as_slice(), task)
}

/// Adds the terms of a task at each of some places.
#[cycle(walk)]
fn each_task<'a>(
    scene: &NumberedScenario<'_, '_>,
    work: &mut Lowering,
    here: &[ConstantScope<'a>],
    task: &TaskText<'a>,
) -> Result<Vec<(TermId, TermId, TermId)>, Fault>
    requires ready { IsReady scene.now.setting.now work.old }
    requires exists { scene.now.scenario < count_in scene.now.setting.now.tree.now }
    requires bodies { AllByRecursion (IsTaskBody scene.now.setting.now task.now.start.now task.now.duration.now task.now.demand.now) (map known_in here.now) }
    ensures made { MakesTasks scene.now.setting.now work.old work.new
        (tasks_of (map (λ known. record {
          start = (instance (place_of scene.now known) task.now.start.now).term;
          duration = (instance (place_of scene.now known) task.now.duration.now).term;
          demand = (instance (place_of scene.now known) task.now.demand.now).term;
        }) (map known_in here.now))) result }
{
    let mut ids = Vec::new(work.alloc);
    'here: for known in here {
        let id = one_task(scene, known, work, task)?;
        listed(&mut ids, id)?;
    }
    Ok(ids)
}

/// Adds the terms of a task: its start, its length and its demand.
#[cycle(walk)]
fn one_task<'a>(
    scene: &NumberedScenario<'_, '_>,
    known: &ConstantScope<'a>,
    work: &mut Lowering,
    task: &TaskText<'a>,
) -> Result<(TermId, TermId, TermId), Fault>
    requires ready { IsReady scene.now.setting.now work.old }
    requires placed { IsPlaced scene.now known.now }
    requires start { IsWalked None (known_in known.now) task.now.start.now }
    requires duration { IsWalked None (known_in known.now) task.now.duration.now }
    requires demand { IsWalked None (known_in known.now) task.now.demand.now }
    ensures made { MakesTask scene.now.setting.now work.old work.new
        (record {
          start = (instance (place_of scene.now (known_in known.now)) task.now.start.now).term;
          duration = (instance (place_of scene.now (known_in known.now)) task.now.duration.now).term;
          demand = (instance (place_of scene.now (known_in known.now)) task.now.demand.now).term;
        }) result }
{
    let start = term(scene, known, work, task.start)?;
    let duration = term(scene, known, work, task.duration)?;
    let demand = term(scene, known, work, task.demand)?;
    Ok((start, duration, demand))
}
