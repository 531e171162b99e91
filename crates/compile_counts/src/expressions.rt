//! The term nodes of an expression.

ghost use Rattle.std.specs.Prelude.{◌≡◌, ◌+◌, IfOk, map};
ghost use Rattle.std.specs.List.{AllByRecursion, sum_by};
ghost use Rattle.compile_counts.specs.Walked.{AreMet, AreWalked, FactorsAreWalked, IsWalked, TermsAreWalked, whole_of};
ghost use Rattle.compile_counts.specs.Counted.{capped};
ghost use Rattle.sopl_ast.specs.Constants.{all_bindings};
ghost use Rattle.sopl_ast.specs.Lists.{binders, factors, terms, trees};
ghost use Rattle.sopl_ast.specs.TermNodes.{all_nodes, factor_nodes, nodes, term_nodes};
ghost use Rattle.unfold_constants.specs.Here.{known_in};

use crate::bindings::all_places;
use crate::counts::Nodes;
use sopl_ast::{Binders, Expr, Factors, Kind, MulOp};
use std::alloc::{AllocError, Global};
use unfold_constants::{ConstantScope, TaskText};

/// Where the constant expression begins that a factor is inside of, if any: a divisor is one of its own.
fn whole_at(whole: Option<usize>, part: &(MulOp, Expr)) -> Option<usize>
    ensures whole { result ≡ whole_of whole part.now.0 part.now.1 }
{
    if whole.is_some() {
        return whole;
    }
    match part.0 {
        MulOp::Times => None,
        MulOp::Div | MulOp::Mod => Some(part.1.at),
    }
}

/// The nodes of an expression, inside the constant expression that begins at `whole`, if any.
#[cycle(count)]
#[tactic(auto, using(sopl_ast::proofs::Lighter::lighter))]
pub(crate) fn nodes_of<'a>(
    alloc: Global,
    known: &ConstantScope<'a>,
    whole: Option<usize>,
    e: &'a Expr,
) -> Result<Nodes, AllocError>
    requires walked { IsWalked whole (known_in known.now) e.now }
    ensures nodes { IfOk result (λ n. n.count ≡ capped (nodes (known_in known.now) e.now)) }
{
    match &e.kind {
        Kind::Lit(_) | Kind::Name(_) => Ok(Nodes::one()),
        Kind::Index(_, parts) | Kind::And(parts) | Kind::Or(parts) | Kind::Selected(_, parts) => {
            let inside = nodes_of_all(alloc, known, whole, parts.as_slice())?;
            Ok(inside.with_operator())
        }
        Kind::Call(_, part) | Kind::Not(part) => {
            Ok(nodes_of(alloc, known, whole, part)?.with_operator())
        }
        Kind::Add(parts) => {
            let inside = nodes_of_terms(alloc, known, whole, parts.as_slice())?;
            Ok(inside.with_operator())
        }
        Kind::Mul(parts) => { Ok(nodes_of_product(alloc, known, whole, parts)?.with_operator()) }
        Kind::Cmp(_, a, b) | Kind::Implies(a, b) => {
            Ok(nodes_of_both(alloc, known, whole, a, b)?.with_operator())
        }
        Kind::Sum(over, part) | Kind::AllDifferent(over, part) => {
            Ok(nodes_behind(alloc, known, whole, over, part)?.with_operator())
        }
        Kind::Cumulative(over, start, duration, demand, capacity) => {
            let task = TaskText {
                start,
                duration,
                demand,
            };
            let inside = nodes_of_cumulative(alloc, known, whole, over, &task, capacity)?;
            Ok(inside.with_operator())
        }
    }
}

/// The nodes of expressions together.
#[cycle(count)]
#[tactic(auto, using(sopl_ast::proofs::Lighter::lighter))]
fn nodes_of_all<'a>(
    alloc: Global,
    known: &ConstantScope<'a>,
    whole: Option<usize>,
    parts: &'a [Expr],
) -> Result<Nodes, AllocError>
    requires walked { AreWalked whole (known_in known.now) (trees parts.now) }
    ensures nodes { IfOk result (λ n. n.count ≡ capped (all_nodes (known_in known.now) (trees parts.now))) }
{
    let mut sum = Nodes::none();
    'parts: for part in parts {
        let inside = nodes_of(alloc, known, whole, part)?;
        sum = sum.plus(inside);
    }
    Ok(sum)
}

/// Those of the parts of a chain of `+` and `-`.
#[cycle(count)]
#[tactic(auto, using(sopl_ast::proofs::Lighter::lighter))]
fn nodes_of_terms<'a>(
    alloc: Global,
    known: &ConstantScope<'a>,
    whole: Option<usize>,
    parts: &'a [(bool, Expr)],
) -> Result<Nodes, AllocError>
    requires walked { TermsAreWalked whole (known_in known.now) (terms parts.now) }
    ensures nodes { IfOk result (λ n. n.count ≡ capped (term_nodes (known_in known.now) (terms parts.now))) }
{
    let mut sum = Nodes::none();
    'parts: for part in parts {
        let inside = nodes_of(alloc, known, whole, &part.1)?;
        sum = sum.plus(inside);
    }
    Ok(sum)
}

/// Those of the parts of a product.
#[cycle(count)]
#[tactic(auto, using(sopl_ast::proofs::Lighter::lighter))]
fn nodes_of_product<'a>(
    alloc: Global,
    known: &ConstantScope<'a>,
    whole: Option<usize>,
    parts: &'a Factors,
) -> Result<Nodes, AllocError>
    requires first { IsWalked whole (known_in known.now) parts.now.first }
    requires others { FactorsAreWalked whole (known_in known.now) (factors parts.now.others) }
    ensures nodes { IfOk result (λ n. n.count ≡ capped (nodes (known_in known.now) parts.now.first + factor_nodes (known_in known.now) (factors parts.now.others))) }
{
    let first = nodes_of(alloc, known, whole, parts.first())?;
    let others = nodes_of_factors(alloc, known, whole, parts.as_slice())?;
    Ok(first.plus(others))
}

/// Those of the factors behind the first part of a product; a divisor counts as others do.
#[cycle(count)]
#[tactic(auto, using(sopl_ast::proofs::Lighter::lighter))]
fn nodes_of_factors<'a>(
    alloc: Global,
    known: &ConstantScope<'a>,
    whole: Option<usize>,
    parts: &'a [(MulOp, Expr)],
) -> Result<Nodes, AllocError>
    requires walked { FactorsAreWalked whole (known_in known.now) (factors parts.now) }
    ensures nodes { IfOk result (λ n. n.count ≡ capped (factor_nodes (known_in known.now) (factors parts.now))) }
{
    let mut sum = Nodes::none();
    'parts: for part in parts {
        let inside = nodes_of(alloc, known, whole_at(whole, part), &part.1)?;
        sum = sum.plus(inside);
    }
    Ok(sum)
}

/// Those of two expressions.
#[cycle(count)]
#[tactic(auto, using(sopl_ast::proofs::Lighter::lighter))]
fn nodes_of_both<'a>(
    alloc: Global,
    known: &ConstantScope<'a>,
    whole: Option<usize>,
    a: &'a Expr,
    b: &'a Expr,
) -> Result<Nodes, AllocError>
    requires first { IsWalked whole (known_in known.now) a.now }
    requires second { IsWalked whole (known_in known.now) b.now }
    ensures nodes { IfOk result (λ n. n.count ≡ capped (nodes (known_in known.now) a.now + nodes (known_in known.now) b.now)) }
{
    let first = nodes_of(alloc, known, whole, a)?;
    let second = nodes_of(alloc, known, whole, b)?;
    Ok(first.plus(second))
}

/// Those of what stands behind binders, once for each way in which they take their values.
#[cycle(count)]
#[tactic(auto, using(sopl_ast::proofs::Lighter::lighter))]
fn nodes_behind<'a>(
    alloc: Global,
    known: &ConstantScope<'a>,
    whole: Option<usize>,
    over: &'a Binders,
    e: &'a Expr,
) -> Result<Nodes, AllocError>
    requires met { AreMet (known_in known.now) whole (binders over.now) }
    requires walked { AllByRecursion (λ here. IsWalked whole here e.now) (all_bindings (known_in known.now) (binders over.now)) }
    ensures nodes { IfOk result (λ n. n.count ≡ capped (sum_by (λ here. nodes here e.now) (all_bindings (known_in known.now) (binders over.now)))) }
{
    let places = all_places(alloc, known, whole, over.as_slice())?;
    nodes_at_each(alloc, places.as_slice(), whole, e)
}

/// Those of an expression at each of some places.
#[cycle(count)]
#[tactic(auto, using(sopl_ast::proofs::Lighter::lighter))]
fn nodes_at_each<'a>(
    alloc: Global,
    places: &[ConstantScope<'a>],
    whole: Option<usize>,
    e: &'a Expr,
) -> Result<Nodes, AllocError>
    requires walked { AllByRecursion (λ here. IsWalked whole here e.now) (map known_in places.now) }
    ensures nodes { IfOk result (λ n. n.count ≡ capped (sum_by (λ here. nodes here e.now) (map known_in places.now))) }
{
    let mut sum = Nodes::none();
    'places: for place in places {
        let inside = nodes_of(alloc, place, whole, e)?;
        sum = sum.plus(inside);
    }
    Ok(sum)
}

/// Those of tasks and their capacity.
#[cycle(count)]
#[tactic(auto, using(sopl_ast::proofs::Lighter::lighter))]
fn nodes_of_cumulative<'a>(
    alloc: Global,
    known: &ConstantScope<'a>,
    whole: Option<usize>,
    over: &'a Binders,
    task: &TaskText<'a>,
    capacity: &'a Expr,
) -> Result<Nodes, AllocError>
    requires met { AreMet (known_in known.now) whole (binders over.now) }
    requires walked { AllByRecursion (λ here. IsWalked whole here task.now.start.now × IsWalked whole here task.now.duration.now × IsWalked whole here task.now.demand.now)
        (all_bindings (known_in known.now) (binders over.now)) }
    requires capacity { IsWalked whole (known_in known.now) capacity.now }
    ensures nodes { IfOk result (λ n. n.count
        ≡ capped (sum_by (λ here. nodes here task.now.start.now + (nodes here task.now.duration.now + nodes here task.now.demand.now)) (all_bindings (known_in known.now) (binders over.now))
        + nodes (known_in known.now) capacity.now)) }
{
    let tasks = nodes_of_tasks(alloc, known, whole, over, task)?;
    let most = nodes_of(alloc, known, whole, capacity)?;
    Ok(tasks.plus(most))
}

/// Those of tasks, once for each way in which their binders take their values.
#[cycle(count)]
#[tactic(auto, using(sopl_ast::proofs::Lighter::lighter))]
fn nodes_of_tasks<'a>(
    alloc: Global,
    known: &ConstantScope<'a>,
    whole: Option<usize>,
    over: &'a Binders,
    task: &TaskText<'a>,
) -> Result<Nodes, AllocError>
    requires met { AreMet (known_in known.now) whole (binders over.now) }
    requires walked { AllByRecursion (λ here. IsWalked whole here task.now.start.now × IsWalked whole here task.now.duration.now × IsWalked whole here task.now.demand.now)
        (all_bindings (known_in known.now) (binders over.now)) }
    ensures nodes { IfOk result (λ n. n.count
        ≡ capped (sum_by (λ here. nodes here task.now.start.now + (nodes here task.now.duration.now + nodes here task.now.demand.now)) (all_bindings (known_in known.now) (binders over.now)))) }
{
    let places = all_places(alloc, known, whole, over.as_slice())?;
    nodes_of_each_task(alloc, places.as_slice(), whole, task)
}

/// Those of a task at each of some places.
#[cycle(count)]
#[tactic(auto, using(sopl_ast::proofs::Lighter::lighter))]
fn nodes_of_each_task<'a>(
    alloc: Global,
    places: &[ConstantScope<'a>],
    whole: Option<usize>,
    task: &TaskText<'a>,
) -> Result<Nodes, AllocError>
    requires walked { AllByRecursion (λ here. IsWalked whole here task.now.start.now × IsWalked whole here task.now.duration.now × IsWalked whole here task.now.demand.now)
        (map known_in places.now) }
    ensures nodes { IfOk result (λ n. n.count
        ≡ capped (sum_by (λ here. nodes here task.now.start.now + (nodes here task.now.duration.now + nodes here task.now.demand.now)) (map known_in places.now))) }
{
    let mut sum = Nodes::none();
    'places: for place in places {
        let inside = nodes_of_task(alloc, place, whole, task)?;
        sum = sum.plus(inside);
    }
    Ok(sum)
}

/// Those of a task at a place.
#[cycle(count)]
#[tactic(auto, using(sopl_ast::proofs::Lighter::lighter))]
fn nodes_of_task<'a>(
    alloc: Global,
    known: &ConstantScope<'a>,
    whole: Option<usize>,
    task: &TaskText<'a>,
) -> Result<Nodes, AllocError>
    requires start { IsWalked whole (known_in known.now) task.now.start.now }
    requires duration { IsWalked whole (known_in known.now) task.now.duration.now }
    requires demand { IsWalked whole (known_in known.now) task.now.demand.now }
    ensures nodes { IfOk result (λ n. n.count
        ≡ capped (nodes (known_in known.now) task.now.start.now + (nodes (known_in known.now) task.now.duration.now + nodes (known_in known.now) task.now.demand.now))) }
{
    let start = nodes_of(alloc, known, whole, task.start)?;
    let more = nodes_of_both(alloc, known, whole, task.duration, task.demand)?;
    Ok(start.plus(more))
}
