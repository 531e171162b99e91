//! What is answered where nodes are left.

ghost use Rattle.std.specs.Prelude.{◌≡◌, List, [], None, IfOk, IfNone, IfSome, OnOk};
ghost use Rattle.box_problem.specs.Box.{Inside};
ghost use Rattle.box_problem.specs.BoxProblem.{BoxProblem};
ghost use Rattle.box_problem.specs.Opens.{IsBetterOf, IsBound};
ghost use Rattle.log_rows.specs.declared.rows.Row.{Row};
ghost use Rattle.sopl_search.specs.Frontiers.{AreEnterable, IsAtNode, IsEnterable, IsOnRows, boxes, pendings};
ghost use Rattle.sopl_search.specs.Lines.{pending_of};
ghost use Rattle.sopl_search.specs.Outcomes.{Closes, IsOutcomeBy, Settles};

use crate::outcome::{Found, Outcome, value_in};
use crate::posed::SearchProblem;
use open_nodes::{BoxWalk, OpenNode};
use sopl_base::{Direction, better};
use std::alloc::{AllocError, Global};

/// Of a value and an end the better one, or the end where there is no value.
pub(crate) fn better_of(direction: Direction, value: Option<i128>, end: i128) -> i128
    ensures { IsBetterOf direction value end result }
{
    match value {
        Some(value) if !better(direction, end, value) => value,
        _ => end,
    }
}

/// Goes to the box with which an open node begins; the list is emptied, and then has the cells of the ends that were made again.
pub(crate) fn enter(
    alloc: Global,
    walk: &mut BoxWalk,
    node: &OpenNode,
    remade: &mut Vec<u32>,
) -> Result<(), AllocError>
    requires known { (problem : BoxProblem) × (rows : List Row) × IsEnterable problem rows walk.old node.now }
    ensures entered { (problem : BoxProblem) (rows : List Row) → IsEnterable problem rows walk.old node.now → OnOk result (IsAtNode problem rows walk.new node.now) }
{
    remade.clear();
    match &node.below {
        Some(split) => walk.enter(alloc, split, node.side, remade),
        None => walk.enter_root(),
    }
}

/// Of an end, if one is given, and the better end over the box of an open node the better one.
fn end_with<P: SearchProblem>(
    alloc: Global,
    program: &P::Program,
    walk: &mut BoxWalk,
    remade: &mut Vec<u32>,
    end: Option<i128>,
    node: &OpenNode,
) -> Result<Option<i128>, AllocError>
    requires valid { P.valid program.now }
    requires known { (rows : List Row) × IsEnterable (P.problem program.now) rows walk.old node.now }
    requires inside { Inside (pending_of (P.problem program.now).root node.now).at (P.problem program.now).root }
    ensures end { IfOk result (λ best. IfSome best (IsBetterOf (P.problem program.now).direction end
        ((P.problem program.now).end (pending_of (P.problem program.now).root node.now).at))) }
    ensures some { IfOk result (λ best. ¬ best ≡ None) }
    ensures at { (rows : List Row) → IsEnterable (P.problem program.now) rows walk.old node.now
        → OnOk result (IsOnRows (P.problem program.now).root rows walk.new) }
{
    enter(alloc, walk, node, remade)?;
    let best = better_of(P::direction(program), end, P::end(program, &walk.store));
    Ok(Some(best))
}

/// The best of the better ends over the boxes of open nodes; none where there is no node.
pub(crate) fn best_end<P: SearchProblem>(
    alloc: Global,
    program: &P::Program,
    walk: &mut BoxWalk,
    nodes: &[OpenNode],
) -> Result<Option<i128>, AllocError>
    requires valid { P.valid program.now }
    requires known { (rows : List Row) × AreEnterable (P.problem program.now) rows walk.old nodes.now }
    ensures bound { IfOk result (λ end. IfSome end
        (IsBound (P.problem program.now) None (boxes (pendings (P.problem program.now).root nodes.now)))) }
    ensures none { IfOk result (λ end. IfNone end (nodes.now ≡ [])) }
{
    let mut end = None;
    let mut remade = Vec::new(alloc);
    'nodes: for node in nodes {
        end = end_with::<P>(alloc, program, walk, &mut remade, end, node)?;
    }
    Ok(end)
}

/// The best point is answered as such where the bound is not better, and with the bound where it is.
fn settle(direction: Direction, best: Option<Found>, bound: i128) -> Outcome
    ensures { Settles direction best bound result }
{
    match best {
        Some(found) if !better(direction, bound, found.value) => Outcome::Optimal {
            value: found.value,
            cells: found.cells,
        },
        found => Outcome::Bounded { found, bound },
    }
}

/// Where no node is open, the best point is answered, or that there is none.
fn closed(best: Option<Found>) -> Outcome
    ensures { Closes best result }
{
    match best {
        Some(found) => Outcome::Optimal {
            value: found.value,
            cells: found.cells,
        },
        None => Outcome::Infeasible,
    }
}

/// What is answered of the best point and of the best end over the boxes of open nodes, if any is open.
pub(crate) fn outcome_of(direction: Direction, best: Option<Found>, end: Option<i128>) -> Outcome
    ensures { IsOutcomeBy direction best end result }
{
    match end {
        Some(end) => {
            let bound = better_of(direction, value_in(&best), end);
            settle(direction, best, bound)
        }
        None => closed(best),
    }
}
