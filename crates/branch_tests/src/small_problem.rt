//! Cells that are to rise, and the propagators of this small problem.

ghost use Rattle.std.specs.Prelude.{◌≡◌, ◌+◌, ◌<◌, ◌^◌, ◌∷◌, [], ℕ, length, map, All, Contains, IfOk, IfSome, Some, None};
ghost use Rattle.sopl_base.specs.declared.reason.Reason.TheVariants.{Bound, Hard};
ghost use Rattle.box_problem.specs.Box.{Box, Inside, box_of};
ghost use Rattle.box_problem.specs.Near.{IsNear};
ghost use Rattle.prop_core.specs.Findings.{Finds};
ghost use Rattle.prop_core.specs.Members.{together};
ghost use Rattle.sopl_search.specs.Ends.{AreAll};
ghost use Rattle.branch_tests.specs.Rising.{AreNear, FitsFor, IsChain, IsPair, LooksAtRise, RestsAtRise, problem_of, reached, reasons_for};

use box_store::BoxStore;
use prop_core::{Finding, Propagator, Resting, Watching};
use sopl_base::{Direction, Interval, Reason, Side, Step};
use sopl_search::SearchProblem;
use std::alloc::{AllocError, Global};

/// The intervals of some cells, each of which is to be at most the next one, and how many have a next one.
#[derive(Drop)]
pub(super) struct Rising {
    pub(super) intervals: Vec<Interval>,
    pub(super) pairs: u32,
    ghost chain: { IsChain intervals.items pairs },
}

/// The interval between two numbers within a thousand.
fn near(lo: i64, hi: i64) -> Option<Interval>
    ensures low { IfSome result (λ interval. IsNear interval.lo) }
    ensures high { IfSome result (λ interval. IsNear interval.hi) }
{
    if lo < -1000 || 1000 < hi {
        return None;
    }
    Interval::new(lo, hi)
}

/// The intervals with these ends, where all of them are near.
#[tactic(auto, using(sopl_base::proofs::Lists::all_none))]
fn near_intervals(alloc: Global, ends: &[(i64, i64)]) -> Result<Option<Vec<Interval>>, AllocError>
    ensures near { IfOk result (λ found. IfSome found (λ list. AreNear list.items)) }
{
    let mut list = Vec::new(alloc);
    'cells: for (lo, hi) in ends.iter() {
        let Some(interval) = near(*lo, *hi) else {
            return Ok(None);
        };
        list.push(interval)?;
    }
    Ok(Some(list))
}

/// These intervals, if there are one to sixteen.
#[tactic(auto, using(crate::proofs::Rising::chain_of))]
fn chain(intervals: Vec<Interval>) -> Option<Rising>
    requires near { AreNear intervals.items }
{
    let count = intervals.len();
    if count == 0 {
        return None;
    }
    if count > 16 {
        return None;
    }
    let Ok(pairs) = u32::try_from(count - 1) else {
        return None;
    };
    Some(Rising { intervals, pairs })
}

/// Cells with these ends, if there are one to sixteen, and all of their ends are near.
pub(super) fn rising_with(
    alloc: Global,
    ends: &[(i64, i64)],
) -> Result<Option<Rising>, AllocError> {
    let Some(intervals) = near_intervals(alloc, ends)? else {
        return Ok(None);
    };
    Ok(chain(intervals))
}

/// Narrows a box for one reason: that this cell is at most the next one; or without a cell, that the first one is better than the best value.
#[derive(Clone, Copy)]
pub(super) struct Rise {
    pub(super) pair: Option<u32>,
}

/// The cell after this one.
fn next_cell(cell: u32) -> u32
    requires small { cell + 1 < 2 ^ 32 }
    ensures { result ≡ cell + 1 }
{
    cell + 1
}

/// Whether a value is at most the best one.
fn is_reached(value: i64, best: Option<i128>) -> bool
    ensures { result ≡ reached value best }
{
    match best {
        Some(best) => i128::from(value) <= best,
        None => false,
    }
}

/// What is found of a cell and the next one.
#[tactic(auto, using(crate::proofs::Rising::cell_there, crate::proofs::Rising::pair_dead))]
fn pair_finding(_program: &Rising, store: &BoxStore, first: u32, _best: Option<i128>) -> Finding
    requires pair { IsPair _program.now.intervals.items _program.now.pairs first }
    requires inside { Inside store.now.box (box_of _program.now.intervals.items) }
    ensures { Finds (problem_of _program.now.intervals.items _program.now.pairs) (Hard first 0 ∷ []) _best store.now.box result }
{
    let second = next_cell(first);
    let reason = Reason::Hard {
        instance: first,
        scenario: 0,
    };
    if store.hi(second) < store.lo(first) {
        return Finding::Dead(reason);
    }
    if store.hi(second) < store.hi(first) {
        return Finding::Cut(Step {
            reason,
            cell: first,
            side: Side::Le,
            k: store.hi(second),
        });
    }
    if store.lo(second) < store.lo(first) {
        return Finding::Cut(Step {
            reason,
            cell: second,
            side: Side::Ge,
            k: store.lo(first),
        });
    }
    Finding::Quiet
}

/// What is found of the first cell and the best value.
#[tactic(auto, using(crate::proofs::Rising::cell_there))]
fn bound_finding(_program: &Rising, store: &BoxStore, best: Option<i128>) -> Finding
    requires exists { 0 < length _program.now.intervals.items }
    requires inside { Inside store.now.box (box_of _program.now.intervals.items) }
    ensures { Finds (problem_of _program.now.intervals.items _program.now.pairs) (Bound ∷ []) best store.now.box result }
{
    if is_reached(store.hi(0), best) {
        return Finding::Dead(Reason::Bound);
    }
    if is_reached(store.lo(0), best) {
        return Finding::Cut(Step {
            reason: Reason::Bound,
            cell: 0,
            side: Side::Ge,
            k: store.lo(0) + 1,
        });
    }
    Finding::Quiet
}

impl Propagator for Rise {
    type Program = Rising;

    ghost problem = { λ program. problem_of program.intervals.items program.pairs };

    ghost reasons = { λ rise. reasons_for rise.pair };

    ghost fits = { λ rise program. FitsFor program.intervals.items program.pairs rise.pair };

    ghost in_step = { λ _ _ _. Unit {0} };

    ghost watches = { λ _. [] };

    fn revise(&mut self, program: &Rising, store: &BoxStore, best: Option<i128>) -> Finding {
        match self.pair {
            Some(first) => pair_finding(program, store, first, best),
            None => bound_finding(program, store, best),
        }
    }
}

/// It, resting until one of its cells has changed.
#[derive(Drop)]
pub(super) struct RestingRise {
    pub(super) resting: Resting<Rise>,
}

impl Propagator for RestingRise {
    type Program = Rising;

    ghost problem = { λ program. problem_of program.intervals.items program.pairs };

    ghost reasons = { λ made. reasons_for made.resting.member.pair };

    ghost fits = { λ made program. LooksAtRise program.intervals.items program.pairs made.resting.member.pair made.resting.cells.items };

    ghost in_step = { λ made program b. RestsAtRise program.intervals.items program.pairs made.resting.member.pair made.resting.rested b };

    ghost watches = { λ made. made.resting.cells.items };

    fn revise(&mut self, program: &Rising, store: &BoxStore, best: Option<i128>) -> Finding {
        self.resting.revise(program, store, best)
    }
}

impl Watching for RestingRise {
    ghost use Rattle.prop_core.specs.Alike.{rested_alike};

    fn watched_cells(&self) -> &[u32] {
        self.resting.watched_cells()
    }

    fn touched(&mut self, cell: u32) {
        self.resting.touched(cell);
    }

    fn revise_kept(&mut self, program: &Rising, store: &BoxStore, best: Option<i128>) -> Finding {
        self.resting.revise_kept(program, store, best)
    }

    ghost cells_ascend = { λ m p fits. fits.ascend };

    ghost steps_agree = { λ m p b c fits b_in c_in agree rested. rested_alike (problem_of p.intervals.items p.pairs) (reasons_for m.resting.member.pair)
        m.resting.cells.items m.resting.rested b c fits.looks b_in c_in agree rested };

    ghost reasons_agree = { λ m p fits. fits.looks };
}

impl SearchProblem for RestingRise {
    ghost valid = { λ _. Unit {0} };

    fn roots(alloc: Global, program: &Rising) -> Result<Vec<Interval>, AllocError> {
        let list = Vec::from_slice(alloc, program.intervals.as_slice())?;
        Ok(list)
    }

    fn direction(_program: &Rising) -> Direction {
        Direction::Maximize
    }

    fn end(_program: &Rising, store: &BoxStore) -> i128 {
        i128::from(store.hi(0))
    }
}

/// A member for a cell and the next one, which rests until one of them has changed.
fn pair_member(alloc: Global, program: &Rising, first: u32) -> Result<RestingRise, AllocError>
    requires below { first < program.now.pairs }
    ensures pair { IfOk result (λ made. made.resting.member.pair ≡ Some first) }
    ensures fits { IfOk result (λ made. LooksAtRise program.now.intervals.items program.now.pairs made.resting.member.pair
        made.resting.cells.items) }
    ensures in_step { IfOk result (λ made. (b : Box) → RestsAtRise program.now.intervals.items program.now.pairs made.resting.member.pair
        made.resting.rested b) }
{
    let second = next_cell(first);
    let cells = Vec::from_slice(alloc, &[first, second])?;
    let resting = Resting::new(Rise { pair: Some(first) }, cells);
    Ok(RestingRise { resting })
}

/// A member for the first cell and the best value.
fn bound_member(alloc: Global, program: &Rising) -> Result<RestingRise, AllocError>
    ensures pair { IfOk result (λ made. made.resting.member.pair ≡ None) }
    ensures fits { IfOk result (λ made. LooksAtRise program.now.intervals.items program.now.pairs made.resting.member.pair
        made.resting.cells.items) }
    ensures in_step { IfOk result (λ made. (b : Box) → RestsAtRise program.now.intervals.items program.now.pairs made.resting.member.pair
        made.resting.rested b) }
{
    let cells = Vec::from_slice(alloc, &[0])?;
    let resting = Resting::new(Rise { pair: None }, cells);
    Ok(RestingRise { resting })
}

/// A member for each cell that has a next one.
#[tactic(auto, using(sopl_base::proofs::Lists::all_none))]
fn pair_members(alloc: Global, program: &Rising) -> Result<Vec<RestingRise>, AllocError>
    ensures fits { IfOk result (λ list. All (λ made. LooksAtRise program.now.intervals.items program.now.pairs made.resting.member.pair
        made.resting.cells.items) list.items) }
    ensures in_step { IfOk result (λ list. (b : Box) → All (λ made. RestsAtRise program.now.intervals.items program.now.pairs
        made.resting.member.pair made.resting.rested b) list.items) }
    ensures reasons { IfOk result (λ list. (cell : ℕ) → cell < program.now.pairs
        → Contains (together (map (λ made. reasons_for made.resting.member.pair) list.items)) (Hard cell 0)) }
{
    let mut list = Vec::new(alloc);
    'pairs: for first in 0..program.pairs {
        list.push(pair_member(alloc, program, first)?)?;
    }
    Ok(list)
}

/// A member for each reason.
pub(super) fn members(alloc: Global, program: &Rising) -> Result<Vec<RestingRise>, AllocError>
    ensures fits { IfOk result (λ list. All (λ made. LooksAtRise program.now.intervals.items program.now.pairs made.resting.member.pair
        made.resting.cells.items) list.items) }
    ensures all { IfOk result (λ list. AreAll (problem_of program.now.intervals.items program.now.pairs)
        (together (map (λ made. reasons_for made.resting.member.pair) list.items))) }
    ensures in_step { IfOk result (λ list. (b : Box) → All (λ made. RestsAtRise program.now.intervals.items program.now.pairs
        made.resting.member.pair made.resting.rested b) list.items) }
{
    let mut list = pair_members(alloc, program)?;
    list.push(bound_member(alloc, program)?)?;
    Ok(list)
}
