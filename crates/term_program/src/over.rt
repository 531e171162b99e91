//! Terms and conditions of a program over the box of a store.

ghost use Rattle.std.specs.Prelude.{◌≡◌, ◌<◌, ◌≤ℤ◌, length};
ghost use Rattle.box_problem.specs.Box.{Inside, high, low};
ghost use Rattle.term_language.specs.Ends as ends;
ghost use Rattle.term_language.specs.Rules as rule;
ghost use Rattle.term_problem.specs.Objective as objective;
ghost use Rattle.term_problem.specs.Problems.{direction_in};
ghost use Rattle.term_math.specs.Shown.{box_in, box_under};
ghost use Rattle.term_nodes.specs.Things.{cond_at, term_at};
ghost use Rattle.term_program.specs.Programs.{IsMade, ends_in, problem_in, root_in, things_in, with_interval};

use crate::program::Program;
use box_store::BoxStore;
use sopl_base::{Interval, Wide};
use term_language::{Defined, Truth};
use term_math::{AbstractValue, BoxView, Ends, Part};
use term_store::{CondId, TermId};

/// The box of a store.
pub(crate) fn view_of(store: &BoxStore) -> BoxView<'_>
    ensures seen { box_in result ≡ store.now.box }
    ensures under { box_under result ≡ store.now.box }
{
    BoxView {
        lows: store.lows(),
        highs: store.highs(),
        part: None,
    }
}

/// The part of a box in which a cell has another interval.
pub(crate) fn part_of(cell: u32, part: Interval) -> Part
    ensures cell { result.cell ≡ cell }
    ensures low { result.ends.low ≡ part.lo }
    ensures high { result.ends.high ≡ part.hi }
{
    Part {
        cell,
        ends: Ends {
            low: part.lo,
            high: part.hi,
        },
    }
}

/// The interval of a term over a box, and its mark of definedness.
#[derive(Clone, Copy, Debug)]
pub struct Range {
    pub interval: Interval,
    pub defined: Defined,
}

/// What is seen of a term, as a range.
fn as_range(sight: &AbstractValue) -> Range
    requires ordered { sight.now.ends.low ≤ℤ sight.now.ends.high }
    ensures low { result.interval.lo ≡ sight.now.ends.low }
    ensures high { result.interval.hi ≡ sight.now.ends.high }
    ensures mark { result.defined ≡ sight.now.mark }
{
    Range {
        interval: Interval {
            lo: sight.ends.low,
            hi: sight.ends.high,
        },
        defined: sight.mark,
    }
}

/// The truth of a condition over the box of a store.
pub fn kleene(program: &Program, cond: CondId, store: &BoxStore) -> Truth
    requires made { IsMade program.now }
    requires inside { Inside store.now.box (root_in program.now) }
    ensures { result ≡ rule.truth rule.Near (root_in program.now) store.now.box (cond_at (things_in program.now) cond.0) }
{
    program.draft.store.kleene(cond.0, &view_of(store))
}

/// The truth of a condition over the box of a store, with another interval for one cell.
pub fn kleene_in(
    program: &Program,
    cond: CondId,
    store: &BoxStore,
    cell: u32,
    part: Interval,
) -> Truth
    requires made { IsMade program.now }
    requires inside { Inside store.now.box (root_in program.now) }
    requires from_low { low (root_in program.now) cell ≤ℤ part.lo }
    requires to_high { part.hi ≤ℤ high (root_in program.now) cell }
    ensures { result ≡ rule.truth rule.Near (root_in program.now) (with_interval store.now.box cell part.lo part.hi) (cond_at (things_in program.now) cond.0) }
{
    program
        .draft
        .store
        .kleene_in(cond.0, &view_of(store), &part_of(cell, part))
}

/// The interval and the mark of a term over the box of a store.
#[tactic(auto, using(crate::proofs::Ranges::ordered_over))]
pub fn range_of(program: &Program, term: TermId, store: &BoxStore) -> Range
    requires made { IsMade program.now }
    requires exists { term.0 < length (things_in program.now) }
    requires inside { Inside store.now.box (root_in program.now) }
    ensures interval { ends_in result.interval ≡ rule.interval rule.Near (root_in program.now) store.now.box (term_at (things_in program.now) term.0) }
    ensures mark { result.defined ≡ rule.mark rule.Near (root_in program.now) store.now.box (term_at (things_in program.now) term.0) }
{
    as_range(&program.draft.store.range_of(term.0, &view_of(store)))
}

/// The interval and the mark of a term over the box of a store, with another interval for one cell.
#[tactic(auto, using(crate::proofs::Ranges::ordered_part))]
pub fn range_in(
    program: &Program,
    term: TermId,
    store: &BoxStore,
    cell: u32,
    part: Interval,
) -> Range
    requires made { IsMade program.now }
    requires exists { term.0 < length (things_in program.now) }
    requires inside { Inside store.now.box (root_in program.now) }
    requires from_low { low (root_in program.now) cell ≤ℤ part.lo }
    requires to_high { part.hi ≤ℤ high (root_in program.now) cell }
    ensures interval { ends_in result.interval ≡ rule.interval rule.Near (root_in program.now) (with_interval store.now.box cell part.lo part.hi) (term_at (things_in program.now) term.0) }
    ensures mark { result.defined ≡ rule.mark rule.Near (root_in program.now) (with_interval store.now.box cell part.lo part.hi) (term_at (things_in program.now) term.0) }
{
    let seen = program
        .draft
        .store
        .range_in(term.0, &view_of(store), &part_of(cell, part));
    as_range(&seen)
}

/// The interval of the objective over the box of a store, as its two ends.
pub fn goal_ends(program: &Program, store: &BoxStore) -> (i128, i128)
    requires made { IsMade program.now }
    requires inside { Inside store.now.box (root_in program.now) }
    ensures { ends.ends result.0 result.1 ≡ objective.goal_ends (root_in program.now) store.now.box (problem_in program.now) }
{
    let found = program.goal_interval(&view_of(store));
    (found.low, found.high)
}

/// The better end of the objective's interval over the box of a store.
pub fn end_over(program: &Program, store: &BoxStore) -> Wide
    requires made { IsMade program.now }
    requires inside { Inside store.now.box (root_in program.now) }
    ensures end { result.value ≡ objective.better_end (direction_in (problem_in program.now)) (objective.goal_ends (root_in program.now) store.now.box (problem_in program.now)) }
{
    program.end_over(&view_of(store))
}

/// The interval of the objective over the box of a store, with another interval for one cell.
pub fn goal_ends_in(program: &Program, store: &BoxStore, cell: u32, part: Interval) -> (i128, i128)
    requires made { IsMade program.now }
    requires inside { Inside store.now.box (root_in program.now) }
    requires from_low { low (root_in program.now) cell ≤ℤ part.lo }
    requires to_high { part.hi ≤ℤ high (root_in program.now) cell }
    ensures { ends.ends result.0 result.1 ≡ objective.goal_ends (root_in program.now) (with_interval store.now.box cell part.lo part.hi) (problem_in program.now) }
{
    let changed = view_of(store).replaced(&part_of(cell, part));
    let found = program.goal_interval(&changed);
    (found.low, found.high)
}
