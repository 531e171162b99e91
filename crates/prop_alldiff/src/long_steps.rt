//! Steps that take the whole part of a window away from a term.

ghost use Rattle.std.specs.Prelude.{◌≡◌, ◌<◌, ◌≤ℤ◌, ◌-ℤ◌, pos, length, true, IfSome};
ghost use Rattle.box_problem.specs.Rightness.{IsRight};
ghost use Rattle.prop_shave.specs.Probes.{IsAsked, IsEndOf};
ghost use Rattle.term_program.specs.Stated.{box_problem_of};

use prop_operands::Operands;
use prop_shave::{CellEnd, Probe, Shave};
use sopl_base::Step;
use term_math::Ends;
use term_program::OneCell;
use term_windows::{Overlap, Window};

/// How many numbers behind the first one a window has on the way from the end of an interval that lies in it.
fn numbers_behind(window: &Window, ends: &Ends, from_low: bool) -> Option<i64> {
    if !from_low {
        return ends.high.checked_sub(window.low);
    }
    let behind = window.low.checked_add_unsigned(window.width as u64)?;
    behind.checked_sub(1)?.checked_sub(ends.low)
}

/// Whether the lower end of an interval lies in a window.
fn has_low(window: &Window, ends: &Ends) -> bool {
    window.has(&Ends {
        low: ends.low,
        high: ends.low,
    })
}

/// So many values and one more, as far as one value stays.
fn removal_of(end: &CellEnd, steps: i64) -> Option<Shave>
    ensures at_least_one { IfSome result (λ removal. pos 1 ≤ℤ removal.count) }
    ensures fewer { IfSome result (λ removal. removal.count ≤ℤ (end.now.hi -ℤ end.now.lo)) }
{
    let most = end.hi.checked_sub(end.lo)?;
    let count = steps.checked_add(1)?.min(most);
    if count < 1 {
        return None;
    }
    Some(Shave { count, by: 1 })
}

/// How many values of a cell at an end lie in a window, where the cell is the only one of a term.
fn proposed(window: &Window, ends: &Ends, one: &OneCell, end: &CellEnd) -> Option<Shave>
    ensures at_least_one { IfSome result (λ removal. pos 1 ≤ℤ removal.count) }
    ensures fewer { IfSome result (λ removal. removal.count ≤ℤ (end.now.hi -ℤ end.now.lo)) }
{
    let numbers = numbers_behind(window, ends, has_low(window, ends))?;
    let steps = numbers.checked_div(one.k)?;
    removal_of(end, steps.checked_abs()?)
}

/// The end of a cell at which a term has the end of its interval that lies in a window.
#[tactic(auto, using(prop_shave::proofs::Opening::upper_end))]
fn end_in(probe: &Probe<'_>, window: &Window, ends: &Ends, one: &OneCell) -> Option<CellEnd>
    requires asked { IsAsked probe.now }
    ensures { IfSome result (IsEndOf probe.now) }
{
    let Some(lower) = probe.lower_end(one.cell) else {
        return None;
    };
    if has_low(window, ends) == (0 < one.k) {
        return Some(lower);
    }
    Some(lower.upper())
}

/// The step that removes so many values at an end, where the part with these values is closed.
#[tactic(auto, using(crate::proofs::Stepping::removes, prop_shave::proofs::Opening::removal_own))]
fn tested(probe: &Probe<'_>, end: &CellEnd, removal: &Shave) -> Option<Step>
    requires asked { IsAsked probe.now }
    requires end { IsEndOf probe.now end.now }
    requires at_least_one { pos 1 ≤ℤ removal.now.count }
    requires fewer { removal.now.count ≤ℤ (end.now.hi -ℤ end.now.lo) }
    ensures right { IfSome result (IsRight (box_problem_of probe.now.program.now) probe.now.best probe.now.store.now.box) }
    ensures own_reason { IfSome result (λ step. step.reason ≡ probe.now.reason) }
{
    if !probe.closes(end, removal) {
        return None;
    }
    Some(end.step(probe.reason, removal))
}

/// The step that takes the whole part of a window away from a term that has an end in it and does not lie there, where the term has one cell alone
/// and the part with these values is closed.
pub(crate) fn long_step(probe: &Probe<'_>, operands: &Operands, found: &Overlap) -> Option<Step>
    requires asked { IsAsked probe.now }
    requires known { found.now.place < length operands.now.known.items }
    requires exists { found.now.place < length operands.now.list.items }
    ensures right { IfSome result (IsRight (box_problem_of probe.now.program.now) probe.now.best probe.now.store.now.box) }
    ensures own_reason { IfSome result (λ step. step.reason ≡ probe.now.reason) }
{
    let Some(one) = probe.program.one_cell(operands.term(found.place)) else {
        return None;
    };
    let ends = &operands.known()[found.place];
    let Some(end) = end_in(probe, &found.window, ends, &one) else {
        return None;
    };
    match proposed(&found.window, ends, &one, &end) {
        Some(removal) => tested(probe, &end, &removal),
        None => None,
    }
}
