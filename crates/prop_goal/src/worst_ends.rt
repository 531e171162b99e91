//! The better end of a scenario's term with a cell at an end of its interval.

ghost use Rattle.std.specs.Prelude.{◌≡◌, ◌<◌, pos, false, length, true};
ghost use Rattle.sopl_base.specs.declared.reason.Side.TheVariants.{Ge};
ghost use Rattle.box_problem.specs.Box.{Box, Inside};
ghost use Rattle.term_goals.specs.declared.sums.Atom.{Atom as Part};
ghost use Rattle.term_language.specs.Ends.{ends};
ghost use Rattle.term_problem.specs.Objective as objective;
ghost use Rattle.term_problem.specs.Problems.{direction_in};
ghost use Rattle.term_program.specs.Programs.{no_better, problem_in, root_in, things_in, with_interval};
ghost use Rattle.prop_shave.specs.Ends.{highest, lowest};
ghost use Rattle.prop_shave.specs.GoalKnown.{AreEndsOf};
ghost use Rattle.prop_shave.specs.GoalSums.{part_over};
ghost use Rattle.prop_shave.specs.Probes.{IsAsked, IsEndOf};
ghost use Rattle.prop_shave.specs.Turns.{at_high, at_low};

use prop_shave::{CellEnd, PartEnds, Probe, Shave};
use sopl_base::{Direction, Interval, Wide};
use term_goals::Atom;
use term_program::{Program, TermId, is_no_better, range_in};

/// The better end of an interval.
fn better_of(direction: Direction, interval: &Interval) -> Wide
    ensures { result.value ≡ objective.better_end direction (ends interval.now.lo interval.now.hi) }
{
    match direction {
        Direction::Minimize => Wide::of(interval.lo),
        Direction::Maximize => Wide::of(interval.hi),
        Direction::Nothing => Wide { value: 0 },
    }
}

/// The better end of a term over the box with a cell at this end of its interval.
fn end_at(probe: &Probe<'_>, atom: &Atom, end: &CellEnd) -> Wide
    requires asked { IsAsked probe.now }
    requires end { IsEndOf probe.now end.now }
    requires exists { atom.now.term < length (things_in probe.now.program.now) }
    requires once { atom.now.k ≡ pos 1 }
    ensures { result.value ≡ part_over (direction_in (problem_in probe.now.program.now)) (root_in probe.now.program.now)
        (things_in probe.now.program.now) (with_interval probe.now.store.now.box end.now.cell (lowest end.now (pos 1)) (highest end.now
        (pos 1))) atom.now }
{
    let first = Shave { count: 1, by: 1 };
    let part = end.values(&first);
    let range = range_in(
        probe.program,
        TermId(atom.term),
        probe.store,
        end.cell,
        part,
    );
    better_of(probe.program.direction(), &range.interval)
}

/// Whether the better end of a term is better than a value over the box with a cell at either end of its interval, as it is evaluated there.
pub(crate) fn is_better_at_ends(probe: &Probe<'_>, atom: &Atom, end: &CellEnd, best: Wide) -> bool
    requires asked { IsAsked probe.now }
    requires end { IsEndOf probe.now end.now }
    requires side { end.now.side ≡ Ge }
    requires exists { atom.now.term < length (things_in probe.now.program.now) }
    requires once { atom.now.k ≡ pos 1 }
    ensures to_low { result ≡ true → no_better (direction_in (problem_in probe.now.program.now)) (part_over
        (direction_in (problem_in probe.now.program.now)) (root_in probe.now.program.now) (things_in probe.now.program.now)
        (at_low probe.now.store.now.box end.now.cell) atom.now) best.value ≡ false }
    ensures to_high { result ≡ true → no_better (direction_in (problem_in probe.now.program.now)) (part_over
        (direction_in (problem_in probe.now.program.now)) (root_in probe.now.program.now) (things_in probe.now.program.now)
        (at_high probe.now.store.now.box end.now.cell) atom.now) best.value ≡ false }
{
    let low = end_at(probe, atom, end);
    if is_no_better(probe.program.direction(), low, best) {
        return false;
    }
    let high = end_at(probe, atom, &end.upper());
    !is_no_better(probe.program.direction(), high, best)
}

/// Whether the better end of a term with these ends is better than a value over each part of the box, as its worse end tells.
pub(crate) fn is_surely_better(program: &Program, seen: &PartEnds, best: Wide) -> bool
    ensures better { (b part : Box) (a : Part) → AreEndsOf program.now b a seen.now → Inside part b → result ≡ true
        → no_better (direction_in (problem_in program.now)) (part_over (direction_in (problem_in program.now)) (root_in program.now)
        (things_in program.now) part a) best.value ≡ false }
{
    match &seen.worse {
        Some(worse) => !is_no_better(program.direction(), *worse, best),
        None => false,
    }
}
