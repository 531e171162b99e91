//! Ends of an objective's interval.

ghost use Rattle.std.specs.Prelude.{◌≡◌, IfSome};
ghost use Rattle.term_language.specs.Ends.{between, ends, scaled};
ghost use Rattle.term_problem.specs.Objective as objective;
ghost use Rattle.prop_shave.specs.GoalSums.{worse_end};

use sopl_base::{Direction, Interval, Wide};
use term_goals::Atom;

/// Of two ends in any order the better one.
fn better_of(direction: Direction, first: Wide, second: Wide) -> Wide
    ensures { result.value ≡ objective.better_end direction (between first.value second.value) }
{
    match direction {
        Direction::Minimize => Wide {
            value: first.value.min(second.value),
        },
        Direction::Maximize => Wide {
            value: first.value.max(second.value),
        },
        Direction::Nothing => Wide { value: 0 },
    }
}

/// The better end of a multiple of an interval, or none where it has no room.
pub(crate) fn end_of_part(direction: Direction, atom: &Atom, interval: &Interval) -> Option<Wide>
    ensures { IfSome result (λ end. end.value ≡ objective.better_end direction (scaled atom.now.k (ends interval.now.lo interval.now.hi))) }
{
    let k = Wide { value: atom.k };
    let first = k.checked_times(Wide::of(interval.lo))?;
    let second = k.checked_times(Wide::of(interval.hi))?;
    Some(better_of(direction, first, second))
}

/// Of two ends in any order the worse one.
fn worse_of(direction: Direction, first: Wide, second: Wide) -> Wide
    ensures { result.value ≡ worse_end direction (between first.value second.value) }
{
    match direction {
        Direction::Minimize => Wide {
            value: first.value.max(second.value),
        },
        Direction::Maximize => Wide {
            value: first.value.min(second.value),
        },
        Direction::Nothing => Wide { value: 0 },
    }
}

/// The worse end of a multiple of an interval, or none where it has no room.
pub(crate) fn worse_end_of_part(
    direction: Direction,
    atom: &Atom,
    interval: &Interval,
) -> Option<Wide>
    ensures { IfSome result (λ end. end.value ≡ worse_end direction (scaled atom.now.k (ends interval.now.lo interval.now.hi))) }
{
    let k = Wide { value: atom.k };
    let first = k.checked_times(Wide::of(interval.lo))?;
    let second = k.checked_times(Wide::of(interval.hi))?;
    Some(worse_of(direction, first, second))
}
