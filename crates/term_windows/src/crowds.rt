//! Whether intervals are crowded, and whether they have no number in common.

ghost use Rattle.std.specs.Prelude.{◌≡◌};
ghost use Rattle.std.specs.List.{list_all, list_any};
ghost use Rattle.term_language.specs.Globals as globals;
ghost use Rattle.term_crowds.specs.Crowds.{AllOrdered};
ghost use Rattle.term_math.specs.Shown.{ends_of};
ghost use Rattle.term_windows.specs.Windows.{spans};

use crate::windows::{Window, are_apart};
use term_math::Ends;

/// Whether more intervals lie between a lower end and the upper end of some of them than there are numbers: in windows that get narrower,
/// since one that has few intervals tells it of all that are not too narrow for these.
#[tactic(auto, using(crate::proofs::Slices::widest_window, crate::proofs::Crowding::next_window, crate::proofs::Crowding::last_window, crate::proofs::Crowding::full_window))]
fn crowded_from(ends: &[Ends], from: &Ends) -> bool
    requires ordered { AllOrdered (spans ends.now) }
    ensures { result ≡ list_any (λ y. globals.are_crowded (spans ends.now) from.now.low y.high) (spans ends.now) }
{
    let mut window = Window::from(from, ends.len());
    'windows: while window.width > 0 {
        let count = window.count(ends);
        if count > window.width {
            return true;
        }
        window = window.fewer_than(count);
    }
    false
}

/// Whether some two numbers are too near for the intervals between them.
#[tactic(auto, using(crate::proofs::Slices::next_uncrowded, crate::proofs::Slices::next_crowded, crate::proofs::Slices::none_crowded_left))]
pub fn never_differ(ends: &[Ends]) -> bool
    requires ordered { AllOrdered (spans ends.now) }
    ensures { result ≡ globals.never_differ (spans ends.now) }
{
    'ends: for from in ends {
        if crowded_from(ends, from) {
            return true;
        }
    }
    false
}

/// Whether an interval has no number in common with several others.
#[tactic(auto, using(crate::proofs::Slices::next_apart, crate::proofs::Slices::not_apart, crate::proofs::Slices::all_apart))]
fn apart_from(ends: &[Ends], from: &Ends) -> bool
    ensures { result ≡ list_all (globals.are_apart (ends_of from.now)) (spans ends.now) }
{
    'ends: for here in ends {
        if !are_apart(from, here) {
            return false;
        }
    }
    true
}

/// Whether no two intervals have a number in common.
#[tactic(auto, using(crate::proofs::Slices::first_apart, crate::proofs::Slices::first_touches, crate::proofs::Slices::none_touches))]
pub fn always_differ(ends: &[Ends]) -> bool
    ensures { result ≡ globals.always_differ (spans ends.now) }
{
    let mut left = ends;
    'ends: while let Some((first, later)) = left.split_first() {
        if !apart_from(later, first) {
            return false;
        }
        left = later;
    }
    true
}
