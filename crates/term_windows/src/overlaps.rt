//! Intervals that have an end in a window of at least as many intervals as numbers, and do not lie in it: that end may go.

ghost use Rattle.std.specs.Prelude.{◌≡◌, length, IfNone, IfSome};
ghost use Rattle.term_crowds.specs.Crowds.{AreWholeFrom, HoldWhole, LowsWhole};
ghost use Rattle.term_math.specs.Shown.{ends_of};
ghost use Rattle.term_windows.specs.Overlaps as rule;
ghost use Rattle.term_windows.specs.Overlaps.{IsFirstIn, IsFirstOverlap, IsWidest};
ghost use Rattle.term_windows.specs.Windows.{last_in, spans};

use crate::windows::Window;
use term_math::Ends;

/// A window, and the place of an interval that has an end in it and does not lie in it.
#[derive(Clone, Copy, Debug, PartialEq, Eq)]
pub struct Overlap {
    pub window: Window,
    pub place: usize,
}

/// Whether an interval has an end in a window and does not lie in it.
#[tactic(auto, using(crate::proofs::Overlapping::inside_whole, crate::proofs::Overlapping::low_end_there, crate::proofs::Overlapping::by_high_end))]
fn overlaps(window: &Window, ends: &Ends) -> bool
    ensures { result ≡ rule.overlaps window.now.low (last_in window.now) (ends_of ends.now) }
{
    if window.has(ends) {
        return false;
    }
    let low = Ends {
        low: ends.low,
        high: ends.low,
    };
    let high = Ends {
        low: ends.high,
        high: ends.high,
    };
    if window.has(&low) {
        return true;
    }
    window.has(&high)
}

/// The place of the first interval that has an end in a window and does not lie in it.
#[tactic(auto, using(crate::proofs::Overlapping::next_holds, crate::proofs::Overlapping::first_in, crate::proofs::Overlapping::all_hold))]
fn place_in(window: &Window, ends: &[Ends]) -> Option<usize>
    ensures some { IfSome result (IsFirstIn (spans ends.now) window.now.low (last_in window.now)) }
    ensures none { IfNone result (HoldWhole window.now.low (last_in window.now) (spans ends.now)) }
{
    for place in 0..ends.len() {
        if overlaps(window, &ends[place]) {
            return Some(place);
        }
    }
    None
}

/// The widest window from a lower end on that has at least as many intervals as numbers and that an interval overlaps.
#[tactic(auto, using(crate::proofs::Overlapping::first_window, crate::proofs::Overlapping::few_window, crate::proofs::Overlapping::next_window, crate::proofs::Overlapping::widest, crate::proofs::Overlapping::none_wider))]
fn overlap_from(ends: &[Ends], from: &Ends) -> Option<Overlap>
    ensures some { IfSome result (IsWidest (spans ends.now) from.now.low) }
    ensures none { IfNone result (AreWholeFrom (spans ends.now) from.now.low 0) }
{
    let mut window = Window::from(from, ends.len());
    'windows: while window.width > 0 {
        let count = window.count(ends);
        if count < window.width {
            window = window.with_width(count);
        } else {
            if let Some(place) = place_in(&window, ends) {
                return Some(Overlap { window, place });
            }
            window = window.fewer_than(window.width);
        }
    }
    None
}

/// The first of these from any lower end on.
#[tactic(auto, using(crate::proofs::Overlapping::next_low, crate::proofs::Overlapping::first_low, crate::proofs::Overlapping::all_lows))]
pub fn first_overlap(ends: &[Ends]) -> Option<Overlap>
    ensures some { IfSome result (IsFirstOverlap (spans ends.now)) }
    ensures none { IfNone result (LowsWhole (spans ends.now) (spans ends.now)) }
{
    for from in ends {
        if let Some(found) = overlap_from(ends, from) {
            return Some(found);
        }
    }
    None
}
