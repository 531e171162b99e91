//! Windows: so many numbers in a row, in which intervals may lie.

ghost use Rattle.std.specs.Prelude.{◌≡◌, ◌-◌};
ghost use Rattle.term_language.specs.Globals as globals;
ghost use Rattle.term_math.specs.Shown.{ends_of};
ghost use Rattle.term_windows.specs.Windows.{inside_in, last_in, spans};

use term_math::Ends;

/// So many numbers in a row, from the least on.
#[derive(Clone, Copy, Debug, PartialEq, Eq)]
pub struct Window {
    pub low: i64,
    pub width: usize,
}

impl Window {
    /// So many numbers from the lower end of an interval on.
    pub fn from(ends: &Ends, width: usize) -> Window
        ensures low { result.low ≡ ends.now.low }
        ensures width { result.width ≡ width }
    {
        Window {
            low: ends.low,
            width,
        }
    }

    /// Whether an interval lies in the window.
    pub fn has(&self, ends: &Ends) -> bool
        ensures { result ≡ globals.is_inside self.now.low (last_in self.now) (ends_of ends.now) }
    {
        if ends.low < self.low {
            return false;
        }
        if ends.high < self.low {
            return true;
        }
        ends.high.abs_diff(self.low) < self.width as u64
    }

    /// How many intervals lie in the window.
    #[tactic(auto, using(crate::proofs::Slices::next_inside, crate::proofs::Slices::next_outside, crate::proofs::Slices::none_inside))]
    pub fn count(&self, ends: &[Ends]) -> usize
        ensures { result ≡ inside_in self.now (spans ends.now) }
    {
        let mut count = 0;
        'ends: for here in ends {
            if self.has(here) {
                count += 1;
            }
        }
        count
    }

    /// So many numbers, from the same number on.
    pub fn with_width(&self, width: usize) -> Window
        ensures low { result.low ≡ self.now.low }
        ensures width { result.width ≡ width }
    {
        Window {
            low: self.low,
            width,
        }
    }

    /// One number fewer than these, from the same number on.
    pub fn fewer_than(&self, count: usize) -> Window
        ensures low { result.low ≡ self.now.low }
        ensures width { result.width ≡ count - 1 }
    {
        self.with_width(count.saturating_sub(1))
    }
}

/// Whether two intervals have no number in common.
pub fn are_apart(a: &Ends, b: &Ends) -> bool
    ensures { result ≡ globals.are_apart (ends_of a.now) (ends_of b.now) }
{
    a.high < b.low || b.high < a.low
}
