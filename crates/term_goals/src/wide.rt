//! Intervals whose ends have 128 bits.

ghost use Rattle.std.specs.Prelude.{◌≡◌, pos};
ghost use Rattle.term_language.specs.Ends as rule;
ghost use Rattle.term_math.specs.Shown.{ends_at, ends_of};
ghost use Rattle.term_goals.specs.Wide.{IsWideFit, wide_ends};

use sopl_base::Wide;
use term_math::Ends;

/// All whole numbers from `low` to `high`.
#[derive(Clone, Copy, Debug, PartialEq, Eq)]
pub struct WideEnds {
    pub low: i128,
    pub high: i128,
}

impl WideEnds {
    /// 0 alone.
    pub(crate) fn zero() -> WideEnds
        ensures { wide_ends result ≡ rule.exactly (pos 0) }
    {
        WideEnds { low: 0, high: 0 }
    }

    /// This interval with ends of 128 bits.
    pub(crate) fn widened(ends: &Ends) -> WideEnds
        ensures { wide_ends result ≡ ends_of ends.now }
    {
        WideEnds {
            low: i128::from(ends.low),
            high: i128::from(ends.high),
        }
    }

    /// The least interval that has both ends, in any order.
    fn sorted(&self) -> WideEnds
        ensures { wide_ends result ≡ rule.between self.now.low self.now.high }
    {
        WideEnds {
            low: self.low.min(self.high),
            high: self.low.max(self.high),
        }
    }

    /// So many times an interval: a negative factor swaps the ends.
    pub(crate) fn scaled(factor: &Wide, ends: &Ends) -> WideEnds
        requires fits { IsWideFit (ends_at factor.now.value (ends_of ends.now)) }
        ensures { wide_ends result ≡ rule.scaled factor.now.value (ends_of ends.now) }
    {
        let times = WideEnds {
            low: factor.value * i128::from(ends.low),
            high: factor.value * i128::from(ends.high),
        };
        times.sorted()
    }

    /// The interval of a sum.
    pub(crate) fn plus(&self, other: &WideEnds) -> WideEnds
        requires fits { IsWideFit (rule.plus (wide_ends self.now) (wide_ends other.now)) }
        ensures { wide_ends result ≡ rule.plus (wide_ends self.now) (wide_ends other.now) }
    {
        WideEnds {
            low: self.low + other.low,
            high: self.high + other.high,
        }
    }
}
