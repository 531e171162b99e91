//! Intervals.

ghost use Rattle.std.specs.Prelude.{◌≡◌, pos};
ghost use Rattle.term_language.specs.Ends as rule;
ghost use Rattle.term_math.specs.Shown.{IsFit, ends_at, ends_of};

use sopl_base::Wide;

/// All whole numbers from `low` to `high`.
#[derive(Clone, Copy, Debug, PartialEq, Eq)]
pub struct Ends {
    pub low: i64,
    pub high: i64,
}

/// A number that another is multiplied by.
#[derive(Clone, Copy, Debug, PartialEq, Eq)]
pub struct Factor {
    pub k: i64,
}

impl Factor {
    /// This number with 128 bits.
    pub fn widened(&self) -> Wide
        ensures { result.value ≡ self.now.k }
    {
        Wide::of(self.k)
    }
}

impl Ends {
    /// 0 alone.
    pub fn zero() -> Ends
        ensures { ends_of result ≡ rule.exactly (pos 0) }
    {
        Ends { low: 0, high: 0 }
    }

    /// The interval of a sum.
    pub fn plus(&self, other: &Ends) -> Ends
        requires fits { IsFit (rule.plus (ends_of self.now) (ends_of other.now)) }
        ensures { ends_of result ≡ rule.plus (ends_of self.now) (ends_of other.now) }
    {
        Ends {
            low: self.low + other.low,
            high: self.high + other.high,
        }
    }

    /// The least interval that has both.
    pub fn hull(&self, other: &Ends) -> Ends
        ensures { ends_of result ≡ rule.hull (ends_of self.now) (ends_of other.now) }
    {
        Ends {
            low: self.low.min(other.low),
            high: self.high.max(other.high),
        }
    }

    /// The least interval that has both ends, in any order.
    pub(crate) fn sorted(&self) -> Ends
        ensures { ends_of result ≡ rule.between self.now.low self.now.high }
    {
        Ends {
            low: self.low.min(self.high),
            high: self.low.max(self.high),
        }
    }

    /// The lower end as a factor.
    fn low_factor(&self) -> Factor
        ensures { result.k ≡ self.now.low }
    {
        Factor { k: self.low }
    }

    /// The upper end as a factor.
    fn high_factor(&self) -> Factor
        ensures { result.k ≡ self.now.high }
    {
        Factor { k: self.high }
    }

    /// So many times the interval: a negative factor swaps the ends.
    pub fn scaled(&self, factor: &Factor) -> Ends
        requires fits { IsFit (ends_at factor.now.k (ends_of self.now)) }
        ensures { ends_of result ≡ rule.scaled factor.now.k (ends_of self.now) }
    {
        let ends = Ends {
            low: factor.k * self.low,
            high: factor.k * self.high,
        };
        ends.sorted()
    }

    /// The interval of a product.
    pub fn times(&self, other: &Ends) -> Ends
        requires low { IsFit (ends_at self.now.low (ends_of other.now)) }
        requires high { IsFit (ends_at self.now.high (ends_of other.now)) }
        ensures { ends_of result ≡ rule.times (ends_of self.now) (ends_of other.now) }
    {
        let at_low = other.scaled(&self.low_factor());
        let at_high = other.scaled(&self.high_factor());
        at_low.hull(&at_high)
    }
}
