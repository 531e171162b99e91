//! Sizes, as `abs` gives them.

ghost use Rattle.std.specs.Prelude.{◌≡◌, pos};
ghost use Rattle.term_language.specs.Ends as rule;
ghost use Rattle.term_math.specs.Shown.{ends_of};
ghost use Rattle.term_math.specs.Made.{IsSmall};

use crate::ends::Ends;

/// The sizes of both ends.
#[tactic(auto, using(crate::proofs::Room::turned_fits))]
fn sizes_at(ends: &Ends) -> Ends
    requires small { IsSmall (ends_of ends.now) }
    ensures { ends_of result ≡ rule.ends (rule.size_of ends.now.low) (rule.size_of ends.now.high) }
{
    Ends {
        low: ends.low.abs(),
        high: ends.high.abs(),
    }
}

/// Whether 0 lies in the interval.
fn has_zero(ends: &Ends) -> bool
    ensures { result ≡ rule.has (ends_of ends.now) (pos 0) }
{
    ends.low <= 0 && 0 <= ends.high
}

/// The interval of sizes: from the least to the greatest of those of both ends, and of 0 where 0 is among the numbers.
pub fn sizes(ends: &Ends) -> Ends
    requires small { IsSmall (ends_of ends.now) }
    ensures { ends_of result ≡ rule.image rule.size_of (ends_of ends.now) }
{
    let at = sizes_at(ends).sorted();
    if has_zero(ends) {
        return Ends::zero().hull(&at);
    }
    at
}
