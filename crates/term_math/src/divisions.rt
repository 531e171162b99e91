//! Quotients and remainders.

ghost use Rattle.std.specs.Prelude.{◌≡◌, pos, ◌-ℤ◌, int_lt, if◌then◌else◌};
ghost use Rattle.std.specs.Int.{int_max, int_min};
ghost use Rattle.std.specs.Int.RustNames.{int_div, int_rem, unsigned_abs};
ghost use Rattle.term_language.specs.Ends as rule;
ghost use Rattle.term_math.specs.Shown.{ends_of};
ghost use Rattle.term_math.specs.Made.{IsDivisor, IsSmall};

use crate::ends::Ends;
use term_language::Divisor;

/// The size of a divisor.
#[tactic(auto, using(crate::proofs::Room::turned_fits))]
fn divisor_size(divisor: &Divisor) -> Divisor
    requires divisor { IsDivisor divisor.now.number }
    ensures { result.number ≡ rule.size_of divisor.now.number }
{
    Divisor {
        number: divisor.number.abs(),
    }
}

/// The least and the greatest number that may be left: their size is less than that of the divisor.
fn all_remainders(divisor: &Divisor) -> Ends
    requires divisor { IsDivisor divisor.now.number }
    ensures { ends_of result ≡ rule.ends (pos 1 -ℤ pos (unsigned_abs divisor.now.number)) (pos (unsigned_abs divisor.now.number) -ℤ pos 1) }
{
    let size = divisor_size(divisor);
    Ends {
        low: 1 - size.number,
        high: size.number - 1,
    }
}

/// The quotients of both ends, in their order.
#[tactic(auto, using(crate::proofs::Room::divides, crate::proofs::Room::quotient_fits, crate::proofs::Room::quotient_is))]
fn quotients_at(ends: &Ends, divisor: &Divisor) -> Ends
    requires divisor { IsDivisor divisor.now.number }
    requires small { IsSmall (ends_of ends.now) }
    ensures { ends_of result ≡ rule.ends (int_div ends.now.low divisor.now.number) (int_div ends.now.high divisor.now.number) }
{
    Ends {
        low: ends.low / divisor.number,
        high: ends.high / divisor.number,
    }
}

/// What is left of both ends.
#[tactic(auto, using(crate::proofs::Room::divides, crate::proofs::Room::quotient_fits, crate::proofs::Room::remainder_is))]
fn remainders_at(ends: &Ends, divisor: &Divisor) -> Ends
    requires divisor { IsDivisor divisor.now.number }
    requires small { IsSmall (ends_of ends.now) }
    ensures { ends_of result ≡ rule.ends (int_rem ends.now.low divisor.now.number) (int_rem ends.now.high divisor.now.number) }
{
    Ends {
        low: ends.low % divisor.number,
        high: ends.high % divisor.number,
    }
}

/// The interval of quotients, which are cut towards 0.
pub fn quotients(ends: &Ends, divisor: &Divisor) -> Ends
    requires divisor { IsDivisor divisor.now.number }
    requires small { IsSmall (ends_of ends.now) }
    ensures { ends_of result ≡ rule.quotients (ends_of ends.now) divisor.now.number }
{
    let at = quotients_at(ends, divisor);
    Ends {
        low: at.low.min(at.high),
        high: at.low.max(at.high),
    }
}

/// The interval of what is left where a multiple of the divisor lies between the ends.
fn across_a_multiple(ends: &Ends, divisor: &Divisor) -> Ends
    requires divisor { IsDivisor divisor.now.number }
    ensures { ends_of result ≡ rule.ends
        (if int_lt ends.now.low (pos 0) then int_max ends.now.low (pos 1 -ℤ pos (unsigned_abs divisor.now.number)) else pos 0)
        (if int_lt (pos 0) ends.now.high then int_min ends.now.high (pos (unsigned_abs divisor.now.number) -ℤ pos 1) else pos 0) }
{
    let all = all_remainders(divisor);
    let both = Ends {
        low: ends.low.max(all.low),
        high: ends.high.min(all.high),
    };
    if ends.low < 0 {
        if 0 < ends.high {
            return both;
        }
        return Ends {
            low: both.low,
            high: 0,
        };
    }
    if 0 < ends.high {
        return Ends {
            low: 0,
            high: both.high,
        };
    }
    Ends::zero()
}

/// The interval of what is left, which has the sign of what is divided.
pub fn remainders(ends: &Ends, divisor: &Divisor) -> Ends
    requires divisor { IsDivisor divisor.now.number }
    requires small { IsSmall (ends_of ends.now) }
    ensures { ends_of result ≡ rule.remainders (ends_of ends.now) divisor.now.number }
{
    let quotients = quotients_at(ends, divisor);
    if quotients.low == quotients.high {
        return remainders_at(ends, divisor);
    }
    across_a_multiple(ends, divisor)
}
