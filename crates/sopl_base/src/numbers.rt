//! Exact comparisons and the arithmetic of intervals.

ghost use Rattle.std.specs.Prelude.{◌≡◌, ◌+◌, ◌*◌, ◌^◌, ◌<◌, ◌≤◌, ◌↔◌, IsTrue, pos, neg_ℤ, ◌+ℤ◌, ◌-ℤ◌, ◌*ℤ◌, ◌≤ℤ◌, ◌<ℤ◌, unsigned_abs};
ghost use Rattle.sopl_base.specs.Better.{IsBetter};

use crate::direction::Direction;
use crate::wide::Wide;

/// Whether `sum / total` is at least `p / q`, without a division.
pub fn reaches(sum: i128, total: i128, p: i64, q: i64) -> bool
    requires sum_low { pos 0 ≤ℤ sum }
    requires sum_high { sum ≤ℤ total }
    requires total_high { total ≤ℤ pos (2 ^ 100) }
    requires p_low { pos 0 ≤ℤ p }
    requires p_high { p ≤ℤ q }
    requires q_low { pos 1 ≤ℤ q }
    requires q_high { q ≤ℤ pos (2 ^ 20) }
    ensures { IsTrue result ↔ ((p *ℤ total) ≤ℤ (q *ℤ sum)) }
{
    weighed(p, total).value <= weighed(q, sum).value
}

/// A part of a threshold times a sum of weights.
fn weighed(factor: i64, sum: i128) -> Wide
    requires factor_low { pos 0 ≤ℤ factor }
    requires factor_high { factor ≤ℤ pos (2 ^ 20) }
    requires sum_low { pos 0 ≤ℤ sum }
    requires sum_high { sum ≤ℤ pos (2 ^ 100) }
    ensures { result.value ≡ factor *ℤ sum }
{
    Wide::of(factor).times(Wide { value: sum })
}

/// Whether the objective's value `a` is better than `b`.
pub fn better(direction: Direction, a: i128, b: i128) -> bool
    ensures { IsTrue result ↔ IsBetter direction a b }
{
    match direction {
        Direction::Minimize => a < b,
        Direction::Maximize => a > b,
        Direction::Nothing => false,
    }
}

/// How many binary digits `hi - lo` has; none where the two are equal.
pub fn bits(lo: i64, hi: i64) -> u32
    requires order { lo ≤ℤ hi }
    requires low { neg_ℤ (pos (2 ^ 40)) ≤ℤ lo }
    requires high { hi ≤ℤ pos (2 ^ 40) }
    ensures none { lo ≡ hi → result ≡ 0 }
    ensures enough { unsigned_abs (hi -ℤ lo) < 2 ^ result }
    ensures least { lo <ℤ hi → 2 ^ result ≤ 2 * unsigned_abs (hi -ℤ lo) }
{
    match hi.abs_diff(lo).checked_ilog2() {
        Some(top) => top + 1,
        None => 0,
    }
}

/// The middle of an interval, rounded towards its lower end.
pub fn midpoint(lo: i64, hi: i64) -> i64
    requires order { lo ≤ℤ hi }
    requires low { neg_ℤ (pos (2 ^ 40)) ≤ℤ lo }
    requires high { hi ≤ℤ pos (2 ^ 40) }
    ensures from_low { lo ≤ℤ result }
    ensures below_high { lo <ℤ hi → result <ℤ hi }
    ensures within { result ≤ℤ hi }
    ensures half { (pos 2 *ℤ (result -ℤ lo)) ≤ℤ (hi -ℤ lo) }
    ensures rounded { (hi -ℤ lo) ≤ℤ (pos 2 *ℤ (result -ℤ lo) +ℤ pos 1) }
{
    lo + (hi - lo) / 2
}
