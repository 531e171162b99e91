//! Intervals of whole numbers.

ghost use Rattle.std.specs.Prelude.{◌≡◌, ◌≤ℤ◌, ◌↔◌, IsSome, IfSome};

/// All whole numbers from `lo` to `hi`, both ends among them; it is never empty.
#[derive(Clone, Copy, Debug)]
pub struct Interval {
    pub lo: i64,
    pub hi: i64,
    ghost ordered: { lo ≤ℤ hi },
}

impl Interval {
    /// The interval from `lo` to `hi`, or none where it would be empty.
    pub fn new(lo: i64, hi: i64) -> Option<Interval>
        ensures exists { IsSome result ↔ (lo ≤ℤ hi) }
        ensures ends { IfSome result (λ interval. (interval.lo ≡ lo) × (interval.hi ≡ hi)) }
    {
        if lo <= hi {
            Some(Interval { lo, hi })
        } else {
            None
        }
    }
}
