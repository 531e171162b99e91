//! An end of a cell's interval, and the values there.

ghost use Rattle.std.specs.Prelude.{◌≡◌, pos, ◌<ℤ◌, ◌≤ℤ◌, ◌+ℤ◌, ◌-ℤ◌, true, IfSome};
ghost use Rattle.prop_shave.specs.Ends.{IsWide, highest, lowest, step_at, upper_of};

use sopl_base::{Interval, Reason, Side, Step};

/// An end of a cell's interval, which has more than one value: for `Ge` the lower end, which a step may raise, for `Le` the upper one.
#[derive(Clone, Copy)]
pub struct CellEnd {
    pub cell: u32,
    pub side: Side,
    pub lo: i64,
    pub hi: i64,
}

/// How many values stand at an end, and how many more are tried next.
#[derive(Clone, Copy)]
pub struct Shave {
    pub count: i64,
    pub by: i64,
}

impl Shave {
    /// As many values, and `by` more; next time as many more as there are then.
    pub fn grown(&self) -> Option<Shave>
        ensures count { IfSome result (λ next. next.count ≡ self.now.count +ℤ self.now.by) }
        ensures by { IfSome result (λ next. next.by ≡ self.now.count +ℤ self.now.by) }
    {
        let count = self.count.checked_add(self.by)?;
        Some(Shave { count, by: count })
    }

    /// As many values, and next time half as many more.
    pub fn with_half(&self) -> Shave
        requires two { pos 1 <ℤ self.now.by }
        ensures count { result.count ≡ self.now.count }
        ensures at_least_one { pos 1 ≤ℤ result.by }
        ensures less { result.by <ℤ self.now.by }
    {
        Shave {
            count: self.count,
            by: self.by / 2,
        }
    }

    /// As many values as another says, and next time as many more as before.
    pub fn with_count(&self, other: &Shave) -> Shave
        ensures count { result.count ≡ other.now.count }
        ensures by { result.by ≡ self.now.by }
    {
        Shave {
            count: other.count,
            by: self.by,
        }
    }
}

impl CellEnd {
    /// The upper end of the same interval.
    pub fn upper(&self) -> CellEnd
        ensures { result ≡ upper_of self.now }
    {
        CellEnd {
            cell: self.cell,
            side: Side::Le,
            lo: self.lo,
            hi: self.hi,
        }
    }

    /// The lower end alone.
    pub(crate) fn low_alone(&self) -> Interval
        ensures low { result.lo ≡ self.now.lo }
        ensures high { result.hi ≡ self.now.lo }
    {
        Interval {
            lo: self.lo,
            hi: self.lo,
        }
    }

    /// The upper end alone.
    pub(crate) fn high_alone(&self) -> Interval
        ensures low { result.lo ≡ self.now.hi }
        ensures high { result.hi ≡ self.now.hi }
    {
        Interval {
            lo: self.hi,
            hi: self.hi,
        }
    }

    /// Whether there are more values than these, so that one stays where these are removed.
    pub fn has_more(&self, removal: &Shave) -> bool
        ensures { result ≡ true → removal.now.count ≤ℤ (self.now.hi -ℤ self.now.lo) }
    {
        match self.lo.checked_add(removal.count) {
            Some(next) => next <= self.hi,
            None => false,
        }
    }

    /// So many values from the lower end on.
    fn first_values(&self, removal: &Shave) -> Interval
        requires wide { IsWide self.now }
        requires at_least_one { pos 1 ≤ℤ removal.now.count }
        requires fewer { removal.now.count ≤ℤ (self.now.hi -ℤ self.now.lo) }
        ensures low { result.lo ≡ self.now.lo }
        ensures high { result.hi ≡ self.now.lo +ℤ (removal.now.count -ℤ pos 1) }
    {
        prove!(self.lo < self.hi);
        Interval {
            lo: self.lo,
            hi: self.lo + (removal.count - 1),
        }
    }

    /// So many values up to the upper end.
    fn last_values(&self, removal: &Shave) -> Interval
        requires wide { IsWide self.now }
        requires at_least_one { pos 1 ≤ℤ removal.now.count }
        requires fewer { removal.now.count ≤ℤ (self.now.hi -ℤ self.now.lo) }
        ensures low { result.lo ≡ self.now.hi -ℤ (removal.now.count -ℤ pos 1) }
        ensures high { result.hi ≡ self.now.hi }
    {
        prove!(self.lo < self.hi);
        Interval {
            lo: self.hi - (removal.count - 1),
            hi: self.hi,
        }
    }

    /// The outermost values at this end, so many of them.
    pub fn values(&self, removal: &Shave) -> Interval
        requires wide { IsWide self.now }
        requires at_least_one { pos 1 ≤ℤ removal.now.count }
        requires fewer { removal.now.count ≤ℤ (self.now.hi -ℤ self.now.lo) }
        ensures low { result.lo ≡ lowest self.now removal.now.count }
        ensures high { result.hi ≡ highest self.now removal.now.count }
    {
        match self.side {
            Side::Ge => self.first_values(removal),
            Side::Le => self.last_values(removal),
        }
    }

    /// The step that removes these values.
    pub fn step(&self, reason: Reason, removal: &Shave) -> Step
        requires wide { IsWide self.now }
        requires at_least_one { pos 1 ≤ℤ removal.now.count }
        requires fewer { removal.now.count ≤ℤ (self.now.hi -ℤ self.now.lo) }
        ensures { result ≡ step_at self.now reason removal.now.count }
    {
        match self.side {
            Side::Ge => Step {
                reason,
                cell: self.cell,
                side: self.side,
                k: self.lo + removal.count,
            },
            Side::Le => Step {
                reason,
                cell: self.cell,
                side: self.side,
                k: self.hi - removal.count,
            },
        }
    }
}
