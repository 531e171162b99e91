//! One cell of a comparison's sum.

ghost use Rattle.std.specs.Prelude.{◌≡◌, pos, ◌≤ℤ◌, ◌-ℤ◌, true, false, IfNone, IfSome};
ghost use Rattle.term_language.specs.Ends as rule;
ghost use Rattle.term_language.specs.Marks as marks;
ghost use Rattle.prop_shave.specs.Ends.{highest, lowest, upper_of};
ghost use Rattle.term_math.specs.Shown.{ends_of};
ghost use Rattle.prop_linear.specs.Turns.{HasRoom, IsRemoval, part_of, turn_closes, with_end};

use prop_shave::{CellEnd, Shave};
use sopl_base::CmpOp;
use term_math::{Ends, Factor, none_compares};

/// An end of a cell's interval, how often the cell counts in a sum that is compared with 0, and the interval of all else in the sum.
#[derive(Clone, Copy)]
pub(crate) struct Turn {
    pub(crate) op: CmpOp,
    pub(crate) k: i64,
    pub(crate) others: Ends,
    pub(crate) end: CellEnd,
}

impl Turn {
    /// This turn at the upper end.
    pub(crate) fn upper(&self) -> Turn
        ensures { result ≡ with_end self.now (upper_of self.now.end) }
    {
        Turn {
            op: self.op,
            k: self.k,
            others: self.others,
            end: self.end.upper(),
        }
    }

    /// So many values at the end, as an interval.
    fn values(&self, removal: &Shave) -> Ends
        requires room { HasRoom self.now }
        requires at_least_one { pos 1 ≤ℤ removal.now.count }
        requires fewer { removal.now.count ≤ℤ (self.now.end.hi -ℤ self.now.end.lo) }
        ensures { ends_of result ≡ rule.ends (lowest self.now.end removal.now.count) (highest self.now.end removal.now.count) }
    {
        let values = self.end.values(removal);
        Ends {
            low: values.lo,
            high: values.hi,
        }
    }

    /// How often the cell counts, as a factor.
    fn factor(&self) -> Factor
        ensures { result.k ≡ self.now.k }
    {
        Factor { k: self.k }
    }

    /// The sum, where the cell has one of so many values at the end.
    fn sum(&self, removal: &Shave) -> Ends
        requires room { HasRoom self.now }
        requires at_least_one { pos 1 ≤ℤ removal.now.count }
        requires fewer { removal.now.count ≤ℤ (self.now.end.hi -ℤ self.now.end.lo) }
        ensures { ends_of result ≡ rule.plus (ends_of self.now.others) (part_of self.now removal.now.count) }
    {
        let part = self.values(removal).scaled(&self.factor());
        self.others.plus(&part)
    }

    /// Whether the comparison is false wherever the cell has one of so many values at the end.
    fn closes(&self, removal: &Shave) -> bool
        requires room { HasRoom self.now }
        requires at_least_one { pos 1 ≤ℤ removal.now.count }
        requires fewer { removal.now.count ≤ℤ (self.now.end.hi -ℤ self.now.end.lo) }
        ensures { result ≡ turn_closes self.now removal.now.count }
    {
        none_compares(self.op, &self.sum(removal))
    }

    /// How far a sum is past the last one for which the comparison is false.
    fn slack(&self, sum: &Ends) -> Option<i64> {
        match self.op {
            CmpOp::Eq => {
                if 0 < sum.low {
                    sum.low.checked_sub(1)
                } else {
                    below_zero(sum.high)
                }
            }
            CmpOp::Ne => Some(0),
            CmpOp::Lt => Some(sum.low),
            CmpOp::Le => sum.low.checked_sub(1),
            CmpOp::Gt => 0i64.checked_sub(sum.high),
            CmpOp::Ge => below_zero(sum.high),
        }
    }

    /// How many values at the end may go by the slack of the outermost one: each next value takes as much of it as the cell counts.
    fn proposed(&self, first: &Shave) -> Option<Shave>
        requires room { HasRoom self.now }
        requires at_least_one { pos 1 ≤ℤ first.now.count }
        requires fewer { first.now.count ≤ℤ (self.now.end.hi -ℤ self.now.end.lo) }
        ensures at_least_one { IfSome result (λ more. pos 1 ≤ℤ more.count) }
        ensures fewer { IfSome result (λ more. more.count ≤ℤ (self.now.end.hi -ℤ self.now.end.lo)) }
    {
        let slack = self.slack(&self.sum(first))?;
        let steps = slack.checked_div(self.k)?;
        self.removal_of(steps.checked_abs()?)
    }

    /// So many values and one more, as far as one value stays.
    fn removal_of(&self, steps: i64) -> Option<Shave>
        ensures at_least_one { IfSome result (λ more. pos 1 ≤ℤ more.count) }
        ensures fewer { IfSome result (λ more. more.count ≤ℤ (self.now.end.hi -ℤ self.now.end.lo)) }
    {
        let most = self.end.hi.checked_sub(self.end.lo)?;
        let count = steps.checked_add(1)?.min(most);
        if count < 1 {
            return None;
        }
        Some(Shave { count, by: 1 })
    }

    /// More values that are proposed, where these may go, else those before.
    fn better(&self, first: &Shave, more: &Shave) -> Shave
        requires room { HasRoom self.now }
        requires first { IsRemoval self.now first.now }
        requires at_least_one { pos 1 ≤ℤ more.now.count }
        requires fewer { more.now.count ≤ℤ (self.now.end.hi -ℤ self.now.end.lo) }
        ensures { IsRemoval self.now result }
    {
        if self.closes(more) { *more } else { *first }
    }

    /// How many values at the end may go; none where the outermost one may stay.
    pub(crate) fn removal(&self) -> Option<Shave>
        requires room { HasRoom self.now }
        ensures removal { IfSome result (IsRemoval self.now) }
        ensures none { IfNone result (turn_closes self.now (pos 1) ≡ false) }
    {
        let first = Shave { count: 1, by: 1 };
        if !self.closes(&first) {
            return None;
        }
        match self.proposed(&first) {
            Some(more) => Some(self.better(&first, &more)),
            None => Some(first),
        }
    }
}

/// How far a number is below -1.
fn below_zero(k: i64) -> Option<i64> {
    (-1i64).checked_sub(k)
}
