//! Tasks whose numbers lie in intervals: what they ask for at a time, and the room that is left under a capacity.

ghost use Rattle.std.specs.Prelude.{◌≡◌, ◌+ℤ◌, ◌-ℤ◌, ◌≤ℤ◌, ◌&&◌, ◌||◌, int_le, int_lt, pos};
ghost use Rattle.std.specs.Int.{int_max};
ghost use Rattle.term_language.specs.Globals as globals;
ghost use Rattle.term_windows.specs.Tasks.{task_ends_of};

use term_language::Defined;
use term_math::Ends;

/// The intervals of a task's start, length and demand, and the mark of all three.
#[derive(Clone, Copy, Debug, PartialEq, Eq)]
pub struct TaskRange {
    pub start: Ends,
    pub duration: Ends,
    pub demand: Ends,
    pub mark: Defined,
}

/// A whole number.
#[derive(Clone, Copy, Debug, PartialEq, Eq)]
pub struct Amount {
    pub number: i64,
}

impl Amount {
    /// The lower end of an interval.
    pub fn lower(ends: &Ends) -> Amount
        ensures { result.number ≡ ends.now.low }
    {
        Amount { number: ends.low }
    }

    /// The upper end of an interval.
    pub fn upper(ends: &Ends) -> Amount
        ensures { result.number ≡ ends.now.high }
    {
        Amount { number: ends.high }
    }

    /// Nothing.
    fn zero() -> Amount
        ensures { result.number ≡ pos 0 }
    {
        Amount { number: 0 }
    }

    /// The number, or 0 where it is negative.
    fn or_zero(&self) -> Amount
        ensures { result.number ≡ int_max self.now.number (pos 0) }
    {
        Amount {
            number: self.number.max(0),
        }
    }

    /// What is left of it without another one.
    pub fn without(&self, other: &Amount) -> Amount
        requires some { pos 0 ≤ℤ other.now.number }
        requires room { other.now.number ≤ℤ self.now.number }
        ensures { result.number ≡ (self.now.number -ℤ other.now.number) }
    {
        Amount {
            number: self.number - other.number,
        }
    }

    /// Whether it is less than the sum of two others.
    fn is_before(&self, start: &Amount, duration: &Amount) -> bool
        ensures { result ≡ int_lt self.now.number (start.now.number +ℤ duration.now.number) }
    {
        if duration.number < 0 {
            return self.number < start.number
                && duration.number.unsigned_abs() < start.number.abs_diff(self.number);
        }
        if self.number < start.number {
            return true;
        }
        self.number.abs_diff(start.number) < duration.number.unsigned_abs()
    }
}

impl TaskRange {
    /// The length or the demand is surely negative.
    pub fn is_negative(&self) -> bool
        ensures { result ≡ (int_lt self.now.duration.high (pos 0) || int_lt self.now.demand.high (pos 0)) }
    {
        self.duration.high < 0 || self.demand.high < 0
    }

    /// Neither the length nor the demand may be negative.
    pub fn is_sound(&self) -> bool
        ensures { result ≡ (int_le (pos 0) self.now.duration.low && int_le (pos 0) self.now.demand.low) }
    {
        0 <= self.duration.low && 0 <= self.demand.low
    }

    /// What the task surely asks for at a time.
    pub fn least_asked(&self, time: &Amount) -> Amount
        ensures { result.number ≡ globals.least_asked time.now.number (task_ends_of self.now) }
    {
        if time.number < self.start.high {
            return Amount::zero();
        }
        let duration = Amount::lower(&self.duration).or_zero();
        if !time.is_before(&Amount::lower(&self.start), &duration) {
            return Amount::zero();
        }
        Amount::lower(&self.demand).or_zero()
    }

    /// What the task may ask for at a time.
    pub fn most_asked(&self, time: &Amount) -> Amount
        ensures { result.number ≡ globals.most_asked time.now.number (task_ends_of self.now) }
    {
        if time.number < self.start.low {
            return Amount::zero();
        }
        if !time.is_before(&Amount::upper(&self.start), &Amount::upper(&self.duration)) {
            return Amount::zero();
        }
        Amount::upper(&self.demand)
    }
}
