//! How many numbers a range, a set or a domain may have.

ghost use Rattle.std.specs.Prelude.{◌≡◌, ℕ, nat_eq, pos, length};
ghost use Rattle.sopl_ast.specs.Numbers.{count_between};
ghost use Rattle.sopl_ast.specs.UnfoldEvents.{too_many};
ghost use Rattle.unfold_tables.specs.Tables.{shown};
ghost use Rattle.unfold_tables.specs.Walks.{Walks};

use crate::sets::{Ends, Numbers};
use sopl_base::{Excess, Fault, Wide, limits};

/// How many numbers there are from one end to another.
fn size_of(ends: &Ends) -> Wide
    ensures { result.value ≡ pos (count_between ends.now.lo ends.now.hi) }
{
    if ends.hi < ends.lo {
        return Wide::of(0);
    }
    let steps = Wide::of(ends.hi).minus(Wide::of(ends.lo));
    steps.plus(Wide::of(1))
}

/// Passes the limit with this code where a range or a domain has too many numbers.
pub fn checked_between(code: u16, ends: &Ends) -> Result<(), Fault>
    ensures { (count : ℕ) → Walks count count (too_many code (count_between ends.now.lo ends.now.hi)) result }
{
    checked_size(code, size_of(ends))
}

/// Passes the limit with this code where there are too many numbers.
pub fn checked_count(code: u16, numbers: usize) -> Result<(), Fault>
    ensures { (count : ℕ) → Walks count count (too_many code numbers) result }
{
    let size = Wide {
        value: numbers as i128,
    };
    checked_size(code, size)
}

/// Passes the limit with this code where there are too many numbers.
fn checked_size(code: u16, size: Wide) -> Result<(), Fault>
    ensures { (n count : ℕ) → size.value ≡ pos n → Walks count count (too_many code n) result }
{
    if size.value > limits::NUMBERS {
        return Err(Fault::Limit(Excess {
            code,
            counted: size.value,
            limit: limits::NUMBERS,
        }));
    }
    Ok(())
}

impl Numbers<'_> {
    /// Whether there are so many numbers.
    pub fn has_length(&self, count: usize) -> bool
        ensures { result ≡ nat_eq count (length (shown self.now)) }
    {
        match self {
            Numbers::Between(ends) => count as i128 == size_of(ends).value,
            Numbers::Listed(numbers) => count == numbers.len(),
        }
    }
}
