//! What is made of one number, and which of several is taken.

ghost use Rattle.std.specs.Prelude.{◌≡◌};
ghost use Rattle.term_language.specs.Ends as rule;
ghost use Rattle.term_math.specs.Shown.{ends_of};
ghost use Rattle.term_math.specs.Made.{IsPossible, IsSmall};

use crate::absolute::sizes;
use crate::divisions::{quotients, remainders};
use crate::ends::Ends;
use sopl_base::Extreme;
use term_language::Operation;

/// The interval of what is made of the numbers of an interval.
pub fn made(operation: &Operation, ends: &Ends) -> Ends
    requires possible { IsPossible operation.now }
    requires small { IsSmall (ends_of ends.now) }
    ensures { ends_of result ≡ rule.made operation.now (ends_of ends.now) }
{
    match operation {
        Operation::Quotient(divisor) => quotients(ends, divisor),
        Operation::Remainder(divisor) => remainders(ends, divisor),
        Operation::Size => sizes(ends),
    }
}

/// The interval of the one that is taken of two numbers.
pub fn taken(extreme: Extreme, a: &Ends, b: &Ends) -> Ends
    ensures { ends_of result ≡ rule.picked extreme (ends_of a.now) (ends_of b.now) }
{
    match extreme {
        Extreme::Least => Ends {
            low: a.low.min(b.low),
            high: a.high.min(b.high),
        },
        Extreme::Greatest => Ends {
            low: a.low.max(b.low),
            high: a.high.max(b.high),
        },
    }
}
