//! What is asked of constant places, as steps.

ghost use Rattle.std.specs.Prelude.{◌≡◌, ℕ, None, length};
ghost use Rattle.sopl_base.specs.declared.codes.TheConstants as codes;
ghost use Rattle.sopl_ast.specs.Constants.{numbers_in};
ghost use Rattle.sopl_ast.specs.UnfoldEvents.{range_events, too_many};
ghost use Rattle.sopl_ast.specs.Ranges.{range_of};
ghost use Rattle.unfold_constants.specs.CountedAnswers.{Answers};
ghost use Rattle.unfold_tables.specs.Tables.{shown, items};
ghost use Rattle.unfold_constants.specs.Here.{known_in};
ghost use Rattle.unfold_declarations.specs.Declaring as spec;

use sopl_ast::{Expr, RangeText};
use sopl_base::{Fault, codes};
use unfold_constants::ConstantScope;
use unfold_tables::{Count, Numbers, checked_count};

/// Counts one thing more.
pub fn count_one(count: &mut Count) -> Result<(), Fault>
    ensures { Answers (λ u. u) count.new.counted result (spec.count_one count.old.counted) }
{
    count.add()
}

/// The value of an expression that is a constant place of its own.
pub fn constant_at<'a>(
    known: &ConstantScope<'a>,
    count: &mut Count,
    e: &'a Expr,
) -> Result<i64, Fault>
    ensures { Answers (λ x. x) count.new.counted result (spec.constant (known_in known.now) e.now count.old.counted) }
{
    known.constant(count, e)
}

/// The numbers of a range or a set.
pub fn numbers_at<'a>(
    known: &ConstantScope<'a>,
    count: &mut Count,
    range: &'a RangeText,
) -> Result<Numbers<'a>, Fault>
    ensures { Answers shown count.new.counted result
        (spec.reached (range_events (known_in known.now) None (range_of range.now)) (numbers_in (known_in known.now) (range_of range.now)) count.old.counted) }
{
    known.range(count, range)
}

/// Gives these numbers back, unless they are more than a set may have.
pub fn checked_numbers(numbers: Vec<i64>) -> Result<Vec<i64>, Fault>
    ensures { (count : ℕ) → Answers items count result (spec.reached (too_many codes.NUMBERS (length numbers.items)) numbers.items count) }
{
    match checked_count(codes::NUMBERS, numbers.len()) {
        Ok(()) => Ok(numbers),
        Err(fault) => Err(fault),
    }
}
