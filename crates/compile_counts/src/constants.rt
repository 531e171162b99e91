//! What is asked at constant places of a text that passes, where no refusal is left but out of memory.

ghost use Rattle.std.specs.Prelude.{◌≡◌, ◌≤◌, false, Ok, IfOk, IfErr, Some, pos};
ghost use Rattle.std.specs.Int.RustNames.{unsigned_abs};
ghost use Rattle.std.specs.Ordering.{int_eq};
ghost use Rattle.sopl_base.specs.declared.fault.Fault.TheVariants.{NoMemory};
ghost use Rattle.sopl_base.specs.declared.limits.TheConstants as largest;
ghost use Rattle.sopl_ast.specs.Constants.{value, numbers_in};
ghost use Rattle.sopl_ast.specs.UnfoldEvents.{divisor_events, range_events};
ghost use Rattle.sopl_ast.specs.Ranges.{range_of};
ghost use Rattle.unfold_constants.specs.Here.{known_in};
ghost use Rattle.unfold_laws.specs.Passing.{NothingFails};
ghost use Rattle.unfold_tables.specs.Tables.{shown};

use sopl_ast::{Expr, RangeText};
use sopl_base::Fault;
use std::alloc::AllocError;
use unfold_constants::ConstantScope;
use unfold_tables::{Count, Numbers};

/// The value of an expression that divides; it is not 0.
pub fn divisor<'a>(known: &ConstantScope<'a>, e: &'a Expr) -> Result<i64, AllocError>
    requires passes { NothingFails (divisor_events (known_in known.now) e.now) }
    ensures value { IfOk result (λ x. value (known_in known.now) e.now ≡ Some x) }
    ensures nonzero { IfOk result (λ x. int_eq x (pos 0) ≡ false) }
    ensures small { IfOk result (λ x. unsigned_abs x ≤ largest.CONSTANT_SIZE) }
{
    let mut count = Count::new();
    memory_alone(known.constant(&mut count, e))
}

/// The numbers of a range or a set. Its ends belong to the constant expression that begins at `whole`; with none, each of them is a constant place of its own.
pub fn numbers_at<'a>(
    known: &ConstantScope<'a>,
    whole: Option<usize>,
    range: &'a RangeText,
) -> Result<Numbers<'a>, AllocError>
    requires passes { NothingFails (range_events (known_in known.now) whole (range_of range.now)) }
    ensures numbers { IfOk result (λ numbers. shown numbers ≡ numbers_in (known_in known.now) (range_of range.now)) }
{
    let mut count = Count::new();
    memory_alone(known.range_inside(&mut count, whole, range))
}

/// An answer that is missing only where memory runs out.
fn memory_alone<T>(answer: Result<T, Fault>) -> Result<T, AllocError>
    requires memory { IfErr answer (λ fault. fault ≡ NoMemory) }
    ensures same { IfOk result (λ x. answer ≡ Ok x) }
{
    match answer {
        Ok(x) => Ok(x),
        Err(Fault::NoMemory) => Err(AllocError),
        Err(_) => unreachable!(),
    }
}
