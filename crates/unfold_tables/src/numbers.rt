//! Arithmetic on the values of constants: exact, and nothing where a size passes 2^40 or a divisor is 0.

ghost use Rattle.std.specs.Prelude.{◌≡◌, ◌+◌, ◌^◌, ◌<◌, ◌≤◌, IfSome, ℤ, neg_ℤ, ◌+ℤ◌, option_and_then, if◌then◌else◌};
ghost use Rattle.std.specs.Int.RustNames.{unsigned_abs};
ghost use Rattle.sopl_base.specs.declared.limits.TheConstants as largest;
ghost use Rattle.sopl_ast.specs.declared.operators.MulOp.TheVariants.{Div, Mod};
ghost use Rattle.sopl_ast.specs.Constants as constants;
ghost use Rattle.sopl_ast.specs.Numbers as spec;

use sopl_ast::MulOp;
use sopl_base::{CmpOp, Wide, limits};

/// A number as a constant, if its size is at most 2^40.
pub fn within(number: i128) -> Option<i64>
    ensures value { result ≡ constants.within number }
    ensures small { IfSome result (λ x. unsigned_abs x ≤ largest.CONSTANT_SIZE) }
{
    if number.unsigned_abs() <= limits::CONSTANT_SIZE {
        Some(number as i64)
    } else {
        None
    }
}

/// A product, a quotient that is cut towards 0, or the remainder with the sign of the first number.
pub fn applied(op: MulOp, x: i64, y: i64) -> Option<i64>
    ensures { result ≡ option_and_then constants.within (spec.applied op x y) }
{
    match op {
        MulOp::Times => within(i128::from(x) * i128::from(y)),
        MulOp::Div => quotient(x, y),
        MulOp::Mod => remainder(x, y),
    }
}

/// A quotient, cut towards 0.
fn quotient(x: i64, y: i64) -> Option<i64>
    ensures { result ≡ option_and_then constants.within (spec.applied Div x y) }
{
    if y == 0 {
        return None;
    }
    within(i128::from(x) / i128::from(y))
}

/// A remainder, with the sign of the first number.
fn remainder(x: i64, y: i64) -> Option<i64>
    ensures { result ≡ option_and_then constants.within (spec.applied Mod x y) }
{
    if y == 0 {
        return None;
    }
    within(i128::from(x) % i128::from(y))
}

/// Whether a comparison holds.
pub fn compares(op: CmpOp, x: i64, y: i64) -> bool
    ensures { result ≡ spec.compares op x y }
{
    match op {
        CmpOp::Eq => x == y,
        CmpOp::Ne => x != y,
        CmpOp::Lt => x < y,
        CmpOp::Le => x <= y,
        CmpOp::Gt => x > y,
        CmpOp::Ge => x >= y,
    }
}

/// A condition as a number.
pub fn one_or_zero(holds: bool) -> i64
    ensures { result ≡ spec.one_or_zero holds }
{
    if holds { 1 } else { 0 }
}

/// Whether the number that a condition is worth says that it is true.
pub fn is_true(number: i64) -> bool
    ensures { result ≡ constants.is_true number }
{
    number != 0
}

/// A sum with one number more, or less.
pub fn with_number(sum: Wide, minus: bool, number: i64) -> Wide
    requires fits { unsigned_abs sum.value + unsigned_abs number < 2 ^ 127 }
    ensures { result.value ≡ sum.value +ℤ (if minus then neg_ℤ number else number) }
{
    let number = Wide::of(number);
    if minus {
        sum.minus(number)
    } else {
        sum.plus(number)
    }
}
