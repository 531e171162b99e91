//! Arithmetic on numbers that may be undefined: exact, where what comes of it is of a size that constants have.

ghost use Rattle.std.specs.Prelude.{◌≡◌, ◌*ℤ◌, ℕ, List, map, option_and_then, option_map, IfOk};
ghost use Rattle.sopl_base.specs.Extremes.{chosen_by};
ghost use Rattle.sopl_ast.specs.Meanings as meant;
ghost use Rattle.sopl_ast.specs.Numbers as spec;
ghost use Rattle.sopl_ast.specs.Constants.{within as constant_within};
ghost use Rattle.unfold_tables.specs.Tables.{items, tasks_of};
ghost use Rattle.policy_values.specs.Safe.{HasConstantSize};

use sopl_ast::{Function, MulOp};
use sopl_base::{CmpOp, Extreme, Wide};
use std::alloc::{AllocError, Global};
use unfold_tables::{
    all_distinct, applied, are_within, compares, extreme, one_or_zero, total, within,
};

/// What a function makes of a number.
#[tactic(auto, using(crate::proofs::Sized::sized))]
pub(crate) fn called(function: Function, x: Option<i64>) -> Option<i64>
    requires small { HasConstantSize (option_map (spec.called function) x) }
    ensures value { result ≡ option_map (spec.called function) x }
{
    match x {
        Some(x) => within(function.of(x)),
        None => None,
    }
}

/// A sum that is done.
#[tactic(auto, using(crate::proofs::Sized::sized))]
pub(crate) fn summed(sum: &Wide) -> Option<i64>
    ensures value { result ≡ constant_within sum.now.value }
{
    within(sum.value)
}

/// The product of two numbers.
#[tactic(auto, using(crate::proofs::Sized::sized))]
pub(crate) fn product(x: Option<i64>, y: Option<i64>) -> Option<i64>
    requires small { HasConstantSize (spec.both_of ◌*ℤ◌ x y) }
    ensures value { result ≡ spec.both_of ◌*ℤ◌ x y }
{
    let x = x?;
    let y = y?;
    applied(MulOp::Times, x, y)
}

/// A number divided by another.
#[tactic(auto, using(crate::proofs::Sized::sized))]
pub(crate) fn divided(op: MulOp, x: Option<i64>, divisor: i64) -> Option<i64>
    requires small { HasConstantSize (option_and_then (λ z. spec.applied op z divisor) x) }
    ensures value { result ≡ option_and_then (λ z. spec.applied op z divisor) x }
{
    match x {
        Some(x) => applied(op, x, divisor),
        None => None,
    }
}

/// Whether a comparison holds of two numbers; with an undefined one it does not.
pub(crate) fn compared(op: CmpOp, x: Option<i64>, y: Option<i64>) -> bool
    ensures holds { result ≡ meant.compared op x y }
{
    let Some(x) = x else {
        return false;
    };
    match y {
        Some(y) => compares(op, x, y),
        None => false,
    }
}

/// A condition as a number.
pub(crate) fn truth(holds: bool) -> Option<i64>
    ensures value { result ≡ (meant.condition holds).value }
{
    Some(one_or_zero(holds))
}

/// The sum of numbers, where each is there.
#[tactic(auto, using(crate::proofs::Sized::sized))]
pub(crate) fn total_of(numbers: Option<Vec<i64>>) -> Option<i64>
    requires small { HasConstantSize (option_map (λ xs. spec.total (items xs)) numbers) }
    ensures value { result ≡ option_map (λ xs. spec.total (items xs)) numbers }
{
    match numbers {
        Some(numbers) => summed(&total(numbers.as_slice())),
        None => None,
    }
}

/// The least or the greatest of numbers, where each is there and there is one.
pub(crate) fn extreme_of(which: Extreme, numbers: Option<Vec<i64>>) -> Option<i64>
    ensures value { result ≡ option_and_then (λ xs. spec.extreme (chosen_by which) (items xs)) numbers }
{
    match numbers {
        Some(numbers) => extreme(which, numbers.as_slice()),
        None => None,
    }
}

/// Whether numbers are all different, where each is there.
pub(crate) fn are_different(alloc: Global, numbers: Option<Vec<i64>>) -> Result<bool, AllocError>
    ensures holds { IfOk result (λ all. all ≡ meant.are_different (option_map items numbers)) }
{
    match numbers {
        Some(numbers) => all_distinct(alloc, numbers.as_slice()),
        None => Ok(false),
    }
}

/// Whether tasks keep within a capacity, where all of them and the capacity are there.
pub(crate) fn fit(
    alloc: Global,
    tasks: Option<Vec<i64>>,
    capacity: Option<i64>,
) -> Result<bool, AllocError>
    ensures holds { IfOk result (λ all. all ≡ meant.fit (option_map (λ xs. tasks_of (items xs)) tasks) capacity) }
{
    let Some(capacity) = capacity else {
        return Ok(false);
    };
    match tasks {
        Some(tasks) => are_within(alloc, capacity, tasks.as_slice()),
        None => Ok(false),
    }
}
