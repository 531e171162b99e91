//! Numbers in order, and what is said of them together.

ghost use Rattle.std.specs.Prelude.{◌≡◌, [], ◌∷◌, ◌++◌, OnOk, IfOk};
ghost use Rattle.std.specs.List.{list_all, list_any};
ghost use Rattle.sopl_base.specs.Extremes.{chosen_by};
ghost use Rattle.sopl_ast.specs.Constants as constants;
ghost use Rattle.sopl_ast.specs.Numbers as spec;

use crate::numbers::{is_true, with_number};
use sopl_base::{Extreme, Wide};
use std::alloc::{AllocError, Global};
use std::collections::BTreeSet;

/// Whether each of the numbers says that a condition is true.
pub fn all_true(numbers: &[i64]) -> bool
    ensures { result ≡ list_all constants.is_true numbers.now }
{
    numbers.iter().all(|number| is_true(*number))
}

/// Whether one of the numbers says that a condition is true.
pub fn some_true(numbers: &[i64]) -> bool
    ensures { result ≡ list_any constants.is_true numbers.now }
{
    numbers.iter().any(|number| is_true(*number))
}

/// Adds a number at the end.
pub fn add(numbers: &mut Vec<i64>, number: i64) -> Result<(), AllocError>
    ensures { OnOk result (numbers.new.items ≡ numbers.old.items ++ number ∷ []) }
{
    numbers.push(number)?;
    Ok(())
}

/// The one that is taken of two numbers.
fn chosen(which: Extreme, x: i64, y: i64) -> i64
    ensures { result ≡ chosen_by which x y }
{
    match which {
        Extreme::Least => x.min(y),
        Extreme::Greatest => x.max(y),
    }
}

/// The least or the greatest of the numbers, if there is one.
#[tactic(auto, using(crate::proofs::Folds::folds))]
pub fn extreme(which: Extreme, numbers: &[i64]) -> Option<i64>
    ensures { result ≡ spec.extreme (chosen_by which) numbers.now }
{
    let (first, others) = numbers.split_first()?;
    let mut extreme = *first;
    'others: for number in others {
        extreme = chosen(which, extreme, *number);
    }
    Some(extreme)
}

/// The sum of the numbers.
#[tactic(auto, using(crate::proofs::Folds::totals))]
pub fn total(numbers: &[i64]) -> Wide
    ensures { result.value ≡ spec.total numbers.now }
{
    let mut total = Wide::of(0);
    'numbers: for number in numbers {
        total = with_number(total, false, *number);
    }
    total
}

/// Whether no two of the numbers are the same.
#[tactic(auto, using(crate::proofs::Distinct::distinct))]
pub fn all_distinct(alloc: Global, numbers: &[i64]) -> Result<bool, AllocError>
    ensures { IfOk result (λ all. all ≡ spec.all_distinct numbers.now) }
{
    let mut seen = BTreeSet::new(alloc);
    'numbers: for number in numbers {
        if !seen.insert(*number)? {
            return Ok(false);
        }
    }
    Ok(true)
}
