//! The elements of sets.

ghost use Rattle.std.specs.Prelude.{◌≡◌, [], IfOk, OnOk};
ghost use Rattle.std.specs.BTreeSet.{insert_key};
ghost use Rattle.std.specs.Ordering.{int_cmp};
ghost use Rattle.sopl_ast.specs.Lists.{trees};
ghost use Rattle.unfold_constants.specs.CountedAnswers.{Answers};
ghost use Rattle.unfold_tables.specs.Tables.{items};
ghost use Rattle.unfold_constants.specs.Here.{known_in};
ghost use Rattle.unfold_declarations.specs.Declaring as spec;

use crate::calls::{checked_numbers, constant_at};
use sopl_ast::Expr;
use sopl_base::Fault;
use std::alloc::{AllocError, Global};
use std::collections::BTreeSet;
use unfold_constants::ConstantScope;
use unfold_tables::Count;

/// The numbers of a set in ascending order, each once.
pub fn set_numbers<'a>(
    alloc: Global,
    known: &ConstantScope<'a>,
    count: &mut Count,
    elements: &'a [Expr],
) -> Result<Vec<i64>, Fault>
    ensures { Answers items count.new.counted result (spec.set_numbers (known_in known.now) (trees elements.now) count.old.counted) }
{
    let set = values(alloc, known, count, elements)?;
    let numbers = listed(alloc, &set)?;
    checked_numbers(numbers)
}

/// The values of expressions, as a set.
fn values<'a>(
    alloc: Global,
    known: &ConstantScope<'a>,
    count: &mut Count,
    elements: &'a [Expr],
) -> Result<BTreeSet<i64>, Fault>
    ensures { Answers (λ set. set.keys) count.new.counted result (spec.elements (known_in known.now) [] (trees elements.now) count.old.counted) }
{
    let mut set = BTreeSet::new(alloc);
    'elements: for element in elements {
        let number = constant_at(known, count, element)?;
        put(&mut set, number)?;
    }
    Ok(set)
}

/// Puts a number into a set.
fn put(set: &mut BTreeSet<i64>, number: i64) -> Result<(), AllocError>
    ensures { OnOk result (set.new.keys ≡ insert_key int_cmp set.old.keys number) }
{
    set.insert(number)?;
    Ok(())
}

/// The numbers of a set, in ascending order.
fn listed(alloc: Global, set: &BTreeSet<i64>) -> Result<Vec<i64>, AllocError>
    ensures { IfOk result (λ numbers. numbers.items ≡ set.now.keys) }
{
    let mut numbers = Vec::new(alloc);
    'set: for number in set {
        numbers.push(*number)?;
    }
    Ok(numbers)
}
