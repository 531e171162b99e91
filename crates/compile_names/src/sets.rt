//! The index sets of an array.

ghost use Rattle.std.specs.Prelude.{◌≡◌, ◌∷◌, [], map, pos, get_or, IfOk, OnOk};
ghost use Rattle.std.specs.BTreeSet.{insert_key};
ghost use Rattle.std.specs.List.{range_with_len};
ghost use Rattle.std.specs.Ordering.{int_cmp};
ghost use Rattle.sopl_ast.specs.References.{now_of};
ghost use Rattle.compile_laws.specs.Instances as instances;
ghost use Rattle.term_math.specs.Kept as kept;
ghost use Rattle.compile_names.specs.Kept.{column};

use std::alloc::{AllocError, Global};
use std::collections::BTreeSet;

/// The numbers that stand at each place of these indices, in ascending order and each once; one set with no number where there is no index.
pub(crate) fn sets_of(alloc: Global, given: &[&[i64]]) -> Result<Vec<Vec<i64>>, AllocError>
    ensures { IfOk result (λ sets. kept.sets_of sets.items ≡ instances.sets_of (map now_of given.now)) }
{
    let Some(first) = given.first() else {
        return one_empty(alloc);
    };
    columns(alloc, given, first.len())
}

/// One set with no number.
fn one_empty(alloc: Global) -> Result<Vec<Vec<i64>>, AllocError>
    ensures { IfOk result (λ sets. kept.sets_of sets.items ≡ [] ∷ []) }
{
    let mut sets = Vec::new(alloc);
    sets.push(Vec::new(alloc))?;
    Ok(sets)
}

/// The numbers that stand at each of so many places of these indices.
#[tactic(auto, using(crate::proofs::Columns::column_more, crate::proofs::Columns::columns_end))]
fn columns(alloc: Global, given: &[&[i64]], count: usize) -> Result<Vec<Vec<i64>>, AllocError>
    ensures { IfOk result (λ sets. kept.sets_of sets.items ≡ map (column (map now_of given.now)) (range_with_len 0 count)) }
{
    let mut sets = Vec::new(alloc);
    'places: for place in 0..count {
        let numbers = numbers_at(alloc, given, place)?;
        sets.push(numbers)?;
    }
    Ok(sets)
}

/// The numbers that stand at a place of these indices, in ascending order and each once.
#[tactic(auto, using(crate::proofs::Columns::number_more, crate::proofs::Columns::numbers_end))]
fn numbers_at(alloc: Global, given: &[&[i64]], place: usize) -> Result<Vec<i64>, AllocError>
    ensures { IfOk result (λ numbers. numbers.items ≡ column (map now_of given.now) place) }
{
    let mut numbers = BTreeSet::new(alloc);
    'given: for index in given {
        put(&mut numbers, index, place)?;
    }
    numbers.iter().copied().collect(alloc)
}

/// Puts the number at a place of an index into a set; 0 where the index ends before.
fn put(numbers: &mut BTreeSet<i64>, index: &[i64], place: usize) -> Result<(), AllocError>
    ensures { OnOk result (numbers.new.keys ≡ insert_key int_cmp numbers.old.keys (get_or index.now place (pos 0))) }
{
    numbers.insert(index.get(place).copied().unwrap_or(0))?;
    Ok(())
}
