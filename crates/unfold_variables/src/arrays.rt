//! The walk through the indices of an array.

ghost use Rattle.std.specs.Prelude.{◌≡◌, ◌≤◌, ◌+◌, ℕ, ℤ, List, Result, [], ◌∷◌, ◌++◌, drop, length, OnOk};
ghost use Rattle.sopl_base.specs.declared.fault.Fault.{Fault as FaultValue};
ghost use Rattle.sopl_ast.specs.Known.{Known as KnownValue};
ghost use Rattle.unfold_constants.specs.Choosing.{Leads};
ghost use Rattle.unfold_constants.specs.CountedAnswers.{Answers};
ghost use Rattle.unfold_constants.specs.Here.{known_in};
ghost use Rattle.unfold_declarations.specs.Places.{entered, give_dimension, leave_dimension, remaining, turns, turns_left};
ghost use Rattle.unfold_declarations.specs.Shown.{dimensions_in, dimensions_open, prefix_in};
ghost use Rattle.unfold_variables.specs.Listing as spec;

use crate::calls::dimensions_at;
use sopl_ast::Dim;
use sopl_base::Fault;
use std::alloc::{AllocError, Global};
use unfold_constants::ConstantScope;
use unfold_declarations::{Dimension, IndexPrefix, IndexWalk, any_empty, count_one};
use unfold_tables::Count;

/// What stands at each index of an array.
pub trait Element<T> {
    // What it answers at an index, from what is known there.
    ghost step: { Self → KnownValue → List ℤ → ℕ → Result (T × ℕ) FaultValue };

    /// What stands at an index.
    fn at(&self, prefix: &IndexPrefix<'_>, count: &mut Count) -> Result<T, Fault>
        ensures { Answers (λ x. x) count.new.counted result (step self.now (known_in prefix.now.known) prefix.now.index.items count.old.counted) };
}

/// What stands at each index of an array, in lexicographic order of the indices.
pub fn array<'a, T: Drop, E: Element<T>>(
    alloc: Global,
    known: &ConstantScope<'a>,
    count: &mut Count,
    dims: &'a [Dim],
    element: &E,
) -> Result<Vec<T>, Fault>
    ensures { Answers (λ found. found.items) count.new.counted result
        (spec.array (E.step element.now) (known_in known.now) dims.now count.old.counted) }
{
    let left = dimensions_at(alloc, known, count, dims)?;
    let prefix = IndexPrefix::new(alloc, known)?;
    let mut found = Vec::new(alloc);
    listed(&prefix, count, left.as_slice(), element, &mut found)?;
    Ok(found)
}

/// Adds what stands at each index with this prefix.
#[tactic(auto, using(crate::proofs::Listed::listing))]
fn listed<'a, T: Drop, E: Element<T>>(
    prefix: &IndexPrefix<'a>,
    count: &mut Count,
    left: &[Dimension<'a>],
    element: &E,
    found: &mut Vec<T>,
) -> Result<(), Fault>
    ensures { Answers (λ u. found.new.items) count.new.counted result
        (spec.listed (E.step element.now) (known_in prefix.now.known) (dimensions_in left.now) prefix.now.index.items found.old.items count.old.counted) }
{
    if any_empty(left) {
        return Ok(());
    }
    let mut walk = IndexWalk::new(prefix)?;
    enter(&mut walk, count, left, element, found)?;
    'walk: while walk.advance()? {
        enter(&mut walk, count, left, element, found)?;
    }
    Ok(())
}

/// Adds what stands at an index where all dimensions have numbers; else opens the next one.
#[tactic(auto, using(crate::proofs::Listed::listing))]
fn enter<'a, T: Drop, E: Element<T>>(
    walk: &mut IndexWalk<'a>,
    count: &mut Count,
    left: &[Dimension<'a>],
    element: &E,
    found: &mut Vec<T>,
) -> Result<(), Fault>
    ensures leads { Leads
        (entered give_dimension leave_dimension (spec.inside (E.step element.now) (dimensions_in left.now)) (prefix_in walk.old.prefix) (dimensions_open walk.old)
        found.old.items count.old.counted)
        (remaining give_dimension leave_dimension (spec.inside (E.step element.now) (dimensions_in left.now)) (prefix_in walk.new.prefix) (dimensions_open walk.new)
        found.new.items count.new.counted)
        result }
    ensures turns { OnOk result (turns_left (dimensions_in left.now) (dimensions_open walk.new)
        ≤ turns (drop (length (dimensions_open walk.old)) (dimensions_in left.now)) + turns_left (dimensions_in left.now) (dimensions_open walk.old)) }
{
    let Some(dimension) = left.get(walk.depth()) else {
        add(&walk.prefix, count, element, found)?;
        walk.leave();
        return Ok(());
    };
    walk.begin(dimension)?;
    Ok(())
}

/// Adds what stands at an index, which is counted.
fn add<'a, T: Drop, E: Element<T>>(
    prefix: &IndexPrefix<'a>,
    count: &mut Count,
    element: &E,
    found: &mut Vec<T>,
) -> Result<(), Fault>
    ensures { Answers (λ u. found.new.items) count.new.counted result
        (spec.listed (E.step element.now) (known_in prefix.now.known) [] prefix.now.index.items found.old.items count.old.counted) }
{
    count_one(count)?;
    let item = element.at(prefix, count)?;
    Ok(put(found, item)?)
}

/// Puts an item at the end.
fn put<T: Drop>(found: &mut Vec<T>, item: T) -> Result<(), AllocError>
    ensures { OnOk result (found.new.items ≡ found.old.items ++ item ∷ []) }
{
    found.push(item)?;
    Ok(())
}
