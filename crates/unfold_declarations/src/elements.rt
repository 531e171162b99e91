//! The elements of constants.

ghost use Rattle.std.specs.Prelude.{◌≡◌, ◌≤◌, ◌+◌, ◌∷◌, drop, length, map, option_map, true, OnOk};
ghost use Rattle.sopl_ast.specs.Inits.{init_tree};
ghost use Rattle.sopl_ast.specs.Whole.{inits, Many};
ghost use Rattle.unfold_constants.specs.Choosing.{Leads};
ghost use Rattle.unfold_constants.specs.CountedAnswers.{Answers};
ghost use Rattle.unfold_tables.specs.Tables.{elements_in, shown};
ghost use Rattle.unfold_constants.specs.Here.{known_in};
ghost use Rattle.unfold_declarations.specs.Declaring as spec;
ghost use Rattle.unfold_declarations.specs.Places.{any_empty as any_empty_in, entered, give_dimension, leave_dimension, remaining, turns, turns_left};
ghost use Rattle.unfold_declarations.specs.Shown.{dimension_in, dimensions_in, dimensions_open, prefix_in};

use crate::arrays::{Dimension, IndexPrefix, IndexWalk, any_empty, listed_dimensions};
use crate::calls::{constant_at, count_one};
use sopl_ast::{Dim, Expr, Init};
use sopl_base::{Fault, codes};
use std::alloc::Global;
use unfold_constants::{ConstantScope, unless};
use unfold_tables::{Count, Elements};

/// The elements of a constant, in lexicographic order of their indices.
pub fn entries<'a>(
    alloc: Global,
    known: &ConstantScope<'a>,
    count: &mut Count,
    dims: &'a [Dim],
    init: &'a Init,
) -> Result<Elements, Fault>
    ensures { Answers (λ found. elements_in found) count.new.counted result
        (spec.entries (known_in known.now) dims.now (init_tree init.now) count.old.counted) }
{
    let left = listed_dimensions(alloc, known, count, dims)?;
    let prefix = IndexPrefix::new(alloc, known)?;
    let mut found = Elements::new(alloc);
    let dimensions = left.as_slice();
    let hollow = any_empty(dimensions);
    part(
        &prefix,
        count,
        &Left { dimensions, hollow },
        init,
        &mut found,
    )?;
    Ok(found)
}

/// The dimensions that are left behind the prefix of an index, and whether one of them has no numbers, so that no index begins so.
#[derive(Clone, Copy)]
struct Left<'a, 'b> {
    dimensions: &'b [Dimension<'a>],
    hollow: bool,
}

/// Adds the elements that initial values give to the indices with this prefix.
#[tactic(auto, using(crate::proofs::Parts::parts))]
#[cycle(part)]
fn part<'a>(
    prefix: &IndexPrefix<'a>,
    count: &mut Count,
    left: &Left<'a, '_>,
    init: &'a Init,
    found: &mut Elements,
) -> Result<(), Fault>
    requires { left.now.hollow ≡ true → any_empty_in (dimensions_in left.now.dimensions.now) ≡ true }
    ensures { Answers (λ u. elements_in found.new) count.new.counted result
        (spec.part (known_in prefix.now.known) (dimensions_in left.now.dimensions.now) prefix.now.index.items (init_tree init.now)
        (elements_in found.old) count.old.counted) }
{
    match init {
        Init::One(e) => fill(prefix, count, left, e, found),
        Init::Many { at, parts } => match left.dimensions {
            [] => Ok(()),
            [first, dimensions @ ..] => {
                let hollow = left.hollow;
                let later = Left { dimensions, hollow };
                bracket(prefix, count, first, &later, *at, parts.as_slice(), found)
            }
        },
    }
}

/// Adds the elements of a bracket, which has a part for each number of a dimension.
#[tactic(auto, using(crate::proofs::Parts::parts))]
#[cycle(part)]
fn bracket<'a>(
    prefix: &IndexPrefix<'a>,
    count: &mut Count,
    first: &Dimension<'a>,
    later: &Left<'a, '_>,
    at: usize,
    parts: &'a [Init],
    found: &mut Elements,
) -> Result<(), Fault>
    requires { later.now.hollow ≡ true → any_empty_in (dimension_in first.now ∷ dimensions_in later.now.dimensions.now) ≡ true }
    ensures { Answers (λ u. elements_in found.new) count.new.counted result
        (spec.part (known_in prefix.now.known) (dimension_in first.now ∷ dimensions_in later.now.dimensions.now) prefix.now.index.items (Many at (inits (map init_tree parts.now)))
        (elements_in found.old) count.old.counted) }
{
    unless(
        first.numbers.has_length(parts.len()),
        codes::BRACKET_LENGTH,
        at,
    )?;
    parts_in(prefix, count, first, later, parts, found)
}

/// Adds the elements of the parts of a bracket, one for each number of a dimension.
#[tactic(auto, using(crate::proofs::Parts::parts))]
#[cycle(part)]
fn parts_in<'a>(
    prefix: &IndexPrefix<'a>,
    count: &mut Count,
    first: &Dimension<'a>,
    later: &Left<'a, '_>,
    parts: &'a [Init],
    found: &mut Elements,
) -> Result<(), Fault>
    requires { later.now.hollow ≡ true → any_empty_in (dimension_in first.now ∷ dimensions_in later.now.dimensions.now) ≡ true }
    ensures { Answers (λ u. elements_in found.new) count.new.counted result
        (spec.parts_in (known_in prefix.now.known) (option_map (λ n. n.now) first.now.name) (dimensions_in later.now.dimensions.now) (shown first.now.numbers)
        prefix.now.index.items (inits (map init_tree parts.now))
        (elements_in found.old) count.old.counted) }
{
    let mut left = first.numbers;
    'parts: for x in parts {
        let Some((number, behind)) = left.split_first() else {
            break;
        };
        part_at(prefix, count, first, number, later, x, found)?;
        left = behind;
    }
    Ok(())
}

/// Adds the elements of one part of a bracket, which belongs to this number.
#[cycle(part)]
fn part_at<'a>(
    prefix: &IndexPrefix<'a>,
    count: &mut Count,
    first: &Dimension<'a>,
    number: i64,
    later: &Left<'a, '_>,
    x: &'a Init,
    found: &mut Elements,
) -> Result<(), Fault>
    requires { later.now.hollow ≡ true → any_empty_in (dimensions_in later.now.dimensions.now) ≡ true }
    ensures { Answers (λ u. elements_in found.new) count.new.counted result
        (spec.part_at (known_in prefix.now.known) (option_map (λ n. n.now) first.now.name) number (dimensions_in later.now.dimensions.now) prefix.now.index.items
        (init_tree x.now)
        (elements_in found.old) count.old.counted) }
{
    let here = prefix.longer(first.name, number)?;
    part(&here, count, later, x, found)
}

/// Adds an element for each index with this prefix.
#[tactic(auto, using(crate::proofs::Filling::filling))]
fn fill<'a>(
    prefix: &IndexPrefix<'a>,
    count: &mut Count,
    left: &Left<'a, '_>,
    e: &'a Expr,
    found: &mut Elements,
) -> Result<(), Fault>
    requires { left.now.hollow ≡ true → any_empty_in (dimensions_in left.now.dimensions.now) ≡ true }
    ensures { Answers (λ u. elements_in found.new) count.new.counted result
        (spec.fill (known_in prefix.now.known) (dimensions_in left.now.dimensions.now) e.now prefix.now.index.items
        (elements_in found.old) count.old.counted) }
{
    if left.hollow {
        return Ok(());
    }
    let mut walk = IndexWalk::new(prefix)?;
    enter(&mut walk, count, left.dimensions, e, found)?;
    'walk: while walk.advance()? {
        enter(&mut walk, count, left.dimensions, e, found)?;
    }
    Ok(())
}

/// Adds an element where all dimensions have numbers; else opens the next one.
#[tactic(auto, using(crate::proofs::Filling::filling))]
fn enter<'a>(
    walk: &mut IndexWalk<'a>,
    count: &mut Count,
    left: &[Dimension<'a>],
    e: &'a Expr,
    found: &mut Elements,
) -> Result<(), Fault>
    ensures leads { Leads
        (entered give_dimension leave_dimension (spec.inside (dimensions_in left.now) e.now) (prefix_in walk.old.prefix) (dimensions_open walk.old)
        (elements_in found.old) count.old.counted)
        (remaining give_dimension leave_dimension (spec.inside (dimensions_in left.now) e.now) (prefix_in walk.new.prefix) (dimensions_open walk.new)
        (elements_in found.new) count.new.counted)
        result }
    ensures turns { OnOk result (turns_left (dimensions_in left.now) (dimensions_open walk.new)
        ≤ turns (drop (length (dimensions_open walk.old)) (dimensions_in left.now)) + turns_left (dimensions_in left.now) (dimensions_open walk.old)) }
{
    let Some(dimension) = left.get(walk.depth()) else {
        add_entry(&walk.prefix, count, e, found)?;
        walk.leave();
        return Ok(());
    };
    walk.begin(dimension)?;
    Ok(())
}

/// Adds an element, which is counted.
fn add_entry<'a>(
    prefix: &IndexPrefix<'a>,
    count: &mut Count,
    e: &'a Expr,
    found: &mut Elements,
) -> Result<(), Fault>
    ensures { Answers (λ u. elements_in found.new) count.new.counted result
        (spec.entry (known_in prefix.now.known) e.now prefix.now.index.items
        (elements_in found.old) count.old.counted) }
{
    count_one(count)?;
    let value = constant_at(&prefix.known, count, e)?;
    found.push(prefix.index.as_slice(), value)?;
    Ok(())
}
