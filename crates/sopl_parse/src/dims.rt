//! Stages and dimensions of declarations.

ghost use Rattle.std.specs.Prelude.{◌≡◌, false, [], ◌∷◌, length, option_map, option_copied};
ghost use Rattle.sopl_ast.specs.ModelRows.{range_place as range_place_of};
ghost use Rattle.sopl_ast.specs.Ranges.{range_of};
ghost use Rattle.parse_grammar.specs.Reading.{chain as chain_of};
ghost use Rattle.parse_grammar.specs.Phrases as phrase;
ghost use Rattle.parse_grammar.specs.Phrases.{way};
ghost use Rattle.parse_exprs.specs.ReaderAnswers.{Answers};

use crate::ends::{ended, found};
use parse_exprs::{Next, Read, Reader, chain, joined};
use parse_grammar::{Mark, has_mark, named, place, rest};
use sopl_ast::{Dim, Dims, Expr, Name, RangeText, Token};

/// The name that goes over a dimension, by two tokens.
#[tactic(auto, unfolding(parse_grammar::specs::Phrases::dim_name))]
fn dim_name(tokens: &[Token]) -> Option<&Name>
    ensures { option_copied result ≡ phrase.dim_name tokens.now }
{
    let name = named(tokens)?;
    if has_mark(Mark::Inside, rest(tokens)) {
        Some(name)
    } else {
        None
    }
}

/// Where a range begins.
fn range_place(range: &RangeText) -> usize
    ensures { result ≡ range_place_of (range_of range.now) }
{
    match range {
        RangeText::Named { at, .. } => *at,
        RangeText::Ends { lo, .. } => lo.at,
    }
}

/// A stage, or none.
#[tactic(auto, unfolding(parse_grammar::specs::Phrases::stage))]
pub fn stage<'a>(reader: &Reader, tokens: &'a [Token]) -> Read<'a, Option<Expr>>
    ensures { Answers (λ x. (x.0, x.1.now)) result
        (phrase.stage (way false reader.now.depth) tokens.now) }
{
    if !has_mark(Mark::Stage, tokens) {
        return Ok((None, tokens));
    }
    found(reader.sum(rest(tokens)))
}

/// A dimension, inside its bracket.
#[tactic(auto, unfolding(parse_grammar::specs::Phrases::dim))]
fn dim<'a>(reader: &Reader, tokens: &'a [Token]) -> Read<'a, Dim>
    ensures { Answers (λ x. (x.0, x.1.now)) result
        (phrase.dim (way false reader.now.depth) tokens.now) }
{
    let Some(name) = dim_name(tokens) else {
        let (range, left) = reader.range(tokens)?;
        let at = range_place(&range);
        let binder = None;
        return Ok((Dim { binder, at, range }, left));
    };
    let name = name.copy(reader.alloc)?;
    let ((name, range), left) = joined(name, reader.range(rest(rest(tokens))))?;
    let binder = Some(name);
    let at = place(tokens);
    Ok((Dim { binder, at, range }, left))
}

/// A dimension in brackets, if there is one.
#[tactic(auto, unfolding(parse_grammar::specs::Phrases::next_dim, parse_grammar::specs::Phrases::inner_of))]
fn next_dim<'a>(reader: &Reader, tokens: &'a [Token]) -> Next<'a, Dim>
    ensures { Answers (λ x. (x.0, x.1.now)) result
        (phrase.next_dim (way false reader.now.depth) tokens.now) }
{
    if !has_mark(Mark::BracketOpen, tokens) {
        return Ok((None, tokens));
    }
    let inner = reader.inside(tokens)?;
    let read = dim(&inner, rest(tokens));
    found(ended(reader, Mark::BracketClose, read))
}

/// Dimensions one behind the other.
#[tactic(auto, unfolding(parse_grammar::specs::Phrases::dims))]
pub fn dims<'a>(reader: &Reader, tokens: &'a [Token]) -> Read<'a, Dims>
    ensures { Answers (λ x. (x.0, x.1.now)) result
        (phrase.dims (way false reader.now.depth) tokens.now) }
{
    let parts = Dims::new(reader.alloc);
    chain(parts, tokens, |left| next_dim(reader, left))
}
