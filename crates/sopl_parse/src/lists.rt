//! Elements of sets, and outcomes of distributions.

ghost use Rattle.std.specs.Prelude.{◌≡◌, false, [], ◌∷◌, length, option_map};
ghost use Rattle.parse_grammar.specs.Reading.{chain as chain_of};
ghost use Rattle.parse_grammar.specs.Phrases as phrase;
ghost use Rattle.parse_grammar.specs.Phrases.{way};
ghost use Rattle.parse_exprs.specs.ReaderAnswers.{Answers};

use crate::ends::{ended, found};
use parse_exprs::{Next, Read, Reader, chain, is_over, joined};
use parse_grammar::{Mark, has_mark, rest};
use sopl_ast::{Dist, Expr, Exprs, Token};

/// A comma and an element, if there are any.
#[tactic(auto, unfolding(parse_grammar::specs::Phrases::next_element))]
fn next_element<'a>(reader: &Reader, tokens: &'a [Token]) -> Next<'a, Expr>
    ensures { Answers (λ x. (x.0, x.1.now)) result
        (phrase.next_element (way false reader.now.depth) tokens.now) }
{
    if !has_mark(Mark::Comma, tokens) {
        return Ok((None, tokens));
    }
    found(reader.sum(rest(tokens)))
}

/// Elements behind the first one.
#[tactic(auto, unfolding(parse_grammar::specs::Phrases::more_elements))]
fn more_elements<'a>(reader: &Reader, first: Expr, tokens: &'a [Token]) -> Read<'a, Exprs>
    ensures { Answers (λ x. (x.0, x.1.now)) result
        (phrase.more_elements (way false reader.now.depth) first tokens.now) }
{
    let mut parts = Exprs::new(reader.alloc);
    parts.push(first)?;
    chain(parts, tokens, |left| next_element(reader, left))
}

/// The elements of a set, inside its braces.
#[tactic(auto, unfolding(parse_grammar::specs::Phrases::elements))]
pub fn elements<'a>(reader: &Reader, tokens: &'a [Token]) -> Read<'a, Exprs>
    ensures { Answers (λ x. (x.0, x.1.now)) result
        (phrase.elements (way false reader.now.depth) tokens.now) }
{
    if is_over(has_mark(Mark::BraceClose, tokens), tokens) {
        return Ok((Exprs::new(reader.alloc), tokens));
    }
    let (first, left) = reader.sum(tokens)?;
    more_elements(reader, first, left)
}

/// A value and its weight.
#[tactic(auto, unfolding(parse_grammar::specs::Phrases::outcome))]
fn outcome<'a>(reader: &Reader, tokens: &'a [Token]) -> Read<'a, (Expr, Expr)>
    ensures { Answers (λ x. (x.0, x.1.now)) result
        (phrase.outcome (way false reader.now.depth) tokens.now) }
{
    let (value, left) = ended(reader, Mark::Colon, reader.sum(tokens))?;
    joined(value, reader.sum(left))
}

/// A comma and an outcome, if there are any.
#[tactic(auto, unfolding(parse_grammar::specs::Phrases::next_outcome))]
fn next_outcome<'a>(reader: &Reader, tokens: &'a [Token]) -> Next<'a, (Expr, Expr)>
    ensures { Answers (λ x. (x.0, x.1.now)) result
        (phrase.next_outcome (way false reader.now.depth) tokens.now) }
{
    if !has_mark(Mark::Comma, tokens) {
        return Ok((None, tokens));
    }
    found(outcome(reader, rest(tokens)))
}

/// Outcomes behind the first one.
#[tactic(auto, unfolding(parse_grammar::specs::Phrases::more_outcomes))]
fn more_outcomes<'a>(reader: &Reader, first: (Expr, Expr), tokens: &'a [Token]) -> Read<'a, Dist>
    ensures { Answers (λ x. (x.0, x.1.now)) result
        (phrase.more_outcomes (way false reader.now.depth) first tokens.now) }
{
    let mut parts = Dist::new(reader.alloc);
    parts.push(first)?;
    chain(parts, tokens, |left| next_outcome(reader, left))
}

/// The outcomes of a distribution, inside its braces.
#[tactic(auto, unfolding(parse_grammar::specs::Phrases::outcomes))]
fn outcomes<'a>(reader: &Reader, tokens: &'a [Token]) -> Read<'a, Dist>
    ensures { Answers (λ x. (x.0, x.1.now)) result
        (phrase.outcomes (way false reader.now.depth) tokens.now) }
{
    let (first, left) = outcome(reader, tokens)?;
    more_outcomes(reader, first, left)
}

/// A distribution.
#[tactic(auto, unfolding(parse_grammar::specs::Phrases::distribution, parse_grammar::specs::Phrases::inner_of))]
pub fn distribution<'a>(reader: &Reader, tokens: &'a [Token]) -> Read<'a, Dist>
    ensures { Answers (λ x. (x.0, x.1.now)) result
        (phrase.distribution (way false reader.now.depth) tokens.now) }
{
    let (inner, left) = reader.enter(Mark::BraceOpen, tokens)?;
    let read = outcomes(&inner, left);
    ended(reader, Mark::BraceClose, read)
}
