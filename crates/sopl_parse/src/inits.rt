//! Initial values.

ghost use Rattle.std.specs.Prelude.{◌≡◌, false, [], ◌∷◌, length, option_map};
ghost use Rattle.sopl_ast.specs.Inits.{init_tree};
ghost use Rattle.parse_grammar.specs.Reading.{chain as chain_of};
ghost use Rattle.parse_grammar.specs.Phrases as phrase;
ghost use Rattle.parse_grammar.specs.Phrases.{way};
ghost use Rattle.parse_exprs.specs.ReaderAnswers.{Answers};

use crate::ends::{ended, found};
use parse_exprs::{Next, Read, Reader, chain, is_over};
use parse_grammar::{Mark, has_mark, place, rest};
use sopl_ast::{Init, Inits, Token};

/// One initial value.
#[tactic(auto, unfolding(parse_grammar::specs::Phrases::one))]
fn one<'a>(reader: &Reader, tokens: &'a [Token]) -> Read<'a, Init>
    ensures { Answers (λ x. (init_tree x.0, x.1.now)) result
        (phrase.one (way false reader.now.depth) tokens.now) }
{
    let (e, left) = reader.expression(tokens)?;
    Ok((Init::One(e), left))
}

/// Initial values in brackets.
#[cycle(init)]
#[tactic(auto, unfolding(parse_grammar::specs::Phrases::many, parse_grammar::specs::Phrases::inner_of))]
fn many<'a>(reader: &Reader, tokens: &'a [Token]) -> Read<'a, Init>
    ensures { Answers (λ x. (init_tree x.0, x.1.now)) result
        (phrase.many (way false reader.now.depth) tokens.now) }
{
    let inner = reader.inside(tokens)?;
    let read = init_list(&inner, rest(tokens));
    let (parts, left) = ended(reader, Mark::BracketClose, read)?;
    let at = place(tokens);
    Ok((Init::Many { at, parts }, left))
}

/// An initial value.
#[cycle(init)]
#[tactic(auto, unfolding(parse_grammar::specs::Phrases::init))]
pub fn init<'a>(reader: &Reader, tokens: &'a [Token]) -> Read<'a, Init>
    ensures { Answers (λ x. (init_tree x.0, x.1.now)) result
        (phrase.init (way false reader.now.depth) tokens.now) }
{
    if has_mark(Mark::BracketOpen, tokens) {
        return many(reader, tokens);
    }
    one(reader, tokens)
}

/// A comma and an initial value, if there are any.
#[cycle(init)]
#[tactic(auto, unfolding(parse_grammar::specs::Phrases::next_init))]
fn next_init<'a>(reader: &Reader, tokens: &'a [Token]) -> Next<'a, Init>
    ensures { Answers (λ x. (option_map init_tree x.0, x.1.now)) result
        (phrase.next_init (way false reader.now.depth) tokens.now) }
{
    if !has_mark(Mark::Comma, tokens) {
        return Ok((None, tokens));
    }
    found(init(reader, rest(tokens)))
}

/// Initial values behind the first one.
#[cycle(init)]
#[tactic(auto, unfolding(parse_grammar::specs::Phrases::more_inits))]
fn more_inits<'a>(reader: &Reader, first: Init, tokens: &'a [Token]) -> Read<'a, Inits>
    ensures { Answers (λ x. (x.0, x.1.now)) result
        (phrase.more_inits (way false reader.now.depth) (init_tree first) tokens.now) }
{
    let mut parts = Inits::new(reader.alloc);
    parts.push(first)?;
    chain(
        parts,
        tokens,
        |left|
            ensures { Answers (λ x. (option_map init_tree x.0, x.1.now)) result
                (phrase.next_init (way false reader.entry.now.depth) left.now) }
        { next_init(reader, left) },
    )
}

/// The initial values inside a bracket.
#[cycle(init)]
#[tactic(auto, unfolding(parse_grammar::specs::Phrases::init_list))]
fn init_list<'a>(reader: &Reader, tokens: &'a [Token]) -> Read<'a, Inits>
    ensures { Answers (λ x. (x.0, x.1.now)) result
        (phrase.init_list (way false reader.now.depth) tokens.now) }
{
    if is_over(has_mark(Mark::BracketClose, tokens), tokens) {
        return Ok((Inits::new(reader.alloc), tokens));
    }
    let (first, left) = init(reader, tokens)?;
    more_inits(reader, first, left)
}
