//! Declarations.

ghost use Rattle.std.specs.Prelude.{◌≡◌, false, [], ◌∷◌, length, option_map};
ghost use Rattle.sopl_ast.specs.Decls.{declaration};
ghost use Rattle.sopl_ast.specs.Inits.{init_tree};
ghost use Rattle.parse_grammar.specs.Reading.{chain as chain_of};
ghost use Rattle.parse_grammar.specs.Phrases as phrase;
ghost use Rattle.parse_grammar.specs.Phrases.{way};
ghost use Rattle.parse_exprs.specs.ReaderAnswers.{Answers};
ghost use Rattle.sopl_parse.specs.DeclarationParts as piece;

use crate::dims::{dims, stage};
use crate::ends::{ended, found};
use crate::inits::init;
use crate::lists::{distribution, elements};
use parse_exprs::{Next, Read, Reader, chain, joined};
use parse_grammar::{Mark, has_mark, rest};
use sopl_ast::{Decl, Decls, Dims, Expr, Exprs, Init, Name, Token};

/// The name of a variable behind its keyword, with its place and dimensions.
#[tactic(auto, unfolding(parse_grammar::specs::Phrases::variable))]
fn variable<'a>(reader: &Reader, tokens: &'a [Token]) -> Read<'a, ((Name, usize), Dims)>
    ensures { Answers (λ x. (x.0, x.1.now)) result
        (phrase.variable (way false reader.now.depth) tokens.now) }
{
    let left = reader.past(Mark::Int, tokens)?;
    let (named, left) = reader.name(left)?;
    let read = joined(named, dims(reader, left));
    ended(reader, Mark::Inside, read)
}

/// The initial value of an `int`, between its marks.
#[tactic(auto, unfolding(crate::specs::DeclarationParts::assigned))]
fn assigned<'a>(reader: &Reader, tokens: &'a [Token]) -> Read<'a, Init>
    ensures { Answers (λ x. (init_tree x.0, x.1.now)) result
        (piece.assigned (way false reader.now.depth) tokens.now) }
{
    let left = reader.past(Mark::Assign, tokens)?;
    let read = init(reader, left);
    ended(reader, Mark::Semi, read)
}

/// A stage or none, and the end of its declaration.
#[tactic(auto, unfolding(crate::specs::DeclarationParts::staged))]
fn staged<'a>(reader: &Reader, tokens: &'a [Token]) -> Read<'a, Option<Expr>>
    ensures { Answers (λ x. (x.0, x.1.now)) result
        (piece.staged (way false reader.now.depth) tokens.now) }
{
    let read = stage(reader, tokens);
    ended(reader, Mark::Semi, read)
}

/// An `int`, behind its keyword.
#[tactic(auto, using(crate::proofs::DeclarationParts::integer_parts))]
fn integer<'a>(reader: &Reader, tokens: &'a [Token]) -> Read<'a, Decl>
    ensures { Answers (λ x. (declaration x.0, x.1.now)) result
        (phrase.integer (way false reader.now.depth) tokens.now) }
{
    let (named, left) = reader.name(tokens)?;
    let (head, left) = joined(named, dims(reader, left))?;
    let ((((name, at), dims), init), left) = joined(head, assigned(reader, left))?;
    let decl = Decl::Int {
        name,
        at,
        dims,
        init,
    };
    Ok((decl, left))
}

/// A `range`, behind its keyword.
#[tactic(auto, unfolding(parse_grammar::specs::Phrases::range_declaration))]
fn range_declaration<'a>(reader: &Reader, tokens: &'a [Token]) -> Read<'a, Decl>
    ensures { Answers (λ x. (declaration x.0, x.1.now)) result
        (phrase.range_declaration (way false reader.now.depth) tokens.now) }
{
    let (named, left) = ended(reader, Mark::Assign, reader.name(tokens))?;
    let read = joined(named, reader.sum(left));
    let (start, left) = ended(reader, Mark::DotDot, read)?;
    let read = joined(start, reader.sum(left));
    let ((((name, at), lo), hi), left) = ended(reader, Mark::Semi, read)?;
    Ok((Decl::Range { name, at, lo, hi }, left))
}

/// The elements of a set in braces, and the end of its declaration.
#[tactic(auto, unfolding(parse_grammar::specs::Phrases::set_value, parse_grammar::specs::Phrases::inner_of))]
fn set_value<'a>(reader: &Reader, tokens: &'a [Token]) -> Read<'a, Exprs>
    ensures { Answers (λ x. (x.0, x.1.now)) result
        (phrase.set_value (way false reader.now.depth) tokens.now) }
{
    let (inner, left) = reader.enter(Mark::BraceOpen, tokens)?;
    let read = ended(reader, Mark::BraceClose, elements(&inner, left));
    ended(reader, Mark::Semi, read)
}

/// A set, behind the brace of its type.
#[tactic(auto, unfolding(parse_grammar::specs::Phrases::set))]
fn set<'a>(reader: &Reader, tokens: &'a [Token]) -> Read<'a, Decl>
    ensures { Answers (λ x. (declaration x.0, x.1.now)) result
        (phrase.set (way false reader.now.depth) tokens.now) }
{
    let left = reader.past(Mark::Int, tokens)?;
    let left = reader.past(Mark::BraceClose, left)?;
    let (named, left) = ended(reader, Mark::Assign, reader.name(left))?;
    let (((name, at), elements), left) = joined(named, set_value(reader, left))?;
    Ok((Decl::Set { name, at, elements }, left))
}

/// A set's type, and the set.
#[tactic(auto, unfolding(parse_grammar::specs::Phrases::braced_set))]
fn braced_set<'a>(reader: &Reader, tokens: &'a [Token]) -> Read<'a, Decl>
    ensures { Answers (λ x. (declaration x.0, x.1.now)) result
        (phrase.braced_set (way false reader.now.depth) tokens.now) }
{
    let _inner = reader.inside(tokens)?;
    set(reader, rest(tokens))
}

/// A decision, behind its keyword.
#[tactic(auto, using(crate::proofs::DeclarationParts::decision_parts))]
fn decision<'a>(reader: &Reader, tokens: &'a [Token]) -> Read<'a, Decl>
    ensures { Answers (λ x. (declaration x.0, x.1.now)) result
        (phrase.decision (way false reader.now.depth) tokens.now) }
{
    let (head, left) = variable(reader, tokens)?;
    let (head, left) = joined(head, reader.range(left))?;
    let (((((name, at), dims), range), stage), left) = joined(head, staged(reader, left))?;
    let decl = Decl::Dvar {
        name,
        at,
        dims,
        range,
        stage,
    };
    Ok((decl, left))
}

/// A stochastic variable, behind its keyword.
#[tactic(auto, using(crate::proofs::DeclarationParts::stochastic_parts))]
fn stochastic<'a>(reader: &Reader, tokens: &'a [Token]) -> Read<'a, Decl>
    ensures { Answers (λ x. (declaration x.0, x.1.now)) result
        (phrase.stochastic (way false reader.now.depth) tokens.now) }
{
    let (head, left) = variable(reader, tokens)?;
    let (head, left) = joined(head, distribution(reader, left))?;
    let (((((name, at), dims), dist), stage), left) = joined(head, staged(reader, left))?;
    let decl = Decl::Stoch {
        name,
        at,
        dims,
        dist,
        stage,
    };
    Ok((decl, left))
}

/// A declaration, if there is one.
#[tactic(auto, unfolding(parse_grammar::specs::Phrases::next_declaration))]
fn next_declaration<'a>(reader: &Reader, tokens: &'a [Token]) -> Next<'a, Decl>
    ensures { Answers (λ x. (option_map declaration x.0, x.1.now)) result
        (phrase.next_declaration (way false reader.now.depth) tokens.now) }
{
    if has_mark(Mark::Int, tokens) {
        return found(integer(reader, rest(tokens)));
    }
    if has_mark(Mark::Range, tokens) {
        return found(range_declaration(reader, rest(tokens)));
    }
    if has_mark(Mark::BraceOpen, tokens) {
        return found(braced_set(reader, tokens));
    }
    if has_mark(Mark::Dvar, tokens) {
        return found(decision(reader, rest(tokens)));
    }
    if has_mark(Mark::Stoch, tokens) {
        return found(stochastic(reader, rest(tokens)));
    }
    Ok((None, tokens))
}

/// Declarations in order.
#[tactic(auto, unfolding(parse_grammar::specs::Phrases::declarations))]
pub fn declarations<'a>(reader: &Reader, tokens: &'a [Token]) -> Read<'a, Decls>
    ensures { Answers (λ x. (x.0, x.1.now)) result
        (phrase.declarations (way false reader.now.depth) tokens.now) }
{
    let parts = Decls::new(reader.alloc);
    chain(parts, tokens, |left| next_declaration(reader, left))
}
