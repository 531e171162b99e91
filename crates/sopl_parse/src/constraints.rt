//! Constraints.

ghost use Rattle.std.specs.Prelude.{◌≡◌, false, [], ◌∷◌, length, option_map};
ghost use Rattle.sopl_ast.specs.Constraints.{cons_tree, cons_trees};
ghost use Rattle.parse_grammar.specs.Reading.{chain as chain_of};
ghost use Rattle.parse_grammar.specs.Phrases as phrase;
ghost use Rattle.parse_grammar.specs.Phrases.{way};
ghost use Rattle.parse_exprs.specs.ReaderAnswers.{Answers};
ghost use Rattle.sopl_parse.specs.Parts as piece;

use crate::ends::{ended, found};
use parse_exprs::{Next, Read, Reader, chain, is_over, joined};
use parse_grammar::{Mark, has_mark, rest};
use sopl_ast::{Binders, Cons, ConsList, Expr, Token};

/// The condition of a chance constraint, and the mark behind it.
#[tactic(auto, unfolding(crate::specs::Parts::condition, parse_grammar::specs::Phrases::inner_of))]
fn condition<'a>(reader: &Reader, tokens: &'a [Token]) -> Read<'a, Expr>
    ensures { Answers (λ x. (x.0, x.1.now)) result
        (piece.condition (way false reader.now.depth) tokens.now) }
{
    let (inner, left) = reader.enter(Mark::ParenOpen, tokens)?;
    let read = ended(reader, Mark::ParenClose, inner.expression(left));
    ended(reader, Mark::GreaterEq, read)
}

/// The probability of a chance constraint, and its end.
#[tactic(auto, unfolding(crate::specs::Parts::share))]
fn share<'a>(reader: &Reader, tokens: &'a [Token]) -> Read<'a, (Expr, Expr)>
    ensures { Answers (λ x. (x.0, x.1.now)) result
        (piece.share (way false reader.now.depth) tokens.now) }
{
    let (p, left) = ended(reader, Mark::Slash, reader.sum(tokens))?;
    let read = joined(p, reader.sum(left));
    ended(reader, Mark::Semi, read)
}

/// A chance constraint, behind its keyword.
#[tactic(auto, using(crate::proofs::Parts::chance_parts))]
fn chance<'a>(reader: &Reader, tokens: &'a [Token]) -> Read<'a, Cons>
    ensures { Answers (λ x. (cons_tree x.0, x.1.now)) result
        (phrase.chance (way false reader.now.depth) tokens.now) }
{
    let (cond, left) = condition(reader, tokens)?;
    let ((cond, (p, q)), left) = joined(cond, share(reader, left))?;
    Ok((Cons::chance(cond, p, q), left))
}

/// A hard constraint.
#[tactic(auto, unfolding(parse_grammar::specs::Phrases::hard))]
fn hard<'a>(reader: &Reader, tokens: &'a [Token]) -> Read<'a, Cons>
    ensures { Answers (λ x. (cons_tree x.0, x.1.now)) result
        (phrase.hard (way false reader.now.depth) tokens.now) }
{
    let read = reader.expression(tokens);
    let (cond, left) = ended(reader, Mark::Semi, read)?;
    Ok((Cons::hard(cond), left))
}

/// A constraint for each value of its binders.
#[cycle(constraint)]
#[tactic(auto, unfolding(parse_grammar::specs::Phrases::forall_values, parse_grammar::specs::Phrases::inner_of))]
fn forall_values<'a>(reader: &Reader, tokens: &'a [Token]) -> Read<'a, Cons>
    ensures { Answers (λ x. (cons_tree x.0, x.1.now)) result
        (phrase.forall_values (way false reader.now.depth) tokens.now) }
{
    let inner = reader.inside(tokens)?;
    let ((over, each), left) = quantified(&inner, rest(tokens))?;
    Ok((Cons::forall(reader.alloc, over, each)?, left))
}

/// A block of constraints.
#[cycle(constraint)]
#[tactic(auto, unfolding(parse_grammar::specs::Phrases::block, parse_grammar::specs::Phrases::inner_of))]
fn block<'a>(reader: &Reader, tokens: &'a [Token]) -> Read<'a, Cons>
    ensures { Answers (λ x. (cons_tree x.0, x.1.now)) result
        (phrase.block (way false reader.now.depth) tokens.now) }
{
    let inner = reader.inside(tokens)?;
    let read = constraints(&inner, rest(tokens));
    let (parts, left) = ended(reader, Mark::BraceClose, read)?;
    Ok((Cons::block(parts), left))
}

/// A constraint.
#[cycle(constraint)]
#[tactic(auto, unfolding(parse_grammar::specs::Phrases::constraint))]
fn constraint<'a>(reader: &Reader, tokens: &'a [Token]) -> Read<'a, Cons>
    ensures { Answers (λ x. (cons_tree x.0, x.1.now)) result
        (phrase.constraint (way false reader.now.depth) tokens.now) }
{
    if has_mark(Mark::Forall, tokens) {
        return forall_values(reader, tokens);
    }
    if has_mark(Mark::BraceOpen, tokens) {
        return block(reader, tokens);
    }
    if has_mark(Mark::Prob, tokens) {
        return chance(reader, rest(tokens));
    }
    hard(reader, tokens)
}

/// What stands behind `forall`.
#[cycle(constraint)]
#[tactic(auto, unfolding(parse_grammar::specs::Phrases::quantified))]
fn quantified<'a>(reader: &Reader, tokens: &'a [Token]) -> Read<'a, (Binders, Cons)>
    ensures { Answers (λ x. ((x.0.0, cons_tree x.0.1), x.1.now)) result
        (phrase.quantified (way false reader.now.depth) tokens.now) }
{
    let (over, left) = reader.bindings(tokens)?;
    joined(over, constraint(reader, left))
}

/// A constraint, unless the list is over.
#[cycle(constraint)]
#[tactic(auto, unfolding(parse_grammar::specs::Phrases::next_constraint))]
fn next_constraint<'a>(reader: &Reader, tokens: &'a [Token]) -> Next<'a, Cons>
    ensures { Answers (λ x. (option_map cons_tree x.0, x.1.now)) result
        (phrase.next_constraint (way false reader.now.depth) tokens.now) }
{
    if is_over(has_mark(Mark::BraceClose, tokens), tokens) {
        return Ok((None, tokens));
    }
    found(constraint(reader, tokens))
}

/// Constraints in order.
#[cycle(constraint)]
#[tactic(auto, unfolding(parse_grammar::specs::Phrases::constraints))]
fn constraints<'a>(reader: &Reader, tokens: &'a [Token]) -> Read<'a, ConsList>
    ensures { Answers (λ x. (cons_trees x.0, x.1.now)) result
        (phrase.constraints (way false reader.now.depth) tokens.now) }
{
    let parts = ConsList::new(reader.alloc);
    chain(
        parts,
        tokens,
        |left|
            ensures { Answers (λ x. (option_map cons_tree x.0, x.1.now)) result
                (phrase.next_constraint (way false reader.entry.now.depth) left.now) }
        { next_constraint(reader, left) },
    )
}

/// `subject to` and the constraints in braces.
#[tactic(auto, unfolding(parse_grammar::specs::Phrases::body, parse_grammar::specs::Phrases::inner_of))]
pub fn body<'a>(reader: &Reader, tokens: &'a [Token]) -> Read<'a, ConsList>
    ensures { Answers (λ x. (cons_trees x.0, x.1.now)) result
        (phrase.body (way false reader.now.depth) tokens.now) }
{
    let left = reader.past(Mark::Subject, tokens)?;
    let left = reader.past(Mark::To, left)?;
    let (inner, left) = reader.enter(Mark::BraceOpen, left)?;
    let read = constraints(&inner, left);
    ended(reader, Mark::BraceClose, read)
}
