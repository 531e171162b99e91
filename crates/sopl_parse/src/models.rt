//! Objectives and whole models.

ghost use Rattle.std.specs.Prelude.{◌≡◌, false, [], ◌∷◌, length, option_map};
ghost use Rattle.sopl_ast.specs.WholeModel.{goal_tree, whole};
ghost use Rattle.parse_grammar.specs.Reading.{chain};
ghost use Rattle.parse_grammar.specs.Phrases as phrase;
ghost use Rattle.parse_grammar.specs.Phrases.{way};
ghost use Rattle.parse_exprs.specs.ReaderAnswers.{Answers};

use crate::constraints::body;
use crate::declaring::declarations;
use crate::ends::{ended, finished, found};
use parse_exprs::{Next, ParseStop, Read, Reader, joined};
use parse_grammar::{Mark, goal_direction, goal_measure, rest};
use sopl_ast::{Goal, Model, Token};
use sopl_base::Direction;

/// What an objective measures.
#[tactic(auto, unfolding(parse_grammar::specs::Phrases::measure))]
fn measure<'a>(reader: &Reader, tokens: &'a [Token]) -> Read<'a, bool>
    ensures { Answers (λ x. (x.0, x.1.now)) result
        (phrase.measure (way false reader.now.depth) tokens.now) }
{
    let Some(worst) = goal_measure(tokens) else {
        return Err(ParseStop::Syntax(tokens));
    };
    Ok((worst, rest(tokens)))
}

/// An objective, behind its direction.
#[tactic(auto, unfolding(parse_grammar::specs::Phrases::goal, parse_grammar::specs::Phrases::inner_of))]
fn goal<'a>(reader: &Reader, direction: Direction, tokens: &'a [Token]) -> Read<'a, Goal>
    ensures { Answers (λ x. (goal_tree x.0, x.1.now)) result
        (phrase.goal (way false reader.now.depth) direction tokens.now) }
{
    let (worst, left) = measure(reader, tokens)?;
    let (inner, left) = reader.enter(Mark::ParenOpen, left)?;
    let read = ended(reader, Mark::ParenClose, inner.expression(left));
    let (expr, left) = ended(reader, Mark::Semi, read)?;
    let goal = Goal {
        direction,
        worst,
        expr,
    };
    Ok((goal, left))
}

/// An objective, or none.
#[tactic(auto, unfolding(parse_grammar::specs::Phrases::maybe_goal))]
fn maybe_goal<'a>(reader: &Reader, tokens: &'a [Token]) -> Next<'a, Goal>
    ensures { Answers (λ x. (option_map goal_tree x.0, x.1.now)) result
        (phrase.maybe_goal (way false reader.now.depth) tokens.now) }
{
    let Some(direction) = goal_direction(tokens) else {
        return Ok((None, tokens));
    };
    found(goal(reader, direction, rest(tokens)))
}

/// A model, and what is left behind it.
#[tactic(auto, unfolding(parse_grammar::specs::Phrases::whole))]
fn leading_model<'a>(reader: &Reader, tokens: &'a [Token]) -> Read<'a, Model>
    ensures { Answers (λ x. (whole x.0, x.1.now)) result
        (phrase.whole (way false reader.now.depth) tokens.now) }
{
    let (decls, left) = declarations(reader, tokens)?;
    let (prefix, left) = joined(decls, maybe_goal(reader, left))?;
    let (((decls, goal), body), left) = joined(prefix, body(reader, left))?;
    Ok((Model { decls, goal, body }, left))
}

/// A model, and nothing behind it.
#[tactic(auto, unfolding(parse_grammar::specs::Phrases::model))]
pub fn model<'a>(reader: &Reader, tokens: &'a [Token]) -> Result<Model, ParseStop<'a>>
    ensures { Answers whole result (phrase.model reader.now.depth tokens.now) }
{
    finished(leading_model(reader, tokens))
}
