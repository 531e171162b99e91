//! From an outcome of a search to the line that answers a text.

ghost use Rattle.std.specs.Prelude.{◌≡◌, false, Some, None, IfOk, IfSome, string_bytes};
ghost use Rattle.serde_json.specs.View.{view};
ghost use Rattle.serde_json.specs.Written.{has_float};
ghost use Rattle.sopl_ast.specs.Cells.{cells, IsPoint, policy_at};
ghost use Rattle.policy_json.specs.Nodes.{policy_data};
ghost use Rattle.sopl_search.specs.declared.outcome.Outcome.TheVariants.{Optimal, Infeasible, Bounded};
ghost use Rattle.scen_accept.specs.Stated.{IsLaid, problem_in};
ghost use Rattle.answer_texts.specs.Solving.{IsProgramOf};
ghost use Rattle.answer_texts.specs.Answering.{FindsPoint, IsAnswerOf};
ghost use Rattle.answer_texts.specs.declared.command.Detail.TheVariants.{Full};

use crate::solve_answer::Answer;
use answer_lines::{bound_line, found_line, optimal_line, word_line};
use policy_json::policy_value;
use scen_accept::AcceptedProblem;
use serde_json::Value;
use sopl_search::{Found, Outcome, Values};
use sopl_term::Program;
use std::alloc::{AllocError, Global};

/// The policy of a point, as it is printed.
fn printed_policy(
    alloc: Global,
    stated: &AcceptedProblem,
    point: &Values,
) -> Result<Value, AllocError>
    requires laid_out { IsLaid stated.now }
    requires inside { IsPoint (cells (problem_in stated.now)) point.now }
    ensures policy { IfOk result (λ policy. view policy
        ≡ policy_data (problem_in stated.now) (policy_at (cells (problem_in stated.now)) point.now)) }
    ensures whole { IfOk result (λ policy. has_float (view policy) ≡ false) }
{
    let ground = &stated.ground;
    policy_value(
        alloc,
        ground.decisions(),
        ground.stochs(),
        &stated.tree,
        point.as_slice(),
    )
}

/// The answer of an optimal point.
#[tactic(auto, using(crate::proofs::Printing::optimal_printed))]
fn answer_of_optimal(
    alloc: Global,
    stated: &AcceptedProblem,
    program: &Program,
    value: i128,
    point: &Values,
) -> Result<Answer, AllocError>
    requires laid_out { IsLaid stated.now }
    requires program { IsProgramOf (problem_in stated.now) program.now }
    requires inside { IsPoint (cells (problem_in stated.now)) point.now }
    ensures answer { IfOk result (IsAnswerOf Full (problem_in stated.now) (Optimal value point.now)) }
{
    let policy = printed_policy(alloc, stated, point)?;
    let line = optimal_line(alloc, policy, value, program.denominator())?;
    Ok(Answer::Settled(line))
}

/// The answer where no point satisfies.
fn answer_of_none(alloc: Global, stated: &AcceptedProblem) -> Result<Answer, AllocError>
    ensures answer { IfOk result (IsAnswerOf Full (problem_in stated.now) Infeasible) }
{
    let line = word_line(alloc, "infeasible")?;
    Ok(Answer::Settled(line))
}

/// The answer of a bound, where a point was found.
#[tactic(auto, using(crate::proofs::Printing::found_printed))]
fn answer_of_found(
    alloc: Global,
    stated: &AcceptedProblem,
    program: &Program,
    found: &Found,
    bound: i128,
) -> Result<Answer, AllocError>
    requires laid_out { IsLaid stated.now }
    requires program { IsProgramOf (problem_in stated.now) program.now }
    requires inside { IsPoint (cells (problem_in stated.now)) found.now.cells }
    ensures answer { IfOk result (IsAnswerOf Full (problem_in stated.now) (Bounded (Some found.now) bound)) }
{
    let policy = printed_policy(alloc, stated, &found.cells)?;
    let line = found_line(alloc, bound, policy, found.value, program.denominator())?;
    Ok(Answer::Cut(line))
}

/// The answer of a bound, where no point was found.
#[tactic(auto, using(crate::proofs::Printing::bound_printed))]
fn answer_of_bound(
    alloc: Global,
    stated: &AcceptedProblem,
    program: &Program,
    bound: i128,
) -> Result<Answer, AllocError>
    requires program { IsProgramOf (problem_in stated.now) program.now }
    ensures answer { IfOk result (IsAnswerOf Full (problem_in stated.now) (Bounded None bound)) }
{
    let line = bound_line(alloc, bound, program.denominator())?;
    Ok(Answer::Cut(line))
}

/// The answer of an outcome.
pub(crate) fn answer_of(
    alloc: Global,
    stated: &AcceptedProblem,
    program: &Program,
    outcome: &Outcome,
) -> Result<Answer, AllocError>
    requires laid_out { IsLaid stated.now }
    requires program { IsProgramOf (problem_in stated.now) program.now }
    requires inside { FindsPoint (problem_in stated.now) outcome.now }
    ensures answer { IfOk result (IsAnswerOf Full (problem_in stated.now) outcome.now) }
{
    match outcome {
        Outcome::Optimal { value, cells } => {
            answer_of_optimal(alloc, stated, program, *value, cells)
        }
        Outcome::Infeasible => answer_of_none(alloc, stated),
        Outcome::Bounded {
            found: Some(found),
            bound,
        } => answer_of_found(alloc, stated, program, found, *bound),
        Outcome::Bounded { found: None, bound } => answer_of_bound(alloc, stated, program, *bound),
    }
}
