//! From an outcome of a search to a summary of it.

ghost use Rattle.std.specs.Prelude.{◌≡◌, codes, Some, None, IfOk, string_bytes};
ghost use Rattle.answer_lines.specs.AnswerData.{line_of, summary_data};
ghost use Rattle.answer_texts.specs.Answering.{IsAnswerOf};
ghost use Rattle.answer_texts.specs.Solving.{IsProgramOf};
ghost use Rattle.answer_texts.specs.declared.command.Detail.TheVariants.{Summary};
ghost use Rattle.scen_accept.specs.Stated.{IsLaid, problem_in};

use crate::solve_answer::Answer;
use answer_lines::{summary_line, valued_summary_line};
use scen_accept::AcceptedProblem;
use sopl_search::Outcome;
use sopl_term::Program;
use std::alloc::{AllocError, Global};

/// The line that tells of a search that found nothing.
#[tactic(auto, using(crate::proofs::Summaries::summary_printed))]
fn line_without(
    alloc: Global,
    stated: &AcceptedProblem,
    outcome: &str,
) -> Result<String, AllocError>
    requires laid_out { IsLaid stated.now }
    ensures line { IfOk result (λ line. string_bytes line ≡ line_of (summary_data (problem_in stated.now) outcome.now None)) }
{
    let tree = &stated.tree;
    let line = summary_line(alloc, tree.cells(), outcome, tree.count())?;
    Ok(line)
}

/// The line that tells of a search that found a policy of this value.
#[tactic(auto, using(crate::proofs::Summaries::valued_printed))]
fn line_with(
    alloc: Global,
    stated: &AcceptedProblem,
    program: &Program,
    outcome: &str,
    value: i128,
) -> Result<String, AllocError>
    requires laid_out { IsLaid stated.now }
    requires program { IsProgramOf (problem_in stated.now) program.now }
    ensures line { IfOk result (λ line. string_bytes line ≡ line_of (summary_data (problem_in stated.now) outcome.now (Some value))) }
{
    let tree = &stated.tree;
    let den = program.denominator();
    let line = valued_summary_line(alloc, tree.cells(), outcome, tree.count(), value, den)?;
    Ok(line)
}

/// The summary of an outcome.
pub(crate) fn summary_of(
    alloc: Global,
    stated: &AcceptedProblem,
    program: &Program,
    outcome: &Outcome,
) -> Result<Answer, AllocError>
    requires laid_out { IsLaid stated.now }
    requires program { IsProgramOf (problem_in stated.now) program.now }
    ensures answer { IfOk result (IsAnswerOf Summary (problem_in stated.now) outcome.now) }
{
    match outcome {
        Outcome::Optimal { value, .. } => {
            let line = line_with(alloc, stated, program, "optimal", *value)?;
            Ok(Answer::Settled(line))
        }
        Outcome::Infeasible => {
            let line = line_without(alloc, stated, "infeasible")?;
            Ok(Answer::Settled(line))
        }
        Outcome::Bounded {
            found: Some(found),
            ..
        } => {
            let line = line_with(alloc, stated, program, "bounded", found.value)?;
            Ok(Answer::Cut(line))
        }
        Outcome::Bounded { found: None, .. } => {
            let line = line_without(alloc, stated, "bounded")?;
            Ok(Answer::Cut(line))
        }
    }
}
