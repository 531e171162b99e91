//! From the bytes of a log to the reply.

ghost use Rattle.std.specs.Prelude.{◌≡◌, ℕ, List, IfOk, IfErr, string_bytes};
ghost use Rattle.sopl_ast.specs.Instances.{Problem};
ghost use Rattle.sopl_ast.specs.Unfolding.{problem_of};
ghost use Rattle.sopl_ast.specs.Whole.{ModelTree};
ghost use Rattle.compile_laws.specs.WellMade.{IsUnfolded};
ghost use Rattle.term_problem.specs.Problems.{denominator_in};
ghost use Rattle.term_program.specs.Programs.{IsMade, problem_in};
ghost use Rattle.term_program.specs.Stated.{box_problem_of};
ghost use Rattle.log_tree.specs.Reads.{IsReading, RefusedAs, read, refused};
ghost use Rattle.log_check.specs.Verdicts.{IsVerdict};
ghost use Rattle.answer_lines.specs.AnswerData.{line_of};
ghost use Rattle.answer_texts.specs.Solving.{IsProgramOf};
ghost use Rattle.answer_check.specs.CheckReplies.{IsLogReply};
ghost use Rattle.answer_check.specs.Verdicts.{status_of, verdict_data};

use crate::lines::{accepted_line, rejected_line};
use answer_lines::unreadable_line;
use answer_texts::{Reply, Status};
use log_check::{Checker, Verdict};
use log_rows::Footer;
use log_tree::{Log, read_log, readings_are_texts};
use sopl_base::{Fault, Refusal};
use sopl_term::Program;
use std::alloc::{AllocError, Global};

/// The verdict on a log that was read.
fn verdict_on(alloc: Global, program: &Program, log: &Log) -> Result<Verdict, AllocError>
    requires made { IsMade program.now }
    requires read { (bytes : List ℕ) × IsReading bytes (read log.now.rows.items log.now.footer) }
    ensures verdict { IfOk result (IsVerdict (box_problem_of program.now) log.now.rows.items log.now.footer) }
{
    readings_are_texts();
    let mut checker = Checker::new(alloc, program, log)?;
    Ok(checker.check(program, log))
}

/// The reply of a verdict on a log with this claim.
fn verdict_reply(
    alloc: Global,
    program: &Program,
    claim: &Footer,
    verdict: Verdict,
) -> Result<Reply, AllocError>
    ensures status { IfOk result (λ reply. reply.status ≡ status_of verdict) }
    ensures line { IfOk result (λ reply. string_bytes reply.line
        ≡ line_of (verdict_data claim.now (denominator_in (problem_in program.now)) verdict)) }
{
    match verdict {
        Verdict::Accepted => {
            let line = accepted_line(alloc, claim, program.denominator())?;
            Ok(Reply {
                status: Status::Done,
                line,
            })
        }
        Verdict::Rejected { node, line } => {
            let line = rejected_line(alloc, line, node)?;
            Ok(Reply {
                status: Status::Failing,
                line,
            })
        }
    }
}

/// The reply to a log that was read.
fn read_reply(alloc: Global, program: &Program, log: &Log) -> Result<Reply, AllocError>
    requires made { IsMade program.now }
    requires read { (bytes : List ℕ) × IsReading bytes (read log.now.rows.items log.now.footer) }
    ensures reply { (model : ModelTree) (bytes : List ℕ) → IsUnfolded model → IsProgramOf (problem_of model) program.now
        → IsReading bytes (read log.now.rows.items log.now.footer)
        → IfOk result (λ reply. IsLogReply (problem_of model) bytes reply.status (string_bytes reply.line)) }
{
    let verdict = verdict_on(alloc, program, log)?;
    verdict_reply(alloc, program, &log.footer, verdict)
}

/// The reply to bytes that are no log, for this mistake.
fn unreadable_reply(alloc: Global, mistake: Refusal) -> Result<Reply, AllocError>
    ensures reply { (problem : Problem) (bytes : List ℕ) → IsReading bytes (refused mistake.code mistake.at)
        → IfOk result (λ reply. IsLogReply problem bytes reply.status (string_bytes reply.line)) }
{
    let line = unreadable_line(alloc, mistake)?;
    Ok(Reply {
        status: Status::Unreadable,
        line,
    })
}

/// The reply to bytes that were not read as a log, for this fault.
fn unread_reply(alloc: Global, fault: Fault) -> Result<Reply, AllocError>
    requires refused { (bytes : List ℕ) × RefusedAs (IsReading bytes) fault }
    ensures reply { (problem : Problem) (bytes : List ℕ) → RefusedAs (IsReading bytes) fault
        → IfOk result (λ reply. IsLogReply problem bytes reply.status (string_bytes reply.line)) }
{
    match fault {
        Fault::Text(mistake) => unreadable_reply(alloc, mistake),
        Fault::Limit(_) => unreachable!(),
        Fault::NoMemory => Err(AllocError),
    }
}

/// The log of these bytes, which are given up.
fn log_in(alloc: Global, bytes: Vec<u8>) -> Result<Log, Fault>
    ensures ok { IfOk result (λ log. IsReading bytes.items (read log.rows.items log.footer)) }
    ensures err { IfErr result (RefusedAs (IsReading bytes.items)) }
{
    read_log(alloc, bytes.as_slice())
}

/// The reply to the bytes of a log of the text that has this program.
pub(crate) fn log_reply(
    alloc: Global,
    program: &Program,
    bytes: Vec<u8>,
) -> Result<Reply, AllocError>
    requires made { IsMade program.now }
    ensures reply { (model : ModelTree) → IsUnfolded model → IsProgramOf (problem_of model) program.now
        → IfOk result (λ reply. IsLogReply (problem_of model) bytes.items reply.status (string_bytes reply.line)) }
{
    match log_in(alloc, bytes) {
        Ok(log) => read_reply(alloc, program, &log),
        Err(fault) => unread_reply(alloc, fault),
    }
}
