//! From a text and the bytes of a log to the reply, in two steps, so that the log need not be read before the text is judged.

ghost use Rattle.std.specs.Prelude.{ℕ, List, IfOk, IfErr, string_bytes};
ghost use Rattle.answer_texts.specs.Away.{IsTurnedAway};
ghost use Rattle.answer_texts.specs.Replies.{IsFaultOn};
ghost use Rattle.answer_texts.specs.declared.command.Command.TheVariants.{Solve};
ghost use Rattle.answer_texts.specs.declared.command.Detail.TheVariants.{Full};
ghost use Rattle.answer_check.specs.CheckReplies.{IsCheckReply, IsProgramFor};

use crate::logs::log_reply;
use answer_texts::{Reply, away_reply, program_of};
use scen_accept::stated_in;
use sopl_base::Fault;
use sopl_term::Program;
use std::alloc::{AllocError, Global};

/// The reply to a text of which no log is checked, for this fault, whatever the log. It is refused only where memory runs out.
pub fn fault_reply(alloc: Global, fault: Fault) -> Result<Reply, AllocError>
    ensures reply { (text log : List ℕ) → IsFaultOn text (Solve Full) fault
        → IfOk result (λ reply. IsCheckReply text log reply.status (string_bytes reply.line)) }
    ensures turned_away { IfOk result (λ reply. IsTurnedAway reply.status) }
{
    away_reply(alloc, fault)
}

/// The program of a text that a log of it is checked against. Or why `solve` does not solve the text: its first rule that is broken, or
/// the limit that it or its terms pass.
pub fn program_to_check(alloc: Global, text: &[u8]) -> Result<Program, Fault>
    ensures program { IfOk result (IsProgramFor text.now) }
    ensures refused { IfErr result (IsFaultOn text.now (Solve Full)) }
{
    let stated = stated_in(alloc, text)?;
    program_of(alloc, &stated)
}

/// The reply to the bytes of a log of a text that has this program: accepted, with what the log claims, exactly where each of its lines is right; else its first
/// wrong line with the node of it, or the code and the line of the first mistake where the bytes are no log. It is refused only where memory runs out. The bytes
/// are given up as soon as they are read, since those of a long log take much of the memory.
pub fn program_reply(alloc: Global, program: &Program, log: Vec<u8>) -> Result<Reply, AllocError>
    requires program { (text : List ℕ) × IsProgramFor text program.now }
    ensures reply { (text : List ℕ) → IsProgramFor text program.now
        → IfOk result (λ reply. IsCheckReply text log.items reply.status (string_bytes reply.line)) }
    ensures judged { IfOk result (λ reply. ¬ IsTurnedAway reply.status) }
{
    log_reply(alloc, program, log)
}
