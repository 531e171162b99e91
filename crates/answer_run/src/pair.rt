//! A command on the text of a model and a second file.

ghost use Rattle.std.specs.Prelude.{◌≡◌, ◌≤◌, ℕ, List, None, IfOk, IfErr, IfSome, string_bytes};
ghost use Rattle.std.specs.Io.KnownBytes.{IsAtEnd};
ghost use Rattle.sopl_io.specs.Calls.{Outcomes};
ghost use Rattle.sopl_io.specs.Rests.{LeavesRest};
ghost use Rattle.sopl_io.specs.Stock.{text_of, with_name};
ghost use Rattle.sopl_base.specs.declared.stop.SearchStop.TheVariants as search;
ghost use Rattle.answer_texts.specs.Away.{IsTurnedAway};
ghost use Rattle.answer_texts.specs.Replies.{IsFaultOn};
ghost use Rattle.answer_texts.specs.declared.command.Command.TheVariants.{Solve};
ghost use Rattle.answer_texts.specs.declared.command.Detail.TheVariants.{Full};
ghost use Rattle.answer_eval.specs.EvalReplies.{IsEvalReply, IsStatedFor};
ghost use Rattle.answer_run.specs.Bases.{IsBasisFor, judging};
ghost use Rattle.answer_run.specs.Calls.{ReplyCalls};
ghost use Rattle.answer_run.specs.Replies.{IsAnswered, IsPairReply};
ghost use Rattle.answer_run.specs.Runs.{AnswersBoth, BeginsSecond, LeavesSecond, meant_status};

use crate::commands::PairCommand;
use crate::reply::word_reply;
use answer_check::{fault_reply, program_reply, program_to_check};
use answer_eval::{policy_reply, text_to_eval, unsolved_reply};
use answer_texts::{Reply, Status};
use scen_accept::AcceptedProblem;
use sopl_base::{Fault, SearchStop};
use sopl_io::{ReadStop, Source, read_all};
use sopl_term::Program;
use std::alloc::{AllocError, Global};

/// What a second file is judged by.
#[derive(Drop)]
enum Basis {
    /// The program of the text that the file is a log of.
    Log(Program),
    /// What the text states that the file is a policy of.
    Policy(AcceptedProblem),
}

/// What a command judges the second file by. Or why `solve` does not solve the text: its first rule that is broken, or the limit that it or its terms pass.
fn basis_of(alloc: Global, command: PairCommand, text: &[u8]) -> Result<Basis, Fault>
    ensures judging { IfOk result (λ basis. judging basis ≡ command) }
    ensures basis { IfOk result (IsBasisFor text.now) }
    ensures refused { IfErr result (IsFaultOn text.now (Solve Full)) }
{
    match command {
        PairCommand::Check => {
            let program = program_to_check(alloc, text)?;
            Ok(Basis::Log(program))
        }
        PairCommand::Eval => {
            let stated = text_to_eval(alloc, text)?;
            Ok(Basis::Policy(stated))
        }
    }
}

/// The reply to the bytes of a policy of a text that states this.
fn policy_bytes_reply(
    alloc: Global,
    stated: &AcceptedProblem,
    bytes: Vec<u8>,
) -> Result<Reply, AllocError>
    requires stated { (text : List ℕ) × IsStatedFor text stated.now }
    ensures reply { (text : List ℕ) → IsStatedFor text stated.now
        → IfOk result (λ reply. IsEvalReply text bytes.items reply.status (string_bytes reply.line)) }
    ensures judged { IfOk result (λ reply. ¬ IsTurnedAway reply.status) }
{
    policy_reply(alloc, stated, bytes.as_slice())
}

/// The reply to the bytes of the second file.
fn bytes_reply(alloc: Global, basis: &Basis, bytes: Vec<u8>) -> Result<Reply, AllocError>
    requires basis { (text : List ℕ) × IsBasisFor text basis.now }
    ensures reply { (text : List ℕ) → IsBasisFor text basis.now
        → IfOk result (λ reply. IsPairReply (judging basis.now) text bytes.items reply.status (string_bytes reply.line)) }
    ensures judged { IfOk result (λ reply. ¬ IsTurnedAway reply.status) }
{
    match basis {
        Basis::Log(program) => program_reply(alloc, program, bytes),
        Basis::Policy(stated) => policy_bytes_reply(alloc, stated, bytes),
    }
}

/// The reply to a text of which the command judges no second file, for this fault.
fn away_reply(alloc: Global, command: PairCommand, fault: Fault) -> Result<Reply, AllocError>
    ensures reply { (text bytes : List ℕ) → IsFaultOn text (Solve Full) fault
        → IfOk result (λ reply. IsPairReply command text bytes reply.status (string_bytes reply.line)) }
    ensures turned_away { IfOk result (λ reply. IsTurnedAway reply.status) }
{
    match command {
        PairCommand::Check => fault_reply(alloc, fault),
        PairCommand::Eval => unsolved_reply(alloc, fault),
    }
}

/// The reply to the second file, which the source gives under this name, and which is read to its end.
fn second_reply<S: Source>(
    alloc: Global,
    basis: &Basis,
    name: &str,
    source: &mut S,
) -> Result<Reply, SearchStop>
    requires basis { (text : List ℕ) × IsBasisFor text basis.now }
    ensures reply { (text : List ℕ) → IsBasisFor text basis.now → IfOk result (λ reply.
        AnswersBoth (judging basis.now) text name.now (S.stock source.old) (S.faults source.old) (S.faults source.new) reply.status (string_bytes reply.line)) }
    ensures memory { IfErr result (λ stop. stop ≡ search.NoMemory) }
    ensures ended { IfOk result (λ reply. IsAnswered reply.status → IsAtEnd (S.left source.new)) }
    ensures rest { IfSome (S.stock source.old)
        (λ s. LeavesRest None (text_of s name.now) (S.faults source.old) (S.faults source.new) (S.left source.new)) }
    ensures names { S.names source.new ≡ with_name (S.names source.old) name.now }
    ensures judged { ¬ IsTurnedAway (meant_status result) }
    ensures faults_grow { S.faults source.old ≤ S.faults source.new }
    ensures outcomes { (log : Outcomes) → ReplyCalls (S.outcomes source.old) (S.outcomes source.new) log log result }
{
    match read_all(alloc, source, name, None) {
        Ok(bytes) => {
            let reply = bytes_reply(alloc, basis, bytes)?;
            Ok(reply)
        }
        Err(ReadStop::Fault) => word_reply(alloc, Status::ReadFault, "read fault"),
        Err(ReadStop::NoMemory) => Err(SearchStop::NoMemory),
    }
}

/// The reply to a command on the text of a model and a second file, which the source gives under this name. The source is begun once
/// where the command takes the text, and the file is then read to its end; else the source is left as it is.
pub fn pair_reply<S: Source>(
    alloc: Global,
    command: PairCommand,
    text: &[u8],
    name: &str,
    source: &mut S,
) -> Result<Reply, SearchStop>
    ensures reply { IfOk result (λ reply. AnswersBoth command text.now name.now (S.stock source.old) (S.faults source.old) (S.faults source.new)
        reply.status (string_bytes reply.line)) }
    ensures memory { IfErr result (λ stop. stop ≡ search.NoMemory) }
    ensures ended { IfOk result (λ reply. IsAnswered reply.status → IsAtEnd (S.left source.new)) }
    ensures rest { LeavesSecond name.now (S.stock source.old) (S.faults source.old) (S.faults source.new) (S.left source.old) (S.left source.new) }
    ensures names { BeginsSecond command text.now name.now (S.names source.old) (S.names source.new) (meant_status result) }
    ensures faults_grow { S.faults source.old ≤ S.faults source.new }
    ensures outcomes { (log : Outcomes) → ReplyCalls (S.outcomes source.old) (S.outcomes source.new) log log result }
{
    match basis_of(alloc, command, text) {
        Ok(basis) => second_reply(alloc, &basis, name, source),
        Err(fault) => {
            let reply = away_reply(alloc, command, fault)?;
            Ok(reply)
        }
    }
}
