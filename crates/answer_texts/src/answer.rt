//! From a command and the text of a model to the reply.

ghost use Rattle.std.specs.Prelude.{◌≡◌, ◌≤◌, ℕ, List, None, Err, option_map, string_bytes, pos, IfOk, IfErr};
ghost use Rattle.sopl_io.specs.Calls.{StopsWhere};
ghost use Rattle.sopl_io.specs.Causes.{Rose};
ghost use Rattle.scen_accept.specs.Stated.{IsLaid, States, model_in, problem_in};
ghost use Rattle.answer_lines.specs.Answer.{tree_data};
ghost use Rattle.answer_lines.specs.AnswerData.{limit_data, line_of, refused_data};
ghost use Rattle.sopl_base.specs.declared.stop.SearchStop.TheVariants as search;
ghost use Rattle.sopl_search.specs.Logged.{SearchPlan, plan_of};
ghost use Rattle.answer_texts.specs.AnswerReplies.{reply_of as replied};
ghost use Rattle.answer_texts.specs.Away.{IsTurnedAway, TellsFault};
ghost use Rattle.answer_texts.specs.Logs.{state_of};
ghost use Rattle.answer_texts.specs.Models.{IsSolvable};
ghost use Rattle.answer_texts.specs.Replies.{IsFaultOn, IsTextReply, Replies, StopsByCause};
ghost use Rattle.answer_texts.specs.declared.command.Command.TheVariants.{Solve, Tree as ShowTree};

use crate::command::{Command, Detail};
use crate::program::terms_allowed;
use crate::reply::Reply;
use crate::solve_answer::Answer;
use crate::solved::solved_answer;
use crate::status::Status;
use answer_lines::{limit_line, refused_line, tree_text};
use brancher::Brancher;
use scen_accept::{AcceptedProblem, stated_in};
use sopl_base::{Excess, Fault, Refusal, SearchStop};
use sopl_io::Sink;
use sopl_search::Schedule;
use std::alloc::{AllocError, Global};

/// The reply to a text that is refused so.
fn refused_reply(alloc: Global, refusal: Refusal) -> Result<Reply, AllocError>
    ensures status { IfOk result (λ reply. reply.status ≡ Status.Refused) }
    ensures line { IfOk result (λ reply. string_bytes reply.line ≡ line_of (refused_data (pos refusal.at) (pos refusal.code))) }
{
    let line = refused_line(alloc, refusal)?;
    Ok(Reply {
        status: Status::Refused,
        line,
    })
}

/// The reply to a text that passes this limit.
fn limit_reply(alloc: Global, excess: &Excess) -> Result<Reply, AllocError>
    ensures status { IfOk result (λ reply. reply.status ≡ Status.Limit) }
    ensures line { IfOk result (λ reply. string_bytes reply.line ≡ line_of (limit_data excess.now)) }
{
    let line = limit_line(alloc, excess)?;
    Ok(Reply {
        status: Status::Limit,
        line,
    })
}

/// The reply to a command that is not done on a text for this fault. It is refused only where memory runs out.
pub fn away_reply(alloc: Global, fault: Fault) -> Result<Reply, AllocError>
    ensures told { IfOk result (λ reply. TellsFault fault reply.status (string_bytes reply.line)) }
    ensures turned_away { IfOk result (λ reply. IsTurnedAway reply.status) }
    ensures reply { (command : Command) (text : List ℕ) (plan : SearchPlan) → IsFaultOn text command fault
        → IfOk result (λ reply. IsTextReply text plan command None reply.status (string_bytes reply.line)) }
{
    match fault {
        Fault::Text(refusal) => refused_reply(alloc, refusal),
        Fault::Limit(excess) => limit_reply(alloc, &excess),
        Fault::NoMemory => Err(AllocError),
    }
}

/// The line of the answer `tree` of what a text states.
fn tree_line(alloc: Global, stated: &AcceptedProblem) -> Result<String, AllocError>
    requires laid_out { IsLaid stated.now }
    ensures text { IfOk result (λ line. string_bytes line
        ≡ line_of (tree_data (problem_in stated.now).decisions (problem_in stated.now).stochastics)) }
{
    let ground = &stated.ground;
    let mut text = tree_text(alloc, ground.decisions(), ground.stochs(), &stated.tree)?;
    text.push('\n')?;
    Ok(text)
}

/// The reply to `tree` on a text that states this, whose terms pass no limit.
#[tactic(auto, using(crate::proofs::Answered::tree_so))]
fn shown_reply(alloc: Global, stated: &AcceptedProblem) -> Result<Reply, AllocError>
    requires laid_out { IsLaid stated.now }
    requires solvable { IsSolvable (model_in stated.now) }
    ensures reply { (text : List ℕ) (plan : SearchPlan) → States text stated.now
        → IfOk result (λ reply. IsTextReply text plan ShowTree None reply.status (string_bytes reply.line)) }
{
    let line = tree_line(alloc, stated)?;
    Ok(Reply {
        status: Status::Done,
        line,
    })
}

/// The reply to `tree` on a text that states this: its scenarios, or the limit that its terms pass.
fn tree_reply(alloc: Global, stated: &AcceptedProblem) -> Result<Reply, AllocError>
    requires stated { (text : List ℕ) × States text stated.now }
    requires laid_out { IsLaid stated.now }
    ensures reply { (text : List ℕ) (plan : SearchPlan) → States text stated.now
        → IfOk result (λ reply. IsTextReply text plan ShowTree None reply.status (string_bytes reply.line)) }
{
    match terms_allowed(alloc, stated) {
        Ok(()) => shown_reply(alloc, stated),
        Err(fault) => away_reply(alloc, fault),
    }
}

/// The reply of an answer.
fn reply_of(answer: Answer) -> Reply
    ensures reply { result ≡ replied answer }
{
    match answer {
        Answer::Settled(line) => Reply {
            status: Status::Done,
            line,
        },
        Answer::Cut(line) => Reply {
            status: Status::Bounded,
            line,
        },
    }
}

/// The reply to `solve` on a text that states this, by a search within a budget; the sink takes its log under a name.
fn solved_reply<K: Sink>(
    alloc: Global,
    detail: Detail,
    stated: &AcceptedProblem,
    budget: u32,
    schedule: Schedule,
    brancher: Option<Box<dyn Brancher>>,
    name: &str,
    sink: &mut K,
) -> Result<Reply, SearchStop>
    requires stated { (text : List ℕ) × States text stated.now }
    requires laid_out { IsLaid stated.now }
    requires budget { 1 ≤ budget }
    requires turn { schedule.turn ≡ 0 }
    ensures reply { (text : List ℕ) → States text stated.now → IfOk result (λ reply. Replies text
        (plan_of schedule (option_map rule brancher) budget) (Solve detail) name.now
        (state_of K.taken K.names sink.old) (state_of K.taken K.names sink.new) reply.status (string_bytes reply.line)) }
    ensures stopped { (text : List ℕ) → States text stated.now → IfErr result (StopsByCause text
        (plan_of schedule (option_map rule brancher) budget) (Solve detail) name.now
        (state_of K.taken K.names sink.old) (state_of K.taken K.names sink.new)) }
    ensures faults_grow { K.faults sink.old ≤ K.faults sink.new }
    ensures write { result ≡ Err search.Write → Rose (K.faults sink.old) (K.faults sink.new) }
    ensures outcomes { StopsWhere (result ≡ Err search.Write) (K.outcomes sink.old) (K.outcomes sink.new) }
{
    match solved_answer(
        alloc, detail, stated, budget, schedule, brancher, name, sink,
    )? {
        Ok(answer) => Ok(reply_of(answer)),
        Err(fault) => {
            let reply = away_reply(alloc, fault)?;
            Ok(reply)
        }
    }
}

/// The reply to a command on a text that is accepted and states this.
fn stated_reply<K: Sink>(
    alloc: Global,
    command: Command,
    stated: &AcceptedProblem,
    budget: u32,
    schedule: Schedule,
    brancher: Option<Box<dyn Brancher>>,
    name: &str,
    sink: &mut K,
) -> Result<Reply, SearchStop>
    requires stated { (text : List ℕ) × States text stated.now }
    requires laid_out { IsLaid stated.now }
    requires budget { 1 ≤ budget }
    requires turn { schedule.turn ≡ 0 }
    ensures reply { (text : List ℕ) → States text stated.now → IfOk result (λ reply. Replies text
        (plan_of schedule (option_map rule brancher) budget) command name.now
        (state_of K.taken K.names sink.old) (state_of K.taken K.names sink.new) reply.status (string_bytes reply.line)) }
    ensures stopped { (text : List ℕ) → States text stated.now → IfErr result (StopsByCause text
        (plan_of schedule (option_map rule brancher) budget) command name.now
        (state_of K.taken K.names sink.old) (state_of K.taken K.names sink.new)) }
    ensures faults_grow { K.faults sink.old ≤ K.faults sink.new }
    ensures write { result ≡ Err search.Write → Rose (K.faults sink.old) (K.faults sink.new) }
    ensures outcomes { StopsWhere (result ≡ Err search.Write) (K.outcomes sink.old) (K.outcomes sink.new) }
{
    match command {
        Command::Solve(detail) => solved_reply(
            alloc, detail, stated, budget, schedule, brancher, name, sink,
        ),
        Command::Tree => {
            let reply = tree_reply(alloc, stated)?;
            Ok(reply)
        }
    }
}

/// The reply to a command on the bytes of a text: `solve` prints the best policy with its value, `infeasible`, or a bound where its search ends
/// with as many nodes as the budget allows before it is done, and `tree` the scenarios; both tell the first rule that the text breaks, or the limit
/// that it or its terms pass. The sink is begun with the name and takes the log, where `solve` is done on the text, and is not used else. There is no
/// reply where memory runs out, and where the sink failed.
pub fn reply_to<K: Sink>(
    alloc: Global,
    command: Command,
    text: &[u8],
    budget: u32,
    schedule: Schedule,
    brancher: Option<Box<dyn Brancher>>,
    name: &str,
    sink: &mut K,
) -> Result<Reply, SearchStop>
    requires budget { 1 ≤ budget }
    requires turn { schedule.turn ≡ 0 }
    ensures reply { IfOk result (λ reply. Replies text.now
        (plan_of schedule (option_map rule brancher) budget) command name.now
        (state_of K.taken K.names sink.old) (state_of K.taken K.names sink.new) reply.status (string_bytes reply.line)) }
    ensures stopped { IfErr result (StopsByCause text.now
        (plan_of schedule (option_map rule brancher) budget) command name.now
        (state_of K.taken K.names sink.old) (state_of K.taken K.names sink.new)) }
    ensures faults_grow { K.faults sink.old ≤ K.faults sink.new }
    ensures write { result ≡ Err search.Write → Rose (K.faults sink.old) (K.faults sink.new) }
    ensures outcomes { StopsWhere (result ≡ Err search.Write) (K.outcomes sink.old) (K.outcomes sink.new) }
{
    match stated_in(alloc, text) {
        Ok(stated) => stated_reply(
            alloc, command, &stated, budget, schedule, brancher, name, sink,
        ),
        Err(fault) => {
            let reply = away_reply(alloc, fault)?;
            Ok(reply)
        }
    }
}
