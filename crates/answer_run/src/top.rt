//! The top call: words, a source and two sinks in, a status out.

ghost use Rattle.std.specs.Prelude.{◌+◌, ◌≡◌, ◌⊎◌, ◌≤◌, true, false, map, option_map, Some, Err, IfOk, IfErr};
ghost use Rattle.std.specs.Io.KnownBytes.{IsAtEnd};
ghost use Rattle.sopl_io.specs.Causes.{Rose};
ghost use Rattle.sopl_base.specs.declared.stop.SearchStop.TheVariants as search;
ghost use Rattle.sopl_ast.specs.Tokens.{max_length};
ghost use Rattle.answer_texts.specs.Logs.{state_of};
ghost use Rattle.answer_run.specs.Calls.{LineCalls, ReplyCalls};
ghost use Rattle.sopl_search.specs.Schedules.{AreSeats, IsOrder};
ghost use Rattle.answer_run.specs.Words.{asked_of, no_one_has, reads_files, request_with};
ghost use Rattle.answer_run.specs.Promises.{Promises};
ghost use Rattle.answer_run.specs.Replies.{asked_in, Answers, BeginsFiles, IsAnswered, IsUntouched};
ghost use Rattle.answer_run.specs.Reads.{TakesAtMost};
ghost use Rattle.answer_run.specs.Shown.{request_shown, text_shown};
ghost use Rattle.answer_run.specs.States.{run_state, sink_state, source_state};
ghost use Rattle.answer_run.specs.Runs.{IsWritten, Replied, StopsWith, meant_status, stop_status};

use crate::commands::Job;
use crate::drawn::drawn_reply;
use crate::files::files_reply;
use crate::reply::word_reply;
use crate::request::{WordRequest, request_in};
use crate::words::Words;
use answer_check::checks_end_once;
use answer_eval::evals_end_once;
use answer_texts::{Reply, Status};
use brancher::{Brancher, chosen};
use sopl_base::SearchStop;
use sopl_io::{Sink, Source, write_all};
use std::alloc::Global;

/// Runs the command that the words name: it reads from the source, writes the log of a search to the log's sink, and then one answer line to the
/// answer's sink.
#[tactic(auto, using(crate::proofs::Statuses::refused_once, crate::proofs::Statuses::limited_once))]
pub fn run<S: Source, K: Sink>(
    alloc: Global,
    words: &Words,
    source: &mut S,
    answer: &mut K,
    log: &mut K,
    branchers: Vec<Box<dyn Brancher>>,
) -> Status
    // What is answered: of a text that is solved, a policy that is admitted and that none betters, or that none is admitted.
    ensures answered { Answers (asked_of (map (λ b. (label b, rule b)) branchers.items) words.now)
        (run_state (source_state S.left S.stock S.faults S.outcomes S.names source.old)
        (sink_state K.taken K.faults K.outcomes K.names answer.old) (sink_state K.taken K.faults K.outcomes K.names log.old))
        (run_state (source_state S.left S.stock S.faults S.outcomes S.names source.new)
        (sink_state K.taken K.faults K.outcomes K.names answer.new) (sink_state K.taken K.faults K.outcomes K.names log.new)) result }

    // All else that is promised: a named field of `Promises` for each fact, of what the words ask for, the states before and after, and the status.
    ensures promises { Promises (asked_of (map (λ b. (label b, rule b)) branchers.items) words.now)
        (run_state (source_state S.left S.stock S.faults S.outcomes S.names source.old)
        (sink_state K.taken K.faults K.outcomes K.names answer.old) (sink_state K.taken K.faults K.outcomes K.names log.old))
        (run_state (source_state S.left S.stock S.faults S.outcomes S.names source.new)
        (sink_state K.taken K.faults K.outcomes K.names answer.new) (sink_state K.taken K.faults K.outcomes K.names log.new)) result }
{
    checks_end_once();
    evals_end_once();
    match reply_for(alloc, words, source, log, branchers) {
        Ok(reply) => written(answer, &reply),
        Err(stop) => status_of(stop),
    }
}

/// How a run ends that has no reply.
fn status_of(stop: SearchStop) -> Status
    ensures status { result ≡ stop_status stop }
{
    match stop {
        SearchStop::Write => Status::WriteFault,
        SearchStop::NoMemory => Status::NoMemory,
    }
}

/// Writes the line of a reply, and answers how the run ends.
fn written<K: Sink>(answer: &mut K, reply: &Reply) -> Status
    ensures taken { IsWritten (K.taken answer.old) (K.taken answer.new) (K.faults answer.old) (K.faults answer.new) reply.now result }
    ensures write { result ≡ Status.WriteFault → (reply.now.status ≡ Status.WriteFault) ⊎ Rose (K.faults answer.old) (K.faults answer.new) }
    ensures outcomes { LineCalls (K.outcomes answer.old) (K.outcomes answer.new) reply.now result }
    ensures faults_grow { K.faults answer.old ≤ K.faults answer.new }
    ensures names { K.names answer.new ≡ K.names answer.old }
{
    match write_all(answer, reply.line.as_bytes()) {
        Ok(()) => reply.status,
        Err(_) => Status::WriteFault,
    }
}

/// Whether a name was given, and no brancher has it.
fn is_missing(name: Option<&str>, brancher: &Option<Box<dyn Brancher>>) -> bool
    ensures missing { result ≡ no_one_has (option_map text_shown name.entry) (option_map rule brancher.now) }
{
    name.is_some() && brancher.is_none()
}

/// The reply to what words say, by this brancher, if any.
fn request_reply<S: Source, K: Sink>(
    alloc: Global,
    request: &WordRequest<'_>,
    source: &mut S,
    brancher: Option<Box<dyn Brancher>>,
    log: &mut K,
) -> Result<Reply, SearchStop>
    requires least { 1 ≤ request.now.budget }
    requires seats { AreSeats request.now.seats }
    requires order { IsOrder request.now.order }
    ensures reply { IfOk result (Replied (Some (request_with (request_shown request.now) (option_map rule brancher)))
        (S.stock source.old) (S.faults source.old) (S.faults source.new)
        (state_of K.taken K.names log.old) (state_of K.taken K.names log.new)) }
    ensures stopped { IfErr result (StopsWith (Some (request_with (request_shown request.now) (option_map rule brancher)))
        (S.stock source.old) (state_of K.taken K.names log.old) (state_of K.taken K.names log.new)) }
    ensures ended { reads_files (Some (request_with (request_shown request.now) (option_map rule brancher))) ≡ true
        → IfOk result (λ reply. IsAnswered reply.status → IsAtEnd (S.left source.new)) }
    ensures taken_at_most { TakesAtMost (max_length + 1) (asked_in (S.stock source.old) (Some (request_with (request_shown request.now) (option_map rule brancher))))
        (S.faults source.old) (S.faults source.new) (S.left source.new) }
    ensures faults_grow { S.faults source.old ≤ S.faults source.new }
    ensures log_later { K.faults log.old ≤ K.faults log.new }
    ensures write { result ≡ Err search.Write → Rose (K.faults log.old) (K.faults log.new) }
    ensures outcomes { ReplyCalls (S.outcomes source.old) (S.outcomes source.new) (K.outcomes log.old) (K.outcomes log.new) result }
    ensures untouched { reads_files (Some (request_with (request_shown request.now) (option_map rule brancher))) ≡ false
        → IsUntouched (S.left source.old) (S.stock source.old) (S.faults source.old)
        (S.left source.new) (S.stock source.new) (S.faults source.new) }
    ensures names { BeginsFiles (S.stock source.old) (S.names source.old) (S.names source.new)
        (Some (request_with (request_shown request.now) (option_map rule brancher))) (meant_status result) }
{
    match request.job {
        Job::Drawn(command) => drawn_reply(alloc, command, request, brancher, log),
        Job::Text(_) | Job::Pair(_) => files_reply(alloc, request, source, brancher, log),
    }
}

/// The reply to the words, made whole in memory; of a search the log is written first.
fn reply_for<S: Source, K: Sink>(
    alloc: Global,
    words: &Words,
    source: &mut S,
    log: &mut K,
    branchers: Vec<Box<dyn Brancher>>,
) -> Result<Reply, SearchStop>
    ensures reply { IfOk result (Replied
        (asked_of (map (λ b. (label b, rule b)) branchers.items) words.now) (S.stock source.old) (S.faults source.old) (S.faults source.new)
        (state_of K.taken K.names log.old) (state_of K.taken K.names log.new)) }
    ensures stopped { IfErr result (StopsWith (asked_of (map (λ b. (label b, rule b)) branchers.items) words.now) (S.stock source.old)
        (state_of K.taken K.names log.old) (state_of K.taken K.names log.new)) }
    ensures ended { reads_files (asked_of (map (λ b. (label b, rule b)) branchers.items) words.now) ≡ true
        → IfOk result (λ reply. IsAnswered reply.status → IsAtEnd (S.left source.new)) }
    ensures taken_at_most { TakesAtMost (max_length + 1) (asked_in (S.stock source.old)
        (asked_of (map (λ b. (label b, rule b)) branchers.items) words.now)) (S.faults source.old) (S.faults source.new) (S.left source.new) }
    ensures faults_grow { S.faults source.old ≤ S.faults source.new }
    ensures log_later { K.faults log.old ≤ K.faults log.new }
    ensures write { result ≡ Err search.Write → Rose (K.faults log.old) (K.faults log.new) }
    ensures outcomes { ReplyCalls (S.outcomes source.old) (S.outcomes source.new) (K.outcomes log.old) (K.outcomes log.new) result }
    ensures untouched { reads_files (asked_of (map (λ b. (label b, rule b)) branchers.items) words.now) ≡ false
        → IsUntouched (S.left source.old) (S.stock source.old) (S.faults source.old)
        (S.left source.new) (S.stock source.new) (S.faults source.new) }
    ensures names { BeginsFiles (S.stock source.old) (S.names source.old) (S.names source.new)
        (asked_of (map (λ b. (label b, rule b)) branchers.items) words.now) (meant_status result) }
{
    let Some(request) = request_in(words) else {
        return word_reply(alloc, Status::Usage, "usage");
    };
    let brancher = chosen(branchers, request.branch);
    if is_missing(request.branch, &brancher) {
        return word_reply(alloc, Status::Usage, "usage");
    }
    request_reply(alloc, &request, source, brancher, log)
}
