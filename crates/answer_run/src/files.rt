//! A command on files.

ghost use Rattle.std.specs.Prelude.{◌+◌, ◌≡◌, ◌≤◌, false, option_map, Some, Err, IfOk, IfErr};
ghost use Rattle.std.specs.Io.KnownBytes.{IsAtEnd};
ghost use Rattle.sopl_io.specs.Causes.{Rose};
ghost use Rattle.sopl_base.specs.declared.stop.SearchStop.TheVariants as search;
ghost use Rattle.sopl_ast.specs.Tokens.{max_length};
ghost use Rattle.sopl_search.specs.Schedules.{AreSeats, IsOrder};
ghost use Rattle.answer_texts.specs.Logs.{state_of};
ghost use Rattle.answer_run.specs.Calls.{ReplyCalls};
ghost use Rattle.answer_run.specs.Reads.{TakesAtMost};
ghost use Rattle.answer_run.specs.Replies.{asked_in, BeginsFiles, IsAnswered};
ghost use Rattle.answer_run.specs.Runs.{Replied, StopsWith, meant_status};
ghost use Rattle.answer_run.specs.Shown.{request_shown};
ghost use Rattle.answer_run.specs.Words.{is_drawn, request_with};

use crate::commands::Job;
use crate::pair::pair_reply;
use crate::reply::word_reply;
use crate::request::WordRequest;
use answer_texts::{Reply, Status, reply_to};
use brancher::Brancher;
use sopl_base::{SearchStop, limits};
use sopl_io::{ReadStop, Sink, Source, read_all};
use sopl_search::Schedule;
use std::alloc::Global;

/// The bytes of a model text that are read at most: one more than a text may have.
const MOST_READ: usize = limits::TEXT_BYTES + 1;

/// The reply to a command on the files that words name, made whole in memory; of a search the log is written first.
pub fn files_reply<S: Source, K: Sink>(
    alloc: Global,
    request: &WordRequest<'_>,
    source: &mut S,
    brancher: Option<Box<dyn Brancher>>,
    log: &mut K,
) -> Result<Reply, SearchStop>
    requires files { is_drawn request.now.job ≡ false }
    requires least { 1 ≤ request.now.budget }
    requires seats { AreSeats request.now.seats }
    requires order { IsOrder request.now.order }
    ensures reply { IfOk result (Replied (Some (request_with (request_shown request.now) (option_map rule brancher)))
        (S.stock source.old) (S.faults source.old) (S.faults source.new)
        (state_of K.taken K.names log.old) (state_of K.taken K.names log.new)) }
    ensures stopped { IfErr result (StopsWith (Some (request_with (request_shown request.now) (option_map rule brancher)))
        (S.stock source.old) (state_of K.taken K.names log.old) (state_of K.taken K.names log.new)) }
    ensures ended { IfOk result (λ reply. IsAnswered reply.status → IsAtEnd (S.left source.new)) }
    ensures taken_at_most { TakesAtMost (max_length + 1) (asked_in (S.stock source.old) (Some (request_with (request_shown request.now) (option_map rule brancher))))
        (S.faults source.old) (S.faults source.new) (S.left source.new) }
    ensures faults_grow { S.faults source.old ≤ S.faults source.new }
    ensures log_later { K.faults log.old ≤ K.faults log.new }
    ensures write { result ≡ Err search.Write → Rose (K.faults log.old) (K.faults log.new) }
    ensures outcomes { ReplyCalls (S.outcomes source.old) (S.outcomes source.new) (K.outcomes log.old) (K.outcomes log.new) result }
    ensures names { BeginsFiles (S.stock source.old) (S.names source.old) (S.names source.new)
        (Some (request_with (request_shown request.now) (option_map rule brancher))) (meant_status result) }
{
    match read_all(alloc, source, request.model, Some(MOST_READ)) {
        Ok(text) => match request.job {
            Job::Text(command) => reply_to(
                alloc,
                command,
                text.as_slice(),
                request.budget,
                Schedule::new(request.seats, request.order),
                brancher,
                request.log,
                log,
            ),
            Job::Pair(command) => pair_reply(
                alloc,
                command,
                text.as_slice(),
                request.second,
                source,
            ),
            Job::Drawn(_) => unreachable!(),
        },
        Err(ReadStop::Fault) => word_reply(alloc, Status::ReadFault, "read fault"),
        Err(ReadStop::NoMemory) => Err(SearchStop::NoMemory),
    }
}
