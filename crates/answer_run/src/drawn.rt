//! A command on a text that is drawn.

ghost use Rattle.std.specs.Prelude.{◌≡◌, ◌≤◌, ℕ, option_map, Option, Some, Err, IfOk, IfErr};
ghost use Rattle.sopl_io.specs.Calls.{Outcomes};
ghost use Rattle.sopl_io.specs.Causes.{Rose};
ghost use Rattle.sopl_io.specs.Stock.{Stock};
ghost use Rattle.sopl_base.specs.declared.stop.SearchStop.TheVariants as search;
ghost use Rattle.sopl_search.specs.Schedules.{AreSeats, IsOrder};
ghost use Rattle.answer_texts.specs.Logs.{state_of};
ghost use Rattle.answer_run.specs.Calls.{ReplyCalls};
ghost use Rattle.answer_run.specs.Runs.{Replied, StopsWith};
ghost use Rattle.answer_run.specs.Shown.{request_shown};
ghost use Rattle.answer_run.specs.Words.{request_with};
ghost use Rattle.answer_run.specs.declared.commands.Job.TheVariants.{Drawn};

use crate::commands::DrawnCommand;
use crate::request::WordRequest;
use answer_texts::{Command, Detail, Reply, Status, reply_to};
use brancher::Brancher;
use model_gen::generated;
use sopl_base::SearchStop;
use sopl_io::Sink;
use sopl_search::Schedule;
use std::alloc::Global;

/// The reply to a command on the text that is drawn of the two numbers that words give: the text, or a summary of a search of it, whose log
/// is written first.
pub fn drawn_reply<K: Sink>(
    alloc: Global,
    command: DrawnCommand,
    request: &WordRequest<'_>,
    brancher: Option<Box<dyn Brancher>>,
    log: &mut K,
) -> Result<Reply, SearchStop>
    requires job { request.now.job ≡ Drawn command }
    requires least { 1 ≤ request.now.budget }
    requires seats { AreSeats request.now.seats }
    requires order { IsOrder request.now.order }
    ensures reply { (stock : Option Stock) (before now : ℕ) → IfOk result (Replied (Some (request_with (request_shown request.now) (option_map rule brancher)))
        stock before now (state_of K.taken K.names log.old) (state_of K.taken K.names log.new)) }
    ensures stopped { (stock : Option Stock) → IfErr result (StopsWith (Some (request_with (request_shown request.now) (option_map rule brancher)))
        stock (state_of K.taken K.names log.old) (state_of K.taken K.names log.new)) }
    ensures log_later { K.faults log.old ≤ K.faults log.new }
    ensures write { result ≡ Err search.Write → Rose (K.faults log.old) (K.faults log.new) }
    ensures outcomes { (source : Outcomes) → ReplyCalls source source (K.outcomes log.old) (K.outcomes log.new) result }
{
    let text = generated(alloc, request.stages, request.seed)?;
    match command {
        DrawnCommand::Gen => Ok(Reply {
            status: Status::Done,
            line: text,
        }),
        DrawnCommand::Demo => reply_to(
            alloc,
            Command::Solve(Detail::Summary),
            text.as_bytes(),
            request.budget,
            Schedule::new(request.seats, request.order),
            brancher,
            request.log,
            log,
        ),
    }
}
