//! The search over the box of a program.

ghost use Rattle.std.specs.Prelude.{◌≡◌, ◌≤◌, option_map, IfOk, OnErr, Err};
ghost use Rattle.sopl_io.specs.Calls.{StopsWhere};
ghost use Rattle.sopl_io.specs.Causes.{Rose};
ghost use Rattle.box_problem.specs.Bits.{bits_in};
ghost use Rattle.box_problem.specs.Box.{points};
ghost use Rattle.box_problem.specs.Covers.{nodes_for};
ghost use Rattle.sopl_base.specs.declared.stop.SearchStop.TheVariants.{Write};
ghost use Rattle.sopl_base.specs.declared.limits.TheConstants as largest;
ghost use Rattle.std.specs.Int.RustNames.{unsigned_abs};
ghost use Rattle.sopl_search.specs.Logged.{IsPrefixLogged, IsLogged, plan_of};
ghost use Rattle.sopl_search.specs.Outcomes.{HasCause, IsSettled, IsTrueOf};
ghost use Rattle.term_program.specs.Stated.{box_problem_of};
ghost use Rattle.term_program.specs.Programs.{IsMade};

use crate::reasons::props_of;
use brancher::Brancher;
use sopl_base::SearchStop;
use sopl_io::Sink;
use sopl_search::{Outcome, Schedule, search};
use std::alloc::Global;
use term_program::Program;

/// Searches for the best point of a program, over the nodes of a tree of boxes; no more than `budget` of them are finished. What is
/// answered is true of all points, and the search gives up only where nothing is settled after as many nodes as the budget allows. Values
/// are numerators over the program's denominator. Without an objective any point that satisfies is the best one, and its value is 0. The
/// sink takes the log of the search while it goes on.
pub fn search_program<K: Sink>(
    alloc: Global,
    program: &Program,
    budget: u32,
    schedule: Schedule,
    brancher: Option<Box<dyn Brancher>>,
    sink: &mut K,
) -> Result<Outcome, SearchStop>
    requires made { IsMade program.now }
    requires bits { bits_in (box_problem_of program.now).root ≤ unsigned_abs largest.BITS }
    requires budget { 1 ≤ budget }
    requires turn { schedule.turn ≡ 0 }
    ensures truth { IfOk result (IsTrueOf (box_problem_of program.now)) }
    ensures cause { IfOk result (HasCause (box_problem_of program.now) budget) }
    ensures enough { nodes_for (points (box_problem_of program.now).root) ≤ budget → IfOk result IsSettled }
    ensures log { IfOk result (λ outcome. IsLogged (box_problem_of program.now) (plan_of schedule (option_map rule brancher) budget) outcome
        (K.taken sink.old) (K.taken sink.new)) }
    ensures prefix { OnErr result (IsPrefixLogged (box_problem_of program.now) (plan_of schedule (option_map rule brancher) budget)
        (K.taken sink.old) (K.taken sink.new)) }
    ensures names { K.names sink.new ≡ K.names sink.old }
    ensures faults_grow { K.faults sink.old ≤ K.faults sink.new }
    ensures write { result ≡ Err Write → Rose (K.faults sink.old) (K.faults sink.new) }
    ensures outcomes { StopsWhere (result ≡ Err Write) (K.outcomes sink.old) (K.outcomes sink.new) }
{
    let props = props_of(alloc, program)?;
    search(alloc, program, props, budget, schedule, brancher, sink)
}
