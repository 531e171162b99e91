//! The search.

ghost use Rattle.std.specs.Prelude.{◌≡◌, ◌≤◌, ◌<◌, ℕ, false, List, map, option_map, Option, Err, IfOk, OnOk, OnErr};
ghost use Rattle.sopl_io.specs.Calls.{StopsWhere};
ghost use Rattle.sopl_io.specs.Causes.{Rose};
ghost use Rattle.sopl_base.specs.declared.stop.SearchStop.TheVariants.{Write};
ghost use Rattle.sopl_base.specs.declared.limits.TheConstants as largest;
ghost use Rattle.std.specs.Int.RustNames.{unsigned_abs};
ghost use Rattle.box_problem.specs.Bits.{bits_in};
ghost use Rattle.box_problem.specs.Box.{points};
ghost use Rattle.box_problem.specs.BoxProblem.{Lawful};
ghost use Rattle.box_problem.specs.Covers.{nodes_for};
ghost use Rattle.box_problem.specs.Near.{IsNearBox};
ghost use Rattle.brancher.specs.Rules.{Rule};
ghost use Rattle.prop_core.specs.Members.{AllFit, together};
ghost use Rattle.prop_core.specs.Watches.{AllInStep};
ghost use Rattle.sopl_search.specs.Ends.{AreAll, IsPosed};
ghost use Rattle.sopl_search.specs.Following.{AreFollowing};
ghost use Rattle.sopl_search.specs.Frontiers.{IsRunning};
ghost use Rattle.sopl_search.specs.Logged.{IsLogged, IsPrefixLogged, plan_of};
ghost use Rattle.sopl_search.specs.Outcomes.{HasCause, IsSettled, IsTrueOf};

use crate::crew::Crew;
use crate::outcome::Outcome;
use crate::posed::SearchProblem;
use crate::schedule::Schedule;
use brancher::Brancher;
use sopl_base::SearchStop;
use sopl_io::Sink;
use std::alloc::Global;

/// A crew whose sink has got the first line of the log.
fn begun<P: SearchProblem + Drop, K: Sink>(
    alloc: Global,
    program: &P::Program,
    props: Vec<P>,
    budget: u32,
    schedule: Schedule,
    brancher: Option<Box<dyn Brancher>>,
    sink: &mut K,
) -> Result<Crew<P>, SearchStop>
    requires posed { IsPosed (P.problem program.now) }
    requires valid { P.valid program.now }
    requires fits { AllFit P.fits program.now props.items }
    requires all { AreAll (P.problem program.now) (together (map P.reasons props.items)) }
    requires in_step { AllInStep P.in_step program.now (P.problem program.now).root props.items }
    ensures running { IfOk result (λ crew. IsRunning (P.problem program.now) (plan_of schedule (option_map rule brancher) budget) crew.frontier
        (K.taken sink.old) (K.taken sink.new)) }
    ensures prefix { OnErr result (IsPrefixLogged (P.problem program.now) (plan_of schedule (option_map rule brancher) budget)
        (K.taken sink.old) (K.taken sink.new)) }
    ensures none_finished { IfOk result (λ crew. crew.frontier.finished ≡ 0) }
    ensures root { IfOk result (λ crew. crew.frontier.open_count ≡ 1) }
    ensures fits { IfOk result (λ crew. AllFit P.fits program.now crew.watchers.list.items) }
    ensures all { IfOk result (λ crew. AreAll (P.problem program.now) (together (map P.reasons crew.watchers.list.items))) }
    ensures following { IfOk result (λ crew. AreFollowing P.in_step P.watches program.now (P.problem program.now).root crew.watchers) }
    ensures asked { IfOk result (λ crew. option_map rule crew.brancher ≡ option_map rule brancher) }
    ensures whole { IfOk result (λ crew. crew.broken ≡ false) }
    ensures names { K.names sink.new ≡ K.names sink.old }
    ensures faults_grow { K.faults sink.old ≤ K.faults sink.new }
    ensures write { result ≡ Err Write → Rose (K.faults sink.old) (K.faults sink.new) }
    ensures outcomes { StopsWhere (result ≡ Err Write) (K.outcomes sink.old) (K.outcomes sink.new) }
{
    let mut crew = Crew::new(alloc, program, props, schedule.seats, brancher)?;
    crew.begin(sink)?;
    Ok(crew)
}

/// Finishes nodes, each by the seat whose turn it is, until none is open or `budget` of them are finished.
fn run<P: SearchProblem + Drop, K: Sink>(
    crew: &mut Crew<P>,
    program: &P::Program,
    budget: u32,
    schedule: Schedule,
    sink: &mut K,
) -> Result<(), SearchStop>
    requires posed { IsPosed (P.problem program.now) }
    requires valid { P.valid program.now }
    requires fits { AllFit P.fits program.now crew.old.watchers.list.items }
    requires all { AreAll (P.problem program.now) (together (map P.reasons crew.old.watchers.list.items)) }
    requires following { AreFollowing P.in_step P.watches program.now (P.problem program.now).root crew.old.watchers }
    requires whole { crew.old.broken ≡ false }
    requires begun { crew.old.frontier.finished ≡ 0 }
    requires root { 0 < crew.old.frontier.open_count }
    requires turn { schedule.turn ≡ 0 }
    requires budget { 1 ≤ budget }
    requires running { (asked : Option Rule) × (before : Option (List ℕ)) × (option_map rule crew.old.brancher ≡ asked)
        × IsRunning (P.problem program.now) (plan_of schedule asked budget) crew.old.frontier before (K.taken sink.old) }
    ensures running { (asked : Option Rule) (before : Option (List ℕ)) → option_map rule crew.old.brancher ≡ asked
        → IsRunning (P.problem program.now) (plan_of schedule asked budget) crew.old.frontier before (K.taken sink.old)
        → OnOk result (IsRunning (P.problem program.now) (plan_of schedule asked budget) crew.new.frontier before (K.taken sink.new)) }
    ensures prefix { (asked : Option Rule) (before : Option (List ℕ)) → option_map rule crew.old.brancher ≡ asked
        → IsRunning (P.problem program.now) (plan_of schedule asked budget) crew.old.frontier before (K.taken sink.old)
        → OnErr result (IsPrefixLogged (P.problem program.now) (plan_of schedule asked budget) before (K.taken sink.new)) }
    ensures some { OnOk result (0 < crew.new.frontier.finished) }
    ensures done { OnOk result (0 < crew.new.frontier.open_count → crew.new.frontier.finished ≡ budget) }
    ensures asked { option_map rule crew.new.brancher ≡ option_map rule crew.old.brancher }
    ensures whole { OnOk result (crew.new.broken ≡ false) }
    ensures names { K.names sink.new ≡ K.names sink.old }
    ensures faults_grow { K.faults sink.old ≤ K.faults sink.new }
    ensures write { result ≡ Err Write → Rose (K.faults sink.old) (K.faults sink.new) }
    ensures outcomes { StopsWhere (result ≡ Err Write) (K.outcomes sink.old) (K.outcomes sink.new) }
{
    let mut turns = schedule;
    'nodes: while crew.has_next(budget) {
        let seat = turns.next();
        crew.step(program, seat, sink)?;
    }
    Ok(())
}

/// Searches the box of all points for the best point that satisfies, over the nodes of a tree of boxes; no more than `budget` of them are
/// finished. The schedule gives each step to a seat, which finishes its newest open node, or else the oldest one of the first seat that has one.
/// Propagators narrow the box of a node until they rest; then it is cut as the brancher chooses, or in the middle of the first cell that has more than one
/// value. Without an objective any point that satisfies is the best one. The sink takes the log of the search while it goes on, in pieces of 65,536 bytes.
pub fn search<P: SearchProblem + Drop, K: Sink>(
    alloc: Global,
    program: &P::Program,
    props: Vec<P>,
    budget: u32,
    schedule: Schedule,
    brancher: Option<Box<dyn Brancher>>,
    sink: &mut K,
) -> Result<Outcome, SearchStop>
    requires lawful { Lawful (P.problem program.now) }
    requires near { IsNearBox (P.problem program.now).root }
    requires bits { bits_in (P.problem program.now).root ≤ unsigned_abs largest.BITS }
    requires valid { P.valid program.now }
    requires fits { AllFit P.fits program.now props.items }
    requires all { AreAll (P.problem program.now) (together (map P.reasons props.items)) }
    requires in_step { AllInStep P.in_step program.now (P.problem program.now).root props.items }
    requires budget { 1 ≤ budget }
    requires turn { schedule.turn ≡ 0 }
    ensures truth { IfOk result (IsTrueOf (P.problem program.now)) }
    ensures cause { IfOk result (HasCause (P.problem program.now) budget) }
    ensures enough { nodes_for (points (P.problem program.now).root) ≤ budget → IfOk result IsSettled }
    ensures log { IfOk result (λ outcome. IsLogged (P.problem program.now) (plan_of schedule (option_map rule brancher) budget) outcome
        (K.taken sink.old) (K.taken sink.new)) }
    ensures prefix { OnErr result (IsPrefixLogged (P.problem program.now) (plan_of schedule (option_map rule brancher) budget)
        (K.taken sink.old) (K.taken sink.new)) }
    ensures names { K.names sink.new ≡ K.names sink.old }
    ensures faults_grow { K.faults sink.old ≤ K.faults sink.new }
    ensures write { result ≡ Err Write → Rose (K.faults sink.old) (K.faults sink.new) }
    ensures outcomes { StopsWhere (result ≡ Err Write) (K.outcomes sink.old) (K.outcomes sink.new) }
{
    let mut crew = begun(alloc, program, props, budget, schedule, brancher, sink)?;
    run(&mut crew, program, budget, schedule, sink)?;
    crew.close(program, sink)
}
