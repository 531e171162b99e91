//! From what an accepted text states to the line that answers it, and the log of the search.

ghost use Rattle.std.specs.Prelude.{◌≡◌, ◌≤◌, ℕ, List, option_map, Err, IfOk, IfErr};
ghost use Rattle.sopl_io.specs.Calls.{StopsWhere};
ghost use Rattle.sopl_io.specs.Causes.{Rose};
ghost use Rattle.scen_accept.specs.Stated.{IsLaid, States, model_in, problem_in};
ghost use Rattle.sopl_search.specs.Logged.{plan_of};
ghost use Rattle.answer_texts.specs.Models.{IsSolvable};
ghost use Rattle.sopl_base.specs.declared.stop.SearchStop.TheVariants as search;
ghost use Rattle.answer_texts.specs.Solving.{IsProgramOf, IsSolveFault};
ghost use Rattle.answer_texts.specs.Logs.{IsUnused, TookPrefix, WrotePrefix, state_of};
ghost use Rattle.answer_texts.specs.Answering.{Answers, FindsPoint, IsAnswerOf, IsCutOff, Searched};

use crate::command::Detail;
use crate::lines::answer_of;
use crate::program::program_of;
use crate::solve_answer::Answer;
use crate::summary::summary_of;
use brancher::Brancher;
use prop_set::search_program;
use scen_accept::AcceptedProblem;
use sopl_base::{Fault, SearchStop};
use sopl_io::Sink;
use sopl_search::{Outcome, Schedule};
use sopl_term::Program;
use std::alloc::{AllocError, Global};

/// The answer of an outcome, in full or as a summary.
fn told(
    alloc: Global,
    detail: Detail,
    stated: &AcceptedProblem,
    program: &Program,
    outcome: &Outcome,
) -> Result<Answer, AllocError>
    requires laid_out { IsLaid stated.now }
    requires program { IsProgramOf (problem_in stated.now) program.now }
    requires inside { FindsPoint (problem_in stated.now) outcome.now }
    ensures answer { IfOk result (IsAnswerOf detail (problem_in stated.now) outcome.now) }
{
    match detail {
        Detail::Full => answer_of(alloc, stated, program, outcome),
        Detail::Summary => summary_of(alloc, stated, program, outcome),
    }
}

/// The answer of a search within a budget, whose log the sink takes.
fn searched_answer<K: Sink>(
    alloc: Global,
    detail: Detail,
    stated: &AcceptedProblem,
    program: &Program,
    budget: u32,
    schedule: Schedule,
    brancher: Option<Box<dyn Brancher>>,
    sink: &mut K,
) -> Result<Answer, SearchStop>
    requires stated { (text : List ℕ) × States text stated.now }
    requires laid_out { IsLaid stated.now }
    requires program { IsProgramOf (problem_in stated.now) program.now }
    requires budget { 1 ≤ budget }
    requires turn { schedule.turn ≡ 0 }
    ensures answer { IfOk result (Searched detail (problem_in stated.now)
        (plan_of schedule (option_map rule brancher) budget) (K.taken sink.old) (K.taken sink.new)) }
    ensures stopped { IfErr result (λ stop. TookPrefix (problem_in stated.now)
        (plan_of schedule (option_map rule brancher) budget) (K.taken sink.old) (K.taken sink.new)) }
    ensures names { K.names sink.new ≡ K.names sink.old }
    ensures faults_grow { K.faults sink.old ≤ K.faults sink.new }
    ensures write { result ≡ Err search.Write → Rose (K.faults sink.old) (K.faults sink.new) }
    ensures outcomes { StopsWhere (result ≡ Err search.Write) (K.outcomes sink.old) (K.outcomes sink.new) }
{
    let outcome = search_program(alloc, program, budget, schedule, brancher, sink)?;
    let answer = told(alloc, detail, stated, program, &outcome)?;
    Ok(answer)
}

/// The answer of a search whose log a sink takes that is begun with this name first.
fn logged_answer<K: Sink>(
    alloc: Global,
    detail: Detail,
    stated: &AcceptedProblem,
    program: &Program,
    budget: u32,
    schedule: Schedule,
    brancher: Option<Box<dyn Brancher>>,
    name: &str,
    sink: &mut K,
) -> Result<Answer, SearchStop>
    requires stated { (text : List ℕ) × States text stated.now }
    requires laid_out { IsLaid stated.now }
    requires program { IsProgramOf (problem_in stated.now) program.now }
    requires budget { 1 ≤ budget }
    requires turn { schedule.turn ≡ 0 }
    ensures answer { IfOk result (Answers detail (problem_in stated.now)
        (plan_of schedule (option_map rule brancher) budget) name.now
        (state_of K.taken K.names sink.old) (state_of K.taken K.names sink.new)) }
    ensures stopped { IfErr result (λ stop. WrotePrefix (problem_in stated.now)
        (plan_of schedule (option_map rule brancher) budget) name.now
        (state_of K.taken K.names sink.old) (state_of K.taken K.names sink.new)) }
    ensures faults_grow { K.faults sink.old ≤ K.faults sink.new }
    ensures write { result ≡ Err search.Write → Rose (K.faults sink.old) (K.faults sink.new) }
    ensures outcomes { StopsWhere (result ≡ Err search.Write) (K.outcomes sink.old) (K.outcomes sink.new) }
{
    if sink.begin(name).is_err() {
        return Err(SearchStop::Write);
    }
    searched_answer(
        alloc, detail, stated, program, budget, schedule, brancher, sink,
    )
}

/// The answer to what an accepted text states: its optimal policy with the value, `infeasible` where no policy satisfies, or a bound
/// where the search ends with as many nodes as the budget allows before it is done. The sink is begun with the name, and takes the
/// log of the search. Or why the text is not solved: the first limit that its terms pass (206, 207), or that there was no memory for
/// them; the sink knows nothing of it. It is refused where the search stops.
pub fn solved_answer<K: Sink>(
    alloc: Global,
    detail: Detail,
    stated: &AcceptedProblem,
    budget: u32,
    schedule: Schedule,
    brancher: Option<Box<dyn Brancher>>,
    name: &str,
    sink: &mut K,
) -> Result<Result<Answer, Fault>, SearchStop>
    requires stated { (text : List ℕ) × States text stated.now }
    requires laid_out { IsLaid stated.now }
    requires budget { 1 ≤ budget }
    requires turn { schedule.turn ≡ 0 }
    ensures answer { IfOk result (λ solved. IfOk solved (Answers detail (problem_in stated.now)
        (plan_of schedule (option_map rule brancher) budget) name.now
        (state_of K.taken K.names sink.old) (state_of K.taken K.names sink.new))) }
    ensures solvable { IfOk result (λ solved. IfOk solved (λ answer. IsSolvable (model_in stated.now))) }
    ensures refused { IfOk result (λ solved. IfErr solved (IsSolveFault (model_in stated.now))) }
    ensures unused { IfOk result (λ solved. IfErr solved (λ fault. IsUnused (state_of K.taken K.names sink.old) (state_of K.taken K.names sink.new))) }
    ensures stopped { IfErr result (λ stop. IsCutOff stated.now
        (plan_of schedule (option_map rule brancher) budget) name.now
        (state_of K.taken K.names sink.old) (state_of K.taken K.names sink.new)) }
    ensures faults_grow { K.faults sink.old ≤ K.faults sink.new }
    ensures write { result ≡ Err search.Write → Rose (K.faults sink.old) (K.faults sink.new) }
    ensures outcomes { StopsWhere (result ≡ Err search.Write) (K.outcomes sink.old) (K.outcomes sink.new) }
{
    match program_of(alloc, stated) {
        Ok(program) => {
            let answer = logged_answer(
                alloc, detail, stated, &program, budget, schedule, brancher, name, sink,
            )?;
            Ok(Ok(answer))
        }
        Err(fault) => Ok(Err(fault)),
    }
}
