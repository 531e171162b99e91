//! The propagator of the objective.

ghost use Rattle.std.specs.Prelude.{◌≡◌, ◌<◌, ◌∷◌, ◌++◌, [], true, false, if◌then◌else◌, length, map, Some, All, Contains, IfNone, IfOk};
ghost use Rattle.std.specs.Prelude.{IfSome, OnOk};
ghost use Rattle.std.specs.List.{AllByRecursion};
ghost use Rattle.sopl_base.specs.declared.reason.Reason.TheVariants.{Bound, Undefined};
ghost use Rattle.box_problem.specs.Box.{Box, Inside};
ghost use Rattle.box_problem.specs.Rightness.{IsRight, Quiets};
ghost use Rattle.term_language.specs.declared.answers.Defined.TheVariants.{Always};
ghost use Rattle.term_nodes.specs.Things.{term_at};
ghost use Rattle.term_problem.specs.Search.{numbers_to};
ghost use Rattle.term_program.specs.declared.program.Program.{Program as Stated};
ghost use Rattle.term_program.specs.Mentions.{atom_ids};
ghost use Rattle.term_program.specs.Programs.{IsListedTerm, IsMade, problem_in, root_in, things_in};
ghost use Rattle.term_program.specs.Stated.{box_problem_of};
ghost use Rattle.prop_core.specs.Findings.{Closes, Finds};
ghost use Rattle.prop_shave.specs.GoalSums.{AreParts};
ghost use Rattle.prop_shave.specs.Opened.{IsWhole};
ghost use Rattle.prop_shave.specs.Probes.{IsAsked, closes};
ghost use Rattle.prop_chance.specs.KeptWeights.{IfSo};
ghost use Rattle.prop_goal.specs.Cells.{is_worst, term_in};
ghost use Rattle.prop_goal.specs.Goals.{ArePartial, Fits, HasLooked, InStep, IsDefined, IsOpenTo, KeepsGoal, KnowsGoal, RestsFor, lacks_of};
ghost use Rattle.prop_goal.specs.Goals.{reasons_of};
ghost use Rattle.prop_goal.specs.KeptWorst.{AreWorst};

use crate::goal_cells::GoalCells;
use crate::kept_goal::KeptGoal;
use crate::scenario_terms::scenario_terms;
use box_store::BoxStore;
use prop_core::{Finding, Propagator, Watching, rested_by, rests_at};
use prop_shave::Probe;
use sopl_base::{Reason, Step};
use std::alloc::{AllocError, Global};
use term_goals::Atom;
use term_language::Defined;
use term_program::{Program, TermId, range_of, refuted};

/// Narrows a box for the objective: what it is to be better than, and where it has to be defined. For each scenario in which the
/// objective's term may have no value somewhere in the box of all points, both ends of each cell that it mentions are tried, and then those
/// of all these cells together; for an end only what mentions the cell is seen anew, the parts of an expected objective's sum, or the terms
/// in single scenarios where the worst one counts. What is seen is kept, until it mentions a cell that was touched. As long as no cell is
/// touched, it rests without being asked against the best value against which it has rested.
#[derive(Drop)]
pub struct Goal {
    scenarios: u32,
    partial: Vec<u32>,
    watched: GoalCells,
    kept: KeptGoal,
    rested: Option<Option<i128>>,
}

/// The parts of the objective: of an expected one those of its sum, else the term in each scenario.
fn goal_parts(alloc: Global, program: &Program) -> Result<Vec<Atom>, AllocError>
    requires made { IsMade program.now }
    ensures expected { IfOk result (λ atoms. is_worst (problem_in program.now) ≡ false → AreParts program.now atoms.items) }
    ensures worst { IfOk result (λ atoms. is_worst (problem_in program.now) ≡ true → AreWorst program.now atoms.items) }
    ensures listed { IfOk result (λ atoms. AllByRecursion (IsListedTerm program.now) (atom_ids atoms.items)) }
{
    if program.worst() {
        let terms = scenario_terms(alloc, program)?;
        return Ok(terms);
    }
    Vec::from_slice(alloc, program.goal_atoms())
}

/// Whether a mark says that there is a value everywhere.
fn is_always(mark: Defined) -> bool
    ensures { result ≡ true → mark ≡ Always }
{
    match mark {
        Defined::Never => false,
        Defined::Maybe => false,
        Defined::Always => true,
    }
}

/// Whether the objective's term has a value in a scenario all over the box of a store, which is that of all points, or there is no
/// objective.
#[tactic(auto, using(crate::proofs::Defined::defined_none))]
fn is_defined(program: &Program, store: &BoxStore, scenario: u32) -> bool
    requires made { IsMade program.now }
    requires root { store.now.box ≡ root_in program.now }
    requires scenario { scenario < length (problem_in program.now).weights }
    ensures defined { result ≡ true → IsDefined (root_in program.now) (problem_in program.now) scenario }
{
    match program.goal(scenario) {
        Some(term) => is_always(range_of(program, term, store).defined),
        None => true,
    }
}

/// Adds a scenario to a list, unless the objective has a value there all over the box of all points.
fn put_partial(list: &mut Vec<u32>, scenario: u32, defined: bool) -> Result<(), AllocError>
    ensures { OnOk result (list.new.items ≡ list.old.items ++ (if defined then [] else scenario ∷ [])) }
{
    if defined {
        return Ok(());
    }
    list.push(scenario)?;
    Ok(())
}

/// The scenarios in which the objective's term may have no value in the box of a store, which is that of all points.
#[tactic(auto, using(crate::proofs::Defined::no_partial))]
fn partial_scenarios(
    alloc: Global,
    program: &Program,
    store: &BoxStore,
) -> Result<Vec<u32>, AllocError>
    requires made { IsMade program.now }
    requires root { store.now.box ≡ root_in program.now }
    ensures partial { IfOk result (λ list. ArePartial (root_in program.now) (problem_in program.now)
        (length (problem_in program.now).weights) list.items) }
{
    let mut list = Vec::new(alloc);
    'scenarios: for scenario in 0..program.scenarios() {
        let defined = is_defined(program, store, scenario);
        put_partial(&mut list, scenario, defined)?;
    }
    Ok(list)
}

/// The scenarios in which the objective's term may have no value in the box of all points.
fn partial_of(alloc: Global, program: &Program) -> Result<Vec<u32>, AllocError>
    requires made { IsMade program.now }
    ensures partial { IfOk result (λ list. ArePartial (root_in program.now) (problem_in program.now)
        (length (problem_in program.now).weights) list.items) }
{
    let roots = program.roots(alloc)?;
    let store = BoxStore::new(alloc, roots.as_slice())?;
    let list = partial_scenarios(alloc, program, &store)?;
    Ok(list)
}

/// A right step at one of the ends of the cells that this term of the objective mentions, or none where its lack of a value closes the box
/// with no cell at an end. A term that has a value all over the box has one all over each part of it, and no end is tried.
#[tactic(auto, using(crate::proofs::Objectives::undefined_cells))]
fn term_step(probe: &Probe<'_>, scenario: u32, term: TermId) -> Option<Step>
    requires asked { IsAsked probe.now }
    requires reason { probe.now.reason ≡ Undefined scenario }
    requires exists { term.0 < length (things_in probe.now.program.now) }
    requires listed { IsListedTerm probe.now.program.now term.0 }
    requires term { Some (term_at (things_in probe.now.program.now) term.0) ≡ term_in (problem_in probe.now.program.now) scenario }
    requires whole { IsWhole probe.now }
    ensures right { IfSome result (IsRight (box_problem_of probe.now.program.now) probe.now.best probe.now.store.now.box) }
    ensures own_reason { IfSome result (λ step. step.reason ≡ Undefined scenario) }
    ensures none { IfNone result (Quiets (box_problem_of probe.now.program.now) (Undefined scenario ∷ []) probe.now.best
        probe.now.store.now.box) }
{
    match range_of(probe.program, term, probe.store).defined {
        Defined::Always => None,
        _ => probe.first_step(probe.program.term_cells(term)),
    }
}

/// A right step for the objective's lack of a value in that scenario, or none; without an objective nothing is asked.
#[tactic(auto, using(crate::proofs::Objectives::quiet_without))]
fn undefined_step(probe: &Probe<'_>, scenario: u32) -> Option<Step>
    requires asked { IsAsked probe.now }
    requires reason { probe.now.reason ≡ Undefined scenario }
    requires scenario { scenario < length (problem_in probe.now.program.now).weights }
    requires whole { IsWhole probe.now }
    ensures right { IfSome result (IsRight (box_problem_of probe.now.program.now) probe.now.best probe.now.store.now.box) }
    ensures own_reason { IfSome result (λ step. step.reason ≡ Undefined scenario) }
    ensures none { IfNone result (Quiets (box_problem_of probe.now.program.now) (Undefined scenario ∷ []) probe.now.best
        probe.now.store.now.box) }
{
    match probe.program.goal(scenario) {
        Some(term) => term_step(probe, scenario, term),
        None => None,
    }
}

impl Goal {
    /// The propagator of the objective, also where there is none.
    pub fn new(alloc: Global, program: &Program) -> Result<Goal, AllocError>
        requires made { IsMade program.now }
        ensures reasons { IfOk result (λ made. reasons_of made ≡ map Undefined (numbers_to (length (problem_in program.now).weights))
            ++ Bound ∷ []) }
        ensures fits { IfOk result (λ made. Fits made program.now) }
        ensures in_step { IfOk result (λ made. (b : Box) → InStep made program.now b) }
    {
        let atoms = goal_parts(alloc, program)?;
        let watched = GoalCells::new(alloc, program, atoms.as_slice())?;
        let kept = KeptGoal::new(alloc, program, atoms, watched.cells.len())?;
        let partial = partial_of(alloc, program)?;
        Ok(Goal {
            scenarios: program.scenarios(),
            partial,
            watched,
            kept,
            rested: None,
        })
    }

    /// The first scenario in which the objective's lack of a value closes the box, if there is one.
    fn undefined(&self, program: &Program, store: &BoxStore, best: Option<i128>) -> Option<Reason>
        requires fits { Fits self.now program.now }
        requires inside { Inside store.now.box (root_in program.now) }
        ensures closes { IfSome result (Closes (box_problem_of program.now) (reasons_of self.now) best store.now.box) }
        ensures none { IfNone result (All (IsOpenTo (box_problem_of program.now) best store.now.box) (lacks_of self.now)) }
    {
        'scenarios: for at in 0..self.partial.len() {
            let scenario = self.partial[at];
            let reason = Reason::Undefined { scenario };
            if refuted(program, reason, store, best) {
                return Some(reason);
            }
        }
        None
    }

    /// A right step for the first scenario that has one, or none where no lack of a value closes the box with a cell at an end.
    fn defining_step<'a>(
        &self,
        program: &'a Program,
        store: &'a BoxStore,
        best: Option<i128>,
    ) -> Option<Step>
        requires fits { Fits self.now program.now }
        requires inside { Inside store.now.box (root_in program.now) }
        requires whole { All (IsOpenTo (box_problem_of program.now) best store.now.box) (lacks_of self.now) }
        ensures right { IfSome result (IsRight (box_problem_of program.now) best store.now.box) }
        ensures own_reason { IfSome result (λ step. Contains (reasons_of self.now) step.reason) }
        ensures none { IfNone result (All (RestsFor (box_problem_of program.now) best store.now.box) (lacks_of self.now)) }
    {
        'scenarios: for at in 0..self.partial.len() {
            let scenario = self.partial[at];
            let probe = Probe {
                program,
                store,
                reason: Reason::Undefined { scenario },
                best,
                weighed: None,
                counted: None,
            };
            if let Some(step) = undefined_step(&probe, scenario) {
                return Some(step);
            }
        }
        None
    }

    /// Sees anew what is out of date where there is a best value, or else nothing; whether everything is known over the box of the store then.
    #[tactic(auto, using(crate::proofs::Objectives::not_looked))]
    fn look(&mut self, program: &Program, store: &BoxStore, best: Option<i128>) -> bool
        requires fits { Fits self.old program.now }
        requires inside { Inside store.now.box (root_in program.now) }
        requires keeps { KeepsGoal self.old.kept program.now self.old.watched.cells.items store.now.box }
        ensures known { IfSo result (KnowsGoal self.new.kept program.now self.new.watched.cells.items store.now.box) }
        ensures looked { HasLooked self.old self.new program.now store.now.box }
    {
        match best {
            Some(_) => self.kept.look(&self.watched, program, store),
            None => false,
        }
    }

    /// Whether the bound closes the box, by what is kept where that is known.
    fn is_beaten(&self, probe: &Probe<'_>, known: bool) -> bool
        requires fits { Fits self.now probe.now.program.now }
        requires asked { IsAsked probe.now }
        requires reason { probe.now.reason ≡ Bound }
        requires known { IfSo known (KnowsGoal self.now.kept probe.now.program.now self.now.watched.cells.items probe.now.store.now.box) }
        ensures { result ≡ closes probe.now probe.now.store.now.box }
    {
        if !known {
            return probe.is_closed();
        }
        self.kept.is_beaten(probe)
    }

    /// A right step for the bound, or none where it does not close the box with any cell at an end; where there is no best value, it closes
    /// nothing.
    #[tactic(auto, using(crate::proofs::Objectives::rests_alone))]
    fn bound_step(&mut self, probe: &Probe<'_>, known: bool) -> Option<Step>
        requires fits { Fits self.old probe.now.program.now }
        requires asked { IsAsked probe.now }
        requires reason { probe.now.reason ≡ Bound }
        requires whole { IsWhole probe.now }
        requires known { IfSo known (KnowsGoal self.old.kept probe.now.program.now self.old.watched.cells.items probe.now.store.now.box) }
        requires keeps { KeepsGoal self.old.kept probe.now.program.now self.old.watched.cells.items probe.now.store.now.box }
        ensures right { IfSome result (IsRight (box_problem_of probe.now.program.now) probe.now.best probe.now.store.now.box) }
        ensures own_reason { IfSome result (λ step. step.reason ≡ probe.now.reason) }
        ensures none { IfNone result (Quiets (box_problem_of probe.now.program.now) (probe.now.reason ∷ []) probe.now.best
            probe.now.store.now.box) }
        ensures looked { HasLooked self.old self.new probe.now.program.now probe.now.store.now.box }
    {
        if probe.best.is_none() {
            return None;
        }
        if !known {
            return probe.first_step(self.watched.cells.as_slice());
        }
        self.kept.step(&self.watched, probe)
    }

    /// What is found where no lack of a value closes the box.
    #[tactic(auto, using(crate::proofs::Objectives::narrows_by))]
    fn found<'a>(
        &mut self,
        program: &'a Program,
        store: &'a BoxStore,
        best: Option<i128>,
        known: bool,
    ) -> Finding
        requires fits { Fits self.old program.now }
        requires inside { Inside store.now.box (root_in program.now) }
        requires whole { All (IsOpenTo (box_problem_of program.now) best store.now.box) (lacks_of self.old) }
        requires known { IfSo known (KnowsGoal self.old.kept program.now self.old.watched.cells.items store.now.box) }
        requires keeps { KeepsGoal self.old.kept program.now self.old.watched.cells.items store.now.box }
        ensures finds { Finds (box_problem_of program.now) (reasons_of self.old) best store.now.box result }
        ensures looked { HasLooked self.old self.new program.now store.now.box }
    {
        let probe = Probe {
            program,
            store,
            reason: Reason::Bound,
            best,
            weighed: None,
            counted: None,
        };
        if self.is_beaten(&probe, known) {
            return Finding::Dead(probe.reason);
        }
        if let Some(step) = self.defining_step(program, store, best) {
            return Finding::Cut(step);
        }
        match self.bound_step(&probe, known) {
            Some(step) => Finding::Cut(step),
            None => Finding::Quiet,
        }
    }

    /// What it finds of the box of a store for which what is kept is right, against the best value where there is one.
    fn finding(&mut self, program: &Program, store: &BoxStore, best: Option<i128>) -> Finding
        requires fits { Fits self.old program.now }
        requires inside { Inside store.now.box (root_in program.now) }
        requires keeps { KeepsGoal self.old.kept program.now self.old.watched.cells.items store.now.box }
        ensures finds { Finds (box_problem_of program.now) (reasons_of self.old) best store.now.box result }
        ensures looked { HasLooked self.old self.new program.now store.now.box }
    {
        if let Some(reason) = self.undefined(program, store, best) {
            return Finding::Dead(reason);
        }
        let known = self.look(program, store, best);
        self.found(program, store, best, known)
    }

    /// What it finds there; it keeps whether it rests.
    fn ask(&mut self, program: &Program, store: &BoxStore, best: Option<i128>) -> Finding
        requires fits { Fits self.old program.now }
        requires inside { Inside store.now.box (box_problem_of program.now).root }
        requires keeps { KeepsGoal self.old.kept program.now self.old.watched.cells.items store.now.box }
        ensures finds { Finds (box_problem_of program.now) (reasons_of self.old) best store.now.box result }
        ensures in_step { InStep self.new program.now store.now.box }
        ensures scenarios { self.new.scenarios ≡ self.old.scenarios }
        ensures watched { self.new.watched ≡ self.old.watched }
        ensures still_fits { (p : Stated) → Fits self.old p → Fits self.new p }
        ensures fitted_before { (p : Stated) → Fits self.new p → Fits self.old p }
    {
        let finding = self.finding(program, store, best);
        self.rested = rested_by(&finding, best);
        finding
    }
}

impl Propagator for Goal {
    type Program = Program;

    ghost problem = { box_problem_of };

    ghost reasons = { reasons_of };

    ghost fits = { Fits };

    ghost in_step = { InStep };

    ghost watches = { λ goal. goal.watched.cells.items };

    fn revise(&mut self, program: &Program, store: &BoxStore, best: Option<i128>) -> Finding {
        self.kept.forget(program);
        self.ask(program, store, best)
    }
}

impl Watching for Goal {
    ghost use Rattle.prop_goal.specs.Deciding.{goal_ascends, goal_looks, goal_steps};

    fn watched_cells(&self) -> &[u32] {
        self.watched.cells.as_slice()
    }

    fn touched(&mut self, cell: u32) {
        self.rested = None;
        self.kept.tell(cell);
    }

    #[tactic(auto, using(prop_core::proofs::Rested::quiet_again))]
    fn revise_kept(&mut self, program: &Program, store: &BoxStore, best: Option<i128>) -> Finding {
        if rests_at(self.rested, best) {
            return Finding::Quiet;
        }
        self.ask(program, store, best)
    }

    ghost cells_ascend = { λ m p fits. goal_ascends m p fits };

    ghost steps_agree = { λ m p b c fits b_in c_in agree step. goal_steps m p b c fits b_in c_in agree step };

    ghost reasons_agree = { λ m p fits. goal_looks m p fits };
}
