//! The propagator of a hard constraint that is `allDifferent`.

ghost use Rattle.std.specs.Prelude.{◌≡◌, ◌<◌, ◌∷◌, [], length, IfNone, IfOk, IfSome};
ghost use Rattle.sopl_base.specs.declared.reason.Reason.TheVariants.{Hard};
ghost use Rattle.box_problem.specs.Box.{Inside};
ghost use Rattle.box_problem.specs.Rightness.{IsRight, Quiets};
ghost use Rattle.prop_shave.specs.Opened.{IsWhole};
ghost use Rattle.prop_shave.specs.Probes.{IsAsked};
ghost use Rattle.term_language.specs.Globals as globals;
ghost use Rattle.term_program.specs.Programs.{IsMade, problem_in, root_in};
ghost use Rattle.term_program.specs.Stated.{box_problem_of};
ghost use Rattle.prop_alldiff.specs.Kinds.{Fits, IsAllDifferent, IsKept, reasons_of};
ghost use Rattle.prop_core.specs.Findings.{Finds};
ghost use Rattle.prop_operands.specs.Questions.{IsLookedAt};
ghost use Rattle.term_crowds.specs.Crowds.{LowsWhole};
ghost use Rattle.term_windows.specs.Windows.{spans};

use crate::crowds::Crowds;
use crate::long_steps::long_step;
use crate::shared::shared_cells;
use box_store::BoxStore;
use prop_core::{Finding, Propagator};
use prop_operands::{Operands, closes_box, step_among};
use prop_shave::Probe;
use sopl_base::{Reason, Step};
use std::alloc::{AllocError, Global};
use term_program::Program;
use term_windows::{Overlap, first_overlap};

/// Narrows a box for one hard constraint that is `allDifferent` in one scenario. A window with as many terms as numbers takes its numbers away from the
/// other terms. Where no window does, nothing is left for the terms of one cell that no other term mentions; both ends of each other cell are tried.
#[derive(Drop)]
pub struct AllDiff {
    instance: u32,
    scenario: u32,
    shared: Vec<u32>,
    operands: Operands,
}

impl AllDiff {
    /// The propagator of a hard constraint in a scenario in which it is `allDifferent`.
    #[tactic(auto, using(crate::proofs::Making::fits))]
    pub fn new(
        alloc: Global,
        program: &Program,
        instance: u32,
        scenario: u32,
    ) -> Result<AllDiff, AllocError>
        requires made { IsMade program.now }
        requires instance { instance < length (problem_in program.now).hards }
        requires scenario { scenario < length (problem_in program.now).weights }
        requires different { IsAllDifferent program.now instance scenario }
        ensures reasons { IfOk result (λ made. reasons_of made ≡ Hard instance scenario ∷ []) }
        ensures fits { IfOk result (λ made. Fits made program.now) }
    {
        let cond = program.hard(instance, scenario);
        let operands = Operands::new(alloc, program, program.terms(cond))?;
        let shared = shared_cells(alloc, program, &operands, program.cells_of(cond))?;
        Ok(AllDiff {
            instance,
            scenario,
            shared,
            operands,
        })
    }

    /// The one reason for which it narrows boxes.
    fn reason(&self) -> Reason
        ensures { result ≡ Hard self.now.instance self.now.scenario }
    {
        Reason::Hard {
            instance: self.instance,
            scenario: self.scenario,
        }
    }

    /// This reason over the box of a store.
    fn probe<'a>(&self, program: &'a Program, store: &'a BoxStore, best: Option<i128>) -> Probe<'a>
        requires made { IsMade program.now }
        requires inside { Inside store.now.box (root_in program.now) }
        ensures asked { IsAsked result }
        ensures reason { result.reason ≡ Hard self.now.instance self.now.scenario }
        ensures program { result.program.now ≡ program.now }
        ensures store { result.store.now ≡ store.now }
        ensures best { result.best ≡ best }
    {
        Probe {
            program,
            store,
            reason: self.reason(),
            best,
            weighed: None,
            counted: None,
        }
    }

    /// A step where a window takes its numbers away from a term, or where some cell is tried.
    fn step_in(&mut self, probe: &Probe<'_>, found: &Overlap) -> Option<Step>
        requires fits { Fits self.old probe.now.program.now }
        requires asked { IsAsked probe.now }
        requires own { probe.now.reason ≡ Hard self.old.instance self.old.scenario }
        requires whole { IsWhole probe.now }
        requires looked { IsLookedAt globals.never_differ self.old.operands probe.now }
        requires exists { found.now.place < length self.old.operands.list.items }
        ensures right { IfSome result (IsRight (box_problem_of probe.now.program.now) probe.now.best probe.now.store.now.box) }
        ensures own_reason { IfSome result (λ step. step.reason ≡ probe.now.reason) }
        ensures none { IfNone result (Quiets (box_problem_of probe.now.program.now) (probe.now.reason ∷ []) probe.now.best probe.now.store.now.box) }
        ensures kept { IsKept self.old self.new }
    {
        if let Some(step) = long_step(probe, &self.operands, found) {
            return Some(step);
        }
        let cond = probe.program.hard(self.instance, self.scenario);
        let cells = probe.program.cells_of(cond);
        step_among(&mut self.operands, &mut Crowds, probe, cells)
    }

    /// A step where no window takes its numbers away from a term: one for a cell that does not stand alone.
    fn step_of_shared(&mut self, probe: &Probe<'_>) -> Option<Step>
        requires fits { Fits self.old probe.now.program.now }
        requires asked { IsAsked probe.now }
        requires own { probe.now.reason ≡ Hard self.old.instance self.old.scenario }
        requires whole { IsWhole probe.now }
        requires looked { IsLookedAt globals.never_differ self.old.operands probe.now }
        requires apart { LowsWhole (spans self.old.operands.known.items) (spans self.old.operands.known.items) }
        ensures right { IfSome result (IsRight (box_problem_of probe.now.program.now) probe.now.best probe.now.store.now.box) }
        ensures own_reason { IfSome result (λ step. step.reason ≡ probe.now.reason) }
        ensures none { IfNone result (Quiets (box_problem_of probe.now.program.now) (probe.now.reason ∷ []) probe.now.best probe.now.store.now.box) }
        ensures kept { IsKept self.old self.new }
    {
        step_among(
            &mut self.operands,
            &mut Crowds,
            probe,
            self.shared.as_slice(),
        )
    }

    /// A step for the constraint, or none.
    fn next_step(&mut self, probe: &Probe<'_>) -> Option<Step>
        requires fits { Fits self.old probe.now.program.now }
        requires asked { IsAsked probe.now }
        requires own { probe.now.reason ≡ Hard self.old.instance self.old.scenario }
        requires whole { IsWhole probe.now }
        requires looked { IsLookedAt globals.never_differ self.old.operands probe.now }
        ensures right { IfSome result (IsRight (box_problem_of probe.now.program.now) probe.now.best probe.now.store.now.box) }
        ensures own_reason { IfSome result (λ step. step.reason ≡ probe.now.reason) }
        ensures none { IfNone result (Quiets (box_problem_of probe.now.program.now) (probe.now.reason ∷ []) probe.now.best probe.now.store.now.box) }
        ensures kept { IsKept self.old self.new }
    {
        match first_overlap(self.operands.known()) {
            Some(found) => self.step_in(probe, &found),
            None => self.step_of_shared(probe),
        }
    }

    /// What is found of the box of a probe.
    fn found(&mut self, probe: &Probe<'_>) -> Finding
        requires fits { Fits self.old probe.now.program.now }
        requires asked { IsAsked probe.now }
        requires own { probe.now.reason ≡ Hard self.old.instance self.old.scenario }
        ensures finds { Finds (box_problem_of probe.now.program.now) (probe.now.reason ∷ []) probe.now.best probe.now.store.now.box result }
        ensures kept { IsKept self.old self.new }
    {
        if closes_box(&mut self.operands, &mut Crowds, probe) {
            return Finding::Dead(probe.reason);
        }
        match self.next_step(probe) {
            Some(step) => Finding::Cut(step),
            None => Finding::Quiet,
        }
    }
}

impl Propagator for AllDiff {
    type Program = Program;

    ghost problem = { box_problem_of };

    ghost reasons = { reasons_of };

    ghost fits = { Fits };

    ghost in_step = { λ _ _ _. Unit {0} };

    ghost watches = { λ _. [] };

    fn revise(&mut self, program: &Program, store: &BoxStore, best: Option<i128>) -> Finding {
        let probe = self.probe(program, store, best);
        self.found(&probe)
    }
}
