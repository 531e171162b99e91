//! The propagator of a hard constraint that is `cumulative`.

ghost use Rattle.std.specs.Prelude.{◌≡◌, ◌<◌, ◌∷◌, [], length, IfOk};
ghost use Rattle.sopl_base.specs.declared.reason.Reason.TheVariants.{Hard};
ghost use Rattle.box_problem.specs.Box.{Inside};
ghost use Rattle.prop_core.specs.Findings.{Finds};
ghost use Rattle.prop_shave.specs.Probes.{IsAsked};
ghost use Rattle.term_program.specs.Programs.{IsMade, problem_in, root_in};
ghost use Rattle.term_program.specs.Stated.{box_problem_of};
ghost use Rattle.prop_cumul.specs.Kinds.{Fits, IsCumulative, IsKept, reasons_of};

use crate::profile::Profile;
use box_store::BoxStore;
use prop_core::{Finding, Propagator};
use prop_operands::{Operands, closes_box, step_among};
use prop_shave::Probe;
use sopl_base::Reason;
use std::alloc::{AllocError, Global};
use term_program::Program;

/// Narrows a box for one hard constraint that is `cumulative` in one scenario: both ends of each cell that it mentions are tried, by the intervals of the
/// tasks and of the capacity.
#[derive(Drop)]
pub struct Cumul {
    instance: u32,
    scenario: u32,
    operands: Operands,
    profile: Profile,
}

impl Cumul {
    /// The propagator of a hard constraint in a scenario in which it is `cumulative`.
    #[tactic(auto, using(crate::proofs::Making::fits))]
    pub fn new(
        alloc: Global,
        program: &Program,
        instance: u32,
        scenario: u32,
    ) -> Result<Cumul, AllocError>
        requires made { IsMade program.now }
        requires instance { instance < length (problem_in program.now).hards }
        requires scenario { scenario < length (problem_in program.now).weights }
        requires cumulative { IsCumulative program.now instance scenario }
        ensures reasons { IfOk result (λ made. reasons_of made ≡ Hard instance scenario ∷ []) }
        ensures fits { IfOk result (λ made. Fits made program.now) }
    {
        let terms = program.terms(program.hard(instance, scenario));
        let operands = Operands::new(alloc, program, terms)?;
        let profile = Profile::new(alloc, terms.len() / 3)?;
        Ok(Cumul {
            instance,
            scenario,
            operands,
            profile,
        })
    }

    /// The one reason for which it narrows boxes.
    fn reason(&self) -> Reason
        ensures { result ≡ Hard self.now.instance self.now.scenario }
    {
        Reason::Hard {
            instance: self.instance,
            scenario: self.scenario,
        }
    }

    /// This reason over the box of a store.
    fn probe<'a>(&self, program: &'a Program, store: &'a BoxStore, best: Option<i128>) -> Probe<'a>
        requires made { IsMade program.now }
        requires inside { Inside store.now.box (root_in program.now) }
        ensures asked { IsAsked result }
        ensures reason { result.reason ≡ Hard self.now.instance self.now.scenario }
        ensures program { result.program.now ≡ program.now }
        ensures store { result.store.now ≡ store.now }
        ensures best { result.best ≡ best }
    {
        Probe {
            program,
            store,
            reason: self.reason(),
            best,
            weighed: None,
            counted: None,
        }
    }

    /// What is found of the box of a probe.
    fn found(&mut self, probe: &Probe<'_>) -> Finding
        requires fits { Fits self.old probe.now.program.now }
        requires asked { IsAsked probe.now }
        requires own { probe.now.reason ≡ Hard self.old.instance self.old.scenario }
        ensures finds { Finds (box_problem_of probe.now.program.now) (probe.now.reason ∷ []) probe.now.best probe.now.store.now.box result }
        ensures kept { IsKept self.old self.new }
    {
        if closes_box(&mut self.operands, &mut self.profile, probe) {
            return Finding::Dead(probe.reason);
        }
        let cond = probe.program.hard(self.instance, self.scenario);
        let cells = probe.program.cells_of(cond);
        match step_among(&mut self.operands, &mut self.profile, probe, cells) {
            Some(step) => Finding::Cut(step),
            None => Finding::Quiet,
        }
    }
}

impl Propagator for Cumul {
    type Program = Program;

    ghost problem = { box_problem_of };

    ghost reasons = { reasons_of };

    ghost fits = { Fits };

    ghost in_step = { λ _ _ _. Unit {0} };

    ghost watches = { λ _. [] };

    fn revise(&mut self, program: &Program, store: &BoxStore, best: Option<i128>) -> Finding {
        let probe = self.probe(program, store, best);
        self.found(&probe)
    }
}
