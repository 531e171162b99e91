//! The propagator of a hard constraint of any form.

ghost use Rattle.std.specs.Prelude.{◌≡◌, ◌<◌, ◌∷◌, [], length, IfOk};
ghost use Rattle.sopl_base.specs.declared.reason.Reason.TheVariants.{Hard};
ghost use Rattle.box_problem.specs.Box.{Inside};
ghost use Rattle.term_program.specs.Programs.{IsMade, problem_in, root_in};
ghost use Rattle.prop_core.specs.Findings.{Finds};
ghost use Rattle.prop_term.specs.Kinds.{Fits, reasons_of};
ghost use Rattle.term_program.specs.Stated.{box_problem_of};

use box_store::BoxStore;
use prop_core::{Finding, Propagator};
use prop_shave::Probe;
use sopl_base::Reason;
use std::alloc::AllocError;
use term_language::Truth;
use term_program::{Program, kleene};

/// Narrows a box for one hard constraint in one scenario, whatever its form: unless the condition is True all over the box, both ends of each cell that it
/// mentions are tried, and as many values are removed there as doubled and then halved steps reach.
#[derive(Clone, Copy, Debug, PartialEq, Eq)]
pub struct AnyTerm {
    instance: u32,
    scenario: u32,
}

impl AnyTerm {
    /// The propagator of a hard constraint in a scenario.
    pub fn new(program: &Program, instance: u32, scenario: u32) -> Result<AnyTerm, AllocError>
        requires made { IsMade program.now }
        requires instance { instance < length (problem_in program.now).hards }
        requires scenario { scenario < length (problem_in program.now).weights }
        ensures reasons { IfOk result (λ made. reasons_of made ≡ Hard instance scenario ∷ []) }
        ensures fits { IfOk result (λ made. Fits made program.now) }
    {
        Ok(AnyTerm { instance, scenario })
    }

    /// The one reason for which it narrows boxes.
    fn reason(&self) -> Reason
        ensures { result ≡ Hard self.now.instance self.now.scenario }
    {
        Reason::Hard {
            instance: self.instance,
            scenario: self.scenario,
        }
    }

    /// What is found of the box of a store for the constraint.
    fn found<'a>(&self, program: &'a Program, store: &'a BoxStore, best: Option<i128>) -> Finding
        requires fits { Fits self.now program.now }
        requires inside { Inside store.now.box (root_in program.now) }
        ensures finds { Finds (box_problem_of program.now) (reasons_of self.now) best store.now.box result }
    {
        let cond = program.hard(self.instance, self.scenario);
        let probe = Probe {
            program,
            store,
            reason: self.reason(),
            best,
            weighed: None,
            counted: None,
        };
        match kleene(program, cond, store) {
            Truth::False => Finding::Dead(probe.reason),
            Truth::True => Finding::Quiet,
            Truth::Unknown => probe.finding_within(program.cells_of(cond)),
        }
    }
}

impl Propagator for AnyTerm {
    type Program = Program;

    ghost problem = { box_problem_of };

    ghost reasons = { reasons_of };

    ghost fits = { Fits };

    ghost in_step = { λ _ _ _. Unit {0} };

    ghost watches = { λ _. [] };

    fn revise(&mut self, program: &Program, store: &BoxStore, best: Option<i128>) -> Finding {
        self.found(program, store, best)
    }
}
