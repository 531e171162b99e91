//! The propagator of a hard constraint that is a linear comparison.

ghost use Rattle.std.specs.Prelude.{◌≡◌, ◌<◌, ◌∷◌, [], length, IfOk};
ghost use Rattle.sopl_base.specs.declared.reason.Reason.TheVariants.{Hard};
ghost use Rattle.box_problem.specs.Box.{Box, Inside};
ghost use Rattle.prop_core.specs.Findings.{Finds};
ghost use Rattle.term_program.specs.Stated.{box_problem_of};
ghost use Rattle.term_program.specs.declared.program.Program.{Program as Stated};
ghost use Rattle.term_program.specs.Programs.{IsMade, problem_in};
ghost use Rattle.prop_linear.specs.Kinds.{Fits, InStep, IsLinear, KeepsSumOf, reasons_of};

use crate::kept_sum::KeptSum;
use crate::linear_constraint::LinearConstraint;
use box_store::BoxStore;
use prop_core::{Finding, Propagator, Watching, rested_by, rests_at};
use std::alloc::{AllocError, Global};
use term_program::Program;

/// Narrows a box for one hard constraint that is a linear comparison in one scenario, unless it is true all over the box: by its sum both
/// ends of each of its cells are tried, and as many values are removed as a division proposes, where these were tried too. The sum is kept,
/// and of its parts those are seen anew whose cells were touched. No end is tried where no part is wide enough; the greatest width is kept,
/// too. As long as no cell is touched, it rests without being asked against the best value against which it has rested.
#[derive(Drop)]
pub struct Linear {
    constraint: LinearConstraint,
    sum: KeptSum,
    rested: Option<Option<i128>>,
}

impl Linear {
    /// The propagator of a hard constraint in a scenario in which it is a linear comparison.
    pub fn new(
        alloc: Global,
        program: &Program,
        instance: u32,
        scenario: u32,
    ) -> Result<Linear, AllocError>
        requires made { IsMade program.now }
        requires instance { instance < length (problem_in program.now).hards }
        requires scenario { scenario < length (problem_in program.now).weights }
        requires linear { IsLinear program.now instance scenario }
        ensures reasons { IfOk result (λ made. reasons_of made ≡ Hard instance scenario ∷ []) }
        ensures fits { IfOk result (λ made. Fits made program.now) }
        ensures in_step { IfOk result (λ made. (b : Box) → InStep made program.now b) }
    {
        let constraint = LinearConstraint::new(alloc, program, instance, scenario)?;
        let parts = constraint.parts.len();
        let sum = KeptSum::new(alloc, parts, constraint.cells.len())?;
        Ok(Linear {
            constraint,
            sum,
            rested: None,
        })
    }

    /// What it finds of the box of a store for which what it keeps is right, against the best value where there is one; it keeps whether
    /// it rests.
    fn ask(&mut self, program: &Program, store: &BoxStore, best: Option<i128>) -> Finding
        requires fits { Fits self.old program.now }
        requires inside { Inside store.now.box (box_problem_of program.now).root }
        requires sum { KeepsSumOf self.old store.now.box }
        ensures finds { Finds (box_problem_of program.now) (reasons_of self.old) best store.now.box result }
        ensures in_step { InStep self.new program.now store.now.box }
        ensures constraint { self.new.constraint ≡ self.old.constraint }
        ensures still_fits { (p : Stated) → Fits self.old p → Fits self.new p }
        ensures fitted_before { (p : Stated) → Fits self.new p → Fits self.old p }
    {
        let difference = self.constraint.difference(program, store);
        self.sum.renew(&difference);
        let balance = self.sum.balance(&difference);
        let finding = self.constraint.finding(&balance, &self.sum.widths);
        self.rested = rested_by(&finding, best);
        finding
    }
}

impl Propagator for Linear {
    type Program = Program;

    ghost problem = { box_problem_of };

    ghost reasons = { reasons_of };

    ghost fits = { Fits };

    ghost in_step = { InStep };

    ghost watches = { λ linear. linear.constraint.cells.items };

    fn revise(&mut self, program: &Program, store: &BoxStore, best: Option<i128>) -> Finding {
        self.sum.forget();
        self.ask(program, store, best)
    }
}

impl Watching for Linear {
    ghost use Rattle.prop_linear.specs.Deciding.{linear_steps};

    fn watched_cells(&self) -> &[u32] {
        self.constraint.cells.as_slice()
    }

    fn touched(&mut self, cell: u32) {
        self.rested = None;
        self.sum.tell(cell);
    }

    #[tactic(auto, using(prop_core::proofs::Rested::quiet_again))]
    fn revise_kept(&mut self, program: &Program, store: &BoxStore, best: Option<i128>) -> Finding {
        if rests_at(self.rested, best) {
            return Finding::Quiet;
        }
        self.ask(program, store, best)
    }

    ghost cells_ascend = { λ m p fits. fits.listed.ascending };

    ghost steps_agree = { λ m p b c fits b_in c_in agree step. linear_steps m p b c fits b_in c_in agree step };

    ghost reasons_agree = { λ m p fits. fits.looks };
}
