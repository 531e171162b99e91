//! The propagator of a chance constraint.

ghost use Rattle.std.specs.Prelude.{◌≡◌, ◌<◌, ◌∷◌, [], length, IfOk};
ghost use Rattle.sopl_base.specs.declared.reason.Reason.TheVariants as reason;
ghost use Rattle.box_problem.specs.Box.{Box, Inside};
ghost use Rattle.term_program.specs.Stated.{box_problem_of};
ghost use Rattle.term_program.specs.declared.program.Program.{Program as Stated};
ghost use Rattle.prop_core.specs.Findings.{Finds};
ghost use Rattle.term_program.specs.Programs.{IsMade, problem_in, root_in};
ghost use Rattle.prop_chance.specs.Chances.{Fits, HasLooked, InStep, KeepsTurnsOf, KeepsWeightOf, reasons_of};
ghost use Rattle.prop_chance.specs.KeptWeights.{IfSo, KnowsWeight};

use crate::chance_constraint::ChanceConstraint;
use crate::kept_turns::KeptTurns;
use crate::kept_weight::KeptWeight;
use box_store::BoxStore;
use prop_core::{Finding, Propagator, Watching, rested_by, rests_at};
use prop_shave::Probe;
use std::alloc::{AllocError, Global};
use term_program::Program;

/// Narrows a box for one chance constraint: both ends of each cell that one of its conditions mentions are tried, and as many values are
/// removed there as doubled and then halved steps reach. The truth of the condition in each scenario is kept, and computed anew where it
/// mentions a cell that was touched; for an end of a cell only the scenarios are weighed anew in which the condition mentions the cell, and
/// none where the others and those in which it is True are enough. By how much the weight turns with a cell at its ends is kept as long as
/// no scenario is seen anew in which the condition mentions the cell: then an end is tried by one sum. As long as no cell is touched, it
/// rests without being asked against the best value against which it has rested.
#[derive(Drop)]
pub struct Chance {
    constraint: ChanceConstraint,
    weight: KeptWeight,
    turns: KeptTurns,
    rested: Option<Option<i128>>,
}

impl Chance {
    /// The propagator of a chance constraint.
    pub fn new(alloc: Global, program: &Program, instance: u32) -> Result<Chance, AllocError>
        requires made { IsMade program.now }
        requires instance { instance < length (problem_in program.now).chances }
        ensures reasons { IfOk result (λ made. reasons_of made ≡ reason.Chance instance ∷ []) }
        ensures fits { IfOk result (λ made. Fits made program.now) }
        ensures in_step { IfOk result (λ made. (b : Box) → InStep made program.now b) }
    {
        let constraint = ChanceConstraint::new(alloc, program, instance)?;
        let cells = constraint.cells.len();
        let weight = KeptWeight::new(alloc, program.scenarios() as usize, cells)?;
        let turns = KeptTurns::new(alloc, cells)?;
        Ok(Chance {
            constraint,
            weight,
            turns,
            rested: None,
        })
    }

    /// Sees the condition anew in all scenarios that wait or mention a cell that was told, and forgets the turns of all cells that it
    /// mentions there; whether the weight that is left over the box of the store is known then.
    fn look(&mut self, program: &Program, store: &BoxStore) -> bool
        requires fits { Fits self.old program.now }
        requires inside { Inside store.now.box (root_in program.now) }
        requires weight { KeepsWeightOf self.old program.now store.now.box }
        requires turns { KeepsTurnsOf self.old program.now store.now.box }
        ensures known { IfSo result (KnowsWeight (root_in program.now) (problem_in program.now) self.new.constraint.instance store.now.box
            self.new.weight) }
        ensures looked { HasLooked self.old self.new program.now store.now.box }
    {
        self.weight.outdated.let_told_wait(
            self.constraint.cells.as_slice(),
            self.constraint.mentioning.as_slice(),
        );
        self.constraint
            .forget_waiting(program, &self.weight.outdated, &mut self.turns);
        self.weight
            .renew_all(program, self.constraint.instance, store)
    }

    /// What is found of the box of a store for which what is kept is right, against the best value where there is one; where the weight
    /// that is left is not known, each end is tried by all scenarios.
    fn found<'a>(
        &mut self,
        program: &'a Program,
        store: &'a BoxStore,
        best: Option<i128>,
        known: bool,
    ) -> Finding
        requires fits { Fits self.old program.now }
        requires inside { Inside store.now.box (root_in program.now) }
        requires looked { HasLooked self.old self.old program.now store.now.box }
        requires known { IfSo known (KnowsWeight (root_in program.now) (problem_in program.now) self.old.constraint.instance store.now.box
            self.old.weight) }
        ensures finds { Finds (box_problem_of program.now) (reasons_of self.old) best store.now.box result }
        ensures looked { HasLooked self.old self.new program.now store.now.box }
    {
        let probe = Probe {
            program,
            store,
            reason: self.constraint.reason(),
            best,
            weighed: None,
            counted: None,
        };
        if !known {
            return self.constraint.finding_by_all(&probe);
        }
        self.constraint
            .finding_by(&probe, &self.weight, &mut self.turns)
    }

    /// What it finds of the box of a store for which what it keeps is right, against the best value where there is one; it keeps whether
    /// it rests.
    fn ask(&mut self, program: &Program, store: &BoxStore, best: Option<i128>) -> Finding
        requires fits { Fits self.old program.now }
        requires inside { Inside store.now.box (box_problem_of program.now).root }
        requires weight { KeepsWeightOf self.old program.now store.now.box }
        requires turns { KeepsTurnsOf self.old program.now store.now.box }
        ensures finds { Finds (box_problem_of program.now) (reasons_of self.old) best store.now.box result }
        ensures in_step { InStep self.new program.now store.now.box }
        ensures constraint { self.new.constraint ≡ self.old.constraint }
        ensures still_fits { (p : Stated) → Fits self.old p → Fits self.new p }
        ensures fitted_before { (p : Stated) → Fits self.new p → Fits self.old p }
    {
        let known = self.look(program, store);
        let finding = self.found(program, store, best, known);
        self.rested = rested_by(&finding, best);
        finding
    }
}

impl Propagator for Chance {
    type Program = Program;

    ghost problem = { box_problem_of };

    ghost reasons = { reasons_of };

    ghost fits = { Fits };

    ghost in_step = { InStep };

    ghost watches = { λ chance. chance.constraint.cells.items };

    fn revise(&mut self, program: &Program, store: &BoxStore, best: Option<i128>) -> Finding {
        self.weight.forget();
        self.turns.forget_all();
        self.ask(program, store, best)
    }
}

impl Watching for Chance {
    ghost use Rattle.prop_chance.specs.Deciding.{chance_ascends, chance_looks, chance_steps};

    fn watched_cells(&self) -> &[u32] {
        self.constraint.cells.as_slice()
    }

    fn touched(&mut self, cell: u32) {
        self.rested = None;
        self.weight.tell(cell);
    }

    #[tactic(auto, using(prop_core::proofs::Rested::quiet_again))]
    fn revise_kept(&mut self, program: &Program, store: &BoxStore, best: Option<i128>) -> Finding {
        if rests_at(self.rested, best) {
            return Finding::Quiet;
        }
        self.ask(program, store, best)
    }

    ghost cells_ascend = { λ m p fits. chance_ascends m p fits };

    ghost steps_agree = { λ m p b c fits b_in c_in agree step. chance_steps m p b c fits b_in c_in agree step };

    ghost reasons_agree = { λ m p fits. chance_looks m p fits };
}
