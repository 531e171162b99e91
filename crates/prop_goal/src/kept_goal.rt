//! What is kept of an objective from one box to the next.

ghost use Rattle.std.specs.Prelude.{◌≡◌, ◌∷◌, [], ℕ, List, false, length, true, IfNone, IfOk, IfSome};
ghost use Rattle.sopl_base.specs.declared.reason.Reason.TheVariants.{Bound};
ghost use Rattle.box_problem.specs.Box.{Box, Inside};
ghost use Rattle.box_problem.specs.Rightness.{IsRight, Quiets};
ghost use Rattle.prop_core.specs.Watches.{AgreeElsewhere};
ghost use Rattle.prop_shave.specs.GoalSums.{AreParts};
ghost use Rattle.prop_shave.specs.Opened.{IsWhole};
ghost use Rattle.prop_shave.specs.Probes.{IsAsked, closes};
ghost use Rattle.term_program.specs.declared.program.Program.{Program as Stated};
ghost use Rattle.term_program.specs.Programs.{IsMade, problem_in, root_in};
ghost use Rattle.term_program.specs.Stated.{box_problem_of};
ghost use Rattle.prop_chance.specs.KeptWeights.{IfSo};
ghost use Rattle.prop_goal.specs.Cells.{AreGoalCells, is_worst};
ghost use Rattle.prop_goal.specs.Goals.{FitsKept, KeepsGoal, KnowsGoal, atoms_of};
ghost use Rattle.prop_goal.specs.KeptEnds.{constant_of};
ghost use Rattle.prop_goal.specs.KeptWorst.{AreWorst};

use crate::goal_cells::GoalCells;
use crate::kept_ends::KeptEnds;
use crate::kept_worst::KeptWorst;
use box_store::BoxStore;
use prop_shave::Probe;
use sopl_base::{Step, Wide};
use std::alloc::{AllocError, Global};
use term_goals::Atom;
use term_program::Program;

/// What is kept of an objective, of which the expected value counts or that in the worst scenario.
#[derive(Drop)]
pub enum KeptGoal {
    Expected(KeptEnds),
    Worst(KeptWorst),
}

/// The constant of an expected objective's sum; 0 where the worst scenario counts.
fn goal_constant(program: &Program) -> Wide
    requires made { IsMade program.now }
    ensures constant { is_worst (problem_in program.now) ≡ false → result.value ≡ constant_of program.now }
{
    if program.worst() {
        return Wide { value: 0 };
    }
    Wide {
        value: program.goal_constant(),
    }
}

impl KeptGoal {
    /// Nothing that was seen of these parts of the objective, with room for so many cells.
    pub(crate) fn new(
        alloc: Global,
        program: &Program,
        atoms: Vec<Atom>,
        cells: usize,
    ) -> Result<KeptGoal, AllocError>
        requires made { IsMade program.now }
        requires expected { is_worst (problem_in program.now) ≡ false → AreParts program.now atoms.items }
        requires worst { is_worst (problem_in program.now) ≡ true → AreWorst program.now atoms.items }
        ensures atoms { IfOk result (λ made. atoms_of made ≡ atoms.items) }
        ensures fits { IfOk result (λ made. FitsKept made program.now cells) }
        ensures keeps { IfOk result (λ made. (list : List ℕ) (b : Box) → KeepsGoal made program.now list b) }
    {
        if program.worst() {
            let terms = KeptWorst::new(alloc, atoms, cells)?;
            return Ok(KeptGoal::Worst(terms));
        }
        let kept = KeptEnds::new(alloc, atoms, goal_constant(program), cells)?;
        Ok(KeptGoal::Expected(kept))
    }

    /// Forgets what was seen.
    pub(crate) fn forget(&mut self, program: &Program)
        requires made { IsMade program.now }
        ensures keeps { (cells : ℕ) (list : List ℕ) (b : Box) → FitsKept self.old program.now cells → KeepsGoal self.new program.now list b }
        ensures fits { (p : Stated) (cells : ℕ) → FitsKept self.old p cells → FitsKept self.new p cells }
        ensures fitted { (p : Stated) (cells : ℕ) → FitsKept self.new p cells → FitsKept self.old p cells }
        ensures atoms { atoms_of self.new ≡ atoms_of self.old }
    {
        match self {
            KeptGoal::Expected(kept) => kept.forget(goal_constant(program)),
            KeptGoal::Worst(kept) => kept.forget(),
        }
    }

    /// Is told that a cell may have changed.
    pub(crate) fn tell(&mut self, cell: u32)
        ensures keeps { (program : Stated) (list : List ℕ) (b c : Box) → AgreeElsewhere cell b c → KeepsGoal self.old program list b
            → KeepsGoal self.new program list c }
        ensures fits { (p : Stated) (cells : ℕ) → FitsKept self.old p cells → FitsKept self.new p cells }
        ensures fitted { (p : Stated) (cells : ℕ) → FitsKept self.new p cells → FitsKept self.old p cells }
        ensures atoms { atoms_of self.new ≡ atoms_of self.old }
    {
        match self {
            KeptGoal::Expected(kept) => kept.tell(cell),
            KeptGoal::Worst(kept) => kept.tell(cell),
        }
    }

    /// Sees all parts anew that are out of date; whether everything is known over the box of the store then.
    pub(crate) fn look(&mut self, watched: &GoalCells, program: &Program, store: &BoxStore) -> bool
        requires made { IsMade program.now }
        requires inside { Inside store.now.box (root_in program.now) }
        requires fits { FitsKept self.old program.now (length watched.now.cells.items) }
        requires watched { AreGoalCells watched.now program.now (atoms_of self.old) }
        requires keeps { KeepsGoal self.old program.now watched.now.cells.items store.now.box }
        ensures known { IfSo result (KnowsGoal self.new program.now watched.now.cells.items store.now.box) }
        ensures keeps { KeepsGoal self.new program.now watched.now.cells.items store.now.box }
        ensures fits { (p : Stated) (cells : ℕ) → FitsKept self.old p cells → FitsKept self.new p cells }
        ensures fitted { (p : Stated) (cells : ℕ) → FitsKept self.new p cells → FitsKept self.old p cells }
        ensures atoms { atoms_of self.new ≡ atoms_of self.old }
    {
        match self {
            KeptGoal::Expected(kept) => kept.look(watched, program, store),
            KeptGoal::Worst(kept) => kept.look(watched, program, store),
        }
    }

    /// Whether the bound closes the box, by what is known over it.
    pub(crate) fn is_beaten(&self, probe: &Probe<'_>) -> bool
        requires asked { IsAsked probe.now }
        requires reason { probe.now.reason ≡ Bound }
        requires fits { (cells : ℕ) × FitsKept self.now probe.now.program.now cells }
        requires known { (list : List ℕ) × KnowsGoal self.now probe.now.program.now list probe.now.store.now.box }
        ensures { result ≡ closes probe.now probe.now.store.now.box }
    {
        match self {
            KeptGoal::Expected(kept) => kept.is_beaten(probe),
            KeptGoal::Worst(kept) => kept.is_beaten(probe),
        }
    }

    /// A right step for the bound at an end of a cell, or none where it does not close the box with any cell at an end, by what is known.
    pub(crate) fn step(&mut self, watched: &GoalCells, probe: &Probe<'_>) -> Option<Step>
        requires fits { FitsKept self.old probe.now.program.now (length watched.now.cells.items) }
        requires watched { AreGoalCells watched.now probe.now.program.now (atoms_of self.old) }
        requires asked { IsAsked probe.now }
        requires reason { probe.now.reason ≡ Bound }
        requires whole { IsWhole probe.now }
        requires keeps { KeepsGoal self.old probe.now.program.now watched.now.cells.items probe.now.store.now.box }
        requires known { KnowsGoal self.old probe.now.program.now watched.now.cells.items probe.now.store.now.box }
        ensures right { IfSome result (IsRight (box_problem_of probe.now.program.now) probe.now.best probe.now.store.now.box) }
        ensures own_reason { IfSome result (λ step. step.reason ≡ probe.now.reason) }
        ensures none { IfNone result (Quiets (box_problem_of probe.now.program.now) (probe.now.reason ∷ []) probe.now.best
            probe.now.store.now.box) }
        ensures keeps { KeepsGoal self.new probe.now.program.now watched.now.cells.items probe.now.store.now.box }
        ensures fits { (p : Stated) (cells : ℕ) → FitsKept self.old p cells → FitsKept self.new p cells }
        ensures fitted { (p : Stated) (cells : ℕ) → FitsKept self.new p cells → FitsKept self.old p cells }
        ensures atoms { atoms_of self.new ≡ atoms_of self.old }
    {
        match self {
            KeptGoal::Expected(kept) => kept.step(watched, probe),
            KeptGoal::Worst(kept) => kept.step(watched, probe),
        }
    }
}
