//! The better end of an expected objective, kept from one box to the next.

ghost use Rattle.std.specs.Prelude.{◌≡◌, ◌<◌, ◌∷◌, [], ℕ, List, false, length, IfNone, IfOk, IfSome};
ghost use Rattle.sopl_base.specs.declared.reason.Reason.TheVariants.{Bound};
ghost use Rattle.box_problem.specs.Box.{Box, Inside};
ghost use Rattle.box_problem.specs.Rightness.{IsRight, Quiets};
ghost use Rattle.prop_core.specs.Watches.{AgreeElsewhere};
ghost use Rattle.prop_shave.specs.GoalSums.{AreParts};
ghost use Rattle.prop_shave.specs.Opened.{IsWhole};
ghost use Rattle.prop_shave.specs.Probes.{IsAsked, closes};
ghost use Rattle.term_problem.specs.Objective.{better_end, goal_ends};
ghost use Rattle.term_problem.specs.Problems.{direction_in};
ghost use Rattle.term_program.specs.declared.program.Program.{Program as Stated};
ghost use Rattle.term_program.specs.Programs.{IsMade, problem_in, root_in};
ghost use Rattle.term_program.specs.Stated.{box_problem_of};
ghost use Rattle.prop_chance.specs.KeptWeights.{IfSo};
ghost use Rattle.prop_chance.specs.UpToDate.{AreListed, AreListedBut, left_to_see};
ghost use Rattle.prop_goal.specs.Cells.{AreGoalCells, is_worst};
ghost use Rattle.prop_goal.specs.KeptEnds.{AreEndsSeen, FitsEnds, IsEndSummed, KeepsEnds, KnowsEnd, constant_of};
ghost use Rattle.prop_goal.specs.KeptParts.{AreCalm, AreOneEach, IsPartPut, IsPartRenewed};

use crate::goal_cells::GoalCells;
use crate::kept_parts::KeptParts;
use box_store::BoxStore;
use prop_chance::KeptTurns;
use prop_shave::{PartEnds, Probe};
use sopl_base::{Step, Wide};
use std::alloc::{AllocError, Global};
use term_goals::Atom;
use term_program::{Program, is_no_better};

/// The parts of an expected objective's sum, the better end of the objective by their ends, and by how much it turns with each cell at its
/// ends.
#[derive(Drop)]
pub struct KeptEnds {
    pub parts: KeptParts,
    pub end: Wide,
    pub turns: KeptTurns,
}

impl KeptEnds {
    /// These parts, none of which was seen, beside a constant; with room for so many cells.
    pub(crate) fn new(
        alloc: Global,
        atoms: Vec<Atom>,
        constant: Wide,
        cells: usize,
    ) -> Result<KeptEnds, AllocError>
        ensures atoms { IfOk result (λ made. made.parts.atoms ≡ atoms) }
        ensures fits { IfOk result (λ made. (program : Stated) → is_worst (problem_in program) ≡ false → AreParts program atoms.items
            → FitsEnds made program cells) }
        ensures keeps { IfOk result (λ made. (program : Stated) (list : List ℕ) (b : Box) → constant.value ≡ constant_of program
            → KeepsEnds program list b made) }
    {
        let parts = KeptParts::new(alloc, atoms, cells)?;
        let turns = KeptTurns::new(alloc, cells)?;
        Ok(KeptEnds {
            parts,
            end: constant,
            turns,
        })
    }

    /// Forgets what was seen: each part is to be seen anew, beside a constant.
    pub(crate) fn forget(&mut self, constant: Wide)
        ensures keeps { (program : Stated) (list : List ℕ) (b : Box) → constant.value ≡ constant_of program
            → KeepsEnds program list b self.new }
        ensures fits { (program : Stated) (cells : ℕ) → FitsEnds self.old program cells → FitsEnds self.new program cells }
        ensures fitted { (program : Stated) (cells : ℕ) → FitsEnds self.new program cells → FitsEnds self.old program cells }
        ensures atoms { self.new.parts.atoms ≡ self.old.parts.atoms }
    {
        self.parts.forget();
        self.turns.forget_all();
        self.end = constant;
    }

    /// Is told that a cell may have changed.
    pub(crate) fn tell(&mut self, cell: u32)
        ensures keeps { (program : Stated) (list : List ℕ) (b c : Box) → AgreeElsewhere cell b c → KeepsEnds program list b self.old
            → KeepsEnds program list c self.new }
        ensures fits { (program : Stated) (cells : ℕ) → FitsEnds self.old program cells → FitsEnds self.new program cells }
        ensures fitted { (program : Stated) (cells : ℕ) → FitsEnds self.new program cells → FitsEnds self.old program cells }
        ensures atoms { self.new.parts.atoms ≡ self.old.parts.atoms }
    {
        self.parts.tell(cell);
    }

    /// Sets the ends of one part, which waits no more, and the end of the objective with them, where that has room; else nothing.
    fn put(&mut self, number: usize, ends: &PartEnds) -> bool
        requires exists { number < length self.old.parts.atoms.items }
        requires one_each { AreOneEach self.old.parts }
        ensures put { IfSo result (IsPartPut self.old.parts self.new.parts number ends.now) }
        ensures summed { IfSo result ((program : Stated) → IsEndSummed program self.old → IsEndSummed program self.new) }
        ensures unset { result ≡ false → self.new ≡ self.old }
        ensures atoms { self.new.parts.atoms ≡ self.old.parts.atoms }
        ensures ends { length self.new.parts.ends.items ≡ length self.old.parts.ends.items }
        ensures waits { length self.new.parts.outdated.waits.items ≡ length self.old.parts.outdated.waits.items }
        ensures turns { self.new.turns ≡ self.old.turns }
    {
        let Some(less) = self.end.checked_minus(self.parts.ends[number].better) else {
            return false;
        };
        let Some(end) = less.checked_plus(ends.better) else {
            return false;
        };
        self.parts.put(number, ends);
        self.end = end;
        true
    }

    /// Sees a part anew; whether its ends and the end of the objective have room.
    fn renew(&mut self, program: &Program, store: &BoxStore, number: usize) -> bool
        requires made { IsMade program.now }
        requires inside { Inside store.now.box (root_in program.now) }
        requires parts { AreParts program.now self.old.parts.atoms.items }
        requires exists { number < length self.old.parts.atoms.items }
        requires one_each { AreOneEach self.old.parts }
        ensures renewed { IfSo result (IsPartRenewed program.now store.now.box self.old.parts self.new.parts number) }
        ensures summed { IfSo result ((program : Stated) → IsEndSummed program self.old → IsEndSummed program self.new) }
        ensures unset { result ≡ false → self.new ≡ self.old }
        ensures atoms { self.new.parts.atoms ≡ self.old.parts.atoms }
        ensures ends { length self.new.parts.ends.items ≡ length self.old.parts.ends.items }
        ensures waits { length self.new.parts.outdated.waits.items ≡ length self.old.parts.outdated.waits.items }
        ensures turns { self.new.turns ≡ self.old.turns }
    {
        match self.parts.see(program, store, number) {
            Some(ends) => self.put(number, &ends),
            None => false,
        }
    }

    /// Sees the part with a number anew, if it waits; whether its ends and the end of the objective have room. Where they have none, no part is listed.
    fn renew_waiting(&mut self, program: &Program, store: &BoxStore, number: usize) -> bool
        requires made { IsMade program.now }
        requires inside { Inside store.now.box (root_in program.now) }
        requires parts { AreParts program.now self.old.parts.atoms.items }
        requires one_each { AreOneEach self.old.parts }
        requires seen { AreEndsSeen program.now store.now.box self.old }
        ensures seen { AreEndsSeen program.now store.now.box self.new }
        ensures listed { AreListedBut number self.old.parts.outdated → AreListed self.new.parts.outdated }
        ensures left { IfSo result (left_to_see self.new.parts.outdated ≡ left_to_see self.old.parts.outdated) }
        ensures atoms { self.new.parts.atoms ≡ self.old.parts.atoms }
        ensures ends { length self.new.parts.ends.items ≡ length self.old.parts.ends.items }
        ensures waits { length self.new.parts.outdated.waits.items ≡ length self.old.parts.outdated.waits.items }
        ensures turns { self.new.turns ≡ self.old.turns }
    {
        if !self.parts.outdated.has_waiting(number) {
            return true;
        }
        if !self.renew(program, store, number) {
            self.parts.outdated.unlist();
            return false;
        }
        true
    }

    /// Sees all parts anew that wait; whether their ends and the end of the objective have room.
    fn renew_all(&mut self, program: &Program, store: &BoxStore) -> bool
        requires made { IsMade program.now }
        requires inside { Inside store.now.box (root_in program.now) }
        requires parts { AreParts program.now self.old.parts.atoms.items }
        requires one_each { AreOneEach self.old.parts }
        requires seen { AreEndsSeen program.now store.now.box self.old }
        requires listed { AreListed self.old.parts.outdated }
        ensures seen { AreEndsSeen program.now store.now.box self.new }
        ensures calm { IfSo result (AreCalm self.new.parts) }
        ensures listed { AreListed self.new.parts.outdated }
        ensures atoms { self.new.parts.atoms ≡ self.old.parts.atoms }
        ensures ends { length self.new.parts.ends.items ≡ length self.old.parts.ends.items }
        ensures waits { length self.new.parts.outdated.waits.items ≡ length self.old.parts.outdated.waits.items }
        ensures turns { self.new.turns ≡ self.old.turns }
    {
        'parts: while let Some(number) = self.parts.outdated.take_number() {
            if !self.renew_waiting(program, store, number) {
                return false;
            }
        }
        true
    }

    /// Sees all parts anew that wait or mention a cell that was told, and forgets the turns of all cells that these mention; whether the
    /// better end over the box of the store is known then.
    pub(crate) fn look(&mut self, watched: &GoalCells, program: &Program, store: &BoxStore) -> bool
        requires made { IsMade program.now }
        requires inside { Inside store.now.box (root_in program.now) }
        requires fits { FitsEnds self.old program.now (length watched.now.cells.items) }
        requires watched { AreGoalCells watched.now program.now self.old.parts.atoms.items }
        requires keeps { KeepsEnds program.now watched.now.cells.items store.now.box self.old }
        ensures known { IfSo result (KnowsEnd program.now watched.now.cells.items store.now.box self.new) }
        ensures keeps { KeepsEnds program.now watched.now.cells.items store.now.box self.new }
        ensures fits { (p : Stated) (cells : ℕ) → FitsEnds self.old p cells → FitsEnds self.new p cells }
        ensures fitted { (p : Stated) (cells : ℕ) → FitsEnds self.new p cells → FitsEnds self.old p cells }
        ensures atoms { self.new.parts.atoms ≡ self.old.parts.atoms }
    {
        self.parts.let_told_wait(watched);
        watched.forget_waiting(program, &self.parts, &mut self.turns);
        self.renew_all(program, store)
    }

    /// Whether the bound closes the box, by the better end over it.
    pub(crate) fn is_beaten(&self, probe: &Probe<'_>) -> bool
        requires asked { IsAsked probe.now }
        requires reason { probe.now.reason ≡ Bound }
        requires end { self.now.end.value ≡ better_end (direction_in (problem_in probe.now.program.now))
            (goal_ends (root_in probe.now.program.now) probe.now.store.now.box (problem_in probe.now.program.now)) }
        ensures { result ≡ closes probe.now probe.now.store.now.box }
    {
        match probe.best_value() {
            Some(best) => is_no_better(probe.program.direction(), self.end, best),
            None => false,
        }
    }

    /// A right step for the bound, or none, by the better end over the box and the parts that mention each cell.
    pub(crate) fn step(&mut self, watched: &GoalCells, probe: &Probe<'_>) -> Option<Step>
        requires fits { FitsEnds self.old probe.now.program.now (length watched.now.cells.items) }
        requires watched { AreGoalCells watched.now probe.now.program.now self.old.parts.atoms.items }
        requires asked { IsAsked probe.now }
        requires reason { probe.now.reason ≡ Bound }
        requires whole { IsWhole probe.now }
        requires keeps { KeepsEnds probe.now.program.now watched.now.cells.items probe.now.store.now.box self.old }
        requires known { KnowsEnd probe.now.program.now watched.now.cells.items probe.now.store.now.box self.old }
        ensures right { IfSome result (IsRight (box_problem_of probe.now.program.now) probe.now.best probe.now.store.now.box) }
        ensures own_reason { IfSome result (λ step. step.reason ≡ probe.now.reason) }
        ensures none { IfNone result (Quiets (box_problem_of probe.now.program.now) (probe.now.reason ∷ []) probe.now.best
            probe.now.store.now.box) }
        ensures keeps { KeepsEnds probe.now.program.now watched.now.cells.items probe.now.store.now.box self.new }
        ensures fits { (p : Stated) (cells : ℕ) → FitsEnds self.old p cells → FitsEnds self.new p cells }
        ensures fitted { (p : Stated) (cells : ℕ) → FitsEnds self.new p cells → FitsEnds self.old p cells }
        ensures atoms { self.new.parts.atoms ≡ self.old.parts.atoms }
    {
        watched.step_by(probe, &self.parts, self.end, &mut self.turns)
    }
}
