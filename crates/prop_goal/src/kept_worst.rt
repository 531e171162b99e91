//! The ends of the objective's term in each scenario, kept from one box to the next where the worst scenario counts.

ghost use Rattle.std.specs.Prelude.{◌≡◌, ◌<◌, ◌∷◌, [], ℕ, false, get_or, length, true, IfNone, IfOk, IfSome, Some};
ghost use Rattle.sopl_base.specs.declared.reason.Reason.TheVariants.{Bound};
ghost use Rattle.sopl_base.specs.declared.reason.Side.TheVariants.{Ge};
ghost use Rattle.box_problem.specs.Box.{Box, Inside};
ghost use Rattle.box_problem.specs.Rightness.{IsRight, Quiets};
ghost use Rattle.prop_core.specs.Watches.{AgreeElsewhere};
ghost use Rattle.prop_shave.specs.GoalSums.{touched_by};
ghost use Rattle.prop_shave.specs.Opened.{IsOpen, IsWhole};
ghost use Rattle.prop_shave.specs.Probes.{IsAsked, IsEndOf, closes};
ghost use Rattle.term_goals.specs.Goals.{AtomsExist};
ghost use Rattle.term_program.specs.declared.program.Program.{Program as Stated};
ghost use Rattle.term_program.specs.Programs.{IsMade, root_in, things_in};
ghost use Rattle.term_program.specs.Stated.{box_problem_of};
ghost use Rattle.prop_chance.specs.KeptWeights.{IfSo};
ghost use Rattle.prop_chance.specs.UpToDate.{AreListed, AreListedBut, left_to_see};
ghost use Rattle.prop_goal.specs.Cells.{AreGoalCells};
ghost use Rattle.prop_goal.specs.KeptParts.{AreAllSeen, AreCalm, AreOneEach, ArePartsSeen, IsPartRenewed, KeepsParts};
ghost use Rattle.prop_goal.specs.KeptWorst.{AreWorst, FitsWorst, IsBetterWith};

use crate::goal_cells::GoalCells;
use crate::kept_parts::KeptParts;
use crate::worst_ends::{is_better_at_ends, is_surely_better};
use box_store::BoxStore;
use prop_shave::{CellEnd, Probe};
use sopl_base::{Step, Wide};
use std::alloc::{AllocError, Global};
use term_goals::Atom;
use term_program::{Program, is_no_better};

/// The objective's term in each scenario with its ends over a box, as they were seen last, where the worst scenario counts: the bound closes
/// a box where it does so in one scenario, and a cell at an end changes the scenarios alone that mention it.
#[derive(Drop)]
pub struct KeptWorst {
    pub parts: KeptParts,
}

impl KeptWorst {
    /// These terms, none of which was seen; with room for so many cells.
    pub(crate) fn new(
        alloc: Global,
        atoms: Vec<Atom>,
        cells: usize,
    ) -> Result<KeptWorst, AllocError>
        ensures atoms { IfOk result (λ made. made.parts.atoms ≡ atoms) }
        ensures fits { IfOk result (λ made. (program : Stated) → AreWorst program atoms.items → FitsWorst made program) }
        ensures keeps { IfOk result (λ made. (program : Stated) (b : Box) → KeepsParts program b made.parts) }
    {
        let parts = KeptParts::new(alloc, atoms, cells)?;
        Ok(KeptWorst { parts })
    }

    /// Forgets what was seen: each term is to be seen anew.
    pub(crate) fn forget(&mut self)
        ensures keeps { (program : Stated) (b : Box) → KeepsParts program b self.new.parts }
        ensures fits { (program : Stated) → FitsWorst self.old program → FitsWorst self.new program }
        ensures fitted { (program : Stated) → FitsWorst self.new program → FitsWorst self.old program }
        ensures atoms { self.new.parts.atoms ≡ self.old.parts.atoms }
    {
        self.parts.forget();
    }

    /// Is told that a cell may have changed.
    pub(crate) fn tell(&mut self, cell: u32)
        ensures keeps { (program : Stated) (b c : Box) → AgreeElsewhere cell b c → KeepsParts program b self.old.parts
            → KeepsParts program c self.new.parts }
        ensures fits { (program : Stated) → FitsWorst self.old program → FitsWorst self.new program }
        ensures fitted { (program : Stated) → FitsWorst self.new program → FitsWorst self.old program }
        ensures atoms { self.new.parts.atoms ≡ self.old.parts.atoms }
    {
        self.parts.tell(cell);
    }

    /// Sees a term anew; whether its ends have room.
    fn renew(&mut self, program: &Program, store: &BoxStore, number: usize) -> bool
        requires made { IsMade program.now }
        requires inside { Inside store.now.box (root_in program.now) }
        requires exist { AtomsExist (length (things_in program.now)) self.old.parts.atoms.items }
        requires exists { number < length self.old.parts.atoms.items }
        requires one_each { AreOneEach self.old.parts }
        ensures renewed { IfSo result (IsPartRenewed program.now store.now.box self.old.parts self.new.parts number) }
        ensures unset { result ≡ false → self.new ≡ self.old }
        ensures atoms { self.new.parts.atoms ≡ self.old.parts.atoms }
        ensures ends { length self.new.parts.ends.items ≡ length self.old.parts.ends.items }
        ensures waits { length self.new.parts.outdated.waits.items ≡ length self.old.parts.outdated.waits.items }
    {
        let Some(ends) = self.parts.see(program, store, number) else {
            return false;
        };
        self.parts.put(number, &ends);
        true
    }

    /// Sees the term with a number anew, if it waits; whether its ends have room. Where they have none, no term is listed.
    fn renew_waiting(&mut self, program: &Program, store: &BoxStore, number: usize) -> bool
        requires made { IsMade program.now }
        requires inside { Inside store.now.box (root_in program.now) }
        requires exist { AtomsExist (length (things_in program.now)) self.old.parts.atoms.items }
        requires one_each { AreOneEach self.old.parts }
        requires seen { ArePartsSeen program.now store.now.box self.old.parts }
        ensures seen { ArePartsSeen program.now store.now.box self.new.parts }
        ensures listed { AreListedBut number self.old.parts.outdated → AreListed self.new.parts.outdated }
        ensures left { IfSo result (left_to_see self.new.parts.outdated ≡ left_to_see self.old.parts.outdated) }
        ensures atoms { self.new.parts.atoms ≡ self.old.parts.atoms }
        ensures ends { length self.new.parts.ends.items ≡ length self.old.parts.ends.items }
        ensures waits { length self.new.parts.outdated.waits.items ≡ length self.old.parts.outdated.waits.items }
    {
        if !self.parts.outdated.has_waiting(number) {
            return true;
        }
        if !self.renew(program, store, number) {
            self.parts.outdated.unlist();
            return false;
        }
        true
    }

    /// Sees all terms anew that wait; whether their ends have room.
    fn renew_all(&mut self, program: &Program, store: &BoxStore) -> bool
        requires made { IsMade program.now }
        requires inside { Inside store.now.box (root_in program.now) }
        requires exist { AtomsExist (length (things_in program.now)) self.old.parts.atoms.items }
        requires one_each { AreOneEach self.old.parts }
        requires seen { ArePartsSeen program.now store.now.box self.old.parts }
        requires listed { AreListed self.old.parts.outdated }
        ensures seen { ArePartsSeen program.now store.now.box self.new.parts }
        ensures calm { IfSo result (AreCalm self.new.parts) }
        ensures listed { AreListed self.new.parts.outdated }
        ensures atoms { self.new.parts.atoms ≡ self.old.parts.atoms }
        ensures ends { length self.new.parts.ends.items ≡ length self.old.parts.ends.items }
        ensures waits { length self.new.parts.outdated.waits.items ≡ length self.old.parts.outdated.waits.items }
    {
        'scenarios: while let Some(number) = self.parts.outdated.take_number() {
            if !self.renew_waiting(program, store, number) {
                return false;
            }
        }
        true
    }

    /// Sees all terms anew that wait or mention a cell that was told; whether the better end in each scenario is known then.
    pub(crate) fn look(&mut self, watched: &GoalCells, program: &Program, store: &BoxStore) -> bool
        requires made { IsMade program.now }
        requires inside { Inside store.now.box (root_in program.now) }
        requires fits { FitsWorst self.old program.now }
        requires watched { AreGoalCells watched.now program.now self.old.parts.atoms.items }
        requires keeps { KeepsParts program.now store.now.box self.old.parts }
        ensures seen { IfSo result (AreAllSeen program.now store.now.box self.new.parts) }
        ensures keeps { KeepsParts program.now store.now.box self.new.parts }
        ensures fits { (p : Stated) → FitsWorst self.old p → FitsWorst self.new p }
        ensures fitted { (p : Stated) → FitsWorst self.new p → FitsWorst self.old p }
        ensures atoms { self.new.parts.atoms ≡ self.old.parts.atoms }
    {
        self.parts.let_told_wait(watched);
        self.renew_all(program, store)
    }

    /// Whether the bound closes the box, against this value.
    fn is_beaten_by(&self, probe: &Probe<'_>, best: Wide) -> bool
        requires asked { IsAsked probe.now }
        requires reason { probe.now.reason ≡ Bound }
        requires best { probe.now.best ≡ Some best.value }
        requires fits { FitsWorst self.now probe.now.program.now }
        requires seen { AreAllSeen probe.now.program.now probe.now.store.now.box self.now.parts }
        ensures { result ≡ closes probe.now probe.now.store.now.box }
    {
        'scenarios: for number in 0..self.parts.ends.len() {
            let better = self.parts.ends[number].better;
            if is_no_better(probe.program.direction(), better, best) {
                return true;
            }
        }
        false
    }

    /// Whether the bound closes the box, by the better end in each scenario.
    pub(crate) fn is_beaten(&self, probe: &Probe<'_>) -> bool
        requires asked { IsAsked probe.now }
        requires reason { probe.now.reason ≡ Bound }
        requires fits { FitsWorst self.now probe.now.program.now }
        requires seen { AreAllSeen probe.now.program.now probe.now.store.now.box self.now.parts }
        ensures { result ≡ closes probe.now probe.now.store.now.box }
    {
        match probe.best_value() {
            Some(best) => self.is_beaten_by(probe, best),
            None => false,
        }
    }

    /// Whether a scenario leaves the box open with a cell at either end of its interval, against this value.
    fn leaves_open(&self, probe: &Probe<'_>, number: usize, end: &CellEnd, best: Wide) -> bool
        requires asked { IsAsked probe.now }
        requires fits { FitsWorst self.now probe.now.program.now }
        requires seen { AreAllSeen probe.now.program.now probe.now.store.now.box self.now.parts }
        requires end { IsEndOf probe.now end.now }
        requires side { end.now.side ≡ Ge }
        requires exists { number < length self.now.parts.atoms.items }
        ensures better { result ≡ true → IsBetterWith probe.now.program.now self.now.parts.atoms.items probe.now.store.now.box best.value
            end.now.cell number }
    {
        if is_surely_better(probe.program, &self.parts.ends[number], best) {
            return true;
        }
        is_better_at_ends(probe, &self.parts.atoms[number], end, best)
    }

    /// Whether the bound stays open with a cell at either end of its interval, against this value, by the scenarios that mention the cell.
    fn stays_open(&self, probe: &Probe<'_>, numbers: &[usize], end: &CellEnd, best: Wide) -> bool
        requires asked { IsAsked probe.now }
        requires reason { probe.now.reason ≡ Bound }
        requires best { probe.now.best ≡ Some best.value }
        requires whole { IsWhole probe.now }
        requires fits { FitsWorst self.now probe.now.program.now }
        requires seen { AreAllSeen probe.now.program.now probe.now.store.now.box self.now.parts }
        requires end { IsEndOf probe.now end.now }
        requires side { end.now.side ≡ Ge }
        requires numbers { numbers.now ≡ touched_by (root_in probe.now.program.now) (things_in probe.now.program.now)
            self.now.parts.atoms.items end.now.cell }
        ensures stays { result ≡ true → IsOpen probe.now end.now.cell }
    {
        'scenarios: for number in numbers {
            if !self.leaves_open(probe, *number, end, best) {
                return false;
            }
        }
        true
    }

    /// A right step at one of the ends of a cell of the list, or none where the bound does not close the box with the cell at either end.
    fn step_at(&self, watched: &GoalCells, probe: &Probe<'_>, best: Wide, at: usize) -> Option<Step>
        requires watched { AreGoalCells watched.now probe.now.program.now self.now.parts.atoms.items }
        requires asked { IsAsked probe.now }
        requires reason { probe.now.reason ≡ Bound }
        requires best { probe.now.best ≡ Some best.value }
        requires whole { IsWhole probe.now }
        requires fits { FitsWorst self.now probe.now.program.now }
        requires seen { AreAllSeen probe.now.program.now probe.now.store.now.box self.now.parts }
        requires exists { at < length watched.now.cells.items }
        ensures right { IfSome result (IsRight (box_problem_of probe.now.program.now) probe.now.best probe.now.store.now.box) }
        ensures own_reason { IfSome result (λ step. step.reason ≡ probe.now.reason) }
        ensures none { IfNone result (IsOpen probe.now (get_or watched.now.cells.items at 0)) }
    {
        let cell = watched.cells[at];
        let Some(end) = probe.lower_end(cell) else {
            return None;
        };
        let numbers = watched.touched[at].numbers.as_slice();
        if self.stays_open(probe, numbers, &end, best) {
            return None;
        }
        probe.step_at(cell)
    }

    /// A right step for the bound, or none, by the better end in each scenario and the scenarios that mention each cell.
    #[tactic(auto, using(crate::proofs::Objectives::rests_alone))]
    pub(crate) fn step(&self, watched: &GoalCells, probe: &Probe<'_>) -> Option<Step>
        requires watched { AreGoalCells watched.now probe.now.program.now self.now.parts.atoms.items }
        requires asked { IsAsked probe.now }
        requires reason { probe.now.reason ≡ Bound }
        requires whole { IsWhole probe.now }
        requires fits { FitsWorst self.now probe.now.program.now }
        requires seen { AreAllSeen probe.now.program.now probe.now.store.now.box self.now.parts }
        ensures right { IfSome result (IsRight (box_problem_of probe.now.program.now) probe.now.best probe.now.store.now.box) }
        ensures own_reason { IfSome result (λ step. step.reason ≡ probe.now.reason) }
        ensures none { IfNone result (Quiets (box_problem_of probe.now.program.now) (probe.now.reason ∷ []) probe.now.best
            probe.now.store.now.box) }
    {
        let Some(best) = probe.best_value() else {
            return None;
        };
        'cells: for at in 0..watched.cells.len() {
            if let Some(step) = self.step_at(watched, probe, best, at) {
                return Some(step);
            }
        }
        None
    }
}
