//! The cells of an objective, and what is found at their ends by the parts of its sum.

ghost use Rattle.std.specs.Prelude.{◌≡◌, ◌<◌, ◌∷◌, [], ℕ, get_or, length, map, true, IfNone, IfOk, IfSome, None, OnOk};
ghost use Rattle.std.specs.List.{AllByRecursion};
ghost use Rattle.std.specs.List.Sorted.{IsStrictlySortedBy};
ghost use Rattle.std.specs.Ordering.{nat_cmp};
ghost use Rattle.sopl_base.specs.declared.reason.Reason.TheVariants.{Bound, Undefined};
ghost use Rattle.box_problem.specs.Rightness.{IsRight, Quiets};
ghost use Rattle.prop_core.specs.Watches.{waits_at};
ghost use Rattle.prop_shave.specs.GoalSums.{AreParts, parts_over, touched_by, touches_at};
ghost use Rattle.prop_shave.specs.Opened.{IsOpen, IsWhole};
ghost use Rattle.prop_shave.specs.Probes.{HasAll, HasOnly, IsAsked};
ghost use Rattle.prop_shave.specs.Turns.{AreEndTurns, HoldsAtEnds};
ghost use Rattle.term_problem.specs.Reasons.{reason_mentions};
ghost use Rattle.term_program.specs.Mentions.{atom_ids};
ghost use Rattle.term_program.specs.Programs.{IsListedTerm, IsMade, problem_in, root_in, things_in};
ghost use Rattle.term_program.specs.Stated.{box_problem_of};
ghost use Rattle.prop_goal.specs.Cells.{AreGoalCells, ArePartsWithin, goal_mentions, parts_mention};
ghost use Rattle.prop_goal.specs.KeptEnds.{KnowsEnds};
ghost use Rattle.prop_chance.specs.KeptTurns.{AreFewer, AreForgottenIn, AreForgottenTo, KnowsTurns, turns_of};
ghost use Rattle.prop_chance.specs.UpToDate.{AreListed, part_numbers};

use crate::kept_parts::KeptParts;
use prop_chance::{KeptTurns, cells_listed, put_cells};
use prop_shave::{EndTurns, EndsTold, GoalDelta, Probe, TouchedParts, parts_touching};
use sopl_base::{Step, Wide};
use std::alloc::{AllocError, Global};
use std::collections::BTreeSet;
use term_goals::Atom;
use term_program::{Program, TermId};

/// The cells that an objective's terms and the parts of its sum mention, in ascending order, and for each of these the parts that mention
/// it.
#[derive(Drop)]
pub struct GoalCells {
    pub cells: Vec<u32>,
    pub touched: Vec<TouchedParts>,
}

/// Puts the cells that the objective's term mentions in a scenario into a set.
#[tactic(auto, using(crate::proofs::Objectives::nothing_undefined, prop_chance::proofs::CellSets::has_itself, crate::proofs::Objectives::only_itself))]
fn put_scenario(
    cells: &mut BTreeSet<u32>,
    program: &Program,
    scenario: u32,
) -> Result<(), AllocError>
    requires made { IsMade program.now }
    requires scenario { scenario < length (problem_in program.now).weights }
    ensures kept { OnOk result (HasAll cells.new.keys cells.old.keys) }
    ensures put { OnOk result (HasAll cells.new.keys (reason_mentions (root_in program.now) (problem_in program.now)
        (Undefined scenario))) }
    ensures only { OnOk result (HasOnly cells.new.keys cells.old.keys (reason_mentions (root_in program.now) (problem_in program.now) (Undefined scenario))) }
{
    match program.goal(scenario) {
        Some(term) => put_cells(cells, program.term_cells(term)),
        None => Ok(()),
    }
}

/// Puts the cells that the objective's terms mention into a set.
fn put_scenarios(cells: &mut BTreeSet<u32>, program: &Program) -> Result<(), AllocError>
    requires made { IsMade program.now }
    ensures all { OnOk result (HasAll cells.new.keys (reason_mentions (root_in program.now) (problem_in program.now) Bound)) }
    ensures only { OnOk result (HasOnly cells.new.keys cells.old.keys (reason_mentions (root_in program.now) (problem_in program.now) Bound)) }
{
    'scenarios: for scenario in 0..program.scenarios() {
        put_scenario(cells, program, scenario)?;
    }
    Ok(())
}

/// Puts the cells that parts of the objective's sum mention into a set, which keeps those that it has.
#[tactic(auto, using(crate::proofs::Objectives::no_part_yet))]
fn put_parts(cells: &mut BTreeSet<u32>, program: &Program, atoms: &[Atom]) -> Result<(), AllocError>
    requires made { IsMade program.now }
    requires listed { AllByRecursion (IsListedTerm program.now) (atom_ids atoms.now) }
    ensures kept { OnOk result (HasAll cells.new.keys cells.old.keys) }
    ensures within { OnOk result (ArePartsWithin program.now atoms.now (length atoms.now) cells.new.keys) }
    ensures only { OnOk result (HasOnly cells.new.keys cells.old.keys (parts_mention program.now atoms.now)) }
{
    'parts: for number in 0..atoms.len() {
        put_cells(cells, program.term_cells(TermId(atoms[number].term)))?;
    }
    Ok(())
}

/// The cells that the objective's terms and these parts of its sum mention, in ascending order.
fn goal_cells(alloc: Global, program: &Program, atoms: &[Atom]) -> Result<Vec<u32>, AllocError>
    requires made { IsMade program.now }
    requires listed { AllByRecursion (IsListedTerm program.now) (atom_ids atoms.now) }
    ensures all { IfOk result (λ cells. HasAll cells.items (reason_mentions (root_in program.now) (problem_in program.now) Bound)) }
    ensures within { IfOk result (λ cells. ArePartsWithin program.now atoms.now (length atoms.now) cells.items) }
    ensures only { IfOk result (λ cells. HasAll (goal_mentions program.now atoms.now) cells.items) }
    ensures ascend { IfOk result (λ cells. IsStrictlySortedBy nat_cmp cells.items) }
{
    let mut cells = BTreeSet::new(alloc);
    put_scenarios(&mut cells, program)?;
    put_parts(&mut cells, program, atoms)?;
    let list = cells_listed(alloc, &cells)?;
    Ok(list)
}

/// For each of these cells the parts of an objective's sum that mention it.
#[tactic(auto, using(prop_chance::proofs::Conditions::lists_more, prop_chance::proofs::Conditions::lists_all))]
fn touched_parts(
    alloc: Global,
    program: &Program,
    atoms: &[Atom],
    cells: &[u32],
) -> Result<Vec<TouchedParts>, AllocError>
    requires made { IsMade program.now }
    requires listed { AllByRecursion (IsListedTerm program.now) (atom_ids atoms.now) }
    ensures touched { IfOk result (λ lists. map part_numbers lists.items
        ≡ map (touched_by (root_in program.now) (things_in program.now) atoms.now) cells.now) }
{
    let mut lists = Vec::new(alloc);
    'cells: for cell in cells {
        let list = parts_touching(alloc, program, atoms, *cell)?;
        lists.push(list)?;
    }
    Ok(lists)
}

impl GoalCells {
    /// The cells of the objective, whose sum has these parts.
    pub(crate) fn new(
        alloc: Global,
        program: &Program,
        atoms: &[Atom],
    ) -> Result<GoalCells, AllocError>
        requires made { IsMade program.now }
        requires listed { AllByRecursion (IsListedTerm program.now) (atom_ids atoms.now) }
        ensures { IfOk result (λ made. AreGoalCells made program.now atoms.now) }
    {
        let cells = goal_cells(alloc, program, atoms)?;
        let touched = touched_parts(alloc, program, atoms, cells.as_slice())?;
        Ok(GoalCells { cells, touched })
    }

    /// Forgets the turns of the cells that the part with a number mentions, if it waits.
    fn forget_part(&self, program: &Program, kept: &KeptParts, number: usize, turns: &mut KeptTurns)
        requires made { IsMade program.now }
        requires cells { AreGoalCells self.now program.now kept.now.atoms.items }
        requires parts { AreParts program.now kept.now.atoms.items }
        requires waits { length kept.now.outdated.waits.items ≡ length kept.now.atoms.items }
        requires room { length turns.old.known.items ≡ length self.now.cells.items }
        ensures forgotten { number < length kept.now.atoms.items → waits_at kept.now.outdated.waits.items number ≡ true → (place : ℕ)
            → place < length self.now.cells.items
            → touches_at (root_in program.now) (things_in program.now) kept.now.atoms.items (get_or self.now.cells.items place 0) number
            ≡ true → turns_of turns.new place ≡ None }
        ensures fewer { AreFewer turns.old turns.new }
        ensures room { length turns.new.known.items ≡ length turns.old.known.items }
    {
        if !kept.outdated.has_waiting(number) {
            return;
        }
        let mentioned = program.term_cells(TermId(kept.atoms[number].term));
        turns.forget(self.cells.as_slice(), mentioned);
    }

    /// Forgets the turns of the cells that those of some parts mention which wait.
    fn forget_parts(
        &self,
        program: &Program,
        kept: &KeptParts,
        numbers: &[usize],
        turns: &mut KeptTurns,
    )
        requires made { IsMade program.now }
        requires cells { AreGoalCells self.now program.now kept.now.atoms.items }
        requires parts { AreParts program.now kept.now.atoms.items }
        requires waits { length kept.now.outdated.waits.items ≡ length kept.now.atoms.items }
        requires room { length turns.old.known.items ≡ length self.now.cells.items }
        ensures forgotten { AreForgottenIn (touches_at (root_in program.now) (things_in program.now) kept.now.atoms.items)
            self.now.cells.items kept.now.outdated.waits.items (length kept.now.atoms.items) numbers.now turns.new }
        ensures fewer { AreFewer turns.old turns.new }
        ensures room { length turns.new.known.items ≡ length turns.old.known.items }
    {
        'parts: for number in numbers {
            self.forget_part(program, kept, *number, turns);
        }
    }

    /// Forgets the turns of the cells that a part mentions which waits; of all cells where some parts are not listed.
    pub(crate) fn forget_waiting(&self, program: &Program, kept: &KeptParts, turns: &mut KeptTurns)
        requires made { IsMade program.now }
        requires cells { AreGoalCells self.now program.now kept.now.atoms.items }
        requires parts { AreParts program.now kept.now.atoms.items }
        requires waits { length kept.now.outdated.waits.items ≡ length kept.now.atoms.items }
        requires listed { AreListed kept.now.outdated }
        requires room { length turns.old.known.items ≡ length self.now.cells.items }
        ensures forgotten { AreForgottenTo (touches_at (root_in program.now) (things_in program.now) kept.now.atoms.items)
            self.now.cells.items kept.now.outdated.waits.items (length kept.now.atoms.items) turns.new }
        ensures fewer { AreFewer turns.old turns.new }
        ensures room { length turns.new.known.items ≡ length turns.old.known.items }
    {
        if kept.outdated.unlisted > 0 {
            turns.forget_all();
            return;
        }
        self.forget_parts(program, kept, kept.outdated.listed.as_slice(), turns);
    }

    /// What is told of the ends of a cell of the list, as it is reckoned anew.
    fn ends_anew<'a>(
        &'a self,
        probe: &'a Probe<'a>,
        kept: &'a KeptParts,
        end: Wide,
        at: usize,
    ) -> EndsTold
        requires cells { AreGoalCells self.now probe.now.program.now kept.now.atoms.items }
        requires asked { IsAsked probe.now }
        requires reason { probe.now.reason ≡ Bound }
        requires whole { IsWhole probe.now }
        requires known { KnowsEnds probe.now.program.now probe.now.store.now.box kept.now end.value }
        requires exists { at < length self.now.cells.items }
        ensures { HoldsAtEnds (IsOpen probe.now (get_or self.now.cells.items at 0)) (parts_over probe.now.program.now
            kept.now.atoms.items) probe.now.store.now.box (get_or self.now.cells.items at 0) result }
    {
        let cell = self.cells[at];
        let counted = GoalDelta {
            cell,
            end,
            atoms: kept.atoms.as_slice(),
            ends: kept.ends.as_slice(),
            numbers: self.touched[at].numbers.as_slice(),
            turns: None,
        };
        probe.bound_ends(&counted)
    }

    /// A right step at one of the ends of a cell of the list, or none where the bound does not close the box with the cell at either end,
    /// by these turns.
    fn step_with<'a>(
        &'a self,
        probe: &'a Probe<'a>,
        kept: &'a KeptParts,
        end: Wide,
        at: usize,
        turns: Option<EndTurns>,
    ) -> Option<Step>
        requires cells { AreGoalCells self.now probe.now.program.now kept.now.atoms.items }
        requires asked { IsAsked probe.now }
        requires reason { probe.now.reason ≡ Bound }
        requires whole { IsWhole probe.now }
        requires known { KnowsEnds probe.now.program.now probe.now.store.now.box kept.now end.value }
        requires exists { at < length self.now.cells.items }
        requires turns { IfSome turns (AreEndTurns (parts_over probe.now.program.now kept.now.atoms.items) probe.now.store.now.box
            (get_or self.now.cells.items at 0)) }
        ensures right { IfSome result (IsRight (box_problem_of probe.now.program.now) probe.now.best probe.now.store.now.box) }
        ensures own_reason { IfSome result (λ step. step.reason ≡ probe.now.reason) }
        ensures none { IfNone result (IsOpen probe.now (get_or self.now.cells.items at 0)) }
    {
        let cell = self.cells[at];
        let counted = GoalDelta {
            cell,
            end,
            atoms: kept.atoms.as_slice(),
            ends: kept.ends.as_slice(),
            numbers: self.touched[at].numbers.as_slice(),
            turns,
        };
        let known = Probe {
            program: probe.program,
            store: probe.store,
            reason: probe.reason,
            best: probe.best,
            weighed: None,
            counted: Some(counted),
        };
        known.step_at(cell)
    }

    /// Whether these turns leave the box open with a cell of the list at either end.
    fn is_open_by_turns(
        &self,
        probe: &Probe<'_>,
        kept: &KeptParts,
        end: Wide,
        at: usize,
        turns: &EndTurns,
    ) -> bool
        requires cells { AreGoalCells self.now probe.now.program.now kept.now.atoms.items }
        requires asked { IsAsked probe.now }
        requires reason { probe.now.reason ≡ Bound }
        requires known { KnowsEnds probe.now.program.now probe.now.store.now.box kept.now end.value }
        requires exists { at < length self.now.cells.items }
        requires turns { AreEndTurns (parts_over probe.now.program.now kept.now.atoms.items) probe.now.store.now.box
            (get_or self.now.cells.items at 0) turns.now }
        ensures stays { result ≡ true → IsOpen probe.now (get_or self.now.cells.items at 0) }
    {
        match probe.best_value() {
            Some(best) => {
                probe.is_better_at_ends(kept.atoms.as_slice(), end, self.cells[at], turns, best)
            }
            None => false,
        }
    }

    /// A right step at one of the ends of a cell of the list, or none where the bound does not close the box with the cell at either end;
    /// where these turns leave it open, nothing else is asked.
    fn step_by_turns<'a>(
        &'a self,
        probe: &'a Probe<'a>,
        kept: &'a KeptParts,
        end: Wide,
        at: usize,
        turns: &EndTurns,
    ) -> Option<Step>
        requires cells { AreGoalCells self.now probe.now.program.now kept.now.atoms.items }
        requires asked { IsAsked probe.now }
        requires reason { probe.now.reason ≡ Bound }
        requires whole { IsWhole probe.now }
        requires known { KnowsEnds probe.now.program.now probe.now.store.now.box kept.now end.value }
        requires exists { at < length self.now.cells.items }
        requires turns { AreEndTurns (parts_over probe.now.program.now kept.now.atoms.items) probe.now.store.now.box
            (get_or self.now.cells.items at 0) turns.now }
        ensures right { IfSome result (IsRight (box_problem_of probe.now.program.now) probe.now.best probe.now.store.now.box) }
        ensures own_reason { IfSome result (λ step. step.reason ≡ probe.now.reason) }
        ensures none { IfNone result (IsOpen probe.now (get_or self.now.cells.items at 0)) }
    {
        if self.is_open_by_turns(probe, kept, end, at, turns) {
            return None;
        }
        self.step_with(probe, kept, end, at, Some(*turns))
    }

    /// A right step at one of the ends of a cell of the list, or none where the bound does not close the box with the cell at either end; by
    /// how much the better end turns there is reckoned anew, and kept from now on.
    fn step_anew<'a>(
        &'a self,
        probe: &'a Probe<'a>,
        kept: &'a KeptParts,
        end: Wide,
        at: usize,
        turns: &mut KeptTurns,
    ) -> Option<Step>
        requires cells { AreGoalCells self.now probe.now.program.now kept.now.atoms.items }
        requires asked { IsAsked probe.now }
        requires reason { probe.now.reason ≡ Bound }
        requires whole { IsWhole probe.now }
        requires known { KnowsEnds probe.now.program.now probe.now.store.now.box kept.now end.value }
        requires exists { at < length self.now.cells.items }
        requires turns { KnowsTurns (parts_over probe.now.program.now kept.now.atoms.items) probe.now.store.now.box self.now.cells.items
            turns.old }
        requires room { length turns.old.known.items ≡ length self.now.cells.items }
        ensures right { IfSome result (IsRight (box_problem_of probe.now.program.now) probe.now.best probe.now.store.now.box) }
        ensures own_reason { IfSome result (λ step. step.reason ≡ probe.now.reason) }
        ensures none { IfNone result (IsOpen probe.now (get_or self.now.cells.items at 0)) }
        ensures turns { KnowsTurns (parts_over probe.now.program.now kept.now.atoms.items) probe.now.store.now.box self.now.cells.items
            turns.new }
        ensures room { length turns.new.known.items ≡ length turns.old.known.items }
    {
        match self.ends_anew(probe, kept, end, at) {
            EndsTold::Open => None,
            EndsTold::Turned(seen) => {
                turns.known[at] = Some(seen);
                self.step_by_turns(probe, kept, end, at, &seen)
            }
            EndsTold::Untold => self.step_with(probe, kept, end, at, None),
        }
    }

    /// A right step at one of the ends of a cell of the list, or none where the bound does not close the box with the cell at either end.
    fn step_for<'a>(
        &'a self,
        probe: &'a Probe<'a>,
        kept: &'a KeptParts,
        end: Wide,
        at: usize,
        turns: &mut KeptTurns,
    ) -> Option<Step>
        requires cells { AreGoalCells self.now probe.now.program.now kept.now.atoms.items }
        requires asked { IsAsked probe.now }
        requires reason { probe.now.reason ≡ Bound }
        requires whole { IsWhole probe.now }
        requires known { KnowsEnds probe.now.program.now probe.now.store.now.box kept.now end.value }
        requires exists { at < length self.now.cells.items }
        requires turns { KnowsTurns (parts_over probe.now.program.now kept.now.atoms.items) probe.now.store.now.box self.now.cells.items
            turns.old }
        requires room { length turns.old.known.items ≡ length self.now.cells.items }
        ensures right { IfSome result (IsRight (box_problem_of probe.now.program.now) probe.now.best probe.now.store.now.box) }
        ensures own_reason { IfSome result (λ step. step.reason ≡ probe.now.reason) }
        ensures none { IfNone result (IsOpen probe.now (get_or self.now.cells.items at 0)) }
        ensures turns { KnowsTurns (parts_over probe.now.program.now kept.now.atoms.items) probe.now.store.now.box self.now.cells.items
            turns.new }
        ensures room { length turns.new.known.items ≡ length turns.old.known.items }
    {
        if probe.is_fixed(self.cells[at]) {
            return None;
        }
        match turns.known[at] {
            Some(before) => self.step_by_turns(probe, kept, end, at, &before),
            None => self.step_anew(probe, kept, end, at, turns),
        }
    }

    /// A right step for the bound, or none, by the better end over the box and the parts that mention each cell.
    pub(crate) fn step_by<'a>(
        &'a self,
        probe: &'a Probe<'a>,
        kept: &'a KeptParts,
        end: Wide,
        turns: &mut KeptTurns,
    ) -> Option<Step>
        requires cells { AreGoalCells self.now probe.now.program.now kept.now.atoms.items }
        requires asked { IsAsked probe.now }
        requires reason { probe.now.reason ≡ Bound }
        requires whole { IsWhole probe.now }
        requires known { KnowsEnds probe.now.program.now probe.now.store.now.box kept.now end.value }
        requires turns { KnowsTurns (parts_over probe.now.program.now kept.now.atoms.items) probe.now.store.now.box self.now.cells.items
            turns.old }
        requires room { length turns.old.known.items ≡ length self.now.cells.items }
        ensures right { IfSome result (IsRight (box_problem_of probe.now.program.now) probe.now.best probe.now.store.now.box) }
        ensures own_reason { IfSome result (λ step. step.reason ≡ probe.now.reason) }
        ensures none { IfNone result (Quiets (box_problem_of probe.now.program.now) (probe.now.reason ∷ []) probe.now.best
            probe.now.store.now.box) }
        ensures turns { KnowsTurns (parts_over probe.now.program.now kept.now.atoms.items) probe.now.store.now.box self.now.cells.items
            turns.new }
        ensures room { length turns.new.known.items ≡ length turns.old.known.items }
    {
        'cells: for at in 0..self.cells.len() {
            if let Some(step) = self.step_for(probe, kept, end, at, turns) {
                return Some(step);
            }
        }
        None
    }
}
