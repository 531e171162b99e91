//! A chance constraint and its cells, and what is found for it.

ghost use Rattle.std.specs.Prelude.{◌≡◌, ◌<◌, ◌∷◌, [], ℕ, get_or, length, map, true, IfNone, IfOk, IfSome, None};
ghost use Rattle.std.specs.List.Sorted.{IsStrictlySortedBy};
ghost use Rattle.std.specs.Ordering.{nat_cmp};
ghost use Rattle.sopl_base.specs.declared.reason.Reason.TheVariants as reason;
ghost use Rattle.box_problem.specs.Rightness.{IsRight, Quiets};
ghost use Rattle.prop_core.specs.Findings.{Finds};
ghost use Rattle.prop_core.specs.Watches.{waits_at};
ghost use Rattle.prop_shave.specs.ChanceSums.{is_touched, left_over, touched_by};
ghost use Rattle.prop_shave.specs.Opened.{IsOpen, IsWhole};
ghost use Rattle.prop_shave.specs.Probes.{HasAll, IsAsked, closes};
ghost use Rattle.prop_shave.specs.Turns.{AreEndTurns, HoldsAtEnds};
ghost use Rattle.term_problem.specs.Reasons.{reason_mentions};
ghost use Rattle.term_program.specs.Programs.{IsMade, problem_in, root_in};
ghost use Rattle.term_program.specs.Stated.{box_problem_of};
ghost use Rattle.prop_chance.specs.Chances.{IsConstraintOf};
ghost use Rattle.prop_chance.specs.KeptTurns.{AreFewer, AreForgottenIn, AreForgottenTo, KnowsTurns, turns_of};
ghost use Rattle.prop_chance.specs.KeptWeights.{KnowsWeight};
ghost use Rattle.prop_chance.specs.UpToDate.{AreListed, numbers_in};

use crate::cell_sets::{cells_listed, put_cells};
use crate::kept_turns::KeptTurns;
use crate::kept_weight::{KeptWeight, scenario_numbered};
use crate::outdated::Outdated;
use prop_core::Finding;
use prop_shave::{
    ChanceDelta, EndTurns, EndsTold, Probe, TouchedScenarios, is_too_little, scenarios_touching,
};
use sopl_base::{Reason, Step};
use std::alloc::{AllocError, Global};
use std::collections::BTreeSet;
use term_program::Program;

/// A chance constraint, the cells that its conditions mention, in ascending order, and for each of these the scenarios in which its
/// condition mentions it.
#[derive(Drop)]
pub struct ChanceConstraint {
    pub instance: u32,
    pub cells: Vec<u32>,
    pub mentioning: Vec<TouchedScenarios>,
}

/// The cells that the conditions of a chance constraint mention, in ascending order.
fn chance_cells(alloc: Global, program: &Program, instance: u32) -> Result<Vec<u32>, AllocError>
    requires made { IsMade program.now }
    requires instance { instance < length (problem_in program.now).chances }
    ensures all { IfOk result (λ cells. HasAll cells.items (reason_mentions (root_in program.now) (problem_in program.now)
        (reason.Chance instance))) }
    ensures only { IfOk result (λ cells. HasAll (reason_mentions (root_in program.now) (problem_in program.now) (reason.Chance instance))
        cells.items) }
    ensures ascend { IfOk result (λ cells. IsStrictlySortedBy nat_cmp cells.items) }
{
    let mut cells = BTreeSet::new(alloc);
    'scenarios: for scenario in 0..program.scenarios() {
        put_cells(
            &mut cells,
            program.cells_of(program.chance(instance, scenario)),
        )?;
    }
    let list = cells_listed(alloc, &cells)?;
    Ok(list)
}

/// For each of these cells the scenarios in which the condition of a chance constraint mentions it.
#[tactic(auto, using(crate::proofs::Conditions::lists_more, crate::proofs::Conditions::lists_all))]
fn touched_scenarios(
    alloc: Global,
    program: &Program,
    instance: u32,
    cells: &[u32],
) -> Result<Vec<TouchedScenarios>, AllocError>
    requires made { IsMade program.now }
    requires instance { instance < length (problem_in program.now).chances }
    ensures touched { IfOk result (λ lists. map numbers_in lists.items
        ≡ map (touched_by (root_in program.now) (problem_in program.now) instance) cells.now) }
{
    let mut lists = Vec::new(alloc);
    'cells: for cell in cells {
        let list = scenarios_touching(alloc, program, instance, *cell)?;
        lists.push(list)?;
    }
    Ok(lists)
}

impl ChanceConstraint {
    /// The chance constraint with a number.
    pub(crate) fn new(
        alloc: Global,
        program: &Program,
        instance: u32,
    ) -> Result<ChanceConstraint, AllocError>
        requires made { IsMade program.now }
        requires instance { instance < length (problem_in program.now).chances }
        ensures instance { IfOk result (λ made. made.instance ≡ instance) }
        ensures constraint { IfOk result (λ made. IsConstraintOf made program.now) }
    {
        let cells = chance_cells(alloc, program, instance)?;
        let mentioning = touched_scenarios(alloc, program, instance, cells.as_slice())?;
        Ok(ChanceConstraint {
            instance,
            cells,
            mentioning,
        })
    }

    /// The one reason for which boxes are narrowed.
    pub(crate) fn reason(&self) -> Reason
        ensures { result ≡ reason.Chance self.now.instance }
    {
        Reason::Chance {
            instance: self.instance,
        }
    }

    /// Forgets the turns of the cells that the condition mentions in the scenario with a number, if it waits.
    fn forget_scenario(
        &self,
        program: &Program,
        number: usize,
        outdated: &Outdated,
        turns: &mut KeptTurns,
    )
        requires constraint { IsConstraintOf self.now program.now }
        requires waits { length outdated.now.waits.items ≡ length (problem_in program.now).weights }
        requires room { length turns.old.known.items ≡ length self.now.cells.items }
        ensures forgotten { number < length (problem_in program.now).weights → waits_at outdated.now.waits.items number ≡ true
            → (place : ℕ) → place < length self.now.cells.items
            → is_touched (root_in program.now) (problem_in program.now) self.now.instance (get_or self.now.cells.items place 0) number
            ≡ true
            → turns_of turns.new place ≡ None }
        ensures fewer { AreFewer turns.old turns.new }
        ensures room { length turns.new.known.items ≡ length turns.old.known.items }
    {
        if !outdated.has_waiting(number) {
            return;
        }
        let scenario = scenario_numbered(program, number);
        let mentioned = program.cells_of(program.chance(self.instance, scenario));
        turns.forget(self.cells.as_slice(), mentioned);
    }

    /// Forgets the turns of the cells that the condition mentions in those of some scenarios that wait.
    fn forget_scenarios(
        &self,
        program: &Program,
        numbers: &[usize],
        outdated: &Outdated,
        turns: &mut KeptTurns,
    )
        requires constraint { IsConstraintOf self.now program.now }
        requires waits { length outdated.now.waits.items ≡ length (problem_in program.now).weights }
        requires room { length turns.old.known.items ≡ length self.now.cells.items }
        ensures forgotten { AreForgottenIn (is_touched (root_in program.now) (problem_in program.now) self.now.instance)
            self.now.cells.items outdated.now.waits.items (length (problem_in program.now).weights) numbers.now turns.new }
        ensures fewer { AreFewer turns.old turns.new }
        ensures room { length turns.new.known.items ≡ length turns.old.known.items }
    {
        'scenarios: for number in numbers {
            self.forget_scenario(program, *number, outdated, turns);
        }
    }

    /// Forgets the turns of the cells that the condition mentions in a scenario that waits; of all cells where some scenarios are not
    /// listed.
    pub(crate) fn forget_waiting(
        &self,
        program: &Program,
        outdated: &Outdated,
        turns: &mut KeptTurns,
    )
        requires constraint { IsConstraintOf self.now program.now }
        requires waits { length outdated.now.waits.items ≡ length (problem_in program.now).weights }
        requires listed { AreListed outdated.now }
        requires room { length turns.old.known.items ≡ length self.now.cells.items }
        ensures forgotten { AreForgottenTo (is_touched (root_in program.now) (problem_in program.now) self.now.instance)
            self.now.cells.items outdated.now.waits.items (length (problem_in program.now).weights) turns.new }
        ensures fewer { AreFewer turns.old turns.new }
        ensures room { length turns.new.known.items ≡ length turns.old.known.items }
    {
        if outdated.unlisted > 0 {
            turns.forget_all();
            return;
        }
        self.forget_scenarios(program, outdated.listed.as_slice(), outdated, turns);
    }

    /// What is told of the ends of a cell of the list, as it is reckoned anew.
    fn ends_anew<'a>(&'a self, probe: &'a Probe<'a>, weight: &'a KeptWeight, at: usize) -> EndsTold
        requires constraint { IsConstraintOf self.now probe.now.program.now }
        requires asked { IsAsked probe.now }
        requires reason { probe.now.reason ≡ reason.Chance self.now.instance }
        requires whole { IsWhole probe.now }
        requires known { KnowsWeight (root_in probe.now.program.now) (problem_in probe.now.program.now) self.now.instance
            probe.now.store.now.box weight.now }
        requires exists { at < length self.now.cells.items }
        ensures { HoldsAtEnds (IsOpen probe.now (get_or self.now.cells.items at 0)) (left_over (root_in probe.now.program.now)
            (problem_in probe.now.program.now) self.now.instance) probe.now.store.now.box (get_or self.now.cells.items at 0) result }
    {
        let cell = self.cells[at];
        let weighed = ChanceDelta {
            instance: self.instance,
            cell,
            left: weight.left,
            truths: weight.truths.as_slice(),
            scenarios: self.mentioning[at].numbers.as_slice(),
            turns: None,
        };
        probe.weight_ends(&weighed)
    }

    /// A right step at one of the ends of a cell of the list, or none where the constraint does not close the box with the cell at either
    /// end, by these turns.
    fn step_with<'a>(
        &'a self,
        probe: &'a Probe<'a>,
        weight: &'a KeptWeight,
        at: usize,
        turns: Option<EndTurns>,
    ) -> Option<Step>
        requires constraint { IsConstraintOf self.now probe.now.program.now }
        requires asked { IsAsked probe.now }
        requires reason { probe.now.reason ≡ reason.Chance self.now.instance }
        requires whole { IsWhole probe.now }
        requires known { KnowsWeight (root_in probe.now.program.now) (problem_in probe.now.program.now) self.now.instance
            probe.now.store.now.box weight.now }
        requires exists { at < length self.now.cells.items }
        requires turns { IfSome turns (AreEndTurns (left_over (root_in probe.now.program.now) (problem_in probe.now.program.now)
            self.now.instance) probe.now.store.now.box (get_or self.now.cells.items at 0)) }
        ensures right { IfSome result (IsRight (box_problem_of probe.now.program.now) probe.now.best probe.now.store.now.box) }
        ensures own_reason { IfSome result (λ step. step.reason ≡ probe.now.reason) }
        ensures none { IfNone result (IsOpen probe.now (get_or self.now.cells.items at 0)) }
    {
        let cell = self.cells[at];
        let weighed = ChanceDelta {
            instance: self.instance,
            cell,
            left: weight.left,
            truths: weight.truths.as_slice(),
            scenarios: self.mentioning[at].numbers.as_slice(),
            turns,
        };
        let known = Probe {
            program: probe.program,
            store: probe.store,
            reason: probe.reason,
            best: probe.best,
            weighed: Some(weighed),
            counted: None,
        };
        known.step_at(cell)
    }

    /// A right step at one of the ends of a cell of the list, or none where the constraint does not close the box with the cell at either
    /// end; where these turns leave it open, nothing else is asked.
    fn step_by_turns<'a>(
        &'a self,
        probe: &'a Probe<'a>,
        weight: &'a KeptWeight,
        at: usize,
        turns: &EndTurns,
    ) -> Option<Step>
        requires constraint { IsConstraintOf self.now probe.now.program.now }
        requires asked { IsAsked probe.now }
        requires reason { probe.now.reason ≡ reason.Chance self.now.instance }
        requires whole { IsWhole probe.now }
        requires known { KnowsWeight (root_in probe.now.program.now) (problem_in probe.now.program.now) self.now.instance
            probe.now.store.now.box weight.now }
        requires exists { at < length self.now.cells.items }
        requires turns { AreEndTurns (left_over (root_in probe.now.program.now) (problem_in probe.now.program.now) self.now.instance)
            probe.now.store.now.box (get_or self.now.cells.items at 0) turns.now }
        ensures right { IfSome result (IsRight (box_problem_of probe.now.program.now) probe.now.best probe.now.store.now.box) }
        ensures own_reason { IfSome result (λ step. step.reason ≡ probe.now.reason) }
        ensures none { IfNone result (IsOpen probe.now (get_or self.now.cells.items at 0)) }
    {
        if probe.is_enough_at_ends(self.instance, weight.left, self.cells[at], turns) {
            return None;
        }
        self.step_with(probe, weight, at, Some(*turns))
    }

    /// A right step at one of the ends of a cell of the list, or none where the constraint does not close the box with the cell at either
    /// end; by how much the weight turns there is reckoned anew, and kept from now on.
    fn step_anew<'a>(
        &'a self,
        probe: &'a Probe<'a>,
        weight: &'a KeptWeight,
        at: usize,
        turns: &mut KeptTurns,
    ) -> Option<Step>
        requires constraint { IsConstraintOf self.now probe.now.program.now }
        requires asked { IsAsked probe.now }
        requires reason { probe.now.reason ≡ reason.Chance self.now.instance }
        requires whole { IsWhole probe.now }
        requires known { KnowsWeight (root_in probe.now.program.now) (problem_in probe.now.program.now) self.now.instance
            probe.now.store.now.box weight.now }
        requires exists { at < length self.now.cells.items }
        requires turns { KnowsTurns (left_over (root_in probe.now.program.now) (problem_in probe.now.program.now) self.now.instance)
            probe.now.store.now.box self.now.cells.items turns.old }
        requires room { length turns.old.known.items ≡ length self.now.cells.items }
        ensures right { IfSome result (IsRight (box_problem_of probe.now.program.now) probe.now.best probe.now.store.now.box) }
        ensures own_reason { IfSome result (λ step. step.reason ≡ probe.now.reason) }
        ensures none { IfNone result (IsOpen probe.now (get_or self.now.cells.items at 0)) }
        ensures turns { KnowsTurns (left_over (root_in probe.now.program.now) (problem_in probe.now.program.now) self.now.instance)
            probe.now.store.now.box self.now.cells.items turns.new }
        ensures room { length turns.new.known.items ≡ length turns.old.known.items }
    {
        match self.ends_anew(probe, weight, at) {
            EndsTold::Open => None,
            EndsTold::Turned(seen) => {
                turns.known[at] = Some(seen);
                self.step_by_turns(probe, weight, at, &seen)
            }
            EndsTold::Untold => self.step_with(probe, weight, at, None),
        }
    }

    /// A right step at one of the ends of a cell of the list, or none where the constraint does not close the box with the cell at either
    /// end.
    fn step_for<'a>(
        &'a self,
        probe: &'a Probe<'a>,
        weight: &'a KeptWeight,
        at: usize,
        turns: &mut KeptTurns,
    ) -> Option<Step>
        requires constraint { IsConstraintOf self.now probe.now.program.now }
        requires asked { IsAsked probe.now }
        requires reason { probe.now.reason ≡ reason.Chance self.now.instance }
        requires whole { IsWhole probe.now }
        requires known { KnowsWeight (root_in probe.now.program.now) (problem_in probe.now.program.now) self.now.instance
            probe.now.store.now.box weight.now }
        requires exists { at < length self.now.cells.items }
        requires turns { KnowsTurns (left_over (root_in probe.now.program.now) (problem_in probe.now.program.now) self.now.instance)
            probe.now.store.now.box self.now.cells.items turns.old }
        requires room { length turns.old.known.items ≡ length self.now.cells.items }
        ensures right { IfSome result (IsRight (box_problem_of probe.now.program.now) probe.now.best probe.now.store.now.box) }
        ensures own_reason { IfSome result (λ step. step.reason ≡ probe.now.reason) }
        ensures none { IfNone result (IsOpen probe.now (get_or self.now.cells.items at 0)) }
        ensures turns { KnowsTurns (left_over (root_in probe.now.program.now) (problem_in probe.now.program.now) self.now.instance)
            probe.now.store.now.box self.now.cells.items turns.new }
        ensures room { length turns.new.known.items ≡ length turns.old.known.items }
    {
        if probe.is_fixed(self.cells[at]) {
            return None;
        }
        match turns.known[at] {
            Some(kept) => self.step_by_turns(probe, weight, at, &kept),
            None => self.step_anew(probe, weight, at, turns),
        }
    }

    /// A right step at one of the ends of the cells, by the weight that is left over the box; none where the constraint does not close the
    /// box with any cell at an end.
    fn step_by<'a>(
        &'a self,
        probe: &'a Probe<'a>,
        weight: &'a KeptWeight,
        turns: &mut KeptTurns,
    ) -> Option<Step>
        requires constraint { IsConstraintOf self.now probe.now.program.now }
        requires asked { IsAsked probe.now }
        requires reason { probe.now.reason ≡ reason.Chance self.now.instance }
        requires whole { IsWhole probe.now }
        requires known { KnowsWeight (root_in probe.now.program.now) (problem_in probe.now.program.now) self.now.instance
            probe.now.store.now.box weight.now }
        requires turns { KnowsTurns (left_over (root_in probe.now.program.now) (problem_in probe.now.program.now) self.now.instance)
            probe.now.store.now.box self.now.cells.items turns.old }
        requires room { length turns.old.known.items ≡ length self.now.cells.items }
        ensures right { IfSome result (IsRight (box_problem_of probe.now.program.now) probe.now.best probe.now.store.now.box) }
        ensures own_reason { IfSome result (λ step. step.reason ≡ probe.now.reason) }
        ensures none { IfNone result (Quiets (box_problem_of probe.now.program.now) (probe.now.reason ∷ []) probe.now.best
            probe.now.store.now.box) }
        ensures turns { KnowsTurns (left_over (root_in probe.now.program.now) (problem_in probe.now.program.now) self.now.instance)
            probe.now.store.now.box self.now.cells.items turns.new }
        ensures room { length turns.new.known.items ≡ length turns.old.known.items }
    {
        'cells: for at in 0..self.cells.len() {
            if let Some(step) = self.step_for(probe, weight, at, turns) {
                return Some(step);
            }
        }
        None
    }

    /// Whether the constraint closes the box, by the weight that is left over it.
    fn is_closed_by(&self, probe: &Probe<'_>, weight: &KeptWeight) -> bool
        requires asked { IsAsked probe.now }
        requires exists { self.now.instance < length (problem_in probe.now.program.now).chances }
        requires reason { probe.now.reason ≡ reason.Chance self.now.instance }
        requires known { KnowsWeight (root_in probe.now.program.now) (problem_in probe.now.program.now) self.now.instance
            probe.now.store.now.box weight.now }
        ensures { result ≡ closes probe.now probe.now.store.now.box }
    {
        is_too_little(probe.program, self.instance, weight.left)
    }

    /// What is found of the box for the constraint, by the weight that is left over it and the turns that are kept.
    #[tactic(auto, using(prop_shave::proofs::Finding::found_dead, prop_shave::proofs::Finding::found_cut))]
    pub(crate) fn finding_by<'a>(
        &'a self,
        probe: &'a Probe<'a>,
        weight: &'a KeptWeight,
        turns: &mut KeptTurns,
    ) -> Finding
        requires constraint { IsConstraintOf self.now probe.now.program.now }
        requires asked { IsAsked probe.now }
        requires reason { probe.now.reason ≡ reason.Chance self.now.instance }
        requires known { KnowsWeight (root_in probe.now.program.now) (problem_in probe.now.program.now) self.now.instance
            probe.now.store.now.box weight.now }
        requires turns { KnowsTurns (left_over (root_in probe.now.program.now) (problem_in probe.now.program.now) self.now.instance)
            probe.now.store.now.box self.now.cells.items turns.old }
        requires room { length turns.old.known.items ≡ length self.now.cells.items }
        ensures finds { Finds (box_problem_of probe.now.program.now) (probe.now.reason ∷ []) probe.now.best probe.now.store.now.box result }
        ensures turns { KnowsTurns (left_over (root_in probe.now.program.now) (problem_in probe.now.program.now) self.now.instance)
            probe.now.store.now.box self.now.cells.items turns.new }
        ensures room { length turns.new.known.items ≡ length turns.old.known.items }
    {
        if self.is_closed_by(probe, weight) {
            return Finding::Dead(probe.reason);
        }
        match self.step_by(probe, weight, turns) {
            Some(step) => Finding::Cut(step),
            None => Finding::Quiet,
        }
    }

    /// What is found of the box for the constraint, where each end is tried by all scenarios.
    pub(crate) fn finding_by_all(&self, probe: &Probe<'_>) -> Finding
        requires constraint { IsConstraintOf self.now probe.now.program.now }
        requires asked { IsAsked probe.now }
        requires reason { probe.now.reason ≡ reason.Chance self.now.instance }
        ensures finds { Finds (box_problem_of probe.now.program.now) (probe.now.reason ∷ []) probe.now.best probe.now.store.now.box result }
    {
        probe.finding(self.cells.as_slice())
    }
}
