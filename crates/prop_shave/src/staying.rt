//! Cells with which the box stays open, whatever values they have there, as what is at hand tells.

ghost use Rattle.std.specs.Prelude.{◌≡◌, ◌<◌, ◌+ℤ◌, length, true, IfSome, Some};
ghost use Rattle.sopl_base.specs.declared.reason.Reason.TheVariants.{Bound, Chance};
ghost use Rattle.box_problem.specs.Box.{Box, Inside};
ghost use Rattle.term_problem.specs.Objective.{better_end, goal_ends};
ghost use Rattle.term_problem.specs.Problems.{direction_in};
ghost use Rattle.prop_shave.specs.Sums.{sum_over, turn_of};
ghost use Rattle.prop_shave.specs.GoalSums.{AreParts, IsAsGood, part_at, parts_over};
ghost use Rattle.prop_shave.specs.Opened.{IsOpen, IsWhole};
ghost use Rattle.prop_shave.specs.Probes.{IsAsked, IsCountedOf, IsWeighedOf};
ghost use Rattle.prop_shave.specs.ChanceSums.{left_over, sure_weight};
ghost use Rattle.prop_shave.specs.Turns.{AreEndTurns, HoldsAtEnds};
ghost use Rattle.term_program.specs.Programs.{problem_in, root_in};

use crate::chance_delta::ChanceDelta;
use crate::end_turns::{EndTurns, EndsTold};
use crate::goal_delta::{GoalDelta, is_better_with};
use crate::probes::Probe;
use crate::weights::{is_enough_with, is_too_little, weight_if_unknown};
use sopl_base::Wide;
use term_goals::Atom;
use term_program::is_no_better;

impl Probe<'_> {
    /// The weight that is left without the scenarios in which the condition mentions the cell and is not known; none where it has no room.
    fn left_surely(&self, weighed: &ChanceDelta<'_>) -> Option<Wide>
        requires asked { IsAsked self.now }
        requires known { IsWeighedOf self.now weighed.now }
        ensures { IfSome result (λ left. left.value ≡ sure_weight (root_in self.now.program.now) (problem_in self.now.program.now) weighed.now.instance self.now.store.now.box weighed.now.cell) }
    {
        let mut left = weighed.left;
        'scenarios: for scenario in weighed.scenarios {
            let truth = weighed.truths[*scenario as usize];
            let here = weight_if_unknown(self.program, *scenario, truth);
            left = left.checked_minus(here)?;
        }
        Some(left)
    }

    /// Whether the scenarios in which the condition is True, or does not mention the cell, are enough for the constraint.
    fn is_surely_enough(&self, weighed: &ChanceDelta<'_>) -> bool
        requires asked { IsAsked self.now }
        requires known { IsWeighedOf self.now weighed.now }
        ensures stays { result ≡ true → IsOpen self.now weighed.now.cell }
    {
        match self.left_surely(weighed) {
            Some(left) => !is_too_little(self.program, weighed.instance, left),
            None => false,
        }
    }

    /// Whether enough weight is left to the constraint with a cell at either end, by what is left over the box and by how much it turns there.
    pub fn is_enough_at_ends(&self, instance: u32, left: Wide, _cell: u32, turns: &EndTurns) -> bool
        requires asked { IsAsked self.now }
        requires reason { self.now.reason ≡ Chance instance }
        requires exists { instance < length (problem_in self.now.program.now).chances }
        requires left { left.value ≡ left_over (root_in self.now.program.now) (problem_in self.now.program.now) instance self.now.store.now.box }
        requires turns { AreEndTurns (left_over (root_in self.now.program.now) (problem_in self.now.program.now) instance) self.now.store.now.box _cell turns.now }
        ensures stays { result ≡ true → IsOpen self.now _cell }
    {
        let at_low = is_enough_with(self.program, instance, left, turns.low);
        if !at_low {
            return false;
        }
        is_enough_with(self.program, instance, left, turns.high)
    }

    /// Whether the constraint is seen to leave the box open with the cell at either end.
    fn chance_stays_open(&self, weighed: &ChanceDelta<'_>, cell: u32) -> bool
        requires asked { IsAsked self.now }
        requires known { IsWeighedOf self.now weighed.now }
        ensures stays { result ≡ true → IsOpen self.now cell }
    {
        if weighed.cell != cell {
            return false;
        }
        match &weighed.turns {
            Some(turns) => {
                self.is_enough_at_ends(weighed.instance, weighed.left, weighed.cell, turns)
            }
            None => self.is_surely_enough(weighed),
        }
    }

    /// What is told of the ends of the cell for the weight: that the box stays open there, where the cell has one value or the scenarios are surely enough, or
    /// by how much the weight turns; nothing where there is no room.
    pub fn weight_ends(&self, weighed: &ChanceDelta<'_>) -> EndsTold
        requires asked { IsAsked self.now }
        requires whole { IsWhole self.now }
        requires known { IsWeighedOf self.now weighed.now }
        ensures { HoldsAtEnds (IsOpen self.now weighed.now.cell) (left_over (root_in self.now.program.now) (problem_in self.now.program.now) weighed.now.instance)
            self.now.store.now.box weighed.now.cell result }
    {
        let Some(end) = self.lower_end(weighed.cell) else {
            return EndsTold::Open;
        };
        if self.is_surely_enough(weighed) {
            return EndsTold::Open;
        }
        match weighed.turns_at(self.program, self.store, &end) {
            Some(turns) => EndsTold::Turned(turns),
            None => EndsTold::Untold,
        }
    }

    /// The better end with the worse ends of the parts that mention the cell; none where one of these may have no value, or there is no room.
    fn worst_end(&self, counted: &GoalDelta<'_>) -> Option<Wide>
        requires asked { IsAsked self.now }
        requires known { IsCountedOf self.now counted.now }
        ensures as_good { (c : Box) → Inside c self.now.store.now.box → IfSome result (λ end. IsAsGood (direction_in (problem_in self.now.program.now))
            (counted.now.end.value +ℤ sum_over (turn_of (part_at self.now.program.now counted.now.atoms.now self.now.store.now.box)
            (part_at self.now.program.now counted.now.atoms.now c)) counted.now.numbers.now) end.value) }
    {
        let mut end = counted.end;
        'parts: for number in counted.numbers {
            end = counted.ends[*number].worsened(end)?;
        }
        Some(end)
    }

    /// Whether the bound stays open with the worse ends of the parts that mention the cell, against this value.
    fn is_surely_better(&self, counted: &GoalDelta<'_>, best: Wide) -> bool
        requires asked { IsAsked self.now }
        requires known { IsCountedOf self.now counted.now }
        requires best { self.now.best ≡ Some best.value }
        ensures stays { result ≡ true → IsOpen self.now counted.now.cell }
    {
        match self.worst_end(counted) {
            Some(end) => !is_no_better(self.program.direction(), end, best),
            None => false,
        }
    }

    /// Whether the better end is better than this value with a cell at either end, by the better end over the box and by how much the objective's parts turn
    /// there.
    pub fn is_better_at_ends(
        &self,
        _atoms: &[Atom],
        end: Wide,
        _cell: u32,
        turns: &EndTurns,
        best: Wide,
    ) -> bool
        requires asked { IsAsked self.now }
        requires reason { self.now.reason ≡ Bound }
        requires are { AreParts self.now.program.now _atoms.now }
        requires end { end.value ≡ better_end (direction_in (problem_in self.now.program.now)) (goal_ends (root_in self.now.program.now) self.now.store.now.box (problem_in self.now.program.now)) }
        requires turns { AreEndTurns (parts_over self.now.program.now _atoms.now) self.now.store.now.box _cell turns.now }
        requires best { self.now.best ≡ Some best.value }
        ensures stays { result ≡ true → IsOpen self.now _cell }
    {
        let at_low = is_better_with(self.program, end, turns.low, best);
        if !at_low {
            return false;
        }
        is_better_with(self.program, end, turns.high, best)
    }

    /// Whether the bound is seen to leave the box open with the cell at either end, against this value.
    fn bound_stays_open_at(&self, counted: &GoalDelta<'_>, best: Wide) -> bool
        requires asked { IsAsked self.now }
        requires known { IsCountedOf self.now counted.now }
        requires best { self.now.best ≡ Some best.value }
        ensures stays { result ≡ true → IsOpen self.now counted.now.cell }
    {
        match &counted.turns {
            Some(turns) => {
                self.is_better_at_ends(counted.atoms, counted.end, counted.cell, turns, best)
            }
            None => self.is_surely_better(counted, best),
        }
    }

    /// Whether the bound is seen to leave the box open with the cell at either end.
    fn bound_stays_open(&self, counted: &GoalDelta<'_>, cell: u32) -> bool
        requires asked { IsAsked self.now }
        requires known { IsCountedOf self.now counted.now }
        ensures stays { result ≡ true → IsOpen self.now cell }
    {
        if counted.cell != cell {
            return false;
        }
        let Some(best) = self.best_value() else {
            return false;
        };
        self.bound_stays_open_at(counted, best)
    }

    /// What is told of the ends of the cell for the better end: that the box stays open there, where the cell has one value or the parts are surely better than
    /// the best value, or by how much the end turns; nothing where there is no best value or no room.
    pub fn bound_ends(&self, counted: &GoalDelta<'_>) -> EndsTold
        requires asked { IsAsked self.now }
        requires whole { IsWhole self.now }
        requires known { IsCountedOf self.now counted.now }
        ensures { HoldsAtEnds (IsOpen self.now counted.now.cell) (parts_over self.now.program.now counted.now.atoms.now) self.now.store.now.box counted.now.cell result }
    {
        let Some(end) = self.lower_end(counted.cell) else {
            return EndsTold::Open;
        };
        let Some(best) = self.best_value() else {
            return EndsTold::Untold;
        };
        if self.is_surely_better(counted, best) {
            return EndsTold::Open;
        }
        match counted.turns_at(self.program, self.store, &end) {
            Some(turns) => EndsTold::Turned(turns),
            None => EndsTold::Untold,
        }
    }

    /// Whether the bound is seen to leave the box open with the cell at either end, by the better end that is at hand, where there is one.
    fn stays_open_by_end(&self, cell: u32) -> bool
        requires asked { IsAsked self.now }
        ensures stays { result ≡ true → IsOpen self.now cell }
    {
        match &self.counted {
            Some(counted) => self.bound_stays_open(counted, cell),
            None => false,
        }
    }

    /// Whether what is at hand tells that the reason does not close the box with the cell at either end.
    pub(crate) fn stays_open(&self, cell: u32) -> bool
        requires asked { IsAsked self.now }
        ensures stays { result ≡ true → IsOpen self.now cell }
    {
        match &self.weighed {
            Some(weighed) => self.chance_stays_open(weighed, cell),
            None => self.stays_open_by_end(cell),
        }
    }
}
