//! Whether a reason closes a box or a part of it.

ghost use Rattle.std.specs.Prelude.{◌≡◌, ◌∷◌, [], pos, ◌≤ℤ◌, ◌-ℤ◌, IfNone, IfSome, None, Some};
ghost use Rattle.box_problem.specs.Box.{high, low};
ghost use Rattle.prop_shave.specs.Opened.{IsWhole};
ghost use Rattle.prop_shave.specs.Probes.{HasAll, IsAsked, IsCountedOf, IsEndOf, IsWeighedOf, closes, closes_part};
ghost use Rattle.term_program.specs.Stated.{box_problem_of};
ghost use Rattle.prop_core.specs.Findings.{Finds};
ghost use Rattle.term_problem.specs.Reasons.{reason_mentions};
ghost use Rattle.term_program.specs.Programs.{problem_in, root_in, with_interval};

use crate::chance_delta::ChanceDelta;
use crate::goal_delta::GoalDelta;
use crate::shave_steps::{CellEnd, Shave};
use box_store::BoxStore;
use prop_core::Finding;
use sopl_base::{Interval, Reason, Wide};
use term_program::{Program, refuted, refuted_in};

/// A reason of a program, the box of a store, and the best value where there is one; where they are at hand, for one cell, also the weight that is left to
/// a chance constraint over the box, or the better end of the objective.
#[derive(Clone, Copy)]
pub struct Probe<'a> {
    pub program: &'a Program,
    pub store: &'a BoxStore,
    pub reason: Reason,
    pub best: Option<i128>,
    pub weighed: Option<ChanceDelta<'a>>,
    pub counted: Option<GoalDelta<'a>>,
}

impl Probe<'_> {
    /// Whether the reason closes the box.
    pub fn is_closed(&self) -> bool
        requires asked { IsAsked self.now }
        ensures closed { result ≡ closes self.now self.now.store.now.box }
    {
        refuted(self.program, self.reason, self.store, self.best)
    }

    /// Whether the reason closes the part of the box in which a cell has one of so many values at an end.
    #[tactic(auto, using(crate::proofs::Opening::part_from, crate::proofs::Opening::part_to))]
    pub fn closes(&self, end: &CellEnd, removal: &Shave) -> bool
        requires asked { IsAsked self.now }
        requires end { IsEndOf self.now end.now }
        requires at_least_one { pos 1 ≤ℤ removal.now.count }
        requires fewer { removal.now.count ≤ℤ (end.now.hi -ℤ end.now.lo) }
        ensures { result ≡ closes_part self.now end.now removal.now.count }
    {
        self.closes_with(end.cell, end.values(removal))
    }

    /// Whether the reason closes the box with another interval for a cell.
    fn closes_with(&self, cell: u32, part: Interval) -> bool
        requires asked { IsAsked self.now }
        requires from_low { low (root_in self.now.program.now) cell ≤ℤ part.lo }
        requires to_high { part.hi ≤ℤ high (root_in self.now.program.now) cell }
        ensures { result ≡ closes self.now (with_interval self.now.store.now.box cell part.lo part.hi) }
    {
        match self.closes_by_delta(cell, part) {
            Some(closed) => closed,
            None => refuted_in(self.program, self.reason, self.store, self.best, cell, part),
        }
    }

    /// Whether the reason closes that box, by what is at hand; none where this does not tell.
    fn closes_by_delta(&self, cell: u32, part: Interval) -> Option<bool>
        requires asked { IsAsked self.now }
        requires from_low { low (root_in self.now.program.now) cell ≤ℤ part.lo }
        requires to_high { part.hi ≤ℤ high (root_in self.now.program.now) cell }
        ensures { IfSome result (λ closed. closed ≡ closes self.now (with_interval self.now.store.now.box cell part.lo part.hi)) }
    {
        match &self.weighed {
            Some(weighed) => self.closes_by_chance_delta(weighed, cell, part),
            None => self.closes_by_end(cell, part),
        }
    }

    /// Whether a chance constraint closes that box, by the weight that is left over the box and the truths that mention the cell.
    fn closes_by_chance_delta(
        &self,
        weighed: &ChanceDelta<'_>,
        cell: u32,
        part: Interval,
    ) -> Option<bool>
        requires asked { IsAsked self.now }
        requires known { IsWeighedOf self.now weighed.now }
        requires from_low { low (root_in self.now.program.now) cell ≤ℤ part.lo }
        requires to_high { part.hi ≤ℤ high (root_in self.now.program.now) cell }
        ensures { IfSome result (λ closed. closed ≡ closes self.now (with_interval self.now.store.now.box cell part.lo part.hi)) }
    {
        if weighed.cell != cell {
            return None;
        }
        weighed.closes_with(self.program, self.store, part)
    }

    /// Whether the bound closes that box, by the better end that is at hand; none where this does not tell.
    fn closes_by_end(&self, cell: u32, part: Interval) -> Option<bool>
        requires asked { IsAsked self.now }
        requires from_low { low (root_in self.now.program.now) cell ≤ℤ part.lo }
        requires to_high { part.hi ≤ℤ high (root_in self.now.program.now) cell }
        ensures { IfSome result (λ closed. closed ≡ closes self.now (with_interval self.now.store.now.box cell part.lo part.hi)) }
    {
        match &self.counted {
            Some(counted) => self.closes_by_goal_delta(counted, cell, part),
            None => None,
        }
    }

    /// The best value, where there is one.
    pub fn best_value(&self) -> Option<Wide>
        ensures some { IfSome result (λ value. self.now.best ≡ Some value.value) }
        ensures none { IfNone result (self.now.best ≡ None) }
    {
        match &self.best {
            Some(best) => Some(Wide { value: *best }),
            None => None,
        }
    }

    /// Whether the bound closes that box, by this better end over the box and the parts that mention the cell.
    fn closes_by_goal_delta(
        &self,
        counted: &GoalDelta<'_>,
        cell: u32,
        part: Interval,
    ) -> Option<bool>
        requires asked { IsAsked self.now }
        requires known { IsCountedOf self.now counted.now }
        requires from_low { low (root_in self.now.program.now) cell ≤ℤ part.lo }
        requires to_high { part.hi ≤ℤ high (root_in self.now.program.now) cell }
        ensures { IfSome result (λ closed. closed ≡ closes self.now (with_interval self.now.store.now.box cell part.lo part.hi)) }
    {
        if counted.cell != cell {
            return None;
        }
        let best = self.best_value()?;
        counted.closes_with(self.program, self.store, best, part)
    }

    /// What is found of the box for this reason alone, where it does not close the box and these cells are all that it mentions, and maybe others: a right
    /// step for it, or that it closes the box with no cell at an end either.
    #[tactic(auto, using(crate::proofs::Finding::found_cut))]
    pub fn finding_within(&self, cells: &[u32]) -> Finding
        requires asked { IsAsked self.now }
        requires whole { IsWhole self.now }
        requires all { HasAll cells.now (reason_mentions (root_in self.now.program.now) (problem_in self.now.program.now) self.now.reason) }
        ensures finds { Finds (box_problem_of self.now.program.now) (self.now.reason ∷ []) self.now.best self.now.store.now.box result }
    {
        match self.first_step(cells) {
            Some(step) => Finding::Cut(step),
            None => Finding::Quiet,
        }
    }

    /// What is found of the box for the reason: that it closes the box, a right step at one of the ends of these cells, or nothing.
    #[tactic(auto, using(crate::proofs::Finding::found_dead))]
    pub fn finding(&self, cells: &[u32]) -> Finding
        requires asked { IsAsked self.now }
        requires all { HasAll cells.now (reason_mentions (root_in self.now.program.now) (problem_in self.now.program.now) self.now.reason) }
        ensures finds { Finds (box_problem_of self.now.program.now) (self.now.reason ∷ []) self.now.best self.now.store.now.box result }
    {
        if self.is_closed() {
            return Finding::Dead(self.reason);
        }
        self.finding_within(cells)
    }
}
