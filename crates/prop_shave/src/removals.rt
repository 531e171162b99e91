//! How many values at an end may be removed.

ghost use Rattle.std.specs.Prelude.{◌≡◌, ◌<◌, pos, ◌<ℤ◌, ◌∷◌, [], false, length, true, IfNone, IfSome};
ghost use Rattle.sopl_base.specs.declared.reason.Side.TheVariants.{Ge};
ghost use Rattle.box_problem.specs.Box.{high, low};
ghost use Rattle.box_problem.specs.Rightness.{IsRight, Quiets};
ghost use Rattle.prop_shave.specs.Opened.{IsFixed, IsOpen, IsWhole};
ghost use Rattle.prop_shave.specs.Probes.{HasAll, IsAsked, IsEndOf, IsRemoval, closes_part};
ghost use Rattle.term_problem.specs.Reasons.{reason_mentions};
ghost use Rattle.term_program.specs.Programs.{problem_in, root_in};
ghost use Rattle.term_program.specs.Stated.{box_problem_of};

use crate::probes::Probe;
use crate::shave_steps::{CellEnd, Shave};
use sopl_base::{Side, Step};

impl Probe<'_> {
    /// `by` values more, where these may be removed too.
    #[tactic(auto, using(crate::proofs::Opening::removal_grown))]
    fn wider(&self, end: &CellEnd, known: &Shave) -> Option<Shave>
        requires asked { IsAsked self.now }
        requires end { IsEndOf self.now end.now }
        requires known { IsRemoval self.now end.now known.now }
        ensures removal { IfSome result (IsRemoval self.now end.now) }
        ensures more { IfSome result (λ next. known.now.count <ℤ next.count) }
    {
        let next = known.grown()?;
        if !end.has_more(&next) {
            return None;
        }
        if self.closes(end, &next) {
            Some(next)
        } else {
            None
        }
    }

    /// Removals whose number of values grows by steps that double, as far as they go.
    #[tactic(auto, using(box_problem::proofs::Counts::gap_below))]
    fn doubled(&self, end: &CellEnd, first: &Shave) -> Shave
        requires asked { IsAsked self.now }
        requires end { IsEndOf self.now end.now }
        requires first { IsRemoval self.now end.now first.now }
        ensures removal { IsRemoval self.now end.now result }
    {
        let mut known = *first;
        'wider: while let Some(next) = self.wider(end, &known) {
            known = next;
        }
        known
    }

    /// Half as many values more, where these may be removed too.
    #[tactic(auto, using(crate::proofs::Opening::removal_with))]
    fn nearer(&self, end: &CellEnd, known: &Shave) -> Shave
        requires asked { IsAsked self.now }
        requires end { IsEndOf self.now end.now }
        requires known { IsRemoval self.now end.now known.now }
        requires two { pos 1 <ℤ known.now.by }
        ensures removal { IsRemoval self.now end.now result }
        ensures less { result.by <ℤ known.now.by }
    {
        let half = known.with_half();
        match self.wider(end, &half) {
            Some(next) => half.with_count(&next),
            None => half,
        }
    }

    /// Removals whose number of values grows by steps that are halved.
    #[tactic(auto, using(box_problem::proofs::Counts::gap_above))]
    fn halved(&self, end: &CellEnd, first: &Shave) -> Shave
        requires asked { IsAsked self.now }
        requires end { IsEndOf self.now end.now }
        requires first { IsRemoval self.now end.now first.now }
        ensures removal { IsRemoval self.now end.now result }
    {
        let mut known = *first;
        'nearer: while known.by > 1 {
            known = self.nearer(end, &known);
        }
        known
    }

    /// A right step at an end, or none where the outermost value may stay.
    #[tactic(auto, using(crate::proofs::Opening::removal_right, crate::proofs::Opening::removal_own))]
    fn step_from(&self, end: &CellEnd) -> Option<Step>
        requires asked { IsAsked self.now }
        requires end { IsEndOf self.now end.now }
        ensures right { IfSome result (IsRight (box_problem_of self.now.program.now) self.now.best self.now.store.now.box) }
        ensures own_reason { IfSome result (λ step. step.reason ≡ self.now.reason) }
        ensures open { IfNone result (closes_part self.now end.now (pos 1) ≡ false) }
    {
        let first = Shave { count: 1, by: 1 };
        if !self.closes(end, &first) {
            return None;
        }
        let doubled = self.doubled(end, &first);
        let known = self.halved(end, &doubled);
        Some(end.step(self.reason, &known))
    }

    /// The lower end of a cell.
    fn lower(&self, cell: u32) -> CellEnd
        requires exists { cell < length self.now.store.now.box.lows }
        ensures cell { result.cell ≡ cell }
        ensures side { result.side ≡ Ge }
        ensures low { result.lo ≡ low self.now.store.now.box cell }
        ensures high { result.hi ≡ high self.now.store.now.box cell }
    {
        CellEnd {
            cell,
            side: Side::Ge,
            lo: self.store.lo(cell),
            hi: self.store.hi(cell),
        }
    }

    /// The lower end of a cell that has more than one value, or none.
    #[tactic(auto, using(crate::proofs::Opening::lower_is, crate::proofs::Opening::lower_fixed))]
    pub fn lower_end(&self, cell: u32) -> Option<CellEnd>
        requires asked { IsAsked self.now }
        ensures end { IfSome result (IsEndOf self.now) }
        ensures cell { IfSome result (λ end. end.cell ≡ cell) }
        ensures side { IfSome result (λ end. end.side ≡ Ge) }
        ensures none { IfNone result (IsFixed self.now cell) }
    {
        if cell >= self.store.cells() {
            return None;
        }
        let end = self.lower(cell);
        if end.lo < end.hi { Some(end) } else { None }
    }

    /// Whether a cell has one value alone, or does not exist.
    pub fn is_fixed(&self, cell: u32) -> bool
        requires asked { IsAsked self.now }
        ensures { result ≡ true → IsFixed self.now cell }
    {
        if cell >= self.store.cells() {
            return true;
        }
        self.store.lo(cell) >= self.store.hi(cell)
    }

    /// A right step at one of the ends of a cell, or none where the reason does not close the box with the cell at either end.
    #[tactic(auto, using(crate::proofs::Opening::fixed_open, crate::proofs::Opening::both_open, crate::proofs::Opening::upper_end))]
    pub fn step_at(&self, cell: u32) -> Option<Step>
        requires asked { IsAsked self.now }
        requires whole { IsWhole self.now }
        ensures right { IfSome result (IsRight (box_problem_of self.now.program.now) self.now.best self.now.store.now.box) }
        ensures own_reason { IfSome result (λ step. step.reason ≡ self.now.reason) }
        ensures none { IfNone result (IsOpen self.now cell) }
    {
        let Some(lower) = self.lower_end(cell) else {
            return None;
        };
        if self.stays_open(cell) {
            return None;
        }
        if let Some(step) = self.step_from(&lower) {
            return Some(step);
        }
        self.step_from(&lower.upper())
    }

    /// A right step at one of the ends of these cells, which are all that the reason mentions, and maybe others; or none where the reason does
    /// not close the box with any cell at an end.
    #[tactic(auto, using(crate::proofs::Opening::open_more))]
    pub fn first_step(&self, cells: &[u32]) -> Option<Step>
        requires asked { IsAsked self.now }
        requires whole { IsWhole self.now }
        requires all { HasAll cells.now (reason_mentions (root_in self.now.program.now) (problem_in self.now.program.now) self.now.reason) }
        ensures right { IfSome result (IsRight (box_problem_of self.now.program.now) self.now.best self.now.store.now.box) }
        ensures own_reason { IfSome result (λ step. step.reason ≡ self.now.reason) }
        ensures none { IfNone result (Quiets (box_problem_of self.now.program.now) (self.now.reason ∷ []) self.now.best self.now.store.now.box) }
    {
        'cells: for cell in cells {
            if let Some(step) = self.step_at(*cell) {
                return Some(step);
            }
        }
        None
    }
}
