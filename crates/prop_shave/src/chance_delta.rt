//! The weight that is left to a chance constraint.

ghost use Rattle.std.specs.Prelude.{◌≡◌, ◌<◌, ◌≤ℤ◌, ◌+ℤ◌, false, length, true, None, IfSome};
ghost use Rattle.sopl_base.specs.declared.reason.Reason.TheVariants.{Chance};
ghost use Rattle.box_problem.specs.Box.{Box, Inside, high, low};
ghost use Rattle.term_problem.specs.Problems.{ProblemTerms};
ghost use Rattle.term_problem.specs.Refuted.{refutes};
ghost use Rattle.term_program.specs.Programs.{IsMade, problem_in, root_in, with_interval};
ghost use Rattle.prop_shave.specs.ChanceSums.{left_over, weight_over};
ghost use Rattle.prop_shave.specs.ChanceKnown.{IsWeighed};
ghost use Rattle.prop_shave.specs.Turns.{AreEndTurns};

use crate::end_turns::EndTurns;
use crate::shave_steps::CellEnd;
use crate::turning::turned;
use crate::weights::{is_too_little, weight_unless_false};
use box_store::BoxStore;
use sopl_base::{Interval, Wide};
use term_language::Truth;
use term_program::{Program, kleene_in};

/// The weight of a scenario, unless a chance constraint's condition is False there over the box of a store with another interval for one cell.
#[tactic(auto, using(crate::proofs::Fractions::over_is))]
fn weight_with(
    program: &Program,
    instance: u32,
    scenario: u32,
    store: &BoxStore,
    cell: u32,
    part: Interval,
) -> Wide
    requires made { IsMade program.now }
    requires inside { Inside store.now.box (root_in program.now) }
    requires instance { instance < length (problem_in program.now).chances }
    requires scenario { scenario < length (problem_in program.now).weights }
    requires from_low { low (root_in program.now) cell ≤ℤ part.lo }
    requires to_high { part.hi ≤ℤ high (root_in program.now) cell }
    ensures { result.value ≡ weight_over (root_in program.now) (problem_in program.now) instance (with_interval store.now.box cell part.lo part.hi) scenario }
{
    let cond = program.chance(instance, scenario);
    let truth = kleene_in(program, cond, store, cell, part);
    weight_unless_false(program, scenario, truth)
}

/// The weight that is left to a chance constraint over a box, the truth of its condition there in each scenario, a cell, the scenarios in which the
/// condition mentions the cell, and, where it is at hand, by how much the weight turns with the cell at its ends.
#[derive(Clone, Copy)]
pub struct ChanceDelta<'a> {
    pub instance: u32,
    pub cell: u32,
    pub left: Wide,
    pub truths: &'a [Truth],
    pub scenarios: &'a [u32],
    pub turns: Option<EndTurns>,
}

impl ChanceDelta<'_> {
    /// The weight of a scenario over the box, unless the condition is False there.
    fn weight_before(&self, program: &Program, scenario: u32) -> Wide
        requires exists { scenario < length self.now.truths.now }
        requires scenario { scenario < length (problem_in program.now).weights }
        ensures { (b : Box) → IsWeighed (root_in program.now) (problem_in program.now) b self.now
            → result.value ≡ weight_over (root_in program.now) (problem_in program.now) self.now.instance b scenario }
    {
        let truth = self.truths[scenario as usize];
        weight_unless_false(program, scenario, truth)
    }

    /// The weight that is left with another interval for the cell, or none where it has no room.
    fn left_with(&self, program: &Program, store: &BoxStore, part: Interval) -> Option<Wide>
        requires made { IsMade program.now }
        requires inside { Inside store.now.box (root_in program.now) }
        requires known { IsWeighed (root_in program.now) (problem_in program.now) store.now.box self.now }
        requires from_low { low (root_in program.now) self.now.cell ≤ℤ part.lo }
        requires to_high { part.hi ≤ℤ high (root_in program.now) self.now.cell }
        ensures { IfSome result (λ left. left.value ≡ left_over (root_in program.now) (problem_in program.now) self.now.instance (with_interval store.now.box self.now.cell part.lo part.hi)) }
    {
        let mut left = self.left;
        'scenarios: for scenario in self.scenarios {
            let before = self.weight_before(program, *scenario);
            let after = weight_with(program, self.instance, *scenario, store, self.cell, part);
            left = turned(left, before, after)?;
        }
        Some(left)
    }

    /// The weight that is left with the cell at one of its ends alone, by how much it turns there; none where this is not at hand, for any other interval, and
    /// where it has no room.
    fn turned_left(&self, store: &BoxStore, part: Interval) -> Option<Wide>
        ensures { (root : Box) (terms : ProblemTerms) → IsWeighed root terms store.now.box self.now → IfSome result (λ left. left.value
            ≡ left_over root terms self.now.instance (with_interval store.now.box self.now.cell part.lo part.hi)) }
    {
        let turns = self.turns?;
        if part.lo != part.hi || self.cell >= store.cells() {
            return None;
        }
        if part.lo == store.lo(self.cell) {
            return self.left.checked_plus(turns.low);
        }
        if part.hi == store.hi(self.cell) {
            return self.left.checked_plus(turns.high);
        }
        None
    }

    /// The weight that is left with another interval for the cell, by how much it turns where this tells it; none where it has no room.
    fn left_by(&self, program: &Program, store: &BoxStore, part: Interval) -> Option<Wide>
        requires made { IsMade program.now }
        requires inside { Inside store.now.box (root_in program.now) }
        requires known { IsWeighed (root_in program.now) (problem_in program.now) store.now.box self.now }
        requires from_low { low (root_in program.now) self.now.cell ≤ℤ part.lo }
        requires to_high { part.hi ≤ℤ high (root_in program.now) self.now.cell }
        ensures { IfSome result (λ left. left.value ≡ left_over (root_in program.now) (problem_in program.now) self.now.instance (with_interval store.now.box self.now.cell part.lo part.hi)) }
    {
        match self.turned_left(store, part) {
            Some(left) => Some(left),
            None => self.left_with(program, store, part),
        }
    }

    /// Whether the constraint closes the box with another interval for the cell; none where the weight has no room.
    pub fn closes_with(&self, program: &Program, store: &BoxStore, part: Interval) -> Option<bool>
        requires made { IsMade program.now }
        requires inside { Inside store.now.box (root_in program.now) }
        requires known { IsWeighed (root_in program.now) (problem_in program.now) store.now.box self.now }
        requires from_low { low (root_in program.now) self.now.cell ≤ℤ part.lo }
        requires to_high { part.hi ≤ℤ high (root_in program.now) self.now.cell }
        ensures closed { IfSome result (λ closed. closed ≡ refutes (root_in program.now) (problem_in program.now) (Chance self.now.instance)
            (with_interval store.now.box self.now.cell part.lo part.hi) None) }
    {
        let left = self.left_by(program, store, part)?;
        Some(is_too_little(program, self.instance, left))
    }

    /// By how much the weight turns with another interval for the cell, or none where it has no room.
    fn turn_with(&self, program: &Program, store: &BoxStore, part: Interval) -> Option<Wide>
        requires made { IsMade program.now }
        requires inside { Inside store.now.box (root_in program.now) }
        requires known { IsWeighed (root_in program.now) (problem_in program.now) store.now.box self.now }
        requires from_low { low (root_in program.now) self.now.cell ≤ℤ part.lo }
        requires to_high { part.hi ≤ℤ high (root_in program.now) self.now.cell }
        ensures { IfSome result (λ turn. (self.now.left.value +ℤ turn.value) ≡ left_over (root_in program.now) (problem_in program.now) self.now.instance
            (with_interval store.now.box self.now.cell part.lo part.hi)) }
    {
        let left = self.left_with(program, store, part)?;
        let turn = left.checked_minus(self.left)?;
        Some(turn)
    }

    /// By how much the weight turns with the cell at the ends of its interval; none where it has no room.
    pub(crate) fn turns_at(
        &self,
        program: &Program,
        store: &BoxStore,
        end: &CellEnd,
    ) -> Option<EndTurns>
        requires made { IsMade program.now }
        requires inside { Inside store.now.box (root_in program.now) }
        requires known { IsWeighed (root_in program.now) (problem_in program.now) store.now.box self.now }
        requires exists { self.now.cell < length store.now.box.lows }
        requires lo { end.now.lo ≡ low store.now.box self.now.cell }
        requires hi { end.now.hi ≡ high store.now.box self.now.cell }
        ensures { IfSome result (AreEndTurns (left_over (root_in program.now) (problem_in program.now) self.now.instance) store.now.box self.now.cell) }
    {
        let at_low = self.turn_with(program, store, end.low_alone())?;
        let at_high = self.turn_with(program, store, end.high_alone())?;
        Some(EndTurns {
            low: at_low,
            high: at_high,
        })
    }
}
