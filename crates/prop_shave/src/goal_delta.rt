//! The better end of an objective over a box, and over a part in which one cell has another interval.

ghost use Rattle.std.specs.Prelude.{◌≡◌, ◌<◌, ◌≤ℤ◌, ◌+ℤ◌, false, get_or, length, true, IfSome, Some};
ghost use Rattle.sopl_base.specs.declared.reason.Reason.TheVariants.{Bound};
ghost use Rattle.box_problem.specs.Box.{Inside, high, low};
ghost use Rattle.term_problem.specs.Objective as objective;
ghost use Rattle.term_problem.specs.Problems.{direction_in};
ghost use Rattle.term_problem.specs.Refuted.{refutes};
ghost use Rattle.term_program.specs.declared.program.Program.{Program as Stated};
ghost use Rattle.term_program.specs.Programs.{IsMade, no_better, problem_in, root_in, things_in, with_interval};
ghost use Rattle.prop_shave.specs.GoalSums.{part_over, parts_over};
ghost use Rattle.prop_shave.specs.GoalKnown.{IsCounted};
ghost use Rattle.prop_shave.specs.Turns.{AreEndTurns};
ghost use Rattle.prop_shave.specs.declared.part_ends.PartEnds.{PartEnds};

use crate::end_turns::EndTurns;
use crate::goal_bounds::end_of_part;
use crate::part_ends::PartEnds;
use crate::shave_steps::CellEnd;
use crate::turning::turned;
use box_store::BoxStore;
use sopl_base::{Interval, Wide};
use term_goals::Atom;
use term_program::{Program, TermId, is_no_better, range_in};

/// The better end of a part over the box of a store with another interval for one cell, or none where it has no room.
fn part_with(
    program: &Program,
    atom: &Atom,
    store: &BoxStore,
    cell: u32,
    part: Interval,
) -> Option<Wide>
    requires made { IsMade program.now }
    requires inside { Inside store.now.box (root_in program.now) }
    requires exists { atom.now.term < length (things_in program.now) }
    requires from_low { low (root_in program.now) cell ≤ℤ part.lo }
    requires to_high { part.hi ≤ℤ high (root_in program.now) cell }
    ensures { IfSome result (λ end. end.value ≡ part_over (direction_in (problem_in program.now)) (root_in program.now) (things_in program.now)
        (with_interval store.now.box cell part.lo part.hi) atom.now) }
{
    let range = range_in(program, TermId(atom.term), store, cell, part);
    end_of_part(program.direction(), atom, &range.interval)
}

/// The better end of an expected objective over a box, the parts of its sum with their ends there, a cell, the numbers of the parts that mention the cell,
/// and, where it is at hand, by how much the better end turns with the cell at its ends.
#[derive(Clone, Copy)]
pub struct GoalDelta<'a> {
    pub cell: u32,
    pub end: Wide,
    pub atoms: &'a [Atom],
    pub ends: &'a [PartEnds],
    pub numbers: &'a [usize],
    pub turns: Option<EndTurns>,
}

impl GoalDelta<'_> {
    /// The better end of the part with a number over the box.
    fn before(&self, number: usize) -> Wide
        requires exists { number < length self.now.ends.now }
        ensures { (e : PartEnds) → result ≡ (get_or self.now.ends.now number e).better }
    {
        self.ends[number].better
    }

    /// The better end with another interval for the cell, or none where it has no room.
    fn end_with(&self, program: &Program, store: &BoxStore, part: Interval) -> Option<Wide>
        requires made { IsMade program.now }
        requires inside { Inside store.now.box (root_in program.now) }
        requires known { IsCounted program.now store.now.box self.now }
        requires from_low { low (root_in program.now) self.now.cell ≤ℤ part.lo }
        requires to_high { part.hi ≤ℤ high (root_in program.now) self.now.cell }
        ensures { IfSome result (λ end. end.value ≡ objective.better_end (direction_in (problem_in program.now))
            (objective.goal_ends (root_in program.now) (with_interval store.now.box self.now.cell part.lo part.hi) (problem_in program.now))) }
    {
        let mut end = self.end;
        'parts: for number in self.numbers {
            let before = self.before(*number);
            let after = part_with(program, &self.atoms[*number], store, self.cell, part)?;
            end = turned(end, before, after)?;
        }
        Some(end)
    }

    /// The better end with the cell at one of its ends alone, by how much it turns there; none where this is not at hand, for any other interval, and where it
    /// has no room.
    fn turned_end(&self, store: &BoxStore, part: Interval) -> Option<Wide>
        ensures { (program : Stated) → IsMade program → Inside store.now.box (root_in program) → IsCounted program store.now.box self.now → IfSome result (λ end. end.value
            ≡ objective.better_end (direction_in (problem_in program)) (objective.goal_ends (root_in program) (with_interval store.now.box self.now.cell part.lo part.hi) (problem_in program))) }
    {
        let turns = self.turns?;
        if part.lo != part.hi || self.cell >= store.cells() {
            return None;
        }
        if part.lo == store.lo(self.cell) {
            return self.end.checked_plus(turns.low);
        }
        if part.hi == store.hi(self.cell) {
            return self.end.checked_plus(turns.high);
        }
        None
    }

    /// The better end with another interval for the cell, by how much it turns where this tells it; none where it has no room.
    fn end_by(&self, program: &Program, store: &BoxStore, part: Interval) -> Option<Wide>
        requires made { IsMade program.now }
        requires inside { Inside store.now.box (root_in program.now) }
        requires known { IsCounted program.now store.now.box self.now }
        requires from_low { low (root_in program.now) self.now.cell ≤ℤ part.lo }
        requires to_high { part.hi ≤ℤ high (root_in program.now) self.now.cell }
        ensures { IfSome result (λ end. end.value ≡ objective.better_end (direction_in (problem_in program.now))
            (objective.goal_ends (root_in program.now) (with_interval store.now.box self.now.cell part.lo part.hi) (problem_in program.now))) }
    {
        match self.turned_end(store, part) {
            Some(end) => Some(end),
            None => self.end_with(program, store, part),
        }
    }

    /// Whether the bound closes the box with another interval for the cell, against this value; none where the end has no room.
    pub fn closes_with(
        &self,
        program: &Program,
        store: &BoxStore,
        best: Wide,
        part: Interval,
    ) -> Option<bool>
        requires made { IsMade program.now }
        requires inside { Inside store.now.box (root_in program.now) }
        requires known { IsCounted program.now store.now.box self.now }
        requires from_low { low (root_in program.now) self.now.cell ≤ℤ part.lo }
        requires to_high { part.hi ≤ℤ high (root_in program.now) self.now.cell }
        ensures closed { IfSome result (λ closed. closed ≡ refutes (root_in program.now) (problem_in program.now) Bound (with_interval store.now.box self.now.cell part.lo part.hi)
            (Some best.value)) }
    {
        let end = self.end_by(program, store, part)?;
        Some(is_no_better(program.direction(), end, best))
    }

    /// By how much the better end turns with another interval for the cell, or none where it has no room.
    fn turn_with(&self, program: &Program, store: &BoxStore, part: Interval) -> Option<Wide>
        requires made { IsMade program.now }
        requires inside { Inside store.now.box (root_in program.now) }
        requires known { IsCounted program.now store.now.box self.now }
        requires from_low { low (root_in program.now) self.now.cell ≤ℤ part.lo }
        requires to_high { part.hi ≤ℤ high (root_in program.now) self.now.cell }
        ensures { IfSome result (λ turn. (parts_over program.now self.now.atoms.now store.now.box +ℤ turn.value)
            ≡ parts_over program.now self.now.atoms.now (with_interval store.now.box self.now.cell part.lo part.hi)) }
    {
        let end = self.end_with(program, store, part)?;
        let turn = end.checked_minus(self.end)?;
        Some(turn)
    }

    /// By how much the better end turns with the cell at the ends of its interval; none where it has no room.
    pub(crate) fn turns_at(
        &self,
        program: &Program,
        store: &BoxStore,
        end: &CellEnd,
    ) -> Option<EndTurns>
        requires made { IsMade program.now }
        requires inside { Inside store.now.box (root_in program.now) }
        requires known { IsCounted program.now store.now.box self.now }
        requires exists { self.now.cell < length store.now.box.lows }
        requires lo { end.now.lo ≡ low store.now.box self.now.cell }
        requires hi { end.now.hi ≡ high store.now.box self.now.cell }
        ensures { IfSome result (AreEndTurns (parts_over program.now self.now.atoms.now) store.now.box self.now.cell) }
    {
        let at_low = self.turn_with(program, store, end.low_alone())?;
        let at_high = self.turn_with(program, store, end.high_alone())?;
        Some(EndTurns {
            low: at_low,
            high: at_high,
        })
    }
}

/// Whether an end that turns by so much is better than a value.
pub(crate) fn is_better_with(program: &Program, end: Wide, turn: Wide, best: Wide) -> bool
    ensures { result ≡ true → no_better (direction_in (problem_in program.now)) (end.value +ℤ turn.value) best.value ≡ false }
{
    match end.checked_plus(turn) {
        Some(sum) => !is_no_better(program.direction(), sum, best),
        None => false,
    }
}
