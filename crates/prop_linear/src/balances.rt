//! A linear comparison, summed up over a box.

ghost use Rattle.std.specs.Prelude.{◌≡◌, ◌<◌, ◌-ℤ◌, pos, false, length, All, Contains, IfNone, IfSome};
ghost use Rattle.box_problem.specs.Box.{high, low};
ghost use Rattle.term_language.specs.Ends as rule;
ghost use Rattle.prop_shave.specs.Removals.{IsOpenAt, Removes};
ghost use Rattle.sopl_base.specs.declared.reason.Side.TheVariants.{Ge};
ghost use Rattle.term_math.specs.Shown.{IsFit, ends_of};
ghost use Rattle.prop_linear.specs.Balances.{IsLight, IsOthers, IsPartAt, IsPlaceOf, IsSummed, IsTurnIn, box_of, closes, least_width};
ghost use Rattle.prop_linear.specs.Balances.{meets, sum_over};
ghost use Rattle.prop_linear.specs.KeptSums.{AreWidths};
ghost use Rattle.prop_linear.specs.Turns.{turn_closes};

use crate::maxima::Maxima;
use crate::turns::Turn;
use prop_shave::CellEnd;
use sopl_base::{CmpOp, Reason, Side, Step};
use term_math::{BoxView, Coefficient, Ends, all_compare, none_compares};

/// A linear comparison over a box: a constant and multiples of several cells are compared with 0.
#[derive(Clone, Copy)]
pub(crate) struct Difference<'a> {
    pub(crate) op: CmpOp,
    pub(crate) constant: i64,
    pub(crate) parts: &'a [Coefficient],
    pub(crate) view: BoxView<'a>,
}

/// A linear comparison over a box, with the interval of the whole sum.
#[derive(Clone, Copy)]
pub(crate) struct Balance<'a> {
    pub(crate) difference: Difference<'a>,
    pub(crate) whole: Ends,
}

/// The lower end without another one, and the upper end without another one.
fn without(whole: &Ends, part: &Ends) -> Ends
    requires fits { IsFit (rule.ends (whole.now.low -ℤ part.now.low) (whole.now.high -ℤ part.now.high)) }
    ensures low { result.low ≡ whole.now.low -ℤ part.now.low }
    ensures high { result.high ≡ whole.now.high -ℤ part.now.high }
{
    Ends {
        low: whole.low - part.low,
        high: whole.high - part.high,
    }
}

impl<'a> Difference<'a> {
    /// The constant alone.
    fn constant_ends(&self) -> Ends
        ensures { ends_of result ≡ rule.exactly self.now.constant }
    {
        Ends {
            low: self.constant,
            high: self.constant,
        }
    }

    /// The interval of the sum over the box.
    #[tactic(auto, using(crate::proofs::Summing::cells_have_room))]
    pub(crate) fn whole(&self) -> Ends
        requires light { IsLight self.now }
        ensures { ends_of result ≡ sum_over self.now (box_of self.now) }
    {
        let cells = self.view.cells(self.parts);
        self.constant_ends().plus(&cells)
    }

    /// The lower end of the cell of a part.
    fn end(&self, part: &Coefficient) -> CellEnd
        ensures cell { result.cell ≡ part.now.cell }
        ensures side { result.side ≡ Ge }
        ensures low { result.lo ≡ low (box_of self.now) part.now.cell }
        ensures high { result.hi ≡ high (box_of self.now) part.now.cell }
    {
        let interval = self.view.cell(part.cell);
        CellEnd {
            cell: part.cell,
            side: Side::Ge,
            lo: interval.low,
            hi: interval.high,
        }
    }

    /// The interval of a part of the sum.
    fn part(&self, part: &Coefficient) -> Ends
        requires light { IsLight self.now }
        requires own_part { Contains self.now.parts.now part.now }
        ensures { ends_of result ≡ rule.scaled part.now.k (rule.cell_ends (box_of self.now) part.now.cell) }
    {
        let interval = self.view.cell(part.cell);
        interval.scaled(&part.factor())
    }

    /// The interval of the part at a place.
    pub(crate) fn part_at(&self, place: usize) -> Ends
        requires light { IsLight self.now }
        requires exists { place < length self.now.parts.now }
        ensures { IsPartAt self.now place (ends_of result) }
    {
        self.part(&self.parts[place])
    }

    /// The place of the part of a cell, if it has one.
    pub(crate) fn place(&self, cell: u32) -> Option<usize>
        ensures { IfSome result (λ place. IsPlaceOf self.now place cell) }
    {
        match self.parts.binary_search_by_key(&cell, |part| part.cell) {
            Ok(place) => Some(place),
            Err(_) => None,
        }
    }
}

impl Balance<'_> {
    /// Whether the comparison is false all over the box.
    pub(crate) fn is_closed(&self) -> bool
        requires summed { IsSummed self.now }
        ensures { result ≡ closes self.now.difference (box_of self.now.difference) }
    {
        none_compares(self.difference.op, &self.whole)
    }

    /// Whether the comparison is true all over the box.
    pub(crate) fn is_met(&self) -> bool
        requires summed { IsSummed self.now }
        ensures { result ≡ meets self.now.difference (box_of self.now.difference) }
    {
        all_compare(self.difference.op, &self.whole)
    }

    /// The interval of the whole sum without a part.
    fn others(&self, part: &Coefficient) -> Ends
        requires summed { IsSummed self.now }
        requires own_part { Contains self.now.difference.parts.now part.now }
        ensures { IsOthers self.now part.now result }
    {
        let own = self.difference.part(part);
        without(&self.whole, &own)
    }

    /// The cell of a part at its lower end.
    fn turn(&self, part: &Coefficient, end: &CellEnd) -> Turn
        requires summed { IsSummed self.now }
        requires own_part { Contains self.now.difference.parts.now part.now }
        ensures op { result.op ≡ self.now.difference.op }
        ensures k { result.k ≡ part.now.k }
        ensures end { result.end ≡ end.now }
        ensures others { IsOthers self.now part.now result.others }
    {
        Turn {
            op: self.difference.op,
            k: part.k,
            others: self.others(part),
            end: *end,
        }
    }

    /// The cell of a part at its lower end, where it has more than one value.
    #[tactic(auto, using(crate::proofs::Summing::turn_cell, crate::proofs::Summing::turn_side, crate::proofs::Summing::fixed))]
    fn lower(&self, part: &Coefficient) -> Option<Turn>
        requires summed { IsSummed self.now }
        requires own_part { Contains self.now.difference.parts.now part.now }
        ensures turn { IfSome result (IsTurnIn self.now.difference) }
        ensures cell { IfSome result (λ turn. turn.end.cell ≡ part.now.cell) }
        ensures side { IfSome result (λ turn. turn.end.side ≡ Ge) }
        ensures none { IfNone result (low (box_of self.now.difference) part.now.cell ≡ high (box_of self.now.difference) part.now.cell) }
    {
        let end = self.difference.end(part);
        if end.lo < end.hi {
            Some(self.turn(part, &end))
        } else {
            None
        }
    }

    /// A step at an end, or none where the outermost value may stay.
    #[tactic(auto, using(crate::proofs::Summing::step_own))]
    fn step_from(&self, reason: Reason, turn: &Turn) -> Option<Step>
        requires turn { IsTurnIn self.now.difference turn.now }
        ensures removes { IfSome result (Removes (closes self.now.difference) (box_of self.now.difference)) }
        ensures own_reason { IfSome result (λ step. step.reason ≡ reason) }
        ensures none { IfNone result (turn_closes turn.now (pos 1) ≡ false) }
    {
        match turn.removal() {
            Some(removal) => Some(turn.end.step(reason, &removal)),
            None => None,
        }
    }

    /// A step at one of the ends of the cell of a part, or none where both outermost values may stay.
    #[tactic(auto, using(crate::proofs::Summing::upper_in, crate::proofs::Summing::both_open))]
    fn step_at(&self, reason: Reason, part: &Coefficient) -> Option<Step>
        requires summed { IsSummed self.now }
        requires whole { closes self.now.difference (box_of self.now.difference) ≡ false }
        requires own_part { Contains self.now.difference.parts.now part.now }
        ensures removes { IfSome result (Removes (closes self.now.difference) (box_of self.now.difference)) }
        ensures own_reason { IfSome result (λ step. step.reason ≡ reason) }
        ensures none { IfNone result (IsOpenAt (closes self.now.difference) (box_of self.now.difference) part.now.cell) }
    {
        let Some(lower) = self.lower(part) else {
            return None;
        };
        if let Some(step) = self.step_from(reason, &lower) {
            return Some(step);
        }
        self.step_from(reason, &lower.upper())
    }

    /// A step at one of the ends of a cell, or none where all outermost values may stay.
    fn first_step(&self, reason: Reason) -> Option<Step>
        requires summed { IsSummed self.now }
        requires whole { closes self.now.difference (box_of self.now.difference) ≡ false }
        ensures removes { IfSome result (Removes (closes self.now.difference) (box_of self.now.difference)) }
        ensures own_reason { IfSome result (λ step. step.reason ≡ reason) }
        ensures none { IfNone result (All (λ part. IsOpenAt (closes self.now.difference) (box_of self.now.difference) part.cell)
            self.now.difference.parts.now) }
    {
        'parts: for part in self.difference.parts {
            if let Some(step) = self.step_at(reason, part) {
                return Some(step);
            }
        }
        None
    }

    /// How wide a part has to be for the comparison to be false with some value of the part.
    fn least_width(&self) -> u64
        ensures { result ≡ least_width self.now.difference.op (ends_of self.now.whole) }
    {
        let low = self.whole.low.unsigned_abs();
        let high = self.whole.high.unsigned_abs();
        match self.difference.op {
            CmpOp::Eq => low.min(high) + 1,
            CmpOp::Ne => self.whole.high.abs_diff(self.whole.low),
            CmpOp::Lt => low,
            CmpOp::Le => low + 1,
            CmpOp::Gt => high,
            CmpOp::Ge => high + 1,
        }
    }

    /// A step at one of the ends of the cell of the part at a place, if there is such a part and one of its outermost values may go.
    #[tactic(auto, using(crate::proofs::Narrow::part_there))]
    fn step_at_place(&self, reason: Reason, place: usize) -> Option<Step>
        requires summed { IsSummed self.now }
        requires whole { closes self.now.difference (box_of self.now.difference) ≡ false }
        ensures removes { IfSome result (Removes (closes self.now.difference) (box_of self.now.difference)) }
        ensures own_reason { IfSome result (λ step. step.reason ≡ reason) }
    {
        let Some(part) = self.difference.parts.get(place) else {
            return None;
        };
        self.step_at(reason, part)
    }

    /// A step at one of the ends of a cell, or none where all outermost values may stay: that of the first part which is wide enough is
    /// tried first, and none where no part is.
    pub(crate) fn step_by(&self, reason: Reason, widths: &Maxima) -> Option<Step>
        requires summed { IsSummed self.now }
        requires whole { closes self.now.difference (box_of self.now.difference) ≡ false }
        requires widths { AreWidths self.now.difference widths.now }
        ensures removes { IfSome result (Removes (closes self.now.difference) (box_of self.now.difference)) }
        ensures own_reason { IfSome result (λ step. step.reason ≡ reason) }
        ensures none { IfNone result (All (λ part. IsOpenAt (closes self.now.difference) (box_of self.now.difference) part.cell)
            self.now.difference.parts.now) }
    {
        let least = self.least_width();
        if widths.greatest() < least {
            return None;
        }
        if let Some(step) = self.step_at_place(reason, widths.first_from(least)) {
            return Some(step);
        }
        self.first_step(reason)
    }
}
