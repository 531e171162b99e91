//! The cells of decisions: one for each history of the decision's stage.

ghost use Rattle.std.specs.Prelude.{◌≡◌, ◌≤◌, ◌<◌, ◌+◌, ◌-◌, ◌*◌, ◌^◌, ◌≤ℤ◌, ◌<ℤ◌, pos, length, get_or, ℕ, [], ◌∷◌, ◌++◌, Some, None, IfOk, IfErr, OnOk};
ghost use Rattle.std.specs.Int.{int_gap};
ghost use Rattle.std.specs.List.{AllByRecursion, sum_by};
ghost use Rattle.sopl_base.specs.declared.codes.TheConstants as codes;
ghost use Rattle.sopl_ast.specs.Limits.{first_above, usual_limits};
ghost use Rattle.sopl_ast.specs.Numbers.{binary_digits};
ghost use Rattle.unfold_laws.specs.Bounds.{IsBoundedDecision, IsStage};
ghost use Rattle.sopl_scen.specs.Stages.{bit_count, cell_count, count_at, places_from};

use crate::products::within;
use crate::stages::Stage;
use sopl_base::{Excess, Wide, bits, codes, limits};
use std::alloc::{AllocError, Global};
use unfold_variables::DecisionItem;

/// A decision: the number of its first cell, and its stage.
#[derive(Clone, Copy)]
pub(crate) struct Place {
    pub first: u32,
    pub stage: u32,
}

/// The places of decisions, and how many cells they have together.
#[derive(Drop)]
pub(crate) struct Cells {
    pub places: Vec<Place>,
    pub total: u32,
}

impl Cells {
    /// The cells of decisions.
    pub(crate) fn of(
        alloc: Global,
        decisions: &[DecisionItem],
        stages: &[Stage],
        most: u32,
    ) -> Result<Self, AllocError>
        requires staged { length stages.now ≡ 24 }
        requires bounded { AllByRecursion IsBoundedDecision decisions.now }
        requires fewer { (stage : ℕ) → IsStage stage → count_at stages.now stage ≤ most }
        requires few { length decisions.now * most ≤ usual_limits.copies }
        ensures places { IfOk result (λ cells. cells.places.items ≡ places_from 0 stages.now decisions.now) }
        ensures total { IfOk result (λ cells. cells.total ≡ sum_by (cell_count stages.now) decisions.now) }
    {
        let mut cells = Cells {
            places: Vec::new(alloc),
            total: 0,
        };
        'decisions: for decision in decisions {
            cells.add(decision, stages)?;
        }
        Ok(cells)
    }

    /// Adds the cells of one more decision.
    fn add(&mut self, decision: &DecisionItem, stages: &[Stage]) -> Result<(), AllocError>
        requires staged { length stages.now ≡ 24 }
        requires from { 1 ≤ decision.now.stage }
        requires to { decision.now.stage ≤ 24 }
        requires few { self.old.total + cell_count stages.now decision.now < 2 ^ 32 }
        ensures places { OnOk result (self.new.places.items ≡ self.old.places.items ++ (record { first = self.old.total; stage = decision.now.stage }) ∷ []) }
        ensures total { OnOk result (self.new.total ≡ self.old.total + cell_count stages.now decision.now) }
    {
        self.places.push(Place {
            first: self.total,
            stage: decision.stage,
        })?;
        self.total += stages[decision.stage as usize - 1].histories;
        Ok(())
    }
}

/// The bits of all decisions, or the limit that they pass.
pub(crate) fn bits_of_all(decisions: &[DecisionItem], stages: &[Stage]) -> Result<Wide, Excess>
    requires staged { length stages.now ≡ 24 }
    requires bounded { AllByRecursion IsBoundedDecision decisions.now }
    requires fewer { (stage : ℕ) → IsStage stage → count_at stages.now stage < 2 ^ 32 }
    requires few { length decisions.now < 2 ^ 32 }
    ensures ok { IfOk result (λ n. first_above codes.BITS usual_limits.bits (pos (sum_by (bit_count stages.now) decisions.now) ∷ []) ≡ None) }
    ensures err { IfErr result (λ e. first_above codes.BITS usual_limits.bits (pos (sum_by (bit_count stages.now) decisions.now) ∷ []) ≡ Some e) }
{
    let mut total = Wide::of(0);
    'decisions: for decision in decisions {
        total = total.plus(bits_of(decision, stages));
    }
    within(total, codes::BITS, limits::BITS)
}

/// The bits of a decision: those of its domain, in each of its cells.
fn bits_of(decision: &DecisionItem, stages: &[Stage]) -> Wide
    requires staged { length stages.now ≡ 24 }
    requires bounded { IsBoundedDecision decision.now }
    requires fewer { (stage : ℕ) → IsStage stage → count_at stages.now stage < 2 ^ 32 }
    ensures value { result.value ≡ pos (bit_count stages.now decision.now) }
    ensures few { bit_count stages.now decision.now ≤ 2 ^ 40 }
{
    let histories = stages[decision.stage as usize - 1].histories;
    product(bits(decision.lo, decision.hi), histories)
}

/// The product of two numbers.
fn product(a: u32, b: u32) -> Wide
    ensures { result.value ≡ pos (a * b) }
{
    let product = u64::from(a) * u64::from(b);
    Wide {
        value: product as i128,
    }
}
