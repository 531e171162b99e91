//! A hard constraint that is a linear comparison.

ghost use Rattle.std.specs.Prelude.{◌≡◌, ◌<◌, ◌∷◌, [], ℤ, Option, length, IfOk};
ghost use Rattle.sopl_base.specs.declared.reason.Reason.TheVariants.{Hard};
ghost use Rattle.box_problem.specs.Box.{Inside};
ghost use Rattle.term_language.specs.Mentions.{cond_mentions};
ghost use Rattle.term_program.specs.Mentions.{IsListOf};
ghost use Rattle.term_program.specs.Stated.{box_problem_of};
ghost use Rattle.term_program.specs.Programs.{IsMade, problem_in, root_in};
ghost use Rattle.term_program.specs.declared.program.Program.{Program as Stated};
ghost use Rattle.term_math.specs.Shown.{box_in};
ghost use Rattle.prop_core.specs.Findings.{Finds};
ghost use Rattle.prop_linear.specs.Balances.{IsLight, IsSummed, box_of};
ghost use Rattle.prop_linear.specs.KeptSums.{AreWidths};
ghost use Rattle.prop_linear.specs.Kinds.{AreWatched, IsLinear, IsLinearOf, TellsOf, condition_of, reason_of};

use crate::balances::{Balance, Difference};
use crate::maxima::Maxima;
use box_store::BoxStore;
use prop_core::Finding;
use sopl_base::{CmpOp, Reason};
use std::alloc::{AllocError, Global};
use term_math::{BoxView, Coefficient};
use term_program::{CondId, Program};

/// A hard constraint in one scenario, where it is a linear comparison: a constant and multiples of cells are compared with 0. The cells that
/// it mentions ascend.
#[derive(Drop)]
pub struct LinearConstraint {
    pub instance: u32,
    pub scenario: u32,
    pub cond: CondId,
    pub op: CmpOp,
    pub constant: i64,
    pub parts: Vec<Coefficient>,
    pub cells: Vec<u32>,
}

/// The box of a store.
fn view_of(store: &BoxStore) -> BoxView<'_>
    ensures { box_in result ≡ store.now.box }
{
    BoxView {
        lows: store.lows(),
        highs: store.highs(),
        part: None,
    }
}

impl LinearConstraint {
    /// A hard constraint in a scenario in which it is a linear comparison.
    #[tactic(auto, using(crate::proofs::Finding::is_linear))]
    pub(crate) fn new(
        alloc: Global,
        program: &Program,
        instance: u32,
        scenario: u32,
    ) -> Result<LinearConstraint, AllocError>
        requires made { IsMade program.now }
        requires instance { instance < length (problem_in program.now).hards }
        requires scenario { scenario < length (problem_in program.now).weights }
        requires linear { IsLinear program.now instance scenario }
        ensures reason { IfOk result (λ made. reason_of made ≡ Hard instance scenario) }
        ensures fits { IfOk result (λ made. IsLinearOf made program.now) }
        ensures watched { IfOk result AreWatched }
        ensures listed { IfOk result (λ made. IsListOf (cond_mentions (root_in program.now) (condition_of made program.now)) made.cells.items) }
    {
        let cond = program.hard(instance, scenario);
        let parts = Vec::from_slice(alloc, program.parts(cond))?;
        let cells = Vec::from_slice(alloc, program.cells_of(cond))?;
        Ok(LinearConstraint {
            instance,
            scenario,
            cond,
            op: program.compared(cond),
            constant: program.constant(cond),
            parts,
            cells,
        })
    }

    /// The one reason for which it closes boxes.
    fn reason(&self) -> Reason
        ensures { result ≡ reason_of self.now }
    {
        Reason::Hard {
            instance: self.instance,
            scenario: self.scenario,
        }
    }

    /// The comparison over the box of a store.
    pub(crate) fn difference<'a>(
        &'a self,
        _program: &Program,
        store: &'a BoxStore,
    ) -> Difference<'a>
        requires fits { IsLinearOf self.now _program.now }
        requires inside { Inside store.now.box (root_in _program.now) }
        ensures light { IsLight result }
        ensures seen { box_of result ≡ store.now.box }
        ensures constant { result.constant ≡ self.now.constant }
        ensures parts { result.parts.now ≡ self.now.parts.items }
        ensures tells { TellsOf _program.now (reason_of self.now) result }
    {
        Difference {
            op: self.op,
            constant: self.constant,
            parts: self.parts.as_slice(),
            view: view_of(store),
        }
    }

    /// What is found of the box of a comparison that is summed up, by the widths of its parts.
    pub(crate) fn finding(&self, balance: &Balance<'_>, widths: &Maxima) -> Finding
        requires summed { IsSummed balance.now }
        requires widths { AreWidths balance.now.difference widths.now }
        ensures { (program : Stated) (v : Option ℤ) → TellsOf program (reason_of self.now) balance.now.difference
            → Inside (box_of balance.now.difference) (root_in program)
            → Finds (box_problem_of program) (reason_of self.now ∷ []) v (box_of balance.now.difference) result }
    {
        let reason = self.reason();
        if balance.is_closed() {
            return Finding::Dead(reason);
        }
        if balance.is_met() {
            return Finding::Quiet;
        }
        match balance.step_by(reason, widths) {
            Some(step) => Finding::Cut(step),
            None => Finding::Quiet,
        }
    }
}
