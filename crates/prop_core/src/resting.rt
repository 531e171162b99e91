//! A propagator that rests until a cell at which its reasons look has changed.

ghost use Rattle.std.specs.Prelude.{◌≡◌, List};
ghost use Rattle.sopl_base.specs.declared.reason.Reason.{Reason};
ghost use Rattle.box_problem.specs.Box.{Box, Inside};
ghost use Rattle.box_problem.specs.BoxProblem.{BoxProblem};
ghost use Rattle.prop_core.specs.Findings.{Finds};
ghost use Rattle.prop_core.specs.Watches.{HasRested};

use crate::finding::Finding;
use crate::last_rest::{rested_by, rests_at};
use crate::propagator::Propagator;
use crate::watching::Watching;
use box_store::BoxStore;

/// A propagator, the cells that it watches, in ascending order, and the best value against which it has rested, as long as none of these cells was
/// touched since; against this value it rests without being asked. Its reasons look at the watched cells alone.
#[derive(Drop)]
pub struct Resting<M> {
    pub member: M,
    pub cells: Vec<u32>,
    pub rested: Option<Option<i128>>,
}

impl<M> Resting<M> {
    /// A propagator that has not rested yet.
    pub fn new(member: M, cells: Vec<u32>) -> Resting<M>
        ensures member { result.member ≡ member }
        ensures cells { result.cells.items ≡ cells.items }
        ensures in_step { (problem : BoxProblem) (reasons : List Reason) (b : Box) → HasRested problem reasons result.rested b }
    {
        Resting {
            member,
            cells,
            rested: None,
        }
    }
}

impl<M: Propagator> Resting<M> {
    /// Asks the propagator, and keeps whether it rests.
    fn ask(&mut self, program: &M::Program, store: &BoxStore, best: Option<i128>) -> Finding
        requires fits { M.fits self.old.member program.now }
        requires inside { Inside store.now.box (M.problem program.now).root }
        ensures finds { Finds (M.problem program.now) (M.reasons self.old.member) best store.now.box result }
        ensures rested { HasRested (M.problem program.now) (M.reasons self.new.member) self.new.rested store.now.box }
        ensures same_reasons { M.reasons self.new.member ≡ M.reasons self.old.member }
        ensures same_cells { self.new.cells.items ≡ self.old.cells.items }
        ensures still_fits { (p : M.Program) → M.fits self.old.member p → M.fits self.new.member p }
        ensures fitted_before { (p : M.Program) → M.fits self.new.member p → M.fits self.old.member p }
    {
        let finding = self.member.revise(program, store, best);
        self.rested = rested_by(&finding, best);
        finding
    }
}

impl<M: Propagator> Propagator for Resting<M> {
    ghost use Rattle.prop_core.specs.Watches.{FitsAndLooksAt, HasRested};

    type Program = M::Program;

    ghost problem = { M.problem };

    ghost reasons = { λ resting. M.reasons resting.member };

    ghost fits = { λ resting program. FitsAndLooksAt (M.fits resting.member program) (M.problem program) (M.reasons resting.member) resting.cells.items };

    ghost in_step = { λ resting program b. HasRested (M.problem program) (M.reasons resting.member) resting.rested b };

    ghost watches = { λ resting. resting.cells.items };

    #[tactic(auto, using(crate::proofs::Rested::still_looks_at))]
    fn revise(&mut self, program: &M::Program, store: &BoxStore, best: Option<i128>) -> Finding {
        self.ask(program, store, best)
    }
}

impl<M: Propagator> Watching for Resting<M> {
    ghost use Rattle.prop_core.specs.Alike.{rested_alike};

    fn watched_cells(&self) -> &[u32] {
        self.cells.as_slice()
    }

    fn touched(&mut self, _cell: u32) {
        self.rested = None;
    }

    #[tactic(auto, using(crate::proofs::Rested::still_looks_at, crate::proofs::Rested::quiet_again))]
    fn revise_kept(
        &mut self,
        program: &M::Program,
        store: &BoxStore,
        best: Option<i128>,
    ) -> Finding {
        if rests_at(self.rested, best) {
            return Finding::Quiet;
        }
        self.ask(program, store, best)
    }

    ghost cells_ascend = { λ m p fits. fits.ascend };

    ghost steps_agree = { λ m p b c fits b_in c_in agree rested. rested_alike (M.problem p) (M.reasons m.member) m.cells.items m.rested b c fits.looks b_in c_in agree rested };

    ghost reasons_agree = { λ m p fits. fits.looks };
}
