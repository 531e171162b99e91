//! What a propagator promises that keeps what it reckoned.

use crate::finding::Finding;
use crate::propagator::Propagator;
use box_store::BoxStore;

/// A propagator that keeps what it reckoned from one call to the next, and is told which cells have changed.
pub trait Watching: Propagator {
    ghost use Rattle.std.specs.Prelude.{◌≡◌, slice_get};
    ghost use Rattle.std.specs.List.Sorted.{IsStrictlyIncreasing};
    ghost use Rattle.box_problem.specs.Box.{Box, Inside};
    ghost use Rattle.prop_core.specs.Findings.{Finds};
    ghost use Rattle.prop_core.specs.Watches.{AgreeElsewhere, AgreeOnCells, LooksAt};

    /// The cells that it watches, in ascending order.
    fn watched_cells(&self) -> &[u32]
        ensures { result.now ≡ Self.watches self.now };

    /// The cell at a place among them, or none past the last one.
    fn watched(&self, at: u32) -> Option<u32>
        ensures { result ≡ slice_get (Self.watches self.now) at }
    {
        self.watched_cells().get(at as usize).copied()
    }

    /// Is told that a cell may have changed.
    fn touched(&mut self, cell: u32)
        ensures in_step { (p : Self.Program) (b c : Box) → AgreeElsewhere cell b c → Self.in_step self.old p b → Self.in_step self.new p c }
        ensures same_reasons { Self.reasons self.new ≡ Self.reasons self.old }
        ensures same_watches { Self.watches self.new ≡ Self.watches self.old }
        ensures still_fits { (p : Self.Program) → Self.fits self.old p → Self.fits self.new p }
        ensures fitted_before { (p : Self.Program) → Self.fits self.new p → Self.fits self.old p };

    /// What it finds of the box of a store with which it is in step, against the best value where there is one.
    fn revise_kept(
        &mut self,
        program: &Self::Program,
        store: &BoxStore,
        best: Option<i128>,
    ) -> Finding
        requires fits { Self.fits self.old program.now }
        requires inside { Inside store.now.box (Self.problem program.now).root }
        requires in_step { Self.in_step self.old program.now store.now.box }
        ensures finds { Finds (Self.problem program.now) (Self.reasons self.old) best store.now.box result }
        ensures in_step { Self.in_step self.new program.now store.now.box }
        ensures same_reasons { Self.reasons self.new ≡ Self.reasons self.old }
        ensures same_watches { Self.watches self.new ≡ Self.watches self.old }
        ensures still_fits { (p : Self.Program) → Self.fits self.old p → Self.fits self.new p }
        ensures fitted_before { (p : Self.Program) → Self.fits self.new p → Self.fits self.old p };

    /// The watched cells ascend.
    ghost cells_ascend: { (m : Self) (p : Self.Program) → Self.fits m p → IsStrictlyIncreasing (Self.watches m) };

    /// Of two boxes that agree on the watched cells, it is in step with both or with neither.
    ghost steps_agree: { (m : Self) (p : Self.Program) (b c : Box) → Self.fits m p → Inside b (Self.problem p).root → Inside c (Self.problem p).root
        → AgreeOnCells (Self.watches m) b c → Self.in_step m p b → Self.in_step m p c };

    /// Of two such boxes each of its reasons closes both or neither.
    ghost reasons_agree: { (m : Self) (p : Self.Program) → Self.fits m p → LooksAt (Self.problem p) (Self.reasons m) (Self.watches m) };
}
