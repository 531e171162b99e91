//! Propagators that are followed from the box of one node to that of another.

ghost use Rattle.std.specs.Prelude.{◌≡◌, ◌<◌, true, length, map, IfOk};
ghost use Rattle.box_problem.specs.Box.{Inside, high, low};
ghost use Rattle.box_problem.specs.Rightness.{Appended};
ghost use Rattle.prop_core.specs.Members.{AllFit, StillFit, together};
ghost use Rattle.prop_core.specs.Rests.{Rests};
ghost use Rattle.prop_core.specs.Waking.{IsWatchOf};
ghost use Rattle.sopl_search.specs.Following.{AreFollowing, FollowsBox, followed_box, with_ends};

use box_store::BoxStore;
use prop_core::{Calm, Watch, Watching, fixpoint_kept, touch};
use sopl_base::Steps;
use std::alloc::{AllocError, Global};

/// Propagators, the places of those that watch a cell, and the ends of the box with which all of them are in step.
#[derive(Drop)]
pub struct Watchers<P> {
    pub list: Vec<P>,
    pub watch: Watch,
    pub lows: Vec<i64>,
    pub highs: Vec<i64>,
}

impl<P: Watching + Drop> Watchers<P> {
    /// Propagators with the box of a store.
    pub(crate) fn new(
        alloc: Global,
        list: Vec<P>,
        store: &BoxStore,
    ) -> Result<Watchers<P>, AllocError>
        ensures list { IfOk result (λ watchers. watchers.list.items ≡ list.items) }
        ensures ends { IfOk result (λ watchers. followed_box watchers ≡ store.now.box) }
        ensures watch { IfOk result (λ watchers. IsWatchOf (map P.watches watchers.list.items) watchers.watch (length watchers.lows.items)) }
    {
        let watch = Watch::new(alloc, list.as_slice(), store.cells())?;
        let lows = Vec::from_slice(alloc, store.lows())?;
        let highs = Vec::from_slice(alloc, store.highs())?;
        Ok(Watchers {
            list,
            watch,
            lows,
            highs,
        })
    }

    /// Whether these are the ends of a cell.
    fn has_ends(&self, cell: usize, lo: i64, hi: i64) -> bool
        requires low { cell < length self.now.lows.items }
        requires high { cell < length self.now.highs.items }
        ensures low { result ≡ true → low (followed_box self.now) cell ≡ lo }
        ensures high { result ≡ true → high (followed_box self.now) cell ≡ hi }
    {
        if self.lows[cell] != lo {
            return false;
        }
        self.highs[cell] == hi
    }

    /// Moves a cell to these ends; where they are others, the propagators that watch the cell are told.
    fn move_cell(&mut self, cell: u32, lo: i64, hi: i64)
        requires low { cell < length self.old.lows.items }
        requires high { cell < length self.old.highs.items }
        requires watch { IsWatchOf (map P.watches self.old.list.items) self.old.watch (length self.old.lows.items) }
        ensures ends { followed_box self.new ≡ with_ends (followed_box self.old) cell lo hi }
        ensures in_step { FollowsBox P.problem P.fits P.in_step (followed_box self.old) (followed_box self.new) self.old.list.items self.new.list.items }
        ensures watch { self.new.watch ≡ self.old.watch }
        ensures same_reasons { map P.reasons self.new.list.items ≡ map P.reasons self.old.list.items }
        ensures same_watches { map P.watches self.new.list.items ≡ map P.watches self.old.list.items }
        ensures still_fit { StillFit P.fits self.old.list.items self.new.list.items }
    {
        let at = cell as usize;
        if self.has_ends(at, lo, hi) {
            return;
        }
        touch(self.list.as_mut_slice(), &self.watch, cell);
        self.lows[at] = lo;
        self.highs[at] = hi;
    }

    /// Goes to the box of a store; the propagators are told of each cell that has other ends there.
    fn catch_up(&mut self, store: &BoxStore)
        requires lows { length self.old.lows.items ≡ length store.now.box.lows }
        requires highs { length self.old.highs.items ≡ length store.now.box.highs }
        requires watch { IsWatchOf (map P.watches self.old.list.items) self.old.watch (length self.old.lows.items) }
        ensures ends { followed_box self.new ≡ store.now.box }
        ensures in_step { FollowsBox P.problem P.fits P.in_step (followed_box self.old) store.now.box self.old.list.items self.new.list.items }
        ensures watch { self.new.watch ≡ self.old.watch }
        ensures same_reasons { map P.reasons self.new.list.items ≡ map P.reasons self.old.list.items }
        ensures same_watches { map P.watches self.new.list.items ≡ map P.watches self.old.list.items }
        ensures still_fit { StillFit P.fits self.old.list.items self.new.list.items }
    {
        'cells: for cell in 0..store.cells() {
            self.move_cell(cell, store.lo(cell), store.hi(cell));
        }
    }

    /// Keeps the box of a store, with which the propagators are in step.
    fn stand_at(&mut self, store: &BoxStore)
        requires lows { length self.old.lows.items ≡ length store.now.box.lows }
        requires highs { length self.old.highs.items ≡ length store.now.box.highs }
        ensures ends { followed_box self.new ≡ store.now.box }
        ensures list { self.new.list.items ≡ self.old.list.items }
        ensures watch { self.new.watch ≡ self.old.watch }
    {
        self.lows.as_mut_slice().copy_from_slice(store.lows());
        self.highs.as_mut_slice().copy_from_slice(store.highs());
    }

    /// Narrows the box of a store until the propagators rest or a reason closes the box, and adds the steps to a list. The propagators were in step with
    /// some box inside the root, and are in step with the narrowed one.
    pub(crate) fn come_to_rest(
        &mut self,
        alloc: Global,
        program: &P::Program,
        store: &mut BoxStore,
        best: Option<i128>,
        steps: &mut Steps,
    ) -> Result<Calm, AllocError>
        requires fits { AllFit P.fits program.now self.old.list.items }
        requires following { AreFollowing P.in_step P.watches program.now (P.problem program.now).root self.old }
        requires inside { Inside store.old.box (P.problem program.now).root }
        ensures rests { IfOk result (Rests (P.problem program.now) (together (map P.reasons self.old.list.items)) best store.new.box) }
        ensures steps { Appended (P.problem program.now) best store.old.box steps.old steps.new store.new.box }
        ensures marks { store.new.marks ≡ store.old.marks }
        ensures following { AreFollowing P.in_step P.watches program.now (P.problem program.now).root self.new }
        ensures same_reasons { map P.reasons self.new.list.items ≡ map P.reasons self.old.list.items }
        ensures still_fit { StillFit P.fits self.old.list.items self.new.list.items }
    {
        self.catch_up(store);
        let list = self.list.as_mut_slice();
        let calm = fixpoint_kept(alloc, list, &self.watch, program, store, best, steps);
        self.stand_at(store);
        calm
    }
}
