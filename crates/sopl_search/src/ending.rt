//! How a node ends.

ghost use Rattle.std.specs.Prelude.{◌≡◌, map, option_map, IfOk};
ghost use Rattle.box_problem.specs.Box.{Inside};
ghost use Rattle.box_problem.specs.Near.{IsNearBox};
ghost use Rattle.box_problem.specs.Rightness.{Appended};
ghost use Rattle.brancher.specs.Choices.{AreEnds};
ghost use Rattle.brancher.specs.Picks.{IsProperChoice};
ghost use Rattle.prop_core.specs.Members.{AllFit, StillFit, together};
ghost use Rattle.log_rows.specs.Ranges.{EndFits};
ghost use Rattle.open_nodes.specs.Ways.{row_cut};
ghost use Rattle.sopl_search.specs.Following.{AreFollowing};
ghost use Rattle.sopl_search.specs.Lines.{line_of};
ghost use Rattle.sopl_search.specs.Ends.{AreAll, Ends, EndsPicked, IsPosed};

use crate::fitting::reason_fits;
use crate::watchers::Watchers;
use box_store::BoxStore;
use brancher::{Brancher, Choice, pick};
use log_rows::{Cut, EndLine};
use open_nodes::Halving;
use prop_core::{Calm, Watching};
use sopl_base::{Reason, Steps};
use std::alloc::{AllocError, Global};

/// How a node ends: a reason closes its box, its box is cut into two halves, or its box is one point that is better than all before.
#[derive(Clone, Copy)]
pub(crate) enum NodeEnd {
    Refuted(Reason),
    Split { cut: Halving, low_first: bool },
    Point,
}

/// A cut as a log tells it.
fn line_cut(cut: &Halving) -> Cut
    ensures { result ≡ row_cut cut.now }
{
    Cut {
        cell: cut.cell,
        k: cut.k,
    }
}

impl NodeEnd {
    /// The line of a log that tells this end.
    pub(crate) fn line(&self) -> EndLine
        ensures line { result ≡ line_of self.now }
        ensures fits { EndFits (line_of self.now) }
    {
        match self {
            NodeEnd::Refuted(reason) => {
                reason_fits(reason);
                EndLine::Refuted(*reason)
            }
            NodeEnd::Split { cut, .. } => EndLine::Split(line_cut(cut)),
            NodeEnd::Point => EndLine::Point,
        }
    }
}

/// The cut of a choice.
#[tactic(auto, using(crate::proofs::Picking::cut_room))]
fn cut_of(lows: &[i64], highs: &[i64], choice: Choice) -> Halving
    requires ends { AreEnds lows.now highs.now }
    requires proper { IsProperChoice lows.now highs.now choice }
    ensures cell { result.cell ≡ choice.cell }
    ensures k { result.k ≡ choice.cut }
{
    Halving {
        cell: choice.cell,
        k: choice.cut,
    }
}

/// The end of a node at whose box propagators rest: the box is one point, or is cut as is picked.
#[tactic(auto, using(crate::proofs::Picking::are_ends, crate::proofs::Picking::picked_point, crate::proofs::Picking::picked_cut))]
fn end_of(store: &BoxStore, brancher: &mut Option<Box<dyn Brancher>>, depth: u32) -> NodeEnd
    requires near { IsNearBox store.now.box }
    ensures ends { EndsPicked (option_map rule brancher.old) depth store.now.box result }
    ensures same_rule { option_map rule brancher.new ≡ option_map rule brancher.old }
    ensures same_heard { option_map heard brancher.new ≡ option_map heard brancher.old }
{
    let _cells = store.cells();
    let lows = store.lows();
    let highs = store.highs();
    match pick(brancher, lows, highs, depth) {
        Some(choice) => NodeEnd::Split {
            cut: cut_of(lows, highs, choice),
            low_first: choice.low_first,
        },
        None => NodeEnd::Point,
    }
}

/// Narrows the box of a node at this depth until propagators rest, adds these steps to a list, and tells how the node ends.
#[tactic(auto, using(crate::proofs::Resting::appended_inside, crate::proofs::Resting::near_part))]
pub(crate) fn finish<P: Watching + Drop>(
    alloc: Global,
    watchers: &mut Watchers<P>,
    program: &P::Program,
    store: &mut BoxStore,
    best: Option<i128>,
    steps: &mut Steps,
    brancher: &mut Option<Box<dyn Brancher>>,
    depth: u32,
) -> Result<NodeEnd, AllocError>
    requires posed { IsPosed (P.problem program.now) }
    requires fits { AllFit P.fits program.now watchers.old.list.items }
    requires all { AreAll (P.problem program.now) (together (map P.reasons watchers.old.list.items)) }
    requires following { AreFollowing P.in_step P.watches program.now (P.problem program.now).root watchers.old }
    requires inside { Inside store.old.box (P.problem program.now).root }
    ensures ends { IfOk result (Ends (P.problem program.now) best (option_map rule brancher.old) depth store.new.box) }
    ensures steps { Appended (P.problem program.now) best store.old.box steps.old steps.new store.new.box }
    ensures marks { store.new.marks ≡ store.old.marks }
    ensures following { AreFollowing P.in_step P.watches program.now (P.problem program.now).root watchers.new }
    ensures same_reasons { map P.reasons watchers.new.list.items ≡ map P.reasons watchers.old.list.items }
    ensures still_fit { StillFit P.fits watchers.old.list.items watchers.new.list.items }
    ensures same_rule { option_map rule brancher.new ≡ option_map rule brancher.old }
    ensures same_heard { option_map heard brancher.new ≡ option_map heard brancher.old }
{
    match watchers.come_to_rest(alloc, program, store, best, steps)? {
        Calm::Dead(reason) => Ok(NodeEnd::Refuted(reason)),
        Calm::Quiet => Ok(end_of(store, brancher, depth)),
    }
}
