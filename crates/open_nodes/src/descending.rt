//! A box that goes down from a split to one below it.

ghost use Rattle.std.specs.Prelude.{◌≡◌, ◌≤◌, ◌++◌, map, OnOk};
ghost use Rattle.sopl_base.specs.declared.reason.Side.TheVariants.{Le};
ghost use Rattle.box_problem.specs.Box.{Box};
ghost use Rattle.box_problem.specs.Steps.{IsCut, after_step, after_steps};
ghost use Rattle.log_rows.specs.Rows.{handed};
ghost use Rattle.log_rows.specs.declared.rows.EndLine.TheVariants as lines;
ghost use Rattle.open_nodes.specs.Remade.{above_cells, cells_made, step_cell};
ghost use Rattle.open_nodes.specs.Walks.{HasDescended};
ghost use Rattle.open_nodes.specs.Ways.{StepsCut, IsAbove, row_cut, start_box};

use crate::halving::Halving;
use crate::split::SplitNode;
use crate::walk::BoxWalk;
use box_store::BoxStore;
use sopl_base::{Side, Step};
use std::alloc::AllocError;

/// Takes a side of a cut.
pub(crate) fn take_side(store: &mut BoxStore, cut: &Halving, side: Side) -> Result<(), AllocError>
    requires cut { IsCut store.old.box cut.now.cell Le cut.now.k }
    ensures box_is { OnOk result (store.new.box ≡ handed store.old.box (lines.Split (row_cut cut.now)) side) }
    ensures marks { store.new.marks ≡ store.old.marks }
{
    store.reserve(1)?;
    match side {
        Side::Le => cut.take_low(store),
        Side::Ge => cut.take_high(store),
    }
    Ok(())
}

/// Makes a step again.
fn make(store: &mut BoxStore, step: &Step)
    requires room { 1 ≤ store.old.spare }
    requires cut { IsCut store.old.box step.now.cell step.now.side step.now.k }
    ensures made { store.new.box ≡ after_step store.old.box step.now }
    ensures marks { store.new.marks ≡ store.old.marks }
{
    store.tighten(step.cell, step.side, step.k);
}

/// Makes steps again, and lists their cells.
#[tactic(auto, using(crate::proofs::Going::step_cuts, crate::proofs::Going::cuts_on, crate::proofs::Going::leads_on, crate::proofs::Going::led))]
pub(crate) fn make_all(
    store: &mut BoxStore,
    steps: &[Step],
    remade: &mut Vec<u32>,
) -> Result<(), AllocError>
    requires cuts { StepsCut store.old.box steps.now }
    ensures made { OnOk result (store.new.box ≡ after_steps store.old.box steps.now) }
    ensures marks { store.new.marks ≡ store.old.marks }
    ensures listed { OnOk result (remade.new.items ≡ remade.old.items ++ map step_cell steps.now) }
{
    'steps: for step in steps {
        remade.push(step.cell)?;
        store.reserve(1)?;
        make(store, step);
    }
    Ok(())
}

/// Takes the side of the split above on which a split stands, and lists its cell.
fn go_below(
    store: &mut BoxStore,
    split: &SplitNode,
    remade: &mut Vec<u32>,
) -> Result<(), AllocError>
    requires above { (root : Box) × IsAbove root store.old.box split.now }
    ensures start { (root : Box) → IsAbove root store.old.box split.now → OnOk result (store.new.box ≡ start_box root split.now) }
    ensures marks { store.new.marks ≡ store.old.marks }
    ensures listed { OnOk result (remade.new.items ≡ remade.old.items ++ above_cells split.now) }
{
    match &split.above {
        Some(above) => {
            remade.push(above.cut.cell)?;
            take_side(store, &above.cut, split.side)
        }
        None => Ok(()),
    }
}

impl BoxWalk {
    /// Goes down from the split above a split to this one, and lists the cells of the ends that are made again.
    pub(crate) fn descend(
        &mut self,
        split: &SplitNode,
        remade: &mut Vec<u32>,
    ) -> Result<(), AllocError>
        requires above { (root : Box) × IsAbove root self.old.store.box split.now }
        ensures gone { (root : Box) → IsAbove root self.old.store.box split.now → OnOk result (HasDescended root self.old self.new split.now) }
        ensures listed { OnOk result (remade.new.items ≡ remade.old.items ++ cells_made split.now) }
    {
        go_below(&mut self.store, split, remade)?;
        make_all(&mut self.store, split.steps.as_slice(), remade)?;
        self.store.reserve(1)?;
        self.here.push(split.node)?;
        self.store.mark();
        Ok(())
    }
}
