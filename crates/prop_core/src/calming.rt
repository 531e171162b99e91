//! The box in which propagators come to rest.

ghost use Rattle.std.specs.Prelude.{◌≡◌, ◌∷◌, [], ◌++◌, map, IfOk, OnOk, OnErr};
ghost use Rattle.box_problem.specs.Box.{Inside};
ghost use Rattle.box_problem.specs.Rightness.{Appended};
ghost use Rattle.box_problem.specs.Steps.{IsCut, after_step};
ghost use Rattle.prop_core.specs.Members.{AllFit, StillFit, together};
ghost use Rattle.prop_core.specs.Rests.{Rests};

use crate::finding::{Calm, Finding};
use crate::propagator::Propagator;
use crate::sweeping::sweep_from;
use box_store::BoxStore;
use sopl_base::{Step, Steps};
use std::alloc::AllocError;

/// Makes a step in the box of a store, and adds it to a list of steps.
pub(crate) fn make(step: &Step, store: &mut BoxStore, steps: &mut Steps) -> Result<(), AllocError>
    requires cut { IsCut store.old.box step.now.cell step.now.side step.now.k }
    ensures made { OnOk result (store.new.box ≡ after_step store.old.box step.now) }
    ensures added { OnOk result (steps.new ≡ steps.old ++ step.now ∷ []) }
    ensures same_box { OnErr result (store.new.box ≡ store.old.box) }
    ensures same_steps { OnErr result (steps.new ≡ steps.old) }
    ensures marks { store.new.marks ≡ store.old.marks }
{
    store.reserve(1)?;
    steps.push(*step)?;
    store.tighten(step.cell, step.side, step.k);
    Ok(())
}

/// Makes the steps that propagators find until all of them rest or a reason closes the box, and adds these steps to a list.
pub fn fixpoint<P: Propagator>(
    list: &mut [P],
    program: &P::Program,
    store: &mut BoxStore,
    best: Option<i128>,
    steps: &mut Steps,
) -> Result<Calm, AllocError>
    requires fits { AllFit P.fits program.now list.old }
    requires inside { Inside store.old.box (P.problem program.now).root }
    ensures rests { IfOk result (Rests (P.problem program.now) (together (map P.reasons list.old)) best store.new.box) }
    ensures steps { Appended (P.problem program.now) best store.old.box steps.old steps.new store.new.box }
    ensures marks { store.new.marks ≡ store.old.marks }
    ensures same_reasons { map P.reasons list.new ≡ map P.reasons list.old }
    ensures still_fit { StillFit P.fits list.old list.new }
{
    let mut start = 0;
    'cuts: loop {
        let found = sweep_from(list, start, program, store, best);
        match found.finding {
            Finding::Quiet => return Ok(Calm::Quiet),
            Finding::Dead(reason) => return Ok(Calm::Dead(reason)),
            Finding::Cut(step) => {
                make(&step, store, steps)?;
                start = found.next;
            }
        }
    }
}
