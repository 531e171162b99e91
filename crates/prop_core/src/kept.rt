//! The box in which propagators come to rest that keep what they reckoned.

ghost use Rattle.std.specs.Prelude.{◌≡◌, ◌∷◌, [], ◌++◌, ℕ, true, length, map, IfOk, OnOk, OnErr};
ghost use Rattle.box_problem.specs.Box.{Inside};
ghost use Rattle.box_problem.specs.Rightness.{Appended, IsRight};
ghost use Rattle.box_problem.specs.Steps.{after_step};
ghost use Rattle.prop_core.specs.Members.{AllFit, StillFit, together};
ghost use Rattle.prop_core.specs.Rests.{Rests};
ghost use Rattle.prop_core.specs.Waking.{IsWatchOf};
ghost use Rattle.prop_core.specs.Watches.{AllInStep, AreCalm, waits_at};

use crate::calming::make;
use crate::finding::{Calm, Finding};
use crate::keeping::find_kept;
use crate::waking::{let_wait, touch};
use crate::watch::Watch;
use crate::watching::Watching;
use box_store::BoxStore;
use sopl_base::{Step, Steps};
use std::alloc::{AllocError, Global};

/// Makes a step, tells the members that watch its cell, and lets them wait.
fn go_on<P: Watching>(
    list: &mut [P],
    waits: &mut [bool],
    watch: &Watch,
    program: &P::Program,
    store: &mut BoxStore,
    best: Option<i128>,
    step: &Step,
    steps: &mut Steps,
) -> Result<(), AllocError>
    requires fits { AllFit P.fits program.now list.old }
    requires inside { Inside store.old.box (P.problem program.now).root }
    requires right { IsRight (P.problem program.now) best store.old.box step.now }
    requires as_long { length waits.old ≡ length list.old }
    requires watch { IsWatchOf (map P.watches list.old) watch.now (length store.old.box.lows) }
    requires in_step { AllInStep P.in_step program.now store.old.box list.old }
    requires calm { AreCalm (P.problem program.now) (map P.reasons list.old) best store.old.box waits.old }
    ensures made { OnOk result (store.new.box ≡ after_step store.old.box step.now) }
    ensures added { OnOk result (steps.new ≡ steps.old ++ step.now ∷ []) }
    ensures same_box { OnErr result (store.new.box ≡ store.old.box) }
    ensures same_steps { OnErr result (steps.new ≡ steps.old) }
    ensures marks { store.new.marks ≡ store.old.marks }
    ensures in_step { AllInStep P.in_step program.now store.new.box list.new }
    ensures calm { OnOk result (AreCalm (P.problem program.now) (map P.reasons list.old) best store.new.box waits.new) }
    ensures same_reasons { map P.reasons list.new ≡ map P.reasons list.old }
    ensures same_watches { map P.watches list.new ≡ map P.watches list.old }
    ensures still_fit { StillFit P.fits list.old list.new }
{
    make(step, store, steps)?;
    touch(list, watch, step.cell);
    let_wait(waits, watch.places(step.cell));
    Ok(())
}

/// A wait for each of several members.
fn all_wait(alloc: Global, count: usize) -> Result<Vec<bool>, AllocError>
    ensures as_long { IfOk result (λ waits. length waits.items ≡ count) }
    ensures all { IfOk result (λ waits. (k : ℕ) → waits_at waits.items k ≡ true) }
{
    let mut waits = Vec::new(alloc);
    'members: for _ in 0..count {
        waits.push(true)?;
    }
    Ok(waits)
}

/// Makes steps until no member waits or a reason closes the box.
fn come_to_rest<P: Watching>(
    list: &mut [P],
    waits: &mut [bool],
    watch: &Watch,
    program: &P::Program,
    store: &mut BoxStore,
    best: Option<i128>,
    steps: &mut Steps,
) -> Result<Calm, AllocError>
    requires fits { AllFit P.fits program.now list.old }
    requires inside { Inside store.old.box (P.problem program.now).root }
    requires watch { IsWatchOf (map P.watches list.old) watch.now (length store.old.box.lows) }
    requires as_long { length waits.old ≡ length list.old }
    requires calm { AreCalm (P.problem program.now) (map P.reasons list.old) best store.old.box waits.old }
    requires in_step { AllInStep P.in_step program.now store.old.box list.old }
    ensures rests { IfOk result (Rests (P.problem program.now) (together (map P.reasons list.old)) best store.new.box) }
    ensures steps { Appended (P.problem program.now) best store.old.box steps.old steps.new store.new.box }
    ensures marks { store.new.marks ≡ store.old.marks }
    ensures in_step { AllInStep P.in_step program.now store.new.box list.new }
    ensures same_reasons { map P.reasons list.new ≡ map P.reasons list.old }
    ensures same_watches { map P.watches list.new ≡ map P.watches list.old }
    ensures still_fit { StillFit P.fits list.old list.new }
{
    let mut start = 0;
    'cuts: loop {
        let found = find_kept(list, waits, start, program, store, best);
        match found.finding {
            Finding::Quiet => return Ok(Calm::Quiet),
            Finding::Dead(reason) => return Ok(Calm::Dead(reason)),
            Finding::Cut(step) => {
                go_on(list, waits, watch, program, store, best, &step, steps)?;
                start = found.next;
            }
        }
    }
}

/// Makes the steps that propagators find until all of them rest or a reason closes the box, and adds these steps to a list; each of them is asked
/// once, and again only where a cell that it watches has changed.
pub fn fixpoint_kept<P: Watching>(
    alloc: Global,
    list: &mut [P],
    watch: &Watch,
    program: &P::Program,
    store: &mut BoxStore,
    best: Option<i128>,
    steps: &mut Steps,
) -> Result<Calm, AllocError>
    requires fits { AllFit P.fits program.now list.old }
    requires inside { Inside store.old.box (P.problem program.now).root }
    requires watch { IsWatchOf (map P.watches list.old) watch.now (length store.old.box.lows) }
    requires in_step { AllInStep P.in_step program.now store.old.box list.old }
    ensures rests { IfOk result (Rests (P.problem program.now) (together (map P.reasons list.old)) best store.new.box) }
    ensures steps { Appended (P.problem program.now) best store.old.box steps.old steps.new store.new.box }
    ensures marks { store.new.marks ≡ store.old.marks }
    ensures in_step { AllInStep P.in_step program.now store.new.box list.new }
    ensures same_reasons { map P.reasons list.new ≡ map P.reasons list.old }
    ensures same_watches { map P.watches list.new ≡ map P.watches list.old }
    ensures still_fit { StillFit P.fits list.old list.new }
{
    let mut waits = all_wait(alloc, list.len())?;
    come_to_rest(
        list,
        waits.as_mut_slice(),
        watch,
        program,
        store,
        best,
        steps,
    )
}
