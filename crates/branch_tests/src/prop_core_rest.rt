//! Cells that come to rest.

ghost use Rattle.std.specs.Prelude.{◌<◌, ◌^◌, length};

use crate::small_problem::{Rising, members, rising_with};
use box_store::BoxStore;
use prop_core::{Calm, Watch, fixpoint, fixpoint_kept};
use sopl_base::Steps;
use std::alloc::{AllocError, Global};

/// Whether the cells of a program come to rest with these ends, after so many steps.
#[tactic(auto, using(crate::proofs::Rising::root_inside))]
fn comes_to_rest(
    alloc: Global,
    program: &Rising,
    lows: &[i64],
    highs: &[i64],
    count: usize,
) -> Result<bool, AllocError>
    requires few { length program.now.intervals.items < 2 ^ 32 }
{
    let mut store = BoxStore::new(alloc, program.intervals.as_slice())?;
    let mut steps = Steps::new(alloc);
    let mut list = members(alloc, program)?;
    let calm = fixpoint(list.as_mut_slice(), program, &mut store, None, &mut steps)?;
    let same = store.lows() == lows && store.highs() == highs;
    Ok(calm == Calm::Quiet && same && steps.as_slice().len() == count)
}

/// Whether they do where each member is asked once, and again only where one of its cells has changed; then all of them have rested.
#[tactic(auto, using(crate::proofs::Rising::root_inside))]
fn comes_to_rest_kept(
    alloc: Global,
    program: &Rising,
    lows: &[i64],
    highs: &[i64],
    count: usize,
) -> Result<bool, AllocError>
    requires few { length program.now.intervals.items < 2 ^ 32 }
{
    let mut store = BoxStore::new(alloc, program.intervals.as_slice())?;
    let mut steps = Steps::new(alloc);
    let mut list = members(alloc, program)?;
    let watch = Watch::new(alloc, list.as_slice(), store.cells())?;
    let calm = fixpoint_kept(
        alloc,
        list.as_mut_slice(),
        &watch,
        program,
        &mut store,
        None,
        &mut steps,
    )?;
    let same = store.lows() == lows && store.highs() == highs;
    let rested = list.iter().all(|member| member.resting.rested.is_some());
    Ok(calm == Calm::Quiet && same && rested && steps.as_slice().len() == count)
}

#[test]
fn cells_come_to_rest(rt: HostRuntime) {
    let made = rising_with(rt.alloc(), &[(2, 9), (0, 9), (0, 9), (0, 5)]).expect(&rt, "memory");
    let program = made.expect(&rt, "near ends");
    if program.intervals.len() <= 4 {
        let rests = comes_to_rest(rt.alloc(), &program, &[2, 2, 2, 2], &[5, 5, 5, 5], 6);
        assert!(rt; rests.expect(&rt, "memory"), "six steps");
        let kept = comes_to_rest_kept(rt.alloc(), &program, &[2, 2, 2, 2], &[5, 5, 5, 5], 6);
        assert!(rt; kept.expect(&rt, "memory"), "six steps, and all rest");
    }
}
