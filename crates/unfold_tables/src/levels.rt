//! What tasks ask for together from each time on at which it changes.

ghost use Rattle.std.specs.Prelude.{◌≡◌, ℤ, Some, map, int_le, OnOk, IfOk, IfSome};
ghost use Rattle.std.specs.BTreeMap.{get, Updates};
ghost use Rattle.std.specs.List.{list_all};
ghost use Rattle.std.specs.Ordering.{int_cmp};
ghost use Rattle.sopl_ast.specs.Numbers as spec;
ghost use Rattle.unfold_tables.specs.Changing.{AreLevels, Rise, changes_in, level};
ghost use Rattle.unfold_tables.specs.Tables.{task_in};

use crate::changes::{Change, changes_of_all, listed};
use crate::tasks::{TaskNumbers, demanded};
use sopl_base::Wide;
use std::alloc::{AllocError, Global};
use std::collections::BTreeMap;

/// Keeps what changes come to from a time on.
fn keep(levels: &mut BTreeMap<i128, Wide>, change: &Change, sum: &Wide) -> Result<(), AllocError>
    ensures { OnOk result (Updates int_cmp levels.old levels.new change.now.time (Some sum.now)) }
{
    levels.insert(change.time, *sum)?;
    Ok(())
}

/// What changes come to from each of their times on, as far as the sums have room.
fn levels_in(alloc: Global, changes: &[Change]) -> Result<BTreeMap<i128, Wide>, AllocError>
    requires rise { Rise changes.now }
    ensures { IfOk result (λ levels. (time : ℤ) → IfSome (get int_cmp levels time) (λ w. w.value ≡ level time changes.now)) }
{
    let mut levels = BTreeMap::new(alloc);
    let mut total = Wide::of(0);
    'changes: for change in changes {
        let Some(sum) = total.checked_plus(change.by) else {
            return Ok(levels);
        };
        keep(&mut levels, change, &sum)?;
        total = sum;
    }
    Ok(levels)
}

/// What changes come to from each of their times on, as far as the sums have room.
fn levels_of(
    alloc: Global,
    changes: &BTreeMap<i128, Wide>,
) -> Result<BTreeMap<i128, Wide>, AllocError>
    ensures { IfOk result (λ levels. (time : ℤ) → IfSome (get int_cmp levels time) (λ w. w.value ≡ level time (changes_in changes.now.entries))) }
{
    let list = listed(alloc, changes)?;
    levels_in(alloc, list.as_slice())
}

/// What tasks ask for together from each time on at which it changes, as far as the sums have room.
fn levels_of_tasks(alloc: Global, tasks: &[TaskNumbers]) -> Result<BTreeMap<i128, Wide>, AllocError>
    ensures { IfOk result (λ levels. AreLevels (map task_in tasks.now) levels) }
{
    match changes_of_all(alloc, tasks)? {
        Some(changes) => levels_of(alloc, &changes),
        None => Ok(BTreeMap::new(alloc)),
    }
}

/// What tasks ask for together at the start of one: what is kept for that time, or else what is found by going through all.
fn demanded_at(levels: &BTreeMap<i128, Wide>, tasks: &[TaskNumbers], task: &TaskNumbers) -> Wide
    requires levels { AreLevels (map task_in tasks.now) levels.now }
    ensures { result.value ≡ spec.demanded (task_in task.now).start (map task_in tasks.now) }
{
    let start = Wide::of(task.start);
    match levels.get(&start.value) {
        Some(level) => *level,
        None => demanded(task.start, tasks),
    }
}

/// Whether at the start of a task those that run then ask for the capacity at most.
fn fits(
    levels: &BTreeMap<i128, Wide>,
    capacity: &Wide,
    tasks: &[TaskNumbers],
    task: &TaskNumbers,
) -> bool
    requires levels { AreLevels (map task_in tasks.now) levels.now }
    ensures { result ≡ int_le (spec.demanded (task_in task.now).start (map task_in tasks.now)) capacity.now.value }
{
    demanded_at(levels, tasks, task).value <= capacity.value
}

/// Whether at the start of each task those that run then ask for the capacity at most.
#[tactic(auto, using(crate::proofs::Sweeping::passing))]
fn all_fit_levels(levels: &BTreeMap<i128, Wide>, capacity: &Wide, tasks: &[TaskNumbers]) -> bool
    requires levels { AreLevels (map task_in tasks.now) levels.now }
    ensures { result ≡ list_all (λ task. int_le (spec.demanded (task_in task).start (map task_in tasks.now)) capacity.now.value) tasks.now }
{
    'tasks: for task in tasks {
        if !fits(levels, capacity, tasks, task) {
            return false;
        }
    }
    true
}

/// Whether at the start of each task those that run then ask for the capacity at most. The tasks are sorted by their starts and ends, so that none is
/// held against all others.
pub(crate) fn all_fit(
    alloc: Global,
    capacity: &Wide,
    tasks: &[TaskNumbers],
) -> Result<bool, AllocError>
    ensures { IfOk result (λ all. all ≡ list_all (λ task. int_le (spec.demanded (task_in task).start (map task_in tasks.now)) capacity.now.value) tasks.now) }
{
    let levels = levels_of_tasks(alloc, tasks)?;
    Ok(all_fit_levels(&levels, capacity, tasks))
}
