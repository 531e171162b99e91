//! By how much what tasks ask for together changes, at each time at which it does.

ghost use Rattle.std.specs.Prelude.{◌≡◌, ◌+ℤ◌, ℤ, pos, true, map, unwrap_or, IfOk, IfSome};
ghost use Rattle.std.specs.BTreeMap.{get, keys};
ghost use Rattle.std.specs.List.Sorted.{IsStrictlySortedBy};
ghost use Rattle.std.specs.Ordering.{int_cmp};
ghost use Rattle.sopl_ast.specs.Numbers as spec;
ghost use Rattle.unfold_tables.specs.Changing.{change_in, changes_in, level, part};
ghost use Rattle.unfold_tables.specs.Tables.{task_in};

use crate::tasks::TaskNumbers;
use sopl_base::Wide;
use std::alloc::{AllocError, Global};
use std::collections::BTreeMap;

/// A change of what tasks ask for together: when it comes, and by how much.
#[derive(Clone, Copy, Debug)]
pub struct Change {
    pub time: i128,
    pub by: Wide,
}

/// The two changes that a task makes, at its start and at its end, if it does not end before it starts.
#[tactic(auto, using(crate::proofs::Sweeping::two_parts))]
fn changes_of(task: &TaskNumbers) -> Option<(Change, Change)>
    ensures { IfSome result (λ two. (time : ℤ) → part time two.0 +ℤ part time two.1 ≡ spec.asked time (task_in task.now)) }
{
    if task.duration < 0 {
        return None;
    }
    let start = Wide::of(task.start);
    let demand = Wide::of(task.demand);
    let first = Change {
        time: start.value,
        by: demand,
    };
    let last = Change {
        time: start.plus(Wide::of(task.duration)).value,
        by: Wide::of(0).minus(demand),
    };
    Some((first, last))
}

/// By how much there is a change so far when this one comes.
fn so_far(changes: &BTreeMap<i128, Wide>, change: &Change) -> Wide
    ensures { result ≡ unwrap_or (get int_cmp changes.now change.now.time) (record { value = pos 0 }) }
{
    match changes.get(&change.time) {
        Some(by) => *by,
        None => Wide { value: 0 },
    }
}

/// Adds a change to those at its time; false where their sum has no room.
#[tactic(auto, using(crate::proofs::Sweeping::change_put))]
fn put(changes: &mut BTreeMap<i128, Wide>, change: &Change) -> Result<bool, AllocError>
    ensures { IfOk result (λ room. room ≡ true → (time : ℤ)
        → level time (changes_in changes.new.entries) ≡ level time (changes_in changes.old.entries) +ℤ part time change.now) }
{
    let Some(sum) = so_far(changes, change).checked_plus(change.by) else {
        return Ok(false);
    };
    changes.insert(change.time, sum)?;
    Ok(true)
}

/// Adds the changes that a task makes; false where it ends before it starts, or a sum has no room.
fn put_task(changes: &mut BTreeMap<i128, Wide>, task: &TaskNumbers) -> Result<bool, AllocError>
    ensures { IfOk result (λ room. room ≡ true → (time : ℤ)
        → level time (changes_in changes.new.entries) ≡ level time (changes_in changes.old.entries) +ℤ spec.asked time (task_in task.now)) }
{
    let Some((first, last)) = changes_of(task) else {
        return Ok(false);
    };
    if !put(changes, &first)? {
        return Ok(false);
    }
    let room = put(changes, &last)?;
    Ok(room)
}

/// The changes that tasks make together; none where one of them ends before it starts, or a sum has no room.
pub(crate) fn changes_of_all(
    alloc: Global,
    tasks: &[TaskNumbers],
) -> Result<Option<BTreeMap<i128, Wide>>, AllocError>
    ensures { IfOk result (λ found. IfSome found (λ changes. (time : ℤ)
        → level time (changes_in changes.entries) ≡ spec.demanded time (map task_in tasks.now))) }
{
    let mut changes = BTreeMap::new(alloc);
    'tasks: for task in tasks {
        if !put_task(&mut changes, task)? {
            return Ok(None);
        }
    }
    Ok(Some(changes))
}

/// Changes, from the first time to the last.
pub(crate) fn listed(
    alloc: Global,
    changes: &BTreeMap<i128, Wide>,
) -> Result<Vec<Change>, AllocError>
    ensures entries { IfOk result (λ list. list.items ≡ map change_in changes.now.entries) }
    ensures ordered { IsStrictlySortedBy int_cmp (keys changes.now) }
{
    changes
        .iter()
        .map(|entry| Change {
            time: *entry.0,
            by: *entry.1,
        })
        .collect(alloc)
}
