//! Tasks that share a capacity.

ghost use Rattle.std.specs.Prelude.{◌≡◌, ◌<◌, [], ◌∷◌, length, map, IfOk, IfSome, IfNone};
ghost use Rattle.std.specs.List.{list_all};
ghost use Rattle.sopl_ast.specs.Numbers as spec;
ghost use Rattle.unfold_tables.specs.Tables.{task_in, tasks_of as tasks_in};

use crate::levels::all_fit;
use crate::numbers::with_number;
use sopl_base::Wide;
use std::alloc::{AllocError, Global};

/// A task in numbers: when it starts, how long it runs, and how much it asks for while it runs.
#[derive(Clone, Copy, Debug)]
pub struct TaskNumbers {
    pub start: i64,
    pub duration: i64,
    pub demand: i64,
}

impl TaskNumbers {
    /// Whether it runs at a time.
    fn runs(&self, time: i64) -> bool
        ensures { result ≡ spec.runs time (task_in self.now) }
    {
        let end = Wide::of(self.start).plus(Wide::of(self.duration));
        self.start <= time && i128::from(time) < end.value
    }

    /// What it asks for at a time.
    fn asked(&self, time: i64) -> i64
        ensures { result ≡ spec.asked time (task_in self.now) }
    {
        if self.runs(time) { self.demand } else { 0 }
    }

    /// Whether its length and its demand are at least 0.
    fn is_sound(&self) -> bool
        ensures { result ≡ spec.is_sound (task_in self.now) }
    {
        self.duration >= 0 && self.demand >= 0
    }
}

/// What tasks ask for together at a time.
#[tactic(auto, using(crate::proofs::Folds::demands))]
pub(crate) fn demanded(time: i64, tasks: &[TaskNumbers]) -> Wide
    ensures { result.value ≡ spec.demanded time (map task_in tasks.now) }
{
    let mut total = Wide::of(0);
    'tasks: for task in tasks {
        total = with_number(total, false, task.asked(time));
    }
    total
}

/// Whether all tasks are sound.
fn all_sound(tasks: &[TaskNumbers]) -> bool
    ensures { result ≡ list_all (λ task. spec.is_sound (task_in task)) tasks.now }
{
    tasks.iter().all(|task| task.is_sound())
}

/// The first of the tasks that numbers give, three for each of them, and the numbers behind it.
#[tactic(auto, using(crate::proofs::Prefixes::prefixes))]
fn next_task(numbers: &[i64]) -> Option<(TaskNumbers, &[i64])>
    ensures some { IfSome result (λ next. tasks_in numbers.now ≡ task_in next.0 ∷ tasks_in next.1.now) }
    ensures fewer { IfSome result (λ next. length next.1.now < length numbers.now) }
    ensures none { IfNone result (tasks_in numbers.now ≡ []) }
{
    match numbers {
        [start, duration, demand, later @ ..] => {
            let task = TaskNumbers {
                start: *start,
                duration: *duration,
                demand: *demand,
            };
            Some((task, later))
        }
        _ => None,
    }
}

/// Tasks from numbers, three for each of them.
fn tasks_of(alloc: Global, numbers: &[i64]) -> Result<Vec<TaskNumbers>, AllocError>
    ensures { IfOk result (λ tasks. map task_in tasks.items ≡ tasks_in numbers.now) }
{
    let mut tasks = Vec::new(alloc);
    let mut left = numbers;
    'tasks: while let Some((task, later)) = next_task(left) {
        tasks.push(task)?;
        left = later;
    }
    Ok(tasks)
}

/// Whether tasks, of which each is three numbers, keep within a capacity.
#[tactic(auto, using(crate::proofs::Folds::alls))]
pub fn are_within(alloc: Global, capacity: i64, numbers: &[i64]) -> Result<bool, AllocError>
    ensures { IfOk result (λ within. within ≡ spec.are_within capacity (tasks_in numbers.now)) }
{
    if capacity < 0 {
        return Ok(false);
    }
    let tasks = tasks_of(alloc, numbers)?;
    if !all_sound(tasks.as_slice()) {
        return Ok(false);
    }
    let most = Wide::of(capacity);
    let all = all_fit(alloc, &most, tasks.as_slice())?;
    Ok(all)
}
