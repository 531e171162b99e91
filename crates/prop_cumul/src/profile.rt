//! What `cumulative` asks of the intervals of its operands.

ghost use Rattle.std.specs.Prelude.{◌≡◌, ◌+◌, ◌*◌, ◌<◌, ◌≤◌, length, IfOk, get_or, map};
ghost use Rattle.term_language.specs.Globals.{TaskEnds};
ghost use Rattle.term_math.specs.Shown.{ends_of};
ghost use Rattle.term_windows.specs.Tasks.{task_ends_of, task_spans};
ghost use Rattle.term_windows.specs.Windows.{spans};
ghost use Rattle.prop_cumul.specs.Profiles.{HasTasks, capacity_in, is_overfull_list, tasks_in};

use prop_operands::Question;
use std::alloc::{AllocError, Global};
use term_language::Defined;
use term_math::Ends;
use term_windows::{TaskRange, never_fit};

/// Room for the intervals of several tasks.
#[derive(Drop)]
pub struct Profile {
    tasks: Vec<TaskRange>,
}

/// A task by its intervals.
fn task_of(start: &Ends, duration: &Ends, demand: &Ends) -> TaskRange
    ensures start { result.start ≡ start.now }
    ensures duration { result.duration ≡ duration.now }
    ensures demand { result.demand ≡ demand.now }
{
    TaskRange {
        start: *start,
        duration: *duration,
        demand: *demand,
        mark: Defined::Always,
    }
}

/// The task at a place, three intervals each.
#[tactic(auto, using(crate::proofs::Slots::task_there))]
fn task_at(ends: &[Ends], place: usize) -> TaskRange
    requires exists { 3 * place + 2 < length ends.now }
    ensures { (d : TaskEnds) → task_ends_of result ≡ get_or (tasks_in (spans ends.now)) place d }
{
    let first = 3 * place;
    task_of(&ends[first], &ends[first + 1], &ends[first + 2])
}

/// What stands behind so many tasks.
#[tactic(auto, using(crate::proofs::Slots::capacity_there))]
fn capacity_behind(ends: &[Ends], count: usize) -> &Ends
    requires exists { 3 * count + 1 ≡ length ends.now }
    ensures { ends_of result.now ≡ capacity_in (spans ends.now) }
{
    &ends[3 * count]
}

impl Profile {
    /// Room for so many tasks.
    pub(crate) fn new(alloc: Global, count: usize) -> Result<Profile, AllocError>
        ensures { IfOk result (λ made. length made.tasks.items ≡ count) }
    {
        let none = Ends { low: 0, high: 0 };
        let tasks = Vec::from_elem(alloc, task_of(&none, &none, &none), count)?;
        Ok(Profile { tasks })
    }

    /// Puts the tasks of these intervals into the room.
    #[tactic(auto, using(crate::proofs::Slots::next_task, crate::proofs::Slots::all_tasks))]
    fn fill(&mut self, ends: &[Ends])
        requires room { HasTasks self.old (length ends.now) }
        ensures tasks { task_spans self.new.tasks.items ≡ tasks_in (spans ends.now) }
        ensures same { length self.new.tasks.items ≡ length self.old.tasks.items }
    {
        'tasks: for place in 0..self.tasks.len() {
            self.tasks[place] = task_at(ends, place);
        }
    }
}

impl Question for Profile {
    ghost fails = { is_overfull_list };

    ghost has_room = { HasTasks };

    fn is_failed(&mut self, ends: &[Ends]) -> bool {
        self.fill(ends);
        never_fit(
            self.tasks.as_slice(),
            capacity_behind(ends, self.tasks.len()),
        )
    }
}
