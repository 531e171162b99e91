//! Whether tasks whose numbers lie in intervals surely do not fit under a capacity, or surely fit.

ghost use Rattle.std.specs.Prelude.{◌≡◌, ◌≤ℤ◌, pos, true};
ghost use Rattle.term_language.specs.Globals as globals;
ghost use Rattle.term_crowds.specs.Crowds as crowds;
ghost use Rattle.term_math.specs.Shown.{ends_of};
ghost use Rattle.term_windows.specs.Tasks as parts;
ghost use Rattle.term_windows.specs.Tasks.{task_spans};

use crate::tasks::{Amount, TaskRange};
use term_math::Ends;

/// Whether the length or the demand of some task is surely negative.
#[tactic(auto, using(crate::proofs::TaskSlices::next_negative, crate::proofs::TaskSlices::this_negative, crate::proofs::TaskSlices::none_negative))]
fn some_negative(tasks: &[TaskRange]) -> bool
    ensures { result ≡ crowds.some_negative (task_spans tasks.now) }
{
    'tasks: for task in tasks {
        if task.is_negative() {
            return true;
        }
    }
    false
}

/// Whether the capacity is surely passed at a time.
#[tactic(auto, using(crate::proofs::Fitting::first_room, crate::proofs::TaskSlices::room_left))]
fn overfull_at(tasks: &[TaskRange], capacity: &Ends, time: &Amount) -> bool
    requires room { pos 0 ≤ℤ capacity.now.high }
    ensures { result ≡ globals.is_overfull (task_spans tasks.now) (ends_of capacity.now) time.now.number }
{
    let mut room = Amount::upper(capacity);
    'tasks: for task in tasks {
        let asked = task.least_asked(time);
        if room.number < asked.number {
            return true;
        }
        room = room.without(&asked);
    }
    false
}

/// Whether the capacity is surely passed at the greatest start of some task.
#[tactic(auto, using(crate::proofs::TaskSlices::next_peak, crate::proofs::TaskSlices::this_peak, crate::proofs::TaskSlices::none_peak))]
fn some_overfull(tasks: &[TaskRange], capacity: &Ends) -> bool
    requires room { pos 0 ≤ℤ capacity.now.high }
    ensures { result ≡ parts.some_overfull (task_spans tasks.now) (ends_of capacity.now) (task_spans tasks.now) }
{
    'tasks: for task in tasks {
        if overfull_at(tasks, capacity, &Amount::upper(&task.start)) {
            return true;
        }
    }
    false
}

/// Whether tasks surely do not fit: a length, a demand or the capacity is surely negative, or the capacity is surely passed at some time.
#[tactic(auto, using(crate::proofs::Fitting::never_by_negative, crate::proofs::Fitting::never_by_capacity, crate::proofs::Fitting::never_by_peak))]
pub fn never_fit(tasks: &[TaskRange], capacity: &Ends) -> bool
    ensures { result ≡ globals.never_fit (task_spans tasks.now) (ends_of capacity.now) }
{
    if some_negative(tasks) {
        return true;
    }
    if capacity.high < 0 {
        return true;
    }
    some_overfull(tasks, capacity)
}

/// Whether no length and no demand may be negative.
#[tactic(auto, using(crate::proofs::TaskSlices::next_sound, crate::proofs::TaskSlices::not_sound, crate::proofs::TaskSlices::all_are_sound))]
fn all_sound(tasks: &[TaskRange]) -> bool
    ensures { result ≡ crowds.all_sound (task_spans tasks.now) }
{
    'tasks: for task in tasks {
        if !task.is_sound() {
            return false;
        }
    }
    true
}

/// Whether the capacity is surely enough at a time.
#[tactic(auto, using(crate::proofs::TaskSlices::most_left))]
fn enough_at(tasks: &[TaskRange], capacity: &Ends, time: &Amount) -> bool
    requires room { pos 0 ≤ℤ capacity.now.low }
    requires ordered { crowds.DemandsOrdered (task_spans tasks.now) }
    requires sound { crowds.all_sound (task_spans tasks.now) ≡ true }
    ensures { result ≡ globals.is_enough (task_spans tasks.now) (ends_of capacity.now) time.now.number }
{
    let mut room = Amount::lower(capacity);
    'tasks: for task in tasks {
        let asked = task.most_asked(time);
        if room.number < asked.number {
            return false;
        }
        room = room.without(&asked);
    }
    true
}

/// Whether the capacity is surely enough at the least start of each task.
#[tactic(auto, using(crate::proofs::TaskSlices::next_enough, crate::proofs::TaskSlices::not_enough, crate::proofs::TaskSlices::all_are_enough))]
fn all_enough(tasks: &[TaskRange], capacity: &Ends) -> bool
    requires room { pos 0 ≤ℤ capacity.now.low }
    requires ordered { crowds.DemandsOrdered (task_spans tasks.now) }
    requires sound { crowds.all_sound (task_spans tasks.now) ≡ true }
    ensures { result ≡ parts.all_enough (task_spans tasks.now) (ends_of capacity.now) (task_spans tasks.now) }
{
    'tasks: for task in tasks {
        if !enough_at(tasks, capacity, &Amount::lower(&task.start)) {
            return false;
        }
    }
    true
}

/// Whether tasks surely fit: no length, no demand and no capacity may be negative, and the capacity is surely enough at all times.
#[tactic(auto, using(crate::proofs::Fitting::unless_sound, crate::proofs::Fitting::unless_room, crate::proofs::Fitting::always_by_all))]
pub fn always_fit(tasks: &[TaskRange], capacity: &Ends) -> bool
    requires ordered { crowds.DemandsOrdered (task_spans tasks.now) }
    ensures { result ≡ globals.always_fit (task_spans tasks.now) (ends_of capacity.now) }
{
    if !all_sound(tasks) {
        return false;
    }
    if capacity.low < 0 {
        return false;
    }
    all_enough(tasks, capacity)
}
