//! Whether tasks fit over a box, evaluated anew wherever they are looked at, so that it takes no memory.

ghost use Rattle.std.specs.Prelude.{◌≡◌, ◌<◌, ◌≤◌, ◌≤ℤ◌, length, pos, true};
ghost use Rattle.term_language.specs.Globals as globals;
ghost use Rattle.term_language.specs.Marks as marks;
ghost use Rattle.term_language.specs.Rules as rule;
ghost use Rattle.term_language.specs.Terms as term;
ghost use Rattle.term_language.specs.declared.answers.Defined.TheVariants.{Always, Maybe};
ghost use Rattle.term_math.specs.Shown.{box_in, ends_of};
ghost use Rattle.term_crowds.specs.Crowds as crowds;
ghost use Rattle.term_windows.specs.Tasks as windows;
ghost use Rattle.term_windows.specs.Tasks.{task_ends_of};
ghost use Rattle.term_nodes.specs.Built.{TasksBelow};
ghost use Rattle.term_nodes.specs.Seen.{CanRead, reading_of, tasks_seen};
ghost use Rattle.term_nodes.specs.Tasks.{mark_seen, task_seen};
ghost use Rattle.term_nodes.specs.Things.{tasks_at, term_at, things};

use crate::evaluation::Evaluator;
use crate::nodes::Task;
use term_language::{Defined, Truth};
use term_math::{Ends, both};
use term_windows::{Amount, TaskRange};

impl<'a> Evaluator<'a> {
    /// The intervals of a task's numbers over the box, and the mark of all three.
    #[cycle(seen)]
    #[tactic(auto, using(crate::proofs::Tasking::task_made))]
    fn task(&self, limit: u32, task: &Task) -> TaskRange
        requires ready { CanRead self.now }
        requires exists { limit ≤ length self.now.items.now }
        requires start { task.now.start < limit }
        requires duration { task.now.duration < limit }
        requires demand { task.now.demand < limit }
        ensures task { task_ends_of result ≡ task_seen (reading_of self.now) (box_in self.now.root) (box_in self.now.view) (things self.now.items.now) task.now }
        ensures mark { result.mark ≡ mark_seen (reading_of self.now) (box_in self.now.root) (box_in self.now.view) (things self.now.items.now) task.now }
    {
        let start = self.range(task.start);
        let duration = self.range(task.duration);
        let demand = self.range(task.demand);
        TaskRange {
            start: start.ends,
            duration: duration.ends,
            demand: demand.ends,
            mark: both(start.mark, both(duration.mark, demand.mark)),
        }
    }

    /// The mark of all numbers of several tasks over the box, together.
    #[cycle(seen)]
    #[tactic(auto, using(crate::proofs::Tasking::next_task_mark, crate::proofs::Tasking::no_task_mark))]
    fn task_marks(&self, limit: u32, tasks: &[Task]) -> Defined
        requires ready { CanRead self.now }
        requires exists { limit ≤ length self.now.items.now }
        requires below { TasksBelow limit tasks.now }
        ensures { result ≡ rule.task_mark (reading_of self.now) (box_in self.now.root) (box_in self.now.view) (tasks_at (things self.now.items.now) tasks.now) }
    {
        let mut mark = Defined::Always;
        for i in (0..tasks.len()).rev() {
            let here = self.task(limit, &tasks[i]).mark;
            mark = both(here, mark);
        }
        mark
    }

    /// Whether the length or the demand of some task is surely negative.
    #[cycle(seen)]
    #[tactic(auto, using(crate::proofs::Tasking::next_negative, crate::proofs::Tasking::this_negative, crate::proofs::Tasking::none_negative))]
    fn some_negative(&self, limit: u32, tasks: &[Task]) -> bool
        requires ready { CanRead self.now }
        requires exists { limit ≤ length self.now.items.now }
        requires below { TasksBelow limit tasks.now }
        ensures { result ≡ crowds.some_negative (tasks_seen self.now tasks.now) }
    {
        'tasks: for task in tasks {
            let range = self.task(limit, task);
            if range.is_negative() {
                return true;
            }
        }
        false
    }

    /// Whether the capacity is surely passed at a time.
    #[cycle(seen)]
    #[tactic(auto, using(term_windows::proofs::Fitting::first_room, crate::proofs::Tasking::next_room, crate::proofs::Tasking::no_room, crate::proofs::Tasking::room_left))]
    fn overfull_at(&self, limit: u32, tasks: &[Task], capacity: &Ends, time: &Amount) -> bool
        requires ready { CanRead self.now }
        requires exists { limit ≤ length self.now.items.now }
        requires below { TasksBelow limit tasks.now }
        requires room { pos 0 ≤ℤ capacity.now.high }
        ensures { result ≡ globals.is_overfull (tasks_seen self.now tasks.now) (ends_of capacity.now) time.now.number }
    {
        let mut room = Amount::upper(capacity);
        'tasks: for task in tasks {
            let range = self.task(limit, task);
            let asked = range.least_asked(time);
            if asked.number > room.number {
                return true;
            }
            room = room.without(&asked);
        }
        false
    }

    /// Whether the capacity is surely passed at the greatest start of some task.
    #[cycle(seen)]
    #[tactic(auto, using(crate::proofs::Tasking::next_peak, crate::proofs::Tasking::some_peak, crate::proofs::Tasking::none_peak))]
    fn some_overfull(&self, limit: u32, tasks: &[Task], capacity: &Ends) -> bool
        requires ready { CanRead self.now }
        requires exists { limit ≤ length self.now.items.now }
        requires below { TasksBelow limit tasks.now }
        requires room { pos 0 ≤ℤ capacity.now.high }
        ensures { result ≡ windows.some_overfull (tasks_seen self.now tasks.now) (ends_of capacity.now) (tasks_seen self.now tasks.now) }
    {
        'tasks: for task in tasks {
            let range = self.task(limit, task);
            if self.overfull_at(limit, tasks, capacity, &Amount::upper(&range.start)) {
                return true;
            }
        }
        false
    }

    /// Whether tasks surely do not fit.
    #[cycle(seen)]
    #[tactic(auto, using(term_windows::proofs::Fitting::never_by_negative, term_windows::proofs::Fitting::never_by_capacity, term_windows::proofs::Fitting::never_by_peak))]
    fn never_fit(&self, limit: u32, tasks: &[Task], capacity: &Ends) -> bool
        requires ready { CanRead self.now }
        requires exists { limit ≤ length self.now.items.now }
        requires below { TasksBelow limit tasks.now }
        ensures { result ≡ globals.never_fit (tasks_seen self.now tasks.now) (ends_of capacity.now) }
    {
        if self.some_negative(limit, tasks) {
            return true;
        }
        if capacity.high < 0 {
            return true;
        }
        self.some_overfull(limit, tasks, capacity)
    }

    /// Whether no length and no demand may be negative.
    #[cycle(seen)]
    #[tactic(auto, using(crate::proofs::Tasking::next_sound, crate::proofs::Tasking::not_sound, crate::proofs::Tasking::all_are_sound))]
    fn all_sound(&self, limit: u32, tasks: &[Task]) -> bool
        requires ready { CanRead self.now }
        requires exists { limit ≤ length self.now.items.now }
        requires below { TasksBelow limit tasks.now }
        ensures { result ≡ crowds.all_sound (tasks_seen self.now tasks.now) }
    {
        'tasks: for task in tasks {
            let range = self.task(limit, task);
            if !range.is_sound() {
                return false;
            }
        }
        true
    }

    /// Whether the capacity is surely enough at a time.
    #[cycle(seen)]
    #[tactic(auto, using(term_windows::proofs::Fitting::first_room, crate::proofs::Tasking::next_room, crate::proofs::Tasking::asks_some, crate::proofs::Tasking::no_most, crate::proofs::Tasking::most_left))]
    fn enough_at(&self, limit: u32, tasks: &[Task], capacity: &Ends, time: &Amount) -> bool
        requires ready { CanRead self.now }
        requires exists { limit ≤ length self.now.items.now }
        requires below { TasksBelow limit tasks.now }
        requires room { pos 0 ≤ℤ capacity.now.low }
        requires sound { crowds.all_sound (tasks_seen self.now tasks.now) ≡ true }
        ensures { result ≡ globals.is_enough (tasks_seen self.now tasks.now) (ends_of capacity.now) time.now.number }
    {
        let mut room = Amount::lower(capacity);
        'tasks: for task in tasks {
            let range = self.task(limit, task);
            let asked = range.most_asked(time);
            if asked.number > room.number {
                return false;
            }
            room = room.without(&asked);
        }
        true
    }

    /// Whether the capacity is surely enough at the least start of each task.
    #[cycle(seen)]
    #[tactic(auto, using(crate::proofs::Tasking::next_enough, crate::proofs::Tasking::not_enough, crate::proofs::Tasking::all_are_enough))]
    fn all_enough(&self, limit: u32, tasks: &[Task], capacity: &Ends) -> bool
        requires ready { CanRead self.now }
        requires exists { limit ≤ length self.now.items.now }
        requires below { TasksBelow limit tasks.now }
        requires room { pos 0 ≤ℤ capacity.now.low }
        requires sound { crowds.all_sound (tasks_seen self.now tasks.now) ≡ true }
        ensures { result ≡ windows.all_enough (tasks_seen self.now tasks.now) (ends_of capacity.now) (tasks_seen self.now tasks.now) }
    {
        'tasks: for task in tasks {
            let range = self.task(limit, task);
            if !self.enough_at(limit, tasks, capacity, &Amount::lower(&range.start)) {
                return false;
            }
        }
        true
    }

    /// Whether tasks surely fit.
    #[cycle(seen)]
    #[tactic(auto, using(term_windows::proofs::Fitting::unless_sound, term_windows::proofs::Fitting::unless_room, term_windows::proofs::Fitting::always_by_all))]
    fn always_fit(&self, limit: u32, tasks: &[Task], capacity: &Ends) -> bool
        requires ready { CanRead self.now }
        requires exists { limit ≤ length self.now.items.now }
        requires below { TasksBelow limit tasks.now }
        ensures { result ≡ globals.always_fit (tasks_seen self.now tasks.now) (ends_of capacity.now) }
    {
        if !self.all_sound(limit, tasks) {
            return false;
        }
        if capacity.low < 0 {
            return false;
        }
        self.all_enough(limit, tasks, capacity)
    }

    /// Whether tasks fit whose numbers may be undefined.
    #[cycle(seen)]
    #[tactic(auto, using(crate::proofs::Crowding::maybe_never, crate::proofs::Crowding::maybe_open))]
    fn may_fit(&self, limit: u32, tasks: &[Task], capacity: &Ends) -> Truth
        requires ready { CanRead self.now }
        requires exists { limit ≤ length self.now.items.now }
        requires below { TasksBelow limit tasks.now }
        ensures { result ≡ marks.judged Maybe (globals.never_fit (tasks_seen self.now tasks.now) (ends_of capacity.now)) (globals.always_fit (tasks_seen self.now tasks.now) (ends_of capacity.now)) }
    {
        if self.never_fit(limit, tasks, capacity) {
            return Truth::False;
        }
        Truth::Unknown
    }

    /// Whether tasks fit whose numbers are Always defined.
    #[cycle(seen)]
    #[tactic(auto, using(crate::proofs::Tasking::surely_not, crate::proofs::Tasking::surely_fit, crate::proofs::Tasking::not_surely_fit))]
    fn do_fit(&self, limit: u32, tasks: &[Task], capacity: &Ends) -> Truth
        requires ready { CanRead self.now }
        requires exists { limit ≤ length self.now.items.now }
        requires below { TasksBelow limit tasks.now }
        ensures { result ≡ marks.judged Always (globals.never_fit (tasks_seen self.now tasks.now) (ends_of capacity.now)) (globals.always_fit (tasks_seen self.now tasks.now) (ends_of capacity.now)) }
    {
        if self.never_fit(limit, tasks, capacity) {
            return Truth::False;
        }
        if self.always_fit(limit, tasks, capacity) {
            return Truth::True;
        }
        Truth::Unknown
    }

    /// The truth of `cumulative` over the box.
    #[cycle(seen)]
    #[tactic(auto, using(crate::proofs::Crowding::judged_by))]
    pub(crate) fn cumulative(&self, limit: u32, tasks: &[Task], capacity: u32) -> Truth
        requires ready { CanRead self.now }
        requires exists { limit ≤ length self.now.items.now }
        requires below { TasksBelow limit tasks.now }
        requires capacity { capacity < limit }
        ensures { result ≡ rule.truth (reading_of self.now) (box_in self.now.root) (box_in self.now.view) (term.Cumulative (tasks_at (things self.now.items.now) tasks.now) (term_at (things self.now.items.now) capacity)) }
    {
        let most = self.range(capacity);
        match both(self.task_marks(limit, tasks), most.mark) {
            Defined::Never => Truth::False,
            Defined::Maybe => self.may_fit(limit, tasks, &most.ends),
            Defined::Always => self.do_fit(limit, tasks, &most.ends),
        }
    }
}
