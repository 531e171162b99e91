//! What closes a box.

ghost use Rattle.std.specs.Prelude.{◌≡◌, ◌≤◌, ◌≤ℤ◌, ◌<◌, ◌*ℤ◌, false, get_or, int_lt, length, pos, None, slice_get};
ghost use Rattle.std.specs.Option.{option_map_or};
ghost use Rattle.sopl_base.specs.declared.reason.Reason.TheVariants.{Bound, Chance, Hard, Undefined};
ghost use Rattle.box_problem.specs.Box.{Inside, high, low};
ghost use Rattle.term_language.specs.Rules as rule;
ghost use Rattle.term_problem.specs.Refuted.{is_false, is_never, refutes, weight_left};
ghost use Rattle.term_problem.specs.Objective.{better_end, goal_ends};
ghost use Rattle.term_problem.specs.Problems.{direction_in};
ghost use Rattle.term_math.specs.Shown.{box_in};
ghost use Rattle.term_goals.specs.Goals.{goal_of};
ghost use Rattle.term_goals.specs.Wide.{wide_ends};
ghost use Rattle.term_nodes.specs.Things.{cond_at, term_at};
ghost use Rattle.term_program.specs.Drafts.{IsGoalOf, IsThreshold, conditions_of};
ghost use Rattle.term_program.specs.Programs.{IsMade, kept, no_better, problem_in, root_in, things_in, with_interval};

use crate::draft::{ChanceConditions, Conditions};
use crate::over::{part_of, view_of};
use crate::program::Program;
use box_store::BoxStore;
use sopl_base::{Direction, Interval, Reason, Wide, better, reaches};
use term_goals::{Goal, WideEnds};
use term_language::{Defined, Truth};
use term_math::BoxView;

impl Program {
    /// Whether a condition is False over a box.
    fn is_false(&self, cond: u32, view: &BoxView) -> bool
        requires made { IsMade self.now }
        requires inside { Inside (box_in view.now) (root_in self.now) }
        ensures { result ≡ is_false (rule.truth rule.Near (root_in self.now) (box_in view.now) (cond_at (things_in self.now) cond)) }
    {
        match self.draft.store.kleene(cond, view) {
            Truth::False => true,
            Truth::Unknown => false,
            Truth::True => false,
        }
    }

    /// Whether a constraint is False in a scenario over a box.
    fn false_in(&self, conditions: &Conditions, scenario: u32, view: &BoxView) -> bool
        requires made { IsMade self.now }
        requires inside { Inside (box_in view.now) (root_in self.now) }
        ensures { result ≡ option_map_or (λ condition. is_false (rule.truth rule.Near (root_in self.now) (box_in view.now) condition))
            (slice_get (conditions_of (things_in self.now) conditions.now) scenario) false }
    {
        match conditions.ids.get(scenario as usize) {
            Some(cond) => self.is_false(*cond, view),
            None => false,
        }
    }

    /// Whether a hard constraint closes a box in a scenario.
    #[tactic(auto, using(crate::proofs::Reasons::hard_there, crate::proofs::Reasons::hard_missing))]
    fn hard_closes(&self, instance: u32, scenario: u32, view: &BoxView) -> bool
        requires made { IsMade self.now }
        requires inside { Inside (box_in view.now) (root_in self.now) }
        ensures { result ≡ refutes (root_in self.now) (problem_in self.now) (Hard instance scenario) (box_in view.now) None }
    {
        match self.draft.hards.get(instance as usize) {
            Some(conditions) => self.false_in(conditions, scenario, view),
            None => false,
        }
    }

    /// The weight of a scenario, if its condition is not False over a box.
    fn weight_kept(&self, conditions: &Conditions, scenario: usize, view: &BoxView) -> Wide
        requires made { IsMade self.now }
        requires inside { Inside (box_in view.now) (root_in self.now) }
        requires exists { scenario < length conditions.now.ids.items }
        requires each { length conditions.now.ids.items ≡ length self.now.draft.weights.items }
        ensures { result.value ≡ kept (is_false (rule.truth rule.Near (root_in self.now) (box_in view.now) (cond_at (things_in self.now) (get_or conditions.now.ids.items scenario 0))))
            (get_or self.now.draft.weights.items scenario (pos 0)) }
    {
        if self.is_false(conditions.ids[scenario], view) {
            return Wide::of(0);
        }
        Wide {
            value: self.draft.weights[scenario],
        }
    }

    /// The weight of the scenarios in which a constraint is not False over a box.
    #[tactic(auto, using(crate::proofs::Weighing::next_left, crate::proofs::Weighing::none_left, crate::proofs::Weighing::sum_fits))]
    fn weight_left(&self, conditions: &Conditions, view: &BoxView) -> Wide
        requires made { IsMade self.now }
        requires inside { Inside (box_in view.now) (root_in self.now) }
        requires each { length conditions.now.ids.items ≡ length self.now.draft.weights.items }
        ensures { result.value ≡ weight_left (root_in self.now) (box_in view.now) (problem_in self.now).weights (conditions_of (things_in self.now) conditions.now) }
    {
        let mut left = Wide::of(0);
        for i in (0..conditions.ids.len()).rev() {
            let here = self.weight_kept(conditions, i, view);
            left = here.plus(left);
        }
        left
    }

    /// Whether the condition of a chance constraint is False in too many scenarios over a box.
    #[tactic(auto, using(crate::proofs::Weighing::left_up, crate::proofs::Weighing::left_whole, crate::proofs::Reasons::unreached))]
    fn too_few(&self, chance: &ChanceConditions, view: &BoxView) -> bool
        requires made { IsMade self.now }
        requires inside { Inside (box_in view.now) (root_in self.now) }
        requires threshold { IsThreshold chance.now }
        requires each { length chance.now.conditions.ids.items ≡ length self.now.draft.weights.items }
        ensures { result ≡ int_lt (chance.now.q *ℤ weight_left (root_in self.now) (box_in view.now) (problem_in self.now).weights (conditions_of (things_in self.now) chance.now.conditions))
            (chance.now.p *ℤ (problem_in self.now).whole) }
    {
        let left = self.weight_left(&chance.conditions, view);
        !reaches(left.value, self.draft.whole, chance.p, chance.q)
    }

    /// Whether a chance constraint closes a box.
    #[tactic(auto, using(crate::proofs::Reasons::threshold_at))]
    fn chance_closes(&self, instance: u32, view: &BoxView) -> bool
        requires made { IsMade self.now }
        requires inside { Inside (box_in view.now) (root_in self.now) }
        ensures { result ≡ refutes (root_in self.now) (problem_in self.now) (Chance instance) (box_in view.now) None }
    {
        match self.draft.chances.get(instance as usize) {
            Some(chance) => self.too_few(chance, view),
            None => false,
        }
    }

    /// Whether a term is Never defined over a box.
    fn is_never(&self, term: u32, view: &BoxView) -> bool
        requires made { IsMade self.now }
        requires exists { term < length (things_in self.now) }
        requires inside { Inside (box_in view.now) (root_in self.now) }
        ensures { result ≡ is_never (rule.mark rule.Near (root_in self.now) (box_in view.now) (term_at (things_in self.now) term)) }
    {
        match self.draft.store.range_of(term, view).mark {
            Defined::Never => true,
            Defined::Maybe => false,
            Defined::Always => false,
        }
    }

    /// Whether the objective is Never defined in a scenario over a box.
    #[tactic(auto, using(term_nodes::proofs::Steps::cond_below))]
    fn never_in(&self, goal: &Goal, scenario: u32, view: &BoxView) -> bool
        requires made { IsMade self.now }
        requires kept { IsGoalOf self.now.draft goal.now }
        requires inside { Inside (box_in view.now) (root_in self.now) }
        ensures { result ≡ option_map_or (λ term. is_never (rule.mark rule.Near (root_in self.now) (box_in view.now) term)) (slice_get (goal_of (things_in self.now) goal.now).terms scenario) false }
    {
        match goal.terms().get(scenario as usize) {
            Some(term) => self.is_never(*term, view),
            None => false,
        }
    }

    /// Whether the objective closes a box by what it is in a scenario.
    fn undefined_closes(&self, scenario: u32, view: &BoxView) -> bool
        requires made { IsMade self.now }
        requires inside { Inside (box_in view.now) (root_in self.now) }
        ensures { result ≡ refutes (root_in self.now) (problem_in self.now) (Undefined scenario) (box_in view.now) None }
    {
        match &self.goal {
            Some(goal) => self.never_in(goal, scenario, view),
            None => false,
        }
    }

    /// The interval of the objective over a box.
    #[tactic(auto, using(crate::proofs::Goals::ends_of_goal))]
    pub(crate) fn goal_interval(&self, view: &BoxView) -> WideEnds
        requires made { IsMade self.now }
        requires inside { Inside (box_in view.now) (root_in self.now) }
        ensures { wide_ends result ≡ goal_ends (root_in self.now) (box_in view.now) (problem_in self.now) }
    {
        match &self.goal {
            Some(goal) => goal.ends(&self.draft.store.here(view)),
            None => WideEnds { low: 0, high: 0 },
        }
    }

    /// The better end of the objective's interval over a box.
    pub(crate) fn end_over(&self, view: &BoxView) -> Wide
        requires made { IsMade self.now }
        requires inside { Inside (box_in view.now) (root_in self.now) }
        ensures { result.value ≡ better_end (direction_in (problem_in self.now)) (goal_ends (root_in self.now) (box_in view.now) (problem_in self.now)) }
    {
        better_end(self.direction(), &self.goal_interval(view))
    }

    /// Whether no number of the objective's interval over a box is better than a value.
    #[tactic(auto, using(crate::proofs::Ending::bound_closes))]
    fn bound_closes(&self, view: &BoxView, best: Option<i128>) -> bool
        requires made { IsMade self.now }
        requires inside { Inside (box_in view.now) (root_in self.now) }
        ensures { result ≡ refutes (root_in self.now) (problem_in self.now) Bound (box_in view.now) best }
    {
        let Some(value) = best else {
            return false;
        };
        let end = self.end_over(view);
        is_no_better(self.direction(), end, Wide { value })
    }

    /// Whether a reason closes a box, against the best value where there is one.
    pub(crate) fn closes(&self, reason: Reason, view: &BoxView, best: Option<i128>) -> bool
        requires made { IsMade self.now }
        requires inside { Inside (box_in view.now) (root_in self.now) }
        ensures { result ≡ refutes (root_in self.now) (problem_in self.now) reason (box_in view.now) best }
    {
        match reason {
            Reason::Hard { instance, scenario } => self.hard_closes(instance, scenario, view),
            Reason::Chance { instance } => self.chance_closes(instance, view),
            Reason::Undefined { scenario } => self.undefined_closes(scenario, view),
            Reason::Bound => self.bound_closes(view, best),
        }
    }
}

/// The better end of an interval.
fn better_end(direction: Direction, ends: &WideEnds) -> Wide
    ensures { result.value ≡ better_end direction (wide_ends ends.now) }
{
    match direction {
        Direction::Minimize => Wide { value: ends.low },
        Direction::Maximize => Wide { value: ends.high },
        Direction::Nothing => Wide { value: 0 },
    }
}

/// Whether the better end of an interval is not better than a value.
#[tactic(auto, using(crate::proofs::Ending::not_better))]
pub fn is_no_better(direction: Direction, end: Wide, best: Wide) -> bool
    ensures { result ≡ no_better direction end.value best.value }
{
    !better(direction, end.value, best.value)
}

/// Whether a reason closes the box of a store, against the best value where there is one. A reason that names what is not there closes nothing.
pub fn refuted(program: &Program, reason: Reason, store: &BoxStore, best: Option<i128>) -> bool
    requires made { IsMade program.now }
    requires inside { Inside store.now.box (root_in program.now) }
    ensures { result ≡ refutes (root_in program.now) (problem_in program.now) reason store.now.box best }
{
    program.closes(reason, &view_of(store), best)
}

/// Whether a reason closes the box of a store with another interval for one cell, against the best value where there is one.
pub fn refuted_in(
    program: &Program,
    reason: Reason,
    store: &BoxStore,
    best: Option<i128>,
    cell: u32,
    part: Interval,
) -> bool
    requires made { IsMade program.now }
    requires inside { Inside store.now.box (root_in program.now) }
    requires from_low { low (root_in program.now) cell ≤ℤ part.lo }
    requires to_high { part.hi ≤ℤ high (root_in program.now) cell }
    ensures { result ≡ refutes (root_in program.now) (problem_in program.now) reason (with_interval store.now.box cell part.lo part.hi) best }
{
    let changed = view_of(store).replaced(&part_of(cell, part));
    program.closes(reason, &changed, best)
}
