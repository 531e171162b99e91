//! A policy is tried on the constraints and the objective of a text.

ghost use Rattle.std.specs.Prelude.{◌≡◌, ◌<◌, ◌^◌, ◌∷◌, ◌++◌, ◌*ℤ◌, ◌≤ℤ◌, [], ℕ, All, IfOk, OnOk, Some, false, get_or, int_le, length, map, pos};
ghost use Rattle.std.specs.List.{range_with_len};
ghost use Rattle.sopl_base.specs.declared.limits.TheConstants as largest;
ghost use Rattle.sopl_ast.specs.Numbers.{one_or_zero};
ghost use Rattle.sopl_scen.specs.Layout.{weight_in};
ghost use Rattle.unfold_constants.specs.Here.{known_in};
ghost use Rattle.unfold_laws.specs.Conditions.{IsThreshold};
ghost use Rattle.unfold_tables.specs.Tables.{table_known};
ghost use Rattle.policy_values.specs.Played.{place_of};
ghost use Rattle.policy_values.specs.Safe.{IsSafe, IsTestable};
ghost use Rattle.policy_eval.specs.Reports.{IsHeld, IsReport, chance, satisfied};
ghost use Rattle.policy_eval.specs.Shown.{report_shown};
ghost use Rattle.policy_eval.specs.Tried.{AreReached, ChancesTold, FitOn, HardsTold, IsFirstFalse, IsTrial, IsTried, IsValuation, holds_at, played_at, policy_of, posed};
ghost use Rattle.policy_eval.specs.Tried.{scenario_count, truth_at, value_at, weight_where, weighted};
ghost use Rattle.policy_eval.specs.Valued.{is_worth, worst_in, worst_of};

use crate::report::Report;
use compile_counts::{condition_at, known_at};
use policy_values::{PlayedScenario, Variables};
use sopl_ast::{Expr, Goal};
use sopl_base::{Direction, Extreme, Wide, reaches};
use sopl_scen::Tree;
use sopl_unfold::{ChanceItem, Env, HardItem};
use std::alloc::{AllocError, Global};
use unfold_constants::ConstantScope;
use unfold_tables::{Table, add, extreme, one_or_zero};

/// A text as it is unfolded, its scenarios, and the values that a policy gives the cells.
#[derive(Clone, Copy)]
pub(crate) struct Trial<'a, 'b> {
    pub(crate) alloc: Global,
    pub(crate) table: &'a Table,
    pub(crate) conditions: &'b [&'a Expr],
    pub(crate) hards: &'a [HardItem],
    pub(crate) chances: &'a [ChanceItem],
    pub(crate) goal: &'a Option<Goal>,
    pub(crate) variables: &'b Variables<'a>,
    pub(crate) tree: &'b Tree,
    pub(crate) policy: &'b [i64],
}

/// The part of the whole weight that a chance constraint asks for, p over q.
#[derive(Clone, Copy)]
struct ChanceLevel {
    p: i64,
    q: i64,
}

/// What an expression is worth in all scenarios, or the first in which it is undefined.
#[derive(Drop)]
pub(crate) enum Valuation {
    Valued(Vec<i64>),
    Undefined(u32),
}

impl<'a, 'b> Trial<'a, 'b> {
    /// A scenario of the text under the policy.
    fn at(&self, scenario: u32) -> PlayedScenario<'a, 'b>
        ensures played { result ≡ played_at self.now scenario }
    {
        PlayedScenario {
            alloc: self.alloc,
            variables: self.variables,
            tree: self.tree,
            policy: self.policy,
            scenario,
        }
    }

    /// The first hard constraint that fails, with the first scenario in which it does, if one does.
    pub(crate) fn hards(&self) -> Result<Option<Report>, AllocError>
        requires tried { IsTrial self.now }
        ensures told { IfOk result (HardsTold self.now) }
    {
        'hards: for instance in 0..self.hards.len() {
            let hard = &self.hards[instance];
            let Some(scenario) = self.hard_failure(hard)? else {
                continue;
            };
            return Ok(Some(Report::Hard {
                instance: instance as u32,
                scenario,
            }));
        }
        Ok(None)
    }

    /// The first scenario in which a hard constraint fails.
    fn hard_failure(&self, hard: &'a HardItem) -> Result<Option<u32>, AllocError>
        requires tried { IsTrial self.now }
        requires condition { IsTried self.now hard.now.text hard.now.bound }
        ensures first { IfOk result (IsFirstFalse (holds_at self.now hard.now.text hard.now.bound) (scenario_count self.now)) }
    {
        self.first_false(hard.text, &hard.env)
    }

    /// The first scenario in which the condition with a number is false, where binders give this.
    fn first_false(&self, text: u32, env: &'a Env) -> Result<Option<u32>, AllocError>
        requires tried { IsTrial self.now }
        requires condition { IsTried self.now text env.now }
        ensures first { IfOk result (IsFirstFalse (holds_at self.now text env.now) (scenario_count self.now)) }
    {
        let known = known_at(self.alloc, self.table, env)?;
        self.first_without(&known, condition_at(self.conditions, text))
    }

    /// The first scenario in which a condition is false.
    fn first_without(
        &self,
        known: &ConstantScope<'a>,
        condition: &'a Expr,
    ) -> Result<Option<u32>, AllocError>
        requires tried { IsTrial self.now }
        requires safe { (i : ℕ) → i < scenario_count self.now → IsTestable (place_of (played_at self.now i) (known_in known.now)) condition.now }
        ensures first { IfOk result (IsFirstFalse (truth_at self.now (known_in known.now) condition.now) (scenario_count self.now)) }
    {
        'scenarios: for scenario in 0..self.tree.count() {
            if !self.at(scenario).condition(known, condition)? {
                return Ok(Some(scenario));
            }
        }
        Ok(None)
    }

    /// The sums of all chance constraints, or the first that is not reached.
    pub(crate) fn chances(&self) -> Result<Result<Vec<i128>, Report>, AllocError>
        requires tried { IsTrial self.now }
        requires held { All (IsHeld (posed self.now) (policy_of self.now)) self.now.hards.now }
        ensures told { IfOk result (ChancesTold self.now) }
    {
        let mut sums = Vec::new(self.alloc);
        'chances: for instance in 0..self.chances.len() {
            let chance = &self.chances[instance];
            let sum = self.chance_sum(chance)?;
            if !self.is_reached(chance, sum) {
                return Ok(Err(unreached(instance as u32, sum)));
            }
            put(&mut sums, sum)?;
        }
        Ok(Ok(sums))
    }

    /// Whether a sum reaches the threshold of a chance constraint.
    fn is_reached(&self, chance: &ChanceItem, sum: Wide) -> bool
        requires tried { IsTrial self.now }
        requires threshold { IsThreshold chance.now.p chance.now.q }
        requires low { pos 0 ≤ℤ sum.value }
        requires high { sum.value ≤ℤ self.now.tree.now.total }
        ensures reached { result ≡ int_le (chance.now.p *ℤ self.now.tree.now.total) (chance.now.q *ℤ sum.value) }
    {
        is_enough(sum, self.whole(), &level_of(chance))
    }

    /// The weight of all scenarios.
    fn whole(&self) -> Wide
        ensures whole { result.value ≡ self.now.tree.now.total }
    {
        Wide {
            value: self.tree.total(),
        }
    }

    /// The weight of the scenarios in which the condition of a chance constraint is true.
    fn chance_sum(&self, chance: &'a ChanceItem) -> Result<Wide, AllocError>
        requires tried { IsTrial self.now }
        requires condition { IsTried self.now chance.now.text chance.now.bound }
        ensures sum { IfOk result (λ sum. sum.value ≡ weight_where self.now (holds_at self.now chance.now.text chance.now.bound)) }
    {
        self.weight_of(chance.text, &chance.env)
    }

    /// The weight of the scenarios in which the condition with a number is true, where binders give this.
    fn weight_of(&self, text: u32, env: &'a Env) -> Result<Wide, AllocError>
        requires tried { IsTrial self.now }
        requires condition { IsTried self.now text env.now }
        ensures sum { IfOk result (λ sum. sum.value ≡ weight_where self.now (holds_at self.now text env.now)) }
    {
        let known = known_at(self.alloc, self.table, env)?;
        let truths = self.truths(&known, condition_at(self.conditions, text))?;
        Ok(self.weighted(truths.as_slice()))
    }

    /// In each scenario 1, where a condition is true, and else 0.
    fn truths(&self, known: &ConstantScope<'a>, condition: &'a Expr) -> Result<Vec<i64>, AllocError>
        requires tried { IsTrial self.now }
        requires safe { (i : ℕ) → i < scenario_count self.now → IsTestable (place_of (played_at self.now i) (known_in known.now)) condition.now }
        ensures truths { IfOk result (λ truths. truths.items ≡ map (λ i. one_or_zero (truth_at self.now (known_in known.now) condition.now i)) (range_with_len 0 (scenario_count self.now))) }
    {
        let mut truths = Vec::new(self.alloc);
        'scenarios: for scenario in 0..self.tree.count() {
            let holds = self.at(scenario).condition(known, condition)?;
            add(&mut truths, one_or_zero(holds))?;
        }
        Ok(truths)
    }

    /// That the policy satisfies, with its value and these sums; or the first scenario in which the objective is undefined.
    pub(crate) fn objective(&self, sums: Vec<i128>) -> Result<Report, AllocError>
        requires tried { IsTrial self.now }
        requires held { All (IsHeld (posed self.now) (policy_of self.now)) self.now.hards.now }
        requires reached { AreReached self.now sums.items }
        ensures told { IfOk result (λ report. IsReport (posed self.now) (policy_of self.now) (report_shown report)) }
    {
        match self.goal {
            None => Ok(Report::Satisfied {
                value: 0,
                chances: sums,
            }),
            Some(goal) => self.valued(goal, sums),
        }
    }

    /// What the policy comes to where there is an objective: its value, or the first scenario in which the objective is undefined.
    fn valued(&self, goal: &'a Goal, sums: Vec<i128>) -> Result<Report, AllocError>
        requires tried { IsTrial self.now }
        requires held { All (IsHeld (posed self.now) (policy_of self.now)) self.now.hards.now }
        requires reached { AreReached self.now sums.items }
        requires goal { self.now.goal.now ≡ Some goal.now }
        ensures told { IfOk result (λ report. IsReport (posed self.now) (policy_of self.now) (report_shown report)) }
    {
        match self.values(&goal.expr)? {
            Valuation::Valued(values) => Ok(satisfied(self.worth(goal, values.as_slice()), sums)),
            Valuation::Undefined(scenario) => Ok(Report::Objective { scenario }),
        }
    }

    /// What an expression is worth in each scenario, or the first in which it is undefined.
    fn values(&self, e: &'a Expr) -> Result<Valuation, AllocError>
        requires tried { IsTrial self.now }
        requires safe { (i : ℕ) → i < scenario_count self.now → IsSafe (place_of (played_at self.now i) (table_known self.now.table.now)) e.now }
        ensures values { IfOk result (IsValuation (value_at self.now (table_known self.now.table.now) e.now) (scenario_count self.now)) }
    {
        let known = ConstantScope::new(self.alloc, self.table);
        let mut values = Vec::new(self.alloc);
        'scenarios: for scenario in 0..self.tree.count() {
            let Some(value) = self.at(scenario).number(&known, e)? else {
                return Ok(Valuation::Undefined(scenario));
            };
            add(&mut values, value)?;
        }
        Ok(Valuation::Valued(values))
    }

    /// The value of an objective by its values in all scenarios.
    fn worth(&self, goal: &Goal, values: &[i64]) -> Wide
        requires tried { IsTrial self.now }
        requires many { length values.now ≡ scenario_count self.now }
        requires fits { goal.now.worst ≡ false → FitOn (pos 0) self.now.tree.now.weights values.now }
        ensures worth { result.value ≡ is_worth goal.now.worst goal.now.direction self.now.tree.now.weights values.now }
    {
        if goal.worst {
            worst(goal.direction, values)
        } else {
            self.weighted(values)
        }
    }

    /// The sum of weights times numbers, one number for each scenario.
    fn weighted(&self, numbers: &[i64]) -> Wide
        requires many { length numbers.now ≡ scenario_count self.now }
        requires fits { FitOn (pos 0) self.now.tree.now.weights numbers.now }
        ensures sum { result.value ≡ weighted self.now.tree.now.weights numbers.now }
    {
        let mut sum = Wide { value: 0 };
        'scenarios: for scenario in 0..self.tree.count() {
            let more = self.weight(scenario).times(number_at(numbers, scenario));
            sum = sum.plus(more);
        }
        sum
    }

    /// The weight of a scenario.
    fn weight(&self, scenario: u32) -> Wide
        requires exists { scenario < scenario_count self.now }
        ensures weight { result.value ≡ weight_in self.now.tree.now scenario }
    {
        Wide {
            value: self.tree.weight(scenario),
        }
    }
}

/// What a chance constraint asks for.
fn level_of(chance: &ChanceItem) -> ChanceLevel
    ensures p { result.p ≡ chance.now.p }
    ensures q { result.q ≡ chance.now.q }
{
    ChanceLevel {
        p: chance.p,
        q: chance.q,
    }
}

/// Whether a weight is such a part of the whole at least.
#[tactic(auto, using(crate::proofs::Compared::told_by))]
fn is_enough(sum: Wide, whole: Wide, level: &ChanceLevel) -> bool
    requires low { pos 0 ≤ℤ sum.value }
    requires high { sum.value ≤ℤ whole.value }
    requires light { whole.value ≤ℤ largest.WEIGHT }
    requires from_zero { pos 0 ≤ℤ level.now.p }
    requires to_whole { level.now.p ≤ℤ level.now.q }
    requires positive { pos 1 ≤ℤ level.now.q }
    requires small { level.now.q ≤ℤ pos (2 ^ 20) }
    ensures { result ≡ int_le (level.now.p *ℤ whole.value) (level.now.q *ℤ sum.value) }
{
    reaches(sum.value, whole.value, level.p, level.q)
}

/// The number for a scenario.
fn number_at(numbers: &[i64], scenario: u32) -> Wide
    requires exists { scenario < length numbers.now }
    ensures value { result.value ≡ get_or numbers.now scenario (pos 0) }
{
    Wide::of(numbers[scenario as usize])
}

/// The worst of values, of which there is one at least.
fn worst(direction: Direction, values: &[i64]) -> Wide
    requires some { 0 < length values.now }
    ensures worst { result.value ≡ worst_of direction values.now }
{
    Wide::of(worst_value(direction, values).unwrap_or(0))
}

/// The worst of values, or none of no values.
fn worst_value(direction: Direction, values: &[i64]) -> Option<i64>
    ensures worst { result ≡ worst_in direction values.now }
{
    match direction {
        Direction::Minimize => extreme(Extreme::Greatest, values),
        Direction::Maximize => extreme(Extreme::Least, values),
        Direction::Nothing => values.first().copied(),
    }
}

/// That a chance constraint is not reached.
fn unreached(instance: u32, sum: Wide) -> Report
    ensures told { report_shown result ≡ chance instance sum.value }
{
    Report::Chance {
        instance,
        sum: sum.value,
    }
}

/// That a policy satisfies.
fn satisfied(worth: Wide, sums: Vec<i128>) -> Report
    ensures told { report_shown result ≡ satisfied worth.value sums.items }
{
    Report::Satisfied {
        value: worth.value,
        chances: sums,
    }
}

/// Puts a sum behind others.
fn put(sums: &mut Vec<i128>, sum: Wide) -> Result<(), AllocError>
    ensures more { OnOk result (sums.new.items ≡ sums.old.items ++ sum.value ∷ []) }
{
    sums.push(sum.value)?;
    Ok(())
}
