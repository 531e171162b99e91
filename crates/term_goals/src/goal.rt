//! Objectives as they are kept.

ghost use Rattle.std.specs.Prelude.{◌≡◌, ◌≤◌, ◌≤ℤ◌, false, pos, length, List, ℤ, IfOk, IfSome};
ghost use Rattle.sopl_base.specs.declared.limits.TheConstants as largest;
ghost use Rattle.term_language.specs.Ends as ends;
ghost use Rattle.box_problem.specs.Box.{Box, Inside};
ghost use Rattle.term_problem.specs.Objective.{expected_ends, expected_form, goal_ends_of, worse_ends, worst_ends};
ghost use Rattle.term_math.specs.Shown.{box_in, ends_of};
ghost use Rattle.term_math.specs.Sums.{combination_of};
ghost use Rattle.term_nodes.specs.Built.{AllBelow};
ghost use Rattle.term_nodes.specs.Seen.{IsReady};
ghost use Rattle.term_nodes.specs.Things.{Thing, things};
ghost use Rattle.term_goals.specs.Wide.{wide_ends};
ghost use Rattle.term_goals.specs.Goals.{AreCells, AreWeights, AtomsExist, HasRoom, IsMeasured, IsSoundGoal, IsSummed, IsWeighted, asked_of, goal_of, constant_of, goal_size};
ghost use Rattle.term_goals.specs.Goals.{listed_ends, others, terms_of};

use crate::listing::listed;
use crate::sizes::{measured, scenario_weight};
use crate::sums::{Atom, Summed};
use crate::wide::WideEnds;
use sopl_base::{Direction, Fault};
use std::alloc::{AllocError, Global};
use term_math::{Combination, Ends, Extreme, taken};
use term_nodes::{Evaluator, form_at};

/// What an objective is made of: the weight of each scenario, and the number of its term in each.
#[derive(Clone, Copy)]
pub struct Objective<'a> {
    pub direction: Direction,
    pub worst: bool,
    pub weights: &'a [i128],
    pub terms: &'a [u32],
}

/// An objective: its terms, and their sum where the expected value counts.
#[derive(Drop)]
pub struct Goal {
    direction: Direction,
    terms: Vec<u32>,
    summed: Option<Summed>,
}

impl<'a> Objective<'a> {
    /// The linear form of the sum of weight times term.
    #[tactic(auto, using(crate::proofs::Summing::next_form))]
    fn form(&self, alloc: Global, here: &Evaluator) -> Result<Combination, AllocError>
        requires ready { IsReady here.now }
        requires exist { AllBelow (length here.now.items.now) self.now.terms.now }
        requires each { length self.now.terms.now ≡ length self.now.weights.now }
        requires weights { AreWeights self.now.weights.now }
        requires small { goal_size (box_in here.now.root) self.now.weights.now (terms_of (things here.now.items.now) self.now.terms.now) ≤ℤ largest.GOAL_SIZE }
        ensures { IfOk result (λ sum. combination_of sum ≡ expected_form (box_in here.now.root) self.now.weights.now (terms_of (things here.now.items.now) self.now.terms.now)) }
    {
        let mut sum = Combination::new(alloc);
        for i in (0..self.terms.len()).rev() {
            let weight = scenario_weight(self.weights, i);
            sum.add(&weight, form_at(here.items, self.terms[i]))?;
        }
        Ok(sum)
    }

    /// A multiple of each term that has more in it than cells.
    #[tactic(auto, using(crate::proofs::Summing::no_others))]
    fn others(&self, alloc: Global, here: &Evaluator) -> Result<Vec<Atom>, AllocError>
        requires ready { IsReady here.now }
        requires exist { AllBelow (length here.now.items.now) self.now.terms.now }
        requires each { length self.now.terms.now ≡ length self.now.weights.now }
        ensures { IfOk result (λ list. list.items ≡ others (box_in here.now.root) (things here.now.items.now) self.now.weights.now self.now.terms.now) }
    {
        let mut list = Vec::new(alloc);
        for i in 0..self.terms.len() {
            let term = self.terms[i];
            if form_at(here.items, term).plain {
                continue;
            }
            let weight = scenario_weight(self.weights, i);
            list.push(Atom::times(&weight, term))?;
        }
        Ok(list)
    }

    /// The sum of weight times term.
    fn summed(&self, alloc: Global, here: &Evaluator) -> Result<Summed, AllocError>
        requires ready { IsReady here.now }
        requires exist { AllBelow (length here.now.items.now) self.now.terms.now }
        requires each { length self.now.terms.now ≡ length self.now.weights.now }
        requires weights { AreWeights self.now.weights.now }
        requires small { goal_size (box_in here.now.root) self.now.weights.now (terms_of (things here.now.items.now) self.now.terms.now) ≤ℤ largest.GOAL_SIZE }
        ensures { IfOk result (λ summed. IsSummed (box_in here.now.root) (things here.now.items.now) self.now.weights.now self.now.terms.now summed) }
    {
        let sum = self.form(alloc, here)?;
        Ok(Summed {
            form: sum.form(alloc)?,
            atoms: self.others(alloc, here)?,
        })
    }

    /// The objective with its sum, where there is one.
    fn kept(&self, alloc: Global, summed: Option<Summed>) -> Result<Goal, AllocError>
        ensures direction { IfOk result (λ goal. goal.direction ≡ self.now.direction) }
        ensures terms { IfOk result (λ goal. goal.terms.items ≡ self.now.terms.now) }
        ensures summed { IfOk result (λ goal. goal.summed ≡ summed) }
    {
        Ok(Goal {
            direction: self.direction,
            terms: Vec::from_slice(alloc, self.terms)?,
            summed,
        })
    }
}

/// Of both ends the worse one.
fn worse(direction: Direction, a: &Ends, b: &Ends) -> Ends
    ensures { ends_of result ≡ worse_ends direction (ends_of a.now) (ends_of b.now) }
{
    match direction {
        Direction::Minimize => taken(Extreme::Greatest, a, b),
        Direction::Maximize => taken(Extreme::Least, a, b),
        Direction::Nothing => *a,
    }
}

/// The worst of the intervals of several terms.
fn worst(here: &Evaluator, direction: Direction, terms: &[u32]) -> Ends
    requires ready { IsReady here.now }
    requires exist { AllBelow (length here.now.items.now) terms.now }
    ensures { ends_of result ≡ worst_ends direction (box_in here.now.root) (box_in here.now.view) (terms_of (things here.now.items.now) terms.now) }
{
    let count = terms.len();
    if count == 0 {
        return Ends::zero();
    }
    let mut found = here.near_range(terms[count - 1]).ends;
    for i in (0..count - 1).rev() {
        let range = here.near_range(terms[i]);
        found = worse(direction, &range.ends, &found);
    }
    found
}

impl Goal {
    /// Keeps an objective over the nodes and the root that `here` gives.
    pub fn new(alloc: Global, here: &Evaluator, objective: &Objective) -> Result<Goal, Fault>
        requires ready { IsReady here.now }
        requires exist { AllBelow (length (things here.now.items.now)) objective.now.terms.now }
        requires each { length objective.now.terms.now ≡ length objective.now.weights.now }
        requires weights { AreWeights objective.now.weights.now }
        ensures goal { IfOk result (λ goal. goal_of (things here.now.items.now) goal ≡ asked_of (things here.now.items.now) objective.now) }
        ensures weighted { IfOk result (λ goal. IsWeighted (box_in here.now.root) (things here.now.items.now) objective.now.weights.now goal) }
        ensures sound { IfOk result (λ goal. IsSoundGoal (box_in here.now.root) (things here.now.items.now) goal) }
        ensures measured { IsMeasured objective.now.worst (goal_size (box_in here.now.root) objective.now.weights.now (terms_of (things here.now.items.now) objective.now.terms.now)) result }
    {
        if objective.worst {
            let goal = objective.kept(alloc, None)?;
            return Ok(goal);
        }
        measured(alloc, here, objective.weights, objective.terms)?;
        let summed = objective.summed(alloc, here)?;
        let goal = objective.kept(alloc, Some(summed))?;
        Ok(goal)
    }

    /// The direction.
    pub fn direction(&self) -> Direction
        ensures { (all : List Thing) → result ≡ (goal_of all self.now).direction }
    {
        self.direction
    }

    /// The number of the term in each scenario.
    pub fn terms(&self) -> &[u32]
        ensures { result.now ≡ self.now.terms.items }
    {
        self.terms.as_slice()
    }

    /// Whether the worst scenario counts, and not the expected value.
    pub fn is_worst(&self) -> bool
        ensures { (all : List Thing) → result ≡ (goal_of all self.now).worst }
    {
        self.summed.is_none()
    }

    /// The constant of the sum of an expected objective; 0 of any other.
    pub fn constant(&self) -> i128
        ensures { result ≡ constant_of self.now }
    {
        match &self.summed {
            Some(summed) => summed.form.constant,
            None => 0,
        }
    }

    /// What stands in an expected objective besides its constant: multiples of several terms, which exist. The intervals of these and the
    /// constant sum up to that of the objective. Which terms they are, and in which order, is not promised.
    pub fn atoms(
        &self,
        alloc: Global,
        here: &Evaluator,
        nodes: &[u32],
    ) -> Result<Vec<Atom>, AllocError>
        requires ready { IsReady here.now }
        requires sound { IsSoundGoal (box_in here.now.root) (things here.now.items.now) self.now }
        requires nodes { AreCells (box_in here.now.root) (things here.now.items.now) nodes.now }
        ensures sum { (weights : List ℤ) → IsWeighted (box_in here.now.root) (things here.now.items.now) weights self.now → (goal_of (things here.now.items.now) self.now).worst ≡ false
            → (b : Box) → Inside b (box_in here.now.root) → IfOk result
            (λ list. ends.plus (ends.exactly (constant_of self.now)) (listed_ends (box_in here.now.root) b (things here.now.items.now) list.items)
            ≡ expected_ends (box_in here.now.root) b weights (goal_of (things here.now.items.now) self.now).terms) }
        ensures exist { IfOk result (λ list. AtomsExist (length here.now.items.now) list.items) }
    {
        match &self.summed {
            Some(summed) => listed(alloc, here, nodes, summed),
            None => Ok(Vec::new(alloc)),
        }
    }

    /// The interval of the objective over the box.
    #[tactic(auto, using(crate::proofs::Summing::summed_ends))]
    pub fn ends(&self, here: &Evaluator) -> WideEnds
        requires ready { IsReady here.now }
        requires sound { IsSoundGoal (box_in here.now.root) (things here.now.items.now) self.now }
        ensures { (weights : List ℤ) → IsWeighted (box_in here.now.root) (things here.now.items.now) weights self.now → wide_ends result
            ≡ goal_ends_of (box_in here.now.root) (box_in here.now.view) weights (goal_of (things here.now.items.now) self.now) }
    {
        match &self.summed {
            Some(summed) => summed.ends(here),
            None => {
                let found = worst(here, self.direction, self.terms.as_slice());
                WideEnds::widened(&found)
            }
        }
    }
}
