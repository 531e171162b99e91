//! The weight that is left to a chance constraint, kept from one box to the next.

ghost use Rattle.std.specs.Prelude.{◌≡◌, ◌<◌, ℕ, Bool, false, get_or, length, pos, IfOk};
ghost use Rattle.box_problem.specs.Box.{Box, Inside};
ghost use Rattle.prop_core.specs.Watches.{AgreeElsewhere};
ghost use Rattle.prop_shave.specs.ChanceSums.{truth_over};
ghost use Rattle.term_language.specs.declared.answers.Truth.TheVariants as truths;
ghost use Rattle.term_problem.specs.Problems.{ProblemTerms};
ghost use Rattle.term_program.specs.Programs.{IsMade, problem_in, root_in};
ghost use Rattle.prop_chance.specs.KeptWeights.{IfSo, IsTruthSet, IsWeightSeen, KeepsWeight, KnowsWeight};
ghost use Rattle.prop_chance.specs.UpToDate.{AreListed, AreListedBut, IsUpToDate, left_to_see};

use crate::outdated::Outdated;
use box_store::BoxStore;
use prop_shave::weight_unless_false;
use sopl_base::Wide;
use std::alloc::{AllocError, Global};
use term_language::Truth;
use term_program::{Program, kleene};

/// The truth of a chance constraint's condition in each scenario over a box, as it was seen last, and the weight of the scenarios in which
/// it is not False; and which scenarios are to be seen anew.
#[derive(Drop)]
pub struct KeptWeight {
    pub truths: Vec<Truth>,
    pub left: Wide,
    pub outdated: Outdated,
}

/// The scenario with a number.
pub(crate) fn scenario_numbered(program: &Program, number: usize) -> u32
    requires made { IsMade program.now }
    requires exists { number < length (problem_in program.now).weights }
    ensures { result ≡ number }
{
    let _count = program.scenarios();
    number as u32
}

impl KeptWeight {
    /// Nothing that was seen, with room for the truth in so many scenarios and for so many cells.
    pub(crate) fn new(
        alloc: Global,
        scenarios: usize,
        cells: usize,
    ) -> Result<KeptWeight, AllocError>
        ensures room { IfOk result (λ made. length made.truths.items ≡ scenarios) }
        ensures waits { IfOk result (λ made. length made.outdated.waits.items ≡ scenarios) }
        ensures keeps { IfOk result (λ made. (root : Box) (terms : ProblemTerms) (instance : ℕ) (b : Box)
            → KeepsWeight root terms instance b made) }
    {
        let truths = Vec::from_elem(alloc, Truth::False, scenarios)?;
        let outdated = Outdated::new(alloc, scenarios, cells)?;
        let mut made = KeptWeight {
            truths,
            left: Wide { value: 0 },
            outdated,
        };
        made.forget();
        Ok(made)
    }

    /// Takes the condition for False in each scenario.
    fn clear(&mut self)
        ensures cleared { (scenario : ℕ) → get_or self.new.truths.items scenario truths.False ≡ truths.False }
        ensures left { self.new.left.value ≡ pos 0 }
        ensures outdated { self.new.outdated ≡ self.old.outdated }
        ensures room { length self.new.truths.items ≡ length self.old.truths.items }
    {
        'scenarios: for at in 0..self.truths.len() {
            self.truths[at] = Truth::False;
        }
        self.left = Wide { value: 0 };
    }

    /// Forgets what was seen: the condition is to be seen anew in each scenario.
    pub(crate) fn forget(&mut self)
        ensures keeps { (root : Box) (terms : ProblemTerms) (instance : ℕ) (b : Box) → KeepsWeight root terms instance b self.new }
        ensures room { length self.new.truths.items ≡ length self.old.truths.items }
        ensures waits { length self.new.outdated.waits.items ≡ length self.old.outdated.waits.items }
    {
        self.clear();
        self.outdated.let_all_wait();
    }

    /// Is told that a cell may have changed.
    pub(crate) fn tell(&mut self, cell: u32)
        ensures keeps { (root : Box) (terms : ProblemTerms) (instance : ℕ) (b c : Box) → AgreeElsewhere cell b c
            → KeepsWeight root terms instance b self.old
            → KeepsWeight root terms instance c self.new }
        ensures told { (mentions : ℕ → ℕ → Bool) (number : ℕ) → IsUpToDate mentions self.new.outdated number
            → IsUpToDate mentions self.old.outdated number × (mentions cell number ≡ false) }
        ensures room { length self.new.truths.items ≡ length self.old.truths.items }
        ensures waits { length self.new.outdated.waits.items ≡ length self.old.outdated.waits.items }
    {
        self.outdated.tell(cell);
    }

    /// Sets the truth in one scenario, and the weight with it, where that has room; else nothing.
    #[tactic(auto, using(crate::proofs::KeptWeights::sum_set))]
    fn set(&mut self, program: &Program, scenario: u32, truth: Truth) -> bool
        requires exists { scenario < length (problem_in program.now).weights }
        requires room { length self.old.truths.items ≡ length (problem_in program.now).weights }
        ensures set { IfSo result (IsTruthSet (problem_in program.now) self.old self.new scenario truth) }
        ensures unset { result ≡ false → self.new ≡ self.old }
        ensures room { length self.new.truths.items ≡ length self.old.truths.items }
        ensures outdated { self.new.outdated ≡ self.old.outdated }
    {
        let before = weight_unless_false(program, scenario, self.truths[scenario as usize]);
        let after = weight_unless_false(program, scenario, truth);
        let Some(less) = self.left.checked_minus(before) else {
            return false;
        };
        let Some(left) = less.checked_plus(after) else {
            return false;
        };
        self.truths[scenario as usize] = truth;
        self.left = left;
        true
    }

    /// Sees the condition anew in one scenario; whether the weight has room.
    fn renew(&mut self, program: &Program, instance: u32, scenario: u32, store: &BoxStore) -> bool
        requires made { IsMade program.now }
        requires inside { Inside store.now.box (root_in program.now) }
        requires instance { instance < length (problem_in program.now).chances }
        requires scenario { scenario < length (problem_in program.now).weights }
        requires room { length self.old.truths.items ≡ length (problem_in program.now).weights }
        ensures set { IfSo result (IsTruthSet (problem_in program.now) self.old self.new scenario
            (truth_over (root_in program.now) (problem_in program.now) instance store.now.box scenario)) }
        ensures unset { result ≡ false → self.new ≡ self.old }
        ensures room { length self.new.truths.items ≡ length self.old.truths.items }
        ensures outdated { self.new.outdated ≡ self.old.outdated }
    {
        let cond = program.chance(instance, scenario);
        let truth = kleene(program, cond, store);
        self.set(program, scenario, truth)
    }

    /// Sees the condition anew in the scenario with a number, if it waits; whether the weight has room.
    fn renew_waiting(
        &mut self,
        program: &Program,
        instance: u32,
        number: usize,
        store: &BoxStore,
    ) -> bool
        requires made { IsMade program.now }
        requires inside { Inside store.now.box (root_in program.now) }
        requires instance { instance < length (problem_in program.now).chances }
        requires room { length self.old.truths.items ≡ length (problem_in program.now).weights }
        requires waits { length self.old.outdated.waits.items ≡ length (problem_in program.now).weights }
        requires seen { IsWeightSeen (root_in program.now) (problem_in program.now) instance store.now.box self.old }
        ensures seen { IsWeightSeen (root_in program.now) (problem_in program.now) instance store.now.box self.new }
        ensures listed { AreListedBut number self.old.outdated → AreListed self.new.outdated }
        ensures left { IfSo result (left_to_see self.new.outdated ≡ left_to_see self.old.outdated) }
        ensures room { length self.new.truths.items ≡ length self.old.truths.items }
        ensures waits { length self.new.outdated.waits.items ≡ length self.old.outdated.waits.items }
    {
        if !self.outdated.has_waiting(number) {
            return true;
        }
        let scenario = scenario_numbered(program, number);
        if !self.renew(program, instance, scenario, store) {
            self.outdated.unlist();
            return false;
        }
        self.outdated.wait_no_more(number);
        true
    }

    /// Sees the condition anew in all scenarios that wait; whether the weight has room, and is then what is left over the box of the store.
    pub(crate) fn renew_all(&mut self, program: &Program, instance: u32, store: &BoxStore) -> bool
        requires made { IsMade program.now }
        requires inside { Inside store.now.box (root_in program.now) }
        requires instance { instance < length (problem_in program.now).chances }
        requires room { length self.old.truths.items ≡ length (problem_in program.now).weights }
        requires waits { length self.old.outdated.waits.items ≡ length (problem_in program.now).weights }
        requires seen { IsWeightSeen (root_in program.now) (problem_in program.now) instance store.now.box self.old }
        requires listed { AreListed self.old.outdated }
        ensures known { IfSo result (KnowsWeight (root_in program.now) (problem_in program.now) instance store.now.box self.new) }
        ensures keeps { KeepsWeight (root_in program.now) (problem_in program.now) instance store.now.box self.new }
        ensures room { length self.new.truths.items ≡ length self.old.truths.items }
        ensures waits { length self.new.outdated.waits.items ≡ length self.old.outdated.waits.items }
    {
        'scenarios: while let Some(number) = self.outdated.take_number() {
            if !self.renew_waiting(program, instance, number, store) {
                return false;
            }
        }
        true
    }
}
