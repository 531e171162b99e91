//! What is known of sums.

ghost use Rattle.std.specs.Prelude.{◌≡◌, ◌<◌, ◌≤◌, length, IfOk};
ghost use Rattle.sopl_base.specs.declared.limits.TheConstants as largest;
ghost use Rattle.term_language.specs.Rules as rule;
ghost use Rattle.term_language.specs.Sizes as sizes;
ghost use Rattle.term_language.specs.Terms as term;
ghost use Rattle.term_math.specs.Sums.{combination_of};
ghost use Rattle.term_math.specs.Shown.{form_of};
ghost use Rattle.term_nodes.specs.Things.{a_term, parts_at, term_at};
ghost use Rattle.term_nodes.specs.Built.{PartsBelow, facts_of, kept};
ghost use Rattle.term_store.specs.Stores.{IsMeasured, IsSoundStore, all, root_of};

use crate::store::TermStore;
use crate::terms::measured;
use sopl_base::Fault;
use std::alloc::AllocError;
use term_language::{Defined, Truth};
use term_math::{Combination, Form, both, factor};
use term_nodes::{Facts, Signed};

impl TermStore {
    /// The sum of the forms of all parts.
    #[tactic(auto, using(crate::proofs::Summing::next_sum))]
    fn combined(&self, parts: &[Signed]) -> Result<Combination, AllocError>
        requires sound { IsSoundStore self.now }
        requires exist { PartsBelow (length self.now.items.items) parts.now }
        ensures { IfOk result (λ sum. combination_of sum ≡ rule.sum_form (root_of self.now) (parts_at (all self.now) parts.now)) }
    {
        let mut sum = Combination::new(self.alloc);
        let count = parts.len();
        for i in (0..count).rev() {
            let part = &parts[i];
            let once = factor(part.subtracted);
            sum.add(&once.widened(), self.form_known(part.term))?;
        }
        Ok(sum)
    }

    /// The weight of the non-linear part of a term.
    #[tactic(auto, using(term_nodes::proofs::Reading::weight_is))]
    pub(crate) fn weight_known(&self, id: u32) -> u64
        requires sound { IsSoundStore self.now }
        requires exists { id < length self.now.items.items }
        ensures { result ≡ sizes.atoms_weight (root_of self.now) (term_at (all self.now) id) }
    {
        let item = &self.items[id as usize];
        item.facts.weight
    }

    /// The weight of the non-linear part of the parts.
    #[tactic(auto, using(crate::proofs::Summing::next_weight, crate::proofs::Summing::no_sum_weight))]
    fn sum_weight(&self, parts: &[Signed]) -> u128
        requires sound { IsSoundStore self.now }
        requires exist { PartsBelow (length self.now.items.items) parts.now }
        ensures { result ≡ sizes.sum_weight (root_of self.now) (parts_at (all self.now) parts.now) }
    {
        let mut sum = 0;
        let count = parts.len();
        for i in (0..count).rev() {
            let weight = self.weight_known(parts[i].term);
            sum += u128::from(weight);
        }
        sum
    }

    /// The mark of a term over the root box.
    #[tactic(auto, using(term_nodes::proofs::Reading::mark_is))]
    pub(crate) fn mark_known(&self, id: u32) -> Defined
        requires sound { IsSoundStore self.now }
        requires exists { id < length self.now.items.items }
        ensures { result ≡ rule.mark rule.Near (root_of self.now) (root_of self.now) (term_at (all self.now) id) }
    {
        let item = &self.items[id as usize];
        item.facts.mark
    }

    /// The mark of a sum over the root box.
    #[tactic(auto, using(crate::proofs::Summing::next_mark, crate::proofs::Summing::no_mark))]
    fn sum_mark(&self, parts: &[Signed]) -> Defined
        requires sound { IsSoundStore self.now }
        requires exist { PartsBelow (length self.now.items.items) parts.now }
        ensures { result ≡ rule.sum_mark rule.Near (root_of self.now) (root_of self.now) (parts_at (all self.now) parts.now) }
    {
        let mut mark = Defined::Always;
        let count = parts.len();
        for i in (0..count).rev() {
            let here = self.mark_known(parts[i].term);
            mark = both(here, mark);
        }
        mark
    }

    /// The form of a sum, and the weight of the non-linear part of it, where its size is at most 2^40.
    pub(crate) fn measured_sum(&self, parts: &[Signed]) -> Result<Form, Fault>
        requires sound { IsSoundStore self.now }
        requires exist { PartsBelow (length self.now.items.items) parts.now }
        ensures form { IfOk result (λ form. form_of form ≡ rule.sum_form (root_of self.now) (parts_at (all self.now) parts.now)) }
        ensures measured { IsMeasured (sizes.size (root_of self.now) (term.Sum (parts_at (all self.now) parts.now))) result }
    {
        let sum = self.combined(parts)?;
        let wide = sum.form(self.alloc)?;
        let weight = self.sum_weight(parts);
        measured(wide.weight(&self.root()) + weight)?;
        let form = wide.narrowed(self.alloc)?;
        Ok(form)
    }

    /// What is known of a sum, where its form is given.
    pub(crate) fn sum_facts(&self, parts: &[Signed], form: Form) -> Facts
        requires sound { IsSoundStore self.now }
        requires exist { PartsBelow (length self.now.items.items) parts.now }
        requires form { form_of form ≡ rule.sum_form (root_of self.now) (parts_at (all self.now) parts.now) }
        requires small { sizes.size (root_of self.now) (term.Sum (parts_at (all self.now) parts.now)) ≤ largest.TERM_SIZE }
        ensures { kept result ≡ facts_of (root_of self.now) (a_term (term.Sum (parts_at (all self.now) parts.now))) }
    {
        let wide = self.sum_wide(parts);
        Facts {
            form,
            mark: self.sum_mark(parts),
            wide_mark: wide.mark,
            wide: wide.ends,
            weight: self.sum_weight(parts) as u64,
            truth: Truth::True,
        }
    }
}
