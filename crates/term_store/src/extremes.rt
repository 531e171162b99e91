//! What is known of the least and the greatest of several.

ghost use Rattle.std.specs.Prelude.{◌≡◌, ◌<◌, ◌∷◌, length, IfOk};
ghost use Rattle.term_language.specs.Terms.{Selected};
ghost use Rattle.term_language.specs.Marks as marks;
ghost use Rattle.term_language.specs.Rules as rule;
ghost use Rattle.term_language.specs.Sizes as sizes;
ghost use Rattle.term_nodes.specs.Built.{AllBelow, facts_of, kept};
ghost use Rattle.term_nodes.specs.Things.{a_term, term_at, terms_at};
ghost use Rattle.term_store.specs.Stores.{IsMeasured, IsSoundStore, all, root_of};

use crate::folded::folded_facts;
use crate::store::TermStore;
use sopl_base::Fault;
use term_language::Defined;
use term_math::{Extreme, both};
use term_nodes::Facts;

impl TermStore {
    /// The mark of several terms over the root box.
    #[tactic(auto, using(crate::proofs::Folding::next_marks, crate::proofs::Folding::no_marks, term_nodes::proofs::Steps::cond_below))]
    fn marks_known(&self, first: u32, later: &[u32]) -> Defined
        requires sound { IsSoundStore self.now }
        requires first { first < length self.now.items.items }
        requires exist { AllBelow (length self.now.items.items) later.now }
        ensures { result ≡ marks.both (rule.mark rule.Near (root_of self.now) (root_of self.now) (term_at (all self.now) first))
            (marks.all_marks (rule.marks rule.Near (root_of self.now) (root_of self.now) (terms_at (all self.now) later.now))) }
    {
        let mut mark = self.mark_known(first);
        for id in later {
            let here = self.mark_known(*id);
            mark = both(mark, here);
        }
        mark
    }

    /// Whether the least or the greatest of several terms is a number.
    fn operands_fold(&self, first: u32, later: &[u32]) -> bool
        requires sound { IsSoundStore self.now }
        requires first { first < length self.now.items.items }
        requires exist { AllBelow (length self.now.items.items) later.now }
        ensures { result ≡ rule.folds (rule.form (root_of self.now) (term_at (all self.now) first) ∷ rule.forms (root_of self.now) (terms_at (all self.now) later.now))
            (marks.both (rule.mark rule.Near (root_of self.now) (root_of self.now) (term_at (all self.now) first))
            (marks.all_marks (rule.marks rule.Near (root_of self.now) (root_of self.now) (terms_at (all self.now) later.now)))) }
    {
        if !self.form_known(first).is_constant() {
            return false;
        }
        if !self.all_constant(later) {
            return false;
        }
        match self.marks_known(first, later) {
            Defined::Never => false,
            Defined::Maybe => false,
            Defined::Always => true,
        }
    }

    /// What is known of the least or the greatest of several terms, where its size is at most 2^40.
    pub(crate) fn extreme_facts(
        &self,
        extreme: Extreme,
        first: u32,
        later: &[u32],
    ) -> Result<Facts, Fault>
        requires sound { IsSoundStore self.now }
        requires first { first < length self.now.items.items }
        requires exist { AllBelow (length self.now.items.items) later.now }
        ensures facts { IfOk result (λ facts. kept facts ≡ facts_of (root_of self.now) (a_term (Selected extreme (term_at (all self.now) first) (terms_at (all self.now) later.now)))) }
        ensures measured { IsMeasured (sizes.size (root_of self.now) (Selected extreme (term_at (all self.now) first) (terms_at (all self.now) later.now))) result }
    {
        let folds = self.operands_fold(first, later);
        let mark = self.marks_known(first, later);
        let wide = self.extreme_known(extreme, first, later);
        folded_facts(self.alloc, folds, mark, &wide)
    }
}
