//! What is known of quotients, remainders and sizes.

ghost use Rattle.std.specs.Prelude.{◌≡◌, ◌<◌, [], ◌∷◌, length, IfOk};
ghost use Rattle.term_language.specs.Terms.{Made};
ghost use Rattle.term_language.specs.Rules as rule;
ghost use Rattle.term_language.specs.Sizes as sizes;
ghost use Rattle.term_language.specs.Ends as ends;
ghost use Rattle.term_math.specs.Made.{IsPossible};
ghost use Rattle.term_nodes.specs.Built.{facts_of, kept};
ghost use Rattle.term_nodes.specs.Seen.{sight_of};
ghost use Rattle.term_nodes.specs.Things.{a_term, term_at};
ghost use Rattle.term_store.specs.Stores.{IsMeasured, IsSoundStore, all, root_of};

use crate::folded::folded_facts;
use crate::store::TermStore;
use sopl_base::Fault;
use term_language::Defined;
use term_math::{AbstractValue, Operation, made};
use term_nodes::Facts;

impl TermStore {
    /// Whether what is made of a term is a number.
    fn operand_folds(&self, id: u32) -> bool
        requires sound { IsSoundStore self.now }
        requires exists { id < length self.now.items.items }
        ensures { result ≡ rule.folds (rule.form (root_of self.now) (term_at (all self.now) id) ∷ []) (rule.mark rule.Near (root_of self.now) (root_of self.now) (term_at (all self.now) id)) }
    {
        if !self.form_known(id).is_constant() {
            return false;
        }
        match self.mark_known(id) {
            Defined::Never => false,
            Defined::Maybe => false,
            Defined::Always => true,
        }
    }

    /// The interval and the mark of what is made of a term over the root box, by the wide reading.
    fn made_known(&self, operation: &Operation, id: u32) -> AbstractValue
        requires sound { IsSoundStore self.now }
        requires exists { id < length self.now.items.items }
        requires possible { IsPossible operation.now }
        ensures { sight_of result ≡ record {
          ends = ends.made operation.now (rule.interval rule.Wide (root_of self.now) (root_of self.now) (term_at (all self.now) id));
          mark = rule.mark rule.Wide (root_of self.now) (root_of self.now) (term_at (all self.now) id);
        } }
    {
        let range = self.range_known(id);
        AbstractValue {
            ends: made(operation, &range.ends),
            mark: range.mark,
        }
    }

    /// What is known of what is made of a term, where its size is at most 2^40.
    pub(crate) fn operation_facts(&self, operation: &Operation, id: u32) -> Result<Facts, Fault>
        requires sound { IsSoundStore self.now }
        requires exists { id < length self.now.items.items }
        requires possible { IsPossible operation.now }
        ensures facts { IfOk result (λ facts. kept facts ≡ facts_of (root_of self.now) (a_term (Made operation.now (term_at (all self.now) id)))) }
        ensures measured { IsMeasured (sizes.size (root_of self.now) (Made operation.now (term_at (all self.now) id))) result }
    {
        let folds = self.operand_folds(id);
        let mark = self.mark_known(id);
        let wide = self.made_known(operation, id);
        folded_facts(self.alloc, folds, mark, &wide)
    }
}
