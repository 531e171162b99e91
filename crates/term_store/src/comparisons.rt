//! What is known of comparisons.

ghost use Rattle.std.specs.Prelude.{◌≡◌, ◌<◌, length, negsuc, IfOk};
ghost use Rattle.term_language.specs.Forms as forms;
ghost use Rattle.term_language.specs.Rules as rule;
ghost use Rattle.term_math.specs.Shown.{form_of};
ghost use Rattle.term_nodes.specs.Things.{term_at};
ghost use Rattle.term_store.specs.Stores.{IsSoundStore, all, root_of};

use crate::store::TermStore;
use sopl_base::Wide;
use std::alloc::AllocError;
use term_math::{Combination, Form};

impl TermStore {
    /// The linear form of a term minus another one.
    pub(crate) fn difference(&self, a: u32, b: u32) -> Result<Form, AllocError>
        requires sound { IsSoundStore self.now }
        requires left { a < length self.now.items.items }
        requires right { b < length self.now.items.items }
        ensures { IfOk result (λ form. form_of form ≡ forms.plus_form (negsuc 0) (rule.form (root_of self.now) (term_at (all self.now) a)) (rule.form (root_of self.now) (term_at (all self.now) b))) }
    {
        let left = self.form_known(a);
        let right = self.form_known(b);
        let mut sum = Combination::new(self.alloc);
        sum.add(&Wide { value: 1 }, left)?;
        sum.add(&Wide { value: -1 }, right)?;
        let wide = sum.form(self.alloc)?;
        wide.narrowed(self.alloc)
    }

    /// The linear form of a term.
    #[tactic(auto, using(term_nodes::proofs::Reading::form_is))]
    pub(crate) fn form_known(&self, id: u32) -> &Form
        requires sound { IsSoundStore self.now }
        requires exists { id < length self.now.items.items }
        ensures { form_of result.now ≡ rule.form (root_of self.now) (term_at (all self.now) id) }
    {
        &self.items[id as usize].facts.form
    }
}
