//! What is known of products.

ghost use Rattle.std.specs.Prelude.{◌≡◌, ◌<◌, ◌≤◌, length, IfOk};
ghost use Rattle.sopl_base.specs.declared.limits.TheConstants as largest;
ghost use Rattle.term_language.specs.Forms as forms;
ghost use Rattle.term_language.specs.Rules as rule;
ghost use Rattle.term_language.specs.Sizes as sizes;
ghost use Rattle.term_language.specs.Terms as term;
ghost use Rattle.term_math.specs.Shown.{form_of};
ghost use Rattle.term_math.specs.Sums.{wide_form};
ghost use Rattle.term_nodes.specs.Things.{a_term, term_at};
ghost use Rattle.term_nodes.specs.Built.{facts_of, kept};
ghost use Rattle.term_store.specs.Stores.{IsMeasured, IsSoundStore, all, root_of};

use crate::store::TermStore;
use crate::terms::measured;
use sopl_base::Fault;
use std::alloc::AllocError;
use term_language::Truth;
use term_math::{Form, WideForm, both, scaled, times_weight, weight_of_times};
use term_nodes::Facts;

impl TermStore {
    /// The form of a product.
    fn product_form(&self, a: u32, b: u32) -> Result<WideForm, AllocError>
        requires sound { IsSoundStore self.now }
        requires left { a < length self.now.items.items }
        requires right { b < length self.now.items.items }
        ensures { IfOk result (λ wide. wide_form wide ≡ forms.product_form (rule.form (root_of self.now) (term_at (all self.now) a)) (rule.form (root_of self.now) (term_at (all self.now) b))) }
    {
        let f = self.form_known(a);
        let g = self.form_known(b);
        if f.is_constant() {
            let wide = scaled(self.alloc, &f.factor(), g)?;
            return Ok(wide);
        }
        if g.is_constant() {
            let wide = scaled(self.alloc, &g.factor(), f)?;
            return Ok(wide);
        }
        Ok(WideForm {
            constant: 0,
            cells: Vec::new(self.alloc),
            plain: false,
        })
    }

    /// The weight of the non-linear part of a product.
    fn product_weight(&self, a: u32, b: u32) -> u128
        requires sound { IsSoundStore self.now }
        requires left { a < length self.now.items.items }
        requires right { b < length self.now.items.items }
        ensures { result ≡ sizes.atoms_weight (root_of self.now) (term.Product (term_at (all self.now) a) (term_at (all self.now) b)) }
    {
        let f = self.form_known(a);
        let g = self.form_known(b);
        if f.is_constant() {
            return times_weight(&f.factor(), self.weight_known(b));
        }
        if g.is_constant() {
            return times_weight(&g.factor(), self.weight_known(a));
        }
        let left = self.interval_known(a);
        let right = self.interval_known(b);
        weight_of_times(&left, &right)
    }

    /// The form of a product, where its size is at most 2^40.
    pub(crate) fn measured_product(&self, a: u32, b: u32) -> Result<Form, Fault>
        requires sound { IsSoundStore self.now }
        requires left { a < length self.now.items.items }
        requires right { b < length self.now.items.items }
        ensures form { IfOk result (λ form. form_of form ≡ forms.product_form (rule.form (root_of self.now) (term_at (all self.now) a)) (rule.form (root_of self.now) (term_at (all self.now) b))) }
        ensures measured { IsMeasured (sizes.size (root_of self.now) (term.Product (term_at (all self.now) a) (term_at (all self.now) b))) result }
    {
        let wide = self.product_form(a, b)?;
        let weight = self.product_weight(a, b);
        measured(wide.weight(&self.root()) + weight)?;
        let form = wide.narrowed(self.alloc)?;
        Ok(form)
    }

    /// What is known of a product, where its form is given.
    pub(crate) fn product_facts(&self, a: u32, b: u32, form: Form) -> Facts
        requires sound { IsSoundStore self.now }
        requires left { a < length self.now.items.items }
        requires right { b < length self.now.items.items }
        requires form { form_of form ≡ forms.product_form (rule.form (root_of self.now) (term_at (all self.now) a)) (rule.form (root_of self.now) (term_at (all self.now) b)) }
        requires small { sizes.size (root_of self.now) (term.Product (term_at (all self.now) a) (term_at (all self.now) b)) ≤ largest.TERM_SIZE }
        ensures { kept result ≡ facts_of (root_of self.now) (a_term (term.Product (term_at (all self.now) a) (term_at (all self.now) b))) }
    {
        let left = self.wide_known(a);
        let right = self.wide_known(b);
        let wide = self.root().product(
            self.form_known(a),
            self.form_known(b),
            &left.ends,
            &right.ends,
        );
        Facts {
            form,
            mark: both(self.mark_known(a), self.mark_known(b)),
            wide_mark: both(left.mark, right.mark),
            wide,
            weight: self.product_weight(a, b) as u64,
            truth: Truth::True,
        }
    }
}
