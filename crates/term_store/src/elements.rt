//! What is known of the elements of arrays.

ghost use Rattle.std.specs.Prelude.{◌≡◌, ◌<◌, Some, length, map, IfOk, option_map};
ghost use Rattle.term_language.specs.Arrays.{item_at};
ghost use Rattle.term_language.specs.Ends as ends;
ghost use Rattle.term_language.specs.Forms as forms;
ghost use Rattle.term_language.specs.Marks as marks;
ghost use Rattle.term_language.specs.Rules as rule;
ghost use Rattle.term_language.specs.Sizes as sizes;
ghost use Rattle.term_language.specs.Terms as term;
ghost use Rattle.term_math.specs.Shown.{box_in, ends_of, form_of};
ghost use Rattle.term_math.specs.Kept.{item_of};
ghost use Rattle.term_nodes.specs.Built.{AllBelow, facts_of, kept};
ghost use Rattle.term_nodes.specs.Seen.{sight_of};
ghost use Rattle.term_nodes.specs.Things.{a_term, table_at, terms_at};
ghost use Rattle.term_store.specs.Atoms.{any_element, leaf_of, of_item, size_of_item};
ghost use Rattle.term_store.specs.Stores.{IsMeasured, IsSoundStore, all, root_of};

use crate::folded::folded_facts;
use crate::store::TermStore;
use crate::terms::{cell_form, measured, number_form};
use sopl_base::Fault;
use std::alloc::{AllocError, Global};
use term_language::{Defined, Truth};
use term_math::{AbstractValue, BoxView, Element, Ends, Factor, Form, both, weight_of};
use term_nodes::{Facts, table_at};

/// The form of an element, where its size is at most 2^40.
fn item_form(alloc: Global, element: &Element, root: &BoxView) -> Result<Form, Fault>
    ensures form { IfOk result (λ form. form_of form ≡ rule.item_form (Some (item_of element.now))) }
    ensures measured { IsMeasured (size_of_item (box_in root.now) (item_of element.now)) result }
{
    match element {
        Element::Fixed(number) => {
            measured(u128::from(number.unsigned_abs()))?;
            Ok(number_form(alloc, &Factor { k: *number }))
        }
        Element::Free(cell) => {
            measured(u128::from(weight_of(&root.cell(*cell))))?;
            let form = cell_form(alloc, *cell)?;
            Ok(form)
        }
    }
}

/// What is known of an element that is this item, where its size is at most 2^40.
fn item_facts(
    alloc: Global,
    element: &Element,
    root: &BoxView,
    mark: Defined,
    wide_mark: Defined,
) -> Result<Facts, Fault>
    ensures facts { IfOk result (λ facts. kept facts ≡ of_item (item_of element.now) mark wide_mark) }
    ensures measured { IsMeasured (size_of_item (box_in root.now) (item_of element.now)) result }
{
    let form = item_form(alloc, element, root)?;
    Ok(Facts {
        form,
        mark,
        wide_mark,
        wide: Ends::zero(),
        weight: 0,
        truth: Truth::True,
    })
}

impl TermStore {
    /// The constants of the forms of terms.
    #[tactic(auto, using(crate::proofs::Indexing::next_numbers, crate::proofs::Indexing::no_numbers, term_nodes::proofs::Steps::cond_below))]
    fn constants(&self, ids: &[u32]) -> Result<Vec<i64>, AllocError>
        requires sound { IsSoundStore self.now }
        requires exist { AllBelow (length self.now.items.items) ids.now }
        ensures { IfOk result (λ list. list.items ≡ map (λ (f : forms.Form). f.constant) (rule.forms (root_of self.now) (terms_at (all self.now) ids.now))) }
    {
        let mut list = Vec::new(self.alloc);
        for id in ids {
            list.push(self.form_known(*id).constant)?;
        }
        Ok(list)
    }

    /// The element of an array at an index, if the index is one of the array's.
    fn element_at(&self, table: u32, index: &[i64]) -> Option<Element>
        requires sound { IsSoundStore self.now }
        ensures { option_map item_of result ≡ item_at (table_at (all self.now) table) index.now }
    {
        match table_at(self.items.as_slice(), table) {
            Some(found) => found.known(index),
            None => None,
        }
    }

    /// The item that an element is whatever the box: its indices are numbers, and an index of the array's.
    #[tactic(auto, using(crate::proofs::Indexing::no_numbers_form, crate::proofs::Indexing::numbers_form))]
    fn element_known(&self, table: u32, at: &[u32]) -> Result<Option<Element>, AllocError>
        requires sound { IsSoundStore self.now }
        requires exist { AllBelow (length self.now.items.items) at.now }
        ensures { IfOk result (λ found. rule.item_form (option_map item_of found)
            ≡ rule.element_form (table_at (all self.now) table) (rule.forms (root_of self.now) (terms_at (all self.now) at.now))) }
    {
        if !self.all_constant(at) {
            return Ok(None);
        }
        let index = self.constants(at)?;
        Ok(self.element_at(table, index.as_slice()))
    }

    /// The hull of all elements of an array over the root box.
    fn hull_known(&self, table: u32) -> Ends
        requires sound { IsSoundStore self.now }
        ensures { ends_of result ≡ ends.hull_of (map (rule.item_ends (root_of self.now)) (table_at (all self.now) table).items) }
    {
        match table_at(self.items.as_slice(), table) {
            Some(found) => found.hull(&self.root()),
            None => Ends::zero(),
        }
    }

    /// The mark of an element over the root box.
    fn element_mark(&self, table: u32, at: &[u32]) -> Defined
        requires sound { IsSoundStore self.now }
        requires exist { AllBelow (length self.now.items.items) at.now }
        ensures { result ≡ rule.mark rule.Near (root_of self.now) (root_of self.now) (term.Element (table_at (all self.now) table) (terms_at (all self.now) at.now)) }
    {
        let root = self.root();
        self.here(&root).element_range(self.count(), table, at).mark
    }

    /// What an element is over the root box, by the wide reading: any of the array's.
    fn element_wide(&self, table: u32, at: &[u32]) -> AbstractValue
        requires sound { IsSoundStore self.now }
        requires exist { AllBelow (length self.now.items.items) at.now }
        ensures { sight_of result ≡ any_element (root_of self.now) (table_at (all self.now) table) (terms_at (all self.now) at.now) }
    {
        AbstractValue {
            ends: self.hull_known(table),
            mark: self.element_wide_mark(table, at),
        }
    }

    /// The mark of all indices over the root box.
    #[tactic(auto, using(crate::proofs::Folding::next_marks, crate::proofs::Folding::no_marks, term_nodes::proofs::Steps::cond_below))]
    fn near_marks(&self, at: &[u32]) -> Defined
        requires sound { IsSoundStore self.now }
        requires exist { AllBelow (length self.now.items.items) at.now }
        ensures { result ≡ marks.all_marks (rule.marks rule.Near (root_of self.now) (root_of self.now) (terms_at (all self.now) at.now)) }
    {
        let mut mark = Defined::Always;
        for id in at {
            let here = self.mark_known(*id);
            mark = both(mark, here);
        }
        mark
    }

    /// What is known of a number or a cell, where its size is at most 2^40.
    #[tactic(auto, using(crate::proofs::Adding::leaf_size))]
    pub(crate) fn leaf_facts(&self, element: &Element) -> Result<Facts, Fault>
        requires sound { IsSoundStore self.now }
        ensures facts { IfOk result (λ facts. kept facts ≡ facts_of (root_of self.now) (a_term (leaf_of (item_of element.now)))) }
        ensures measured { IsMeasured (sizes.size (root_of self.now) (leaf_of (item_of element.now))) result }
    {
        item_facts(
            self.alloc,
            element,
            &self.root(),
            Defined::Always,
            Defined::Always,
        )
    }

    /// What is known of an element, where its size is at most 2^40: of one that is an item whatever the box, its indices alone are read.
    pub(crate) fn element_facts(&self, table: u32, at: &[u32]) -> Result<Facts, Fault>
        requires sound { IsSoundStore self.now }
        requires exist { AllBelow (length self.now.items.items) at.now }
        ensures facts { IfOk result (λ facts. kept facts ≡ facts_of (root_of self.now) (a_term (term.Element (table_at (all self.now) table) (terms_at (all self.now) at.now)))) }
        ensures measured { IsMeasured (sizes.size (root_of self.now) (term.Element (table_at (all self.now) table) (terms_at (all self.now) at.now))) result }
    {
        let found = self.element_known(table, at)?;
        match found {
            Some(element) => {
                let mark = self.near_marks(at);
                let wide_mark = self.wide_marks(at);
                item_facts(self.alloc, &element, &self.root(), mark, wide_mark)
            }
            None => {
                let mark = self.element_mark(table, at);
                let wide = self.element_wide(table, at);
                folded_facts(self.alloc, false, mark, &wide)
            }
        }
    }
}
