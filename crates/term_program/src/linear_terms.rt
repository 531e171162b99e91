//! What terms are made of: those of a constant and one cell, and the cells that any term mentions.

ghost use Rattle.std.specs.Prelude.{◌≡◌, true, false, IfNone, IfOk, IfSome};
ghost use Rattle.term_language.specs.Mentions.{mentions};
ghost use Rattle.term_math.specs.Shown.{form_of};
ghost use Rattle.term_nodes.specs.Things.{term_at};
ghost use Rattle.term_program.specs.LinearTerms.{IsOneCell, form_of_one, has_one_cell, is_one};
ghost use Rattle.term_program.specs.Mentions.{IsListOf};
ghost use Rattle.term_program.specs.Programs.{IsMade, root_in, things_in};

use crate::mentions::term_cells;
use crate::program::Program;
use std::alloc::AllocError;
use term_math::{Coefficient, Form};
use term_nodes::item_at;
use term_store::TermId;

/// A constant and so many times a cell.
#[derive(Clone, Copy, Debug, PartialEq, Eq)]
pub struct OneCell {
    pub cell: u32,
    pub k: i64,
    pub constant: i64,
}

/// The constant of a form, and this cell of it.
fn with_cell(form: &Form, part: &Coefficient) -> OneCell
    ensures cell { result.cell ≡ part.now.cell }
    ensures k { result.k ≡ part.now.k }
    ensures constant { result.constant ≡ form.now.constant }
{
    OneCell {
        cell: part.cell,
        k: part.k,
        constant: form.constant,
    }
}

/// The constant and the cell of a form that has just one.
#[tactic(auto, using(crate::proofs::LinearTerms::one_form, crate::proofs::LinearTerms::several_forms, crate::proofs::LinearTerms::no_cell))]
fn one_in(form: &Form) -> Option<OneCell>
    requires plain { form.now.plain ≡ true }
    ensures some { IfSome result (λ x. form_of form.now ≡ form_of_one x) }
    ensures none { IfNone result (is_one (form_of form.now).cells ≡ false) }
{
    let Some((first, later)) = form.cells.split_first() else {
        return None;
    };
    if !later.is_empty() {
        return None;
    }
    Some(with_cell(form, first))
}

impl Program {
    /// The constant and the cell of a term that is Always defined, by the wide reading over the box of all points, and has just one cell in its linear form
    /// and nothing else.
    #[tactic(auto, using(crate::proofs::LinearTerms::one_there, crate::proofs::LinearTerms::several_there, crate::proofs::LinearTerms::not_plain, crate::proofs::LinearTerms::nothing_there))]
    pub fn one_cell(&self, term: TermId) -> Option<OneCell>
        requires made { IsMade self.now }
        ensures some { IfSome result (IsOneCell (root_in self.now) (term_at (things_in self.now) term.0)) }
        ensures none { IfNone result (has_one_cell (root_in self.now) (term_at (things_in self.now) term.0) ≡ false) }
    {
        let root = self.draft.store.root();
        let here = self.draft.store.here(&root);
        let Some(item) = item_at(here.items, term.0) else {
            return None;
        };
        if !item.facts.is_plain() {
            return None;
        }
        one_in(&item.facts.form)
    }

    /// The cells that a term mentions, in ascending order. The list is made anew.
    pub fn cells_in(&self, term: TermId) -> Result<Vec<u32>, AllocError>
        requires made { IsMade self.now }
        ensures { IfOk result (λ cells. IsListOf (mentions (root_in self.now) (term_at (things_in self.now) term.0)) cells.items) }
    {
        term_cells(&self.draft, term.0)
    }
}
