//! Which terms are too large, and what is known of leaves.

ghost use Rattle.std.specs.Prelude.{◌≡◌, ◌<◌, ◌^◌, IfOk};
ghost use Rattle.box_problem.specs.Box.{Inside};
ghost use Rattle.term_language.specs.Forms as forms;
ghost use Rattle.term_language.specs.Sizes.{size};
ghost use Rattle.term_math.specs.Shown.{box_in, form_of};
ghost use Rattle.term_nodes.specs.Built.{kept, of_atom};
ghost use Rattle.term_store.specs.Stores.{IsMeasured, IsSoundStore, root_of, too_large};

use crate::store::TermStore;
use sopl_base::{Excess, Fault, codes, limits};
use std::alloc::{AllocError, Global};
use term_language::{Defined, Truth};
use term_math::{BoxView, Coefficient, Factor, Form, truth_ends};
use term_nodes::Facts;

/// The refusal of a term of this size.
fn too_large(size: u128) -> Fault
    requires room { size < 2 ^ 127 }
    ensures { result ≡ too_large size }
{
    Fault::Limit(Excess {
        code: codes::TERM_SIZE,
        counted: size as i128,
        limit: limits::TERM_SIZE as i128,
    })
}

/// Refuses a term whose size passes 2^40.
pub(crate) fn measured(size: u128) -> Result<(), Fault>
    requires room { size < 2 ^ 127 }
    ensures { IsMeasured size result }
{
    if size > limits::TERM_SIZE {
        return Err(too_large(size));
    }
    Ok(())
}

/// A number as a form.
pub(crate) fn number_form(alloc: Global, number: &Factor) -> Form
    ensures { form_of result ≡ forms.number_form number.now.k }
{
    Form {
        constant: number.k,
        cells: Vec::new(alloc),
        plain: true,
    }
}

/// A cell as a form.
pub(crate) fn cell_form(alloc: Global, cell: u32) -> Result<Form, AllocError>
    ensures { IfOk result (λ form. form_of form ≡ forms.cell_form cell) }
{
    let mut cells = Vec::new(alloc);
    cells.push(Coefficient { cell, k: 1 })?;
    Ok(Form {
        constant: 0,
        cells,
        plain: true,
    })
}

/// What is known of a condition as a number, where its truth is known.
pub(crate) fn atom(alloc: Global, truth: Truth) -> Facts
    ensures { kept result ≡ of_atom truth }
{
    Facts {
        form: Form {
            constant: 0,
            cells: Vec::new(alloc),
            plain: false,
        },
        mark: Defined::Always,
        wide_mark: Defined::Always,
        wide: truth_ends(truth),
        weight: 1,
        truth: Truth::True,
    }
}

impl TermStore {
    /// The root box.
    #[tactic(auto, using(box_problem::proofs::Boxes::part_of_itself))]
    pub fn root(&self) -> BoxView<'_>
        requires sound { IsSoundStore self.now }
        ensures root { box_in result ≡ root_of self.now }
        ensures inside { Inside (box_in result) (root_of self.now) }
    {
        BoxView {
            lows: self.lows.as_slice(),
            highs: self.highs.as_slice(),
            part: None,
        }
    }
}
