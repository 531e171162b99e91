//! The cells of linear forms, and of the elements of arrays.

ghost use Rattle.std.specs.Prelude.{◌≡◌, OnOk};
ghost use Rattle.std.specs.List.{flat_map};
ghost use Rattle.term_math.specs.Shown.{form_of};
ghost use Rattle.term_math.specs.Kept.{item_of, items_of};
ghost use Rattle.term_language.specs.Mentions.{item_mentions};
ghost use Rattle.term_cells.specs.Cells.{form_cells, with_cells};

use crate::kept::put;
use std::alloc::AllocError;
use std::collections::BTreeSet;
use term_math::{Element, Form};

/// Puts the cells of a linear form into a set.
#[tactic(auto, using(crate::proofs::Putting::next_coefficient, crate::proofs::Putting::no_coefficient_left))]
pub(crate) fn put_form(form: &Form, cells: &mut BTreeSet<u32>) -> Result<(), AllocError>
    ensures { OnOk result (cells.new.keys ≡ with_cells cells.old.keys (form_cells (form_of form.now).cells)) }
{
    'form: for coefficient in form.cells.as_slice() {
        put(cells, coefficient.cell)?;
    }
    Ok(())
}

/// Puts an element of an array into a set, if it is a cell.
fn put_element(element: &Element, cells: &mut BTreeSet<u32>) -> Result<(), AllocError>
    ensures { OnOk result (cells.new.keys ≡ with_cells cells.old.keys (item_mentions (item_of element.now))) }
{
    match element {
        Element::Fixed(_) => Ok(()),
        Element::Free(cell) => put(cells, *cell),
    }
}

/// Puts those elements of an array into a set that are cells.
#[tactic(auto, using(crate::proofs::Putting::next_element, crate::proofs::Putting::no_element_left))]
pub(crate) fn put_elements(
    elements: &[Element],
    cells: &mut BTreeSet<u32>,
) -> Result<(), AllocError>
    ensures { OnOk result (cells.new.keys ≡ with_cells cells.old.keys (flat_map item_mentions (items_of elements.now))) }
{
    'elements: for element in elements {
        put_element(element, cells)?;
    }
    Ok(())
}
