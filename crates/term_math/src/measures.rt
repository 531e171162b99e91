//! How large the numbers of a form get over the root box, and forms whose numbers have 64 bits.

ghost use Rattle.std.specs.Prelude.{◌≡◌, ◌+◌, ◌*◌, ◌<◌, ◌^◌, max, map, IfOk};
ghost use Rattle.std.specs.Int.RustNames.{unsigned_abs};
ghost use Rattle.term_language.specs.Ends as ends;
ghost use Rattle.term_language.specs.Sizes as sizes;
ghost use Rattle.term_math.specs.Shown.{box_in, ends_of, form_of};
ghost use Rattle.term_math.specs.Sums.{mass, mass_of, narrow, weight_in, wide_cells, wide_form, widen};

use crate::combinations::{WideCoefficient, WideForm};
use crate::ends::{Ends, Factor};
use crate::forms::{Coefficient, Form};
use crate::views::BoxView;
use std::alloc::{AllocError, Global};

/// The greatest of 1 and the sizes of both ends.
pub fn weight_of(ends: &Ends) -> u64
    ensures { result ≡ sizes.weight_of (ends_of ends.now) }
{
    let most = ends.low.unsigned_abs().max(ends.high.unsigned_abs());
    most.max(1)
}

/// The greater of the sizes of both ends.
fn greatest(ends: &Ends) -> u64
    ensures { result ≡ max (unsigned_abs ends.now.low) (unsigned_abs ends.now.high) }
{
    ends.low.unsigned_abs().max(ends.high.unsigned_abs())
}

/// The weight of the interval of a product.
pub fn weight_of_times(a: &Ends, b: &Ends) -> u128
    ensures { result ≡ sizes.weight_of (ends.times (ends_of a.now) (ends_of b.now)) }
{
    let most = u128::from(greatest(a)) * u128::from(greatest(b));
    most.max(1)
}

/// So many times a weight.
pub fn times_weight(factor: &Factor, weight: u64) -> u128
    ensures { result ≡ unsigned_abs factor.now.k * weight }
{
    u128::from(factor.k.unsigned_abs()) * u128::from(weight)
}

/// The weight of a multiple of a cell.
fn weight_at(root: &BoxView, coefficient: &WideCoefficient) -> u128
    requires room { unsigned_abs coefficient.now.k * sizes.weight_of (ends.cell_ends (box_in root.now) coefficient.now.cell) < 2 ^ 127 }
    ensures { result ≡ unsigned_abs coefficient.now.k * sizes.weight_of (ends.cell_ends (box_in root.now) coefficient.now.cell) }
{
    let interval = root.cell(coefficient.cell);
    coefficient.k.unsigned_abs() * u128::from(weight_of(&interval))
}

/// The weight of all cells.
#[tactic(auto, using(crate::proofs::Weighing::next_weight, crate::proofs::Weighing::no_weight, crate::proofs::Weighing::times_room, crate::proofs::Weighing::sum_room))]
fn cells_weight(root: &BoxView, cells: &[WideCoefficient]) -> u128
    requires room { sizes.cells_weight (box_in root.now) (wide_cells cells.now) < 2 ^ 127 }
    ensures { result ≡ sizes.cells_weight (box_in root.now) (wide_cells cells.now) }
{
    let mut sum = 0;
    for i in (0..cells.len()).rev() {
        let times = weight_at(root, &cells[i]);
        sum += times;
    }
    sum
}

/// This coefficient with a number of 64 bits.
fn narrowed(coefficient: &WideCoefficient) -> Coefficient
    requires small { unsigned_abs coefficient.now.k < 2 ^ 63 }
    ensures { result ≡ narrow coefficient.now }
{
    Coefficient {
        cell: coefficient.cell,
        k: coefficient.k as i64,
    }
}

/// All numbers with 64 bits.
#[tactic(auto, using(crate::proofs::Weighing::small_at))]
fn narrowed_cells(alloc: Global, cells: &[WideCoefficient]) -> Result<Vec<Coefficient>, AllocError>
    requires small { mass (wide_cells cells.now) < 2 ^ 63 }
    ensures { IfOk result (λ list. list.items ≡ map narrow cells.now) }
{
    let mut list = Vec::new(alloc);
    for coefficient in cells {
        list.push(narrowed(coefficient))?;
    }
    Ok(list)
}

impl WideForm {
    /// The size of the constant, and the weight of all cells.
    pub fn weight(&self, root: &BoxView) -> u128
        requires room { weight_in (box_in root.now) (wide_form self.now) < 2 ^ 127 }
        ensures { result ≡ weight_in (box_in root.now) (wide_form self.now) }
    {
        let cells = cells_weight(root, self.cells.as_slice());
        self.constant.unsigned_abs() + cells
    }

    /// The constant with 64 bits.
    fn narrowed_constant(&self) -> Factor
        requires small { unsigned_abs self.now.constant < 2 ^ 63 }
        ensures { result.k ≡ self.now.constant }
    {
        Factor {
            k: self.constant as i64,
        }
    }

    /// This form with numbers of 64 bits.
    #[tactic(auto, using(crate::proofs::Weighing::narrow_cells))]
    pub fn narrowed(&self, alloc: Global) -> Result<Form, AllocError>
        requires small { mass_of (wide_form self.now) < 2 ^ 63 }
        ensures { IfOk result (λ form. form_of form ≡ wide_form self.now) }
    {
        let constant = self.narrowed_constant();
        Ok(Form {
            constant: constant.k,
            cells: narrowed_cells(alloc, self.cells.as_slice())?,
            plain: self.plain,
        })
    }
}

/// All numbers with 128 bits.
fn widened_cells(alloc: Global, cells: &[Coefficient]) -> Result<Vec<WideCoefficient>, AllocError>
    ensures { IfOk result (λ list. list.items ≡ map widen cells.now) }
{
    cells
        .iter()
        .map(|coefficient| WideCoefficient {
            cell: coefficient.cell,
            k: i128::from(coefficient.k),
        })
        .collect(alloc)
}

impl Form {
    /// This form with numbers of 128 bits.
    #[tactic(auto, using(crate::proofs::Weighing::widen_cells))]
    pub fn widened(&self, alloc: Global) -> Result<WideForm, AllocError>
        ensures { IfOk result (λ wide. wide_form wide ≡ form_of self.now) }
    {
        Ok(WideForm {
            constant: i128::from(self.constant),
            cells: widened_cells(alloc, self.cells.as_slice())?,
            plain: self.plain,
        })
    }
}
