//! Sums of multiples of forms: numbers of 128 bits, and the cells in a tree, so that each of them is found at once.

ghost use Rattle.std.specs.Prelude.{◌≡◌, ◌+◌, ◌*◌, ◌<◌, ◌^◌, ◌+ℤ◌, ◌*ℤ◌, ◌&&◌, ◌||◌, pos, map, OnOk, IfOk, unwrap_or};
ghost use Rattle.std.specs.Ordering.{int_eq, nat_cmp};
ghost use Rattle.std.specs.BTreeMap.{get};
ghost use Rattle.std.specs.List.{filter};
ghost use Rattle.std.specs.Int.RustNames.{unsigned_abs};
ghost use Rattle.term_language.specs.Forms as rule;
ghost use Rattle.term_math.specs.Shown.{cells_of, form_of};
ghost use Rattle.term_math.specs.Sums.{coefficient_at, combination_of, is_there, mass, mass_of, nonzero, wide_form};

use crate::ends::Factor;
use crate::forms::{Coefficient, Form};
use sopl_base::Wide;
use std::alloc::{AllocError, Global};
use std::collections::BTreeMap;

/// So many times a cell.
#[derive(Clone, Copy, Debug, PartialEq, Eq)]
pub struct WideCoefficient {
    pub cell: u32,
    pub k: i128,
}

/// A form whose numbers have 128 bits.
#[derive(Drop)]
pub struct WideForm {
    pub constant: i128,
    pub cells: Vec<WideCoefficient>,
    pub plain: bool,
}

/// A sum of multiples of forms.
#[derive(Drop)]
pub struct Combination {
    constant: i128,
    cells: BTreeMap<u32, i128>,
    plain: bool,
}

impl Combination {
    /// 0.
    pub fn new(alloc: Global) -> Combination
        ensures { combination_of result ≡ rule.number_form (pos 0) }
    {
        Combination {
            constant: 0,
            cells: BTreeMap::new(alloc),
            plain: true,
        }
    }

    /// So many times a form more.
    #[tactic(auto, using(crate::proofs::Weights::room_for_constant, crate::proofs::Weights::room_for_cells))]
    pub fn add(&mut self, factor: &Wide, form: &Form) -> Result<(), AllocError>
        requires room { mass_of (combination_of self.old) + unsigned_abs factor.now.value * mass_of (form_of form.now) < 2 ^ 127 }
        ensures { OnOk result (combination_of self.new ≡ rule.plus_form factor.now.value (combination_of self.old) (form_of form.now)) }
    {
        self.add_constant(&constant_times(factor, form));
        self.plain = stays_plain(self.plain, form.plain, factor);
        add_cells(&mut self.cells, factor, form.cells.as_slice())
    }

    /// A constant more.
    fn add_constant(&mut self, more: &Wide)
        requires room { unsigned_abs self.old.constant + unsigned_abs more.now.value < 2 ^ 127 }
        ensures constant { self.new.constant ≡ self.old.constant +ℤ more.now.value }
        ensures cells { self.new.cells ≡ self.old.cells }
        ensures plain { self.new.plain ≡ self.old.plain }
    {
        self.constant += more.value;
    }

    /// The sum as a form.
    #[tactic(auto, using(crate::proofs::Entries::nonzero_entries))]
    pub fn form(&self, alloc: Global) -> Result<WideForm, AllocError>
        ensures { IfOk result (λ form. wide_form form ≡ combination_of self.now) }
    {
        Ok(WideForm {
            constant: self.constant,
            cells: listed(alloc, &self.cells)?,
            plain: self.plain,
        })
    }
}

/// Whether nothing but cells is in a sum.
fn stays_plain(sum: bool, form: bool, factor: &Wide) -> bool
    ensures { result ≡ (sum && (form || int_eq factor.now.value (pos 0))) }
{
    if !sum {
        return false;
    }
    if form {
        return true;
    }
    factor.value == 0
}

/// How many times a cell there is so far.
fn value_at(cells: &BTreeMap<u32, i128>, cell: u32) -> WideCoefficient
    ensures { result ≡ record { cell = cell; k = unwrap_or (get nat_cmp cells.now cell) (pos 0) } }
{
    match cells.get(&cell) {
        Some(k) => WideCoefficient { cell, k: *k },
        None => WideCoefficient { cell, k: 0 },
    }
}

/// So many times a cell more.
#[tactic(auto, using(crate::proofs::Entries::put_entry, crate::proofs::Entries::value_mass, sopl_base::proofs::Sizes::plus_size))]
fn put(cells: &mut BTreeMap<u32, i128>, more: &WideCoefficient) -> Result<(), AllocError>
    requires room { mass (nonzero cells.old.entries) + unsigned_abs more.now.k < 2 ^ 127 }
    ensures { OnOk result (nonzero cells.new.entries ≡ rule.put more.now.cell more.now.k (nonzero cells.old.entries)) }
{
    let before = value_at(cells, more.cell);
    cells.insert(more.cell, before.k + more.k)?;
    Ok(())
}

/// So many times the constant of a form.
fn constant_times(factor: &Wide, form: &Form) -> Wide
    requires room { unsigned_abs (factor.now.value *ℤ form.now.constant) < 2 ^ 127 }
    ensures { result.value ≡ factor.now.value *ℤ form.now.constant }
{
    factor.times(Wide::of(form.constant))
}

/// So many times a coefficient.
fn times(factor: &Wide, coefficient: &Coefficient) -> WideCoefficient
    requires room { unsigned_abs (factor.now.value *ℤ coefficient.now.k) < 2 ^ 127 }
    ensures { result ≡ record { cell = coefficient.now.cell; k = factor.now.value *ℤ coefficient.now.k } }
{
    WideCoefficient {
        cell: coefficient.cell,
        k: factor.times(Wide::of(coefficient.k)).value,
    }
}

/// So many times the cells of a form more.
#[tactic(auto, using(crate::proofs::Weights::room_at, crate::proofs::Weights::next_combined))]
fn add_cells(
    cells: &mut BTreeMap<u32, i128>,
    factor: &Wide,
    more: &[Coefficient],
) -> Result<(), AllocError>
    requires room { mass (nonzero cells.old.entries) + unsigned_abs factor.now.value * mass (cells_of more.now) < 2 ^ 127 }
    ensures { OnOk result (nonzero cells.new.entries ≡ rule.combined factor.now.value (nonzero cells.old.entries) (cells_of more.now)) }
{
    for i in (0..more.len()).rev() {
        put(cells, &times(factor, &more[i]))?;
    }
    Ok(())
}

/// The cells that are there, in ascending order.
fn listed(alloc: Global, cells: &BTreeMap<u32, i128>) -> Result<Vec<WideCoefficient>, AllocError>
    ensures { IfOk result (λ list. list.items ≡ map coefficient_at (filter is_there cells.now.entries)) }
{
    cells
        .iter()
        .filter(|entry| *entry.1 != 0)
        .map(|entry| WideCoefficient {
            cell: *entry.0,
            k: *entry.1,
        })
        .collect(alloc)
}

/// So many times a form.
#[tactic(auto, using(crate::proofs::Weights::scaled_room))]
pub fn scaled(alloc: Global, factor: &Factor, form: &Form) -> Result<WideForm, AllocError>
    requires room { unsigned_abs factor.now.k * mass_of (form_of form.now) < 2 ^ 127 }
    ensures { IfOk result (λ wide. wide_form wide ≡ rule.times_form factor.now.k (form_of form.now)) }
{
    let mut sum = Combination::new(alloc);
    sum.add(&factor.widened(), form)?;
    let wide = sum.form(alloc)?;
    Ok(wide)
}
