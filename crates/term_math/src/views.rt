//! Intervals of forms over a box.

ghost use Rattle.std.specs.Prelude.{◌≡◌, negsuc, pos, slice_index_or, slice_set, Some};
ghost use Rattle.term_language.specs.Ends as ends;
ghost use Rattle.term_language.specs.Forms as rule;
ghost use Rattle.term_language.specs.Rules as rules;
ghost use Rattle.term_math.specs.Shown.{CellsFit, DifferenceFits, IsFit, ProductFits, WholeFits, box_in, box_under, cells_of, ends_at, ends_of, form_of, with_part};

use crate::ends::{Ends, Factor};
use crate::forms::{Coefficient, Form};

/// An interval for one cell.
#[derive(Clone, Copy, Debug)]
pub struct Part {
    pub cell: u32,
    pub ends: Ends,
}

/// The intervals of a box, with another one for one cell where that is said.
#[derive(Clone, Copy)]
pub struct BoxView<'a> {
    pub lows: &'a [i64],
    pub highs: &'a [i64],
    pub part: Option<Part>,
}

impl<'a> BoxView<'a> {
    /// The box with another interval for one cell.
    pub fn replaced(&self, part: &Part) -> BoxView<'a>
        ensures { box_in result ≡ with_part (box_under self.now) (Some part.now) }
    {
        BoxView {
            lows: self.lows,
            highs: self.highs,
            part: Some(*part),
        }
    }

    /// The interval of a cell; 0 alone, if there is no such cell.
    pub fn cell(&self, cell: u32) -> Ends
        ensures { ends_of result ≡ ends.cell_ends (box_in self.now) cell }
    {
        let at = cell as usize;
        if let Some(part) = self.part {
            if part.cell == cell {
                return self.changed(at, &part.ends);
            }
        }
        self.unchanged(at)
    }

    /// The interval of a cell in the box itself.
    fn unchanged(&self, at: usize) -> Ends
        ensures { ends_of result ≡ ends.ends (slice_index_or self.now.lows.now at (pos 0)) (slice_index_or self.now.highs.now at (pos 0)) }
    {
        let low = match self.lows.get(at) {
            Some(k) => *k,
            None => 0,
        };
        let high = match self.highs.get(at) {
            Some(k) => *k,
            None => 0,
        };
        Ends { low, high }
    }

    /// The interval of the cell that has another one.
    fn changed(&self, at: usize, part: &Ends) -> Ends
        ensures { ends_of result ≡ ends.ends (slice_index_or (slice_set self.now.lows.now at part.now.low) at (pos 0)) (slice_index_or (slice_set self.now.highs.now at part.now.high) at (pos 0)) }
    {
        let low = if at < self.lows.len() { part.low } else { 0 };
        let high = if at < self.highs.len() { part.high } else { 0 };
        Ends { low, high }
    }

    /// The interval of a multiple of a cell.
    fn times(&self, coefficient: &Coefficient) -> Ends
        requires fits { IsFit (ends_at coefficient.now.k (ends.cell_ends (box_in self.now) coefficient.now.cell)) }
        ensures { ends_of result ≡ ends.scaled coefficient.now.k (ends.cell_ends (box_in self.now) coefficient.now.cell) }
    {
        let interval = self.cell(coefficient.cell);
        interval.scaled(&coefficient.factor())
    }

    /// The interval of the cells of a form.
    #[tactic(auto, using(crate::proofs::Cells::next_cells, crate::proofs::Cells::no_cells, crate::proofs::Cells::sum_fits, crate::proofs::Cells::times_fit))]
    pub fn cells(&self, cells: &[Coefficient]) -> Ends
        requires fits { CellsFit (box_in self.now) cells.now }
        ensures { ends_of result ≡ rule.cells_ends (box_in self.now) (cells_of cells.now) }
    {
        let mut sum = Ends::zero();
        for i in (0..cells.len()).rev() {
            let times = self.times(&cells[i]);
            sum = times.plus(&sum);
        }
        sum
    }

    /// The interval of a form, where that of all else in it is given.
    pub fn whole(&self, form: &Form, atoms: &Ends) -> Ends
        requires fits { WholeFits (box_in self.now) form.now (ends_of atoms.now) }
        ensures { ends_of result ≡ rule.whole (box_in self.now) (form_of form.now) (ends_of atoms.now) }
    {
        let constant = Ends {
            low: form.constant,
            high: form.constant,
        };
        let others = self.cells(form.cells.as_slice()).plus(atoms);
        constant.plus(&others)
    }

    /// The interval of the non-linear part of a product.
    pub fn product(&self, f: &Form, g: &Form, f_atoms: &Ends, g_atoms: &Ends) -> Ends
        requires fits { ProductFits (box_in self.now) f.now g.now (ends_of f_atoms.now) (ends_of g_atoms.now) }
        ensures { ends_of result ≡ rules.product_atoms (box_in self.now) (form_of f.now) (form_of g.now) (ends_of f_atoms.now) (ends_of g_atoms.now) }
    {
        if f.is_constant() {
            return g_atoms.scaled(&f.factor());
        }
        if g.is_constant() {
            return f_atoms.scaled(&g.factor());
        }
        let left = self.whole(f, f_atoms);
        let right = self.whole(g, g_atoms);
        left.times(&right)
    }

    /// The interval of a difference, whose form is given.
    pub fn difference(&self, form: &Form, left: &Ends, right: &Ends) -> Ends
        requires fits { DifferenceFits (box_in self.now) form.now (ends_of left.now) (ends_of right.now) }
        ensures { ends_of result ≡ rule.whole (box_in self.now) (form_of form.now) (ends.plus (ends_of left.now) (ends.scaled (negsuc 0) (ends_of right.now))) }
    {
        let subtracted = right.scaled(&Factor { k: -1 });
        self.whole(form, &left.plus(&subtracted))
    }
}
