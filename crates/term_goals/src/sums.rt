//! Sums of multiples of several terms: a linear form, and the non-linear part of them.

ghost use Rattle.std.specs.Prelude.{◌≡◌, ◌<◌, ◌^◌};
ghost use Rattle.term_language.specs.Ends as ends;
ghost use Rattle.term_language.specs.Forms as forms;
ghost use Rattle.term_language.specs.Sizes.{cells_weight};
ghost use Rattle.term_math.specs.Shown.{box_in, ends_at};
ghost use Rattle.term_math.specs.Sums.{wide_cells, wide_form};
ghost use Rattle.term_nodes.specs.Seen.{IsReady};
ghost use Rattle.term_nodes.specs.Things.{term_at, things};
ghost use Rattle.term_language.specs.Rules as rule;
ghost use Rattle.term_goals.specs.Wide.{IsWideFit, wide_ends};
ghost use Rattle.term_goals.specs.Goals.{HasRoom, all_weight, atoms_ends};

use crate::wide::WideEnds;
use sopl_base::Wide;
use term_math::{BoxView, WideCoefficient, WideForm};
use term_nodes::Evaluator;

/// So many times a term.
#[derive(Clone, Copy, Debug, PartialEq, Eq)]
pub struct Atom {
    pub k: i128,
    pub term: u32,
}

impl Atom {
    /// So many times this term.
    pub(crate) fn times(factor: &Wide, term: u32) -> Atom
        ensures { result ≡ record { k = factor.now.value; term = term } }
    {
        Atom {
            k: factor.value,
            term,
        }
    }

    /// How many times.
    pub(crate) fn factor(&self) -> Wide
        ensures { result.value ≡ self.now.k }
    {
        Wide { value: self.k }
    }
}

/// A sum: its linear form, and a multiple of each term that has more in it than cells.
#[derive(Drop)]
pub struct Summed {
    pub form: WideForm,
    pub atoms: Vec<Atom>,
}

/// The interval of a multiple of a cell.
fn times_cell(view: &BoxView, coefficient: &WideCoefficient) -> WideEnds
    requires fits { IsWideFit (ends_at coefficient.now.k (ends.cell_ends (box_in view.now) coefficient.now.cell)) }
    ensures { wide_ends result ≡ ends.scaled coefficient.now.k (ends.cell_ends (box_in view.now) coefficient.now.cell) }
{
    let interval = view.cell(coefficient.cell);
    WideEnds::scaled(
        &Wide {
            value: coefficient.k,
        },
        &interval,
    )
}

/// The interval of the cells of a form.
#[tactic(auto, using(crate::proofs::Steps::next_cells, crate::proofs::Steps::no_cells))]
fn cells_ends(here: &Evaluator, cells: &[WideCoefficient]) -> WideEnds
    requires ready { IsReady here.now }
    requires room { cells_weight (box_in here.now.root) (wide_cells cells.now) < 2 ^ 127 }
    ensures { wide_ends result ≡ forms.cells_ends (box_in here.now.view) (wide_cells cells.now) }
{
    let mut sum = WideEnds::zero();
    for i in (0..cells.len()).rev() {
        let times = times_cell(&here.view, &cells[i]);
        sum = times.plus(&sum);
    }
    sum
}

/// The interval of a multiple of the non-linear part of a term.
fn times_atom(here: &Evaluator, atom: &Atom) -> WideEnds
    requires ready { IsReady here.now }
    requires fits { IsWideFit (ends_at atom.now.k (rule.atoms rule.Near (box_in here.now.root) (box_in here.now.view) (term_at (things here.now.items.now) atom.now.term))) }
    ensures { wide_ends result ≡ ends.scaled atom.now.k (rule.atoms rule.Near (box_in here.now.root) (box_in here.now.view) (term_at (things here.now.items.now) atom.now.term)) }
{
    let seen = here.near_sight(atom.term);
    WideEnds::scaled(&atom.factor(), &seen.ends)
}

/// The interval of a multiple of the non-linear part of each term.
#[tactic(auto, using(crate::proofs::Steps::next_atoms, crate::proofs::Steps::no_atoms))]
fn atoms_ends(here: &Evaluator, atoms: &[Atom]) -> WideEnds
    requires ready { IsReady here.now }
    requires room { all_weight (box_in here.now.root) (things here.now.items.now) atoms.now < 2 ^ 127 }
    ensures { wide_ends result ≡ atoms_ends (box_in here.now.root) (box_in here.now.view) (things here.now.items.now) atoms.now }
{
    let mut sum = WideEnds::zero();
    for i in (0..atoms.len()).rev() {
        let times = times_atom(here, &atoms[i]);
        sum = times.plus(&sum);
    }
    sum
}

/// The interval of the constant of a form.
fn constant_ends(form: &WideForm) -> WideEnds
    ensures { wide_ends result ≡ ends.exactly form.now.constant }
{
    WideEnds {
        low: form.constant,
        high: form.constant,
    }
}

impl Summed {
    /// The interval of the sum.
    pub(crate) fn ends(&self, here: &Evaluator) -> WideEnds
        requires ready { IsReady here.now }
        requires room { HasRoom (box_in here.now.root) (things here.now.items.now) self.now }
        ensures { wide_ends result ≡ forms.whole (box_in here.now.view) (wide_form self.now.form)
            (atoms_ends (box_in here.now.root) (box_in here.now.view) (things here.now.items.now) self.now.atoms.items) }
    {
        let constant = constant_ends(&self.form);
        let cells = cells_ends(here, self.form.cells.as_slice());
        let atoms = atoms_ends(here, self.atoms.as_slice());
        constant.plus(&cells.plus(&atoms))
    }
}
