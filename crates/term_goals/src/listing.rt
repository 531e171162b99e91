//! The non-linear part of terms, as multiples of the terms that they are made of.

ghost use Rattle.std.specs.Prelude.{◌≡◌, ◌+◌, ◌*◌, ◌<◌, ◌^◌, ◌*ℤ◌, false, length, slice_index_or, unsigned_abs, List, OnOk, IfOk, IfSome, IfNone, IsSome, ◌≤◌};
ghost use Rattle.box_problem.specs.Box.{Box, Inside};
ghost use Rattle.term_language.specs.Ends as ends;
ghost use Rattle.term_language.specs.Forms as forms;
ghost use Rattle.term_language.specs.Rules as rule;
ghost use Rattle.term_language.specs.Sizes.{atoms_weight, sum_weight};
ghost use Rattle.term_language.specs.Terms as term;
ghost use Rattle.term_math.specs.Shown.{box_in};
ghost use Rattle.term_math.specs.Sums.{wide_cells};
ghost use Rattle.term_nodes.specs.Built.{PartsBelow};
ghost use Rattle.term_nodes.specs.Seen.{IsReady};
ghost use Rattle.term_nodes.specs.Things.{parts_at, term_at, things};
ghost use Rattle.term_goals.specs.Goals.{AreCells, AtomsExist, HasRoom, IsBare, IsOperand, all_weight, atoms_ends, listed_ends};

use crate::sums::{Atom, Summed};
use sopl_base::Wide;
use std::alloc::{AllocError, Global};
use term_math::{Factor, WideCoefficient, factor};
use term_nodes::{Evaluator, Node, Signed, form_at, item_at};

/// The product of two numbers.
fn product(a: &Wide, b: &Factor) -> Wide
    requires room { unsigned_abs (a.now.value *ℤ b.now.k) < 2 ^ 127 }
    ensures { result.value ≡ a.now.value *ℤ b.now.k }
{
    a.times(b.widened())
}

/// Adds a multiple of a term that has no constant and no cell of its own.
fn add_leaf(list: &mut Vec<Atom>, here: &Evaluator, atom: &Atom) -> Result<(), AllocError>
    requires exists { atom.now.term < length here.now.items.now }
    requires leaf { rule.form (box_in here.now.root) (term_at (things here.now.items.now) atom.now.term) ≡ forms.atom_form }
    ensures sum { (b : Box) → OnOk result (listed_ends (box_in here.now.root) b (things here.now.items.now) list.new.items
        ≡ ends.plus (listed_ends (box_in here.now.root) b (things here.now.items.now) list.old.items)
        (ends.scaled atom.now.k (rule.atoms rule.Near (box_in here.now.root) b (term_at (things here.now.items.now) atom.now.term)))) }
    ensures exist { OnOk result (AtomsExist (length here.now.items.now) list.old.items → AtomsExist (length here.now.items.now) list.new.items) }
{
    list.push(*atom)?;
    Ok(())
}

/// The other operand of a product with a number, as often as it stands in the product; none, where neither operand is a number.
#[tactic(auto, using(crate::proofs::Growing::product_leaf))]
fn multiplied(here: &Evaluator, atom: &Atom, a: u32, b: u32) -> Option<Atom>
    requires ready { IsReady here.now }
    requires exists { atom.now.term < length here.now.items.now }
    requires left { a < atom.now.term }
    requires right { b < atom.now.term }
    requires is { term_at (things here.now.items.now) atom.now.term ≡ term.Product (term_at (things here.now.items.now) a) (term_at (things here.now.items.now) b) }
    requires other { (rule.form (box_in here.now.root) (term_at (things here.now.items.now) atom.now.term)).plain ≡ false }
    requires room { unsigned_abs atom.now.k * atoms_weight (box_in here.now.root) (term_at (things here.now.items.now) atom.now.term) < 2 ^ 127 }
    ensures same { IfSome result (IsOperand (box_in here.now.root) (things here.now.items.now) atom.now) }
    ensures leaf { IfNone result (rule.form (box_in here.now.root) (term_at (things here.now.items.now) atom.now.term) ≡ forms.atom_form) }
{
    let before = atom.factor();
    let f = form_at(here.items, a);
    if f.is_constant() {
        return Some(Atom::times(&product(&before, &f.factor()), b));
    }
    let g = form_at(here.items, b);
    if g.is_constant() {
        return Some(Atom::times(&product(&before, &g.factor()), a));
    }
    None
}

/// The other operand, where a term is a product with a number and has more in it than cells.
#[tactic(auto, using(crate::proofs::Operands::bare_at, crate::proofs::Operands::bare_product, crate::proofs::Operands::bare_plain, crate::proofs::Operands::bare_nothing, crate::proofs::Growing::term_is, crate::proofs::Growing::other_at, term_nodes::proofs::Steps::below_at))]
fn operand(here: &Evaluator, atom: &Atom) -> Option<Atom>
    requires ready { IsReady here.now }
    requires room { unsigned_abs atom.now.k * atoms_weight (box_in here.now.root) (term_at (things here.now.items.now) atom.now.term) < 2 ^ 127 }
    ensures same { IfSome result (IsOperand (box_in here.now.root) (things here.now.items.now) atom.now) }
    ensures bare { IfNone result (IsBare (box_in here.now.root) (term_at (things here.now.items.now) atom.now.term)) }
{
    let item = item_at(here.items, atom.term)?;
    if item.facts.form.plain {
        return None;
    }
    match &item.node {
        Node::Product(a, b) => multiplied(here, atom, *a, *b),
        Node::Constant(_) => None,
        Node::Cell(_) => None,
        Node::Sum(_) => None,
        Node::Operation(_, _) => None,
        Node::Extreme(_, _, _) => None,
        Node::Element(_, _) => None,
        Node::Number(_) => None,
        Node::Compare(_) => None,
        Node::Not(_) => None,
        Node::All(_) => None,
        Node::Any(_) => None,
        Node::Implies(_, _) => None,
        Node::AllDifferent(_) => None,
        Node::Cumulative(_, _) => None,
        Node::Table(_) => None,
    }
}

/// Adds multiples of the terms that a term is made of, but for its constant and its cells. Products with numbers are left
/// behind by a loop, since a chain of them is as deep as its text is long.
#[cycle(list)]
fn add(list: &mut Vec<Atom>, here: &Evaluator, times: &Wide, id: u32) -> Result<(), AllocError>
    requires ready { IsReady here.now }
    requires room { unsigned_abs times.now.value * atoms_weight (box_in here.now.root) (term_at (things here.now.items.now) id) < 2 ^ 127 }
    ensures sum { (b : Box) → Inside b (box_in here.now.root)
        → OnOk result (listed_ends (box_in here.now.root) b (things here.now.items.now) list.new.items
        ≡ ends.plus (listed_ends (box_in here.now.root) b (things here.now.items.now) list.old.items)
        (ends.scaled times.now.value (rule.atoms rule.Near (box_in here.now.root) b (term_at (things here.now.items.now) id)))) }
    ensures exist { OnOk result (AtomsExist (length here.now.items.now) list.old.items → AtomsExist (length here.now.items.now) list.new.items) }
{
    let mut atom = Atom::times(times, id);
    'products: while let Some(next) = operand(here, &atom) {
        atom = next;
    }
    add_bare(list, here, &atom)
}

/// Adds multiples of the terms that a term is made of which is no product with a number.
#[cycle(list)]
#[tactic(auto, using(crate::proofs::Growing::leaf_form, crate::proofs::Operands::bare_leaf, term_nodes::proofs::Steps::below_at))]
fn add_bare(list: &mut Vec<Atom>, here: &Evaluator, atom: &Atom) -> Result<(), AllocError>
    requires ready { IsReady here.now }
    requires room { unsigned_abs atom.now.k * atoms_weight (box_in here.now.root) (term_at (things here.now.items.now) atom.now.term) < 2 ^ 127 }
    requires bare { IsBare (box_in here.now.root) (term_at (things here.now.items.now) atom.now.term) }
    ensures sum { (b : Box) → Inside b (box_in here.now.root)
        → OnOk result (listed_ends (box_in here.now.root) b (things here.now.items.now) list.new.items
        ≡ ends.plus (listed_ends (box_in here.now.root) b (things here.now.items.now) list.old.items)
        (ends.scaled atom.now.k (rule.atoms rule.Near (box_in here.now.root) b (term_at (things here.now.items.now) atom.now.term)))) }
    ensures exist { OnOk result (AtomsExist (length here.now.items.now) list.old.items → AtomsExist (length here.now.items.now) list.new.items) }
{
    let Some(item) = item_at(here.items, atom.term) else {
        return Ok(());
    };
    if item.facts.form.plain {
        return Ok(());
    }
    match &item.node {
        Node::Sum(parts) => add_parts(list, here, &atom.factor(), atom.term, parts.as_slice()),
        Node::Product(_, _) => add_leaf(list, here, atom),
        Node::Constant(_) => add_leaf(list, here, atom),
        Node::Cell(_) => add_leaf(list, here, atom),
        Node::Operation(_, _) => add_leaf(list, here, atom),
        Node::Extreme(_, _, _) => add_leaf(list, here, atom),
        Node::Element(_, _) => add_leaf(list, here, atom),
        Node::Number(_) => add_leaf(list, here, atom),
        Node::Compare(_) => add_leaf(list, here, atom),
        Node::Not(_) => add_leaf(list, here, atom),
        Node::All(_) => add_leaf(list, here, atom),
        Node::Any(_) => add_leaf(list, here, atom),
        Node::Implies(_, _) => add_leaf(list, here, atom),
        Node::AllDifferent(_) => add_leaf(list, here, atom),
        Node::Cumulative(_, _) => add_leaf(list, here, atom),
        Node::Table(_) => add_leaf(list, here, atom),
    }
}

/// Adds a multiple of each part of a sum.
#[cycle(list)]
fn add_parts(
    list: &mut Vec<Atom>,
    here: &Evaluator,
    times: &Wide,
    limit: u32,
    parts: &[Signed],
) -> Result<(), AllocError>
    requires ready { IsReady here.now }
    requires below { PartsBelow limit parts.now }
    requires small { unsigned_abs times.now.value < 2 ^ 127 }
    requires room { unsigned_abs times.now.value * sum_weight (box_in here.now.root) (parts_at (things here.now.items.now) parts.now) < 2 ^ 127 }
    ensures sum { (b : Box) → Inside b (box_in here.now.root)
        → OnOk result (listed_ends (box_in here.now.root) b (things here.now.items.now) list.new.items
        ≡ ends.plus (listed_ends (box_in here.now.root) b (things here.now.items.now) list.old.items)
        (ends.scaled times.now.value (rule.sum_atoms rule.Near (box_in here.now.root) b (parts_at (things here.now.items.now) parts.now)))) }
    ensures exist { OnOk result (AtomsExist (length here.now.items.now) list.old.items → AtomsExist (length here.now.items.now) list.new.items) }
{
    for part in parts {
        let signed = product(times, &factor(part.subtracted));
        add(list, here, &signed, part.term)?;
    }
    Ok(())
}

/// Adds multiples of the terms that several terms are made of, but for their constants and their cells.
fn add_atoms(list: &mut Vec<Atom>, here: &Evaluator, atoms: &[Atom]) -> Result<(), AllocError>
    requires ready { IsReady here.now }
    requires room { all_weight (box_in here.now.root) (things here.now.items.now) atoms.now < 2 ^ 127 }
    ensures sum { (b : Box) → Inside b (box_in here.now.root)
        → OnOk result (listed_ends (box_in here.now.root) b (things here.now.items.now) list.new.items
        ≡ ends.plus (listed_ends (box_in here.now.root) b (things here.now.items.now) list.old.items) (atoms_ends (box_in here.now.root) b (things here.now.items.now) atoms.now)) }
    ensures exist { OnOk result (AtomsExist (length here.now.items.now) list.old.items → AtomsExist (length here.now.items.now) list.new.items) }
{
    for atom in atoms {
        add(list, here, &atom.factor(), atom.term)?;
    }
    Ok(())
}

/// So many times a cell, by the number of the term that is the cell.
fn times_node(cell: &WideCoefficient, node: u32) -> Atom
    ensures { result ≡ record { k = cell.now.k; term = node } }
{
    Atom {
        k: cell.k,
        term: node,
    }
}

/// The number of the term that is a cell.
fn node_of(nodes: &[u32], cell: u32) -> Option<u32>
    ensures some { IfSome result (λ node. node ≡ slice_index_or nodes.now cell 0) }
    ensures exists { IsSome result → cell < length nodes.now }
    ensures none { IfNone result (length nodes.now ≤ cell) }
{
    let node = nodes.get(cell as usize)?;
    Some(*node)
}

/// Adds a multiple of each cell, by the number of the term that is the cell. A cell that is not in the root is 0, and left out.
fn add_cells(
    list: &mut Vec<Atom>,
    here: &Evaluator,
    nodes: &[u32],
    cells: &[WideCoefficient],
) -> Result<(), AllocError>
    requires ready { IsReady here.now }
    requires nodes { AreCells (box_in here.now.root) (things here.now.items.now) nodes.now }
    ensures sum { (b : Box) → Inside b (box_in here.now.root)
        → OnOk result (listed_ends (box_in here.now.root) b (things here.now.items.now) list.new.items
        ≡ ends.plus (listed_ends (box_in here.now.root) b (things here.now.items.now) list.old.items) (forms.cells_ends b (wide_cells cells.now))) }
    ensures exist { OnOk result (AtomsExist (length here.now.items.now) list.old.items → AtomsExist (length here.now.items.now) list.new.items) }
{
    for cell in cells {
        let Some(node) = node_of(nodes, cell.cell) else {
            continue;
        };
        list.push(times_node(cell, node))?;
    }
    Ok(())
}

/// A sum as a list: a multiple of each cell, and behind them multiples of the terms that the rest is made of.
pub(crate) fn listed(
    alloc: Global,
    here: &Evaluator,
    nodes: &[u32],
    summed: &Summed,
) -> Result<Vec<Atom>, AllocError>
    requires ready { IsReady here.now }
    requires nodes { AreCells (box_in here.now.root) (things here.now.items.now) nodes.now }
    requires room { HasRoom (box_in here.now.root) (things here.now.items.now) summed.now }
    ensures sum { (b : Box) → Inside b (box_in here.now.root)
        → IfOk result (λ list. listed_ends (box_in here.now.root) b (things here.now.items.now) list.items
        ≡ ends.plus (forms.cells_ends b (wide_cells summed.now.form.cells.items)) (atoms_ends (box_in here.now.root) b (things here.now.items.now) summed.now.atoms.items)) }
    ensures exist { IfOk result (λ list. AtomsExist (length here.now.items.now) list.items) }
{
    let mut list = Vec::new(alloc);
    add_cells(&mut list, here, nodes, summed.form.cells.as_slice())?;
    add_atoms(&mut list, here, summed.atoms.as_slice())?;
    Ok(list)
}
