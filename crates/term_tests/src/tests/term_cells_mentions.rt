//! Which cells terms and conditions mention.

ghost use Rattle.term_language.specs.Laws.{IsTable};
ghost use Rattle.term_math.specs.Kept.{table_of};
ghost use Rattle.term_store.specs.Stores.{IsSoundStore};

use super::{
    add_cell, add_constant, add_table, compare, divided, element, extremes, pair, product, size,
    small, sum,
};
use sopl_base::{CmpOp, Fault};
use std::alloc::{AllocError, Global};
use term_cells::Nodes;
use term_math::{Element, Table};
use term_store::{CondId, NewCond, NewTerm, TermStore};

/// Whether these are the cells that a term mentions.
fn of_term(alloc: Global, store: &TermStore, id: u32, want: &[u32]) -> Result<bool, AllocError>
    requires sound { IsSoundStore store.now }
{
    let root = store.root();
    let here = store.here(&root);
    let nodes = Nodes {
        items: here.items,
        root: here.root,
    };
    let cells = nodes.cells_of_term(alloc, id)?;
    Ok(cells.as_slice() == want)
}

/// Whether these are the cells that a condition mentions.
fn of_cond(alloc: Global, store: &TermStore, id: u32, want: &[u32]) -> Result<bool, AllocError>
    requires sound { IsSoundStore store.now }
{
    let root = store.root();
    let here = store.here(&root);
    let nodes = Nodes {
        items: here.items,
        root: here.root,
    };
    let cells = nodes.cells_of_cond(alloc, id)?;
    Ok(cells.as_slice() == want)
}

/// The first row whose term mentions other cells.
fn other_terms(
    alloc: Global,
    store: &TermStore,
    rows: &[(&'static str, u32, &[u32])],
) -> Result<Option<&'static str>, Fault>
    requires sound { IsSoundStore store.now }
{
    for (word, id, want) in rows {
        if !of_term(alloc, store, *id, want)? {
            return Ok(Some(*word));
        }
    }
    Ok(None)
}

/// The first row whose condition mentions other cells.
fn other_conds(
    alloc: Global,
    store: &TermStore,
    rows: &[(&'static str, u32, &[u32])],
) -> Result<Option<&'static str>, Fault>
    requires sound { IsSoundStore store.now }
{
    for (word, id, want) in rows {
        if !of_cond(alloc, store, *id, want)? {
            return Ok(Some(*word));
        }
    }
    Ok(None)
}

/// A condition as a number.
fn number(store: &mut TermStore, c: u32) -> Result<u32, Fault>
    requires sound { IsSoundStore store.old }
    ensures sound { IsSoundStore store.new }
{
    if c >= store.count() {
        return Err(Fault::NoMemory);
    }
    let id = store.add_term(&NewTerm::Number(CondId(c)))?;
    Ok(id.0)
}

/// A condition that is made of one or two.
fn joined(store: &mut TermStore, way: char, a: u32, c: u32) -> Result<u32, Fault>
    requires sound { IsSoundStore store.old }
    ensures sound { IsSoundStore store.new }
{
    let count = store.count();
    if a >= count || c >= count {
        return Err(Fault::NoMemory);
    }
    let id = match way {
        '!' => store.add_cond(&NewCond::Not(CondId(a)))?,
        '&' => store.add_cond(&NewCond::All(&[CondId(a), CondId(c)]))?,
        '|' => store.add_cond(&NewCond::Any(&[CondId(a), CondId(c)]))?,
        _ => store.add_cond(&NewCond::Implies(CondId(a), CondId(c)))?,
    };
    Ok(id.0)
}

/// Which of some terms of the cells 3 and 1 mentions other cells, also where they cancel or a factor is 0.
fn terms(alloc: Global, store: &mut TermStore) -> Result<Option<&'static str>, Fault>
    requires sound { IsSoundStore store.old }
    ensures sound { IsSoundStore store.new }
{
    let x = add_cell(store, 3)?;
    let y = add_cell(store, 1)?;
    let five = add_constant(store, 5)?;
    let difference = sum(store, x, true, y)?;
    let none = sum(store, x, true, x)?;
    let times = product(store, none, y)?;
    let (quotient, remainder) = divided(store, x)?;
    let size = size(store, times)?;
    let (least, greatest) = extremes(store, x, y)?;
    let less = compare(store, CmpOp::Lt, y, five)?;
    let truth = number(store, less)?;
    other_terms(
        alloc,
        store,
        &[
            ("a cell", x, &[3]),
            ("a number", five, &[]),
            ("a difference", difference, &[1, 3]),
            ("a cell without itself", none, &[3]),
            ("a product with 0", times, &[1, 3]),
            ("a quotient", quotient, &[3]),
            ("a remainder", remainder, &[3]),
            ("a size", size, &[1, 3]),
            ("the least of both", least, &[1, 3]),
            ("the greatest of both", greatest, &[1, 3]),
            ("a condition as a number", truth, &[1]),
            ("a condition", less, &[]),
            ("no node", 4_000_000_000, &[]),
        ],
    )
}

/// Which of some conditions on the cells 3, 1 and 2 mentions other cells.
fn conds(alloc: Global, store: &mut TermStore) -> Result<Option<&'static str>, Fault>
    requires sound { IsSoundStore store.old }
    ensures sound { IsSoundStore store.new }
{
    let x = add_cell(store, 3)?;
    let y = add_cell(store, 1)?;
    let z = add_cell(store, 2)?;
    let first = compare(store, CmpOp::Eq, x, y)?;
    let second = compare(store, CmpOp::Ne, z, x)?;
    let not = joined(store, '!', first, first)?;
    let all = joined(store, '&', first, second)?;
    let any = joined(store, '|', second, second)?;
    let implies = joined(store, '>', not, second)?;
    other_conds(
        alloc,
        store,
        &[
            ("a comparison", first, &[1, 3]),
            ("another comparison", second, &[2, 3]),
            ("not", not, &[1, 3]),
            ("and", all, &[1, 2, 3]),
            ("or", any, &[2, 3]),
            ("an implication", implies, &[1, 2, 3]),
            ("a term", x, &[]),
            ("no node", 4_000_000_000, &[]),
        ],
    )
}

/// Which of the elements at 1, at 3 and at 2 of an array over 1 and 3 mentions other cells.
fn elements(
    alloc: Global,
    store: &mut TermStore,
    array: Table,
) -> Result<Option<&'static str>, Fault>
    requires sound { IsSoundStore store.old }
    requires proper { IsTable (table_of array) }
    ensures sound { IsSoundStore store.new }
{
    let table = add_table(store, array)?;
    let first = element(store, table, 1)?;
    let second = element(store, table, 3)?;
    let outside = element(store, table, 2)?;
    other_terms(
        alloc,
        store,
        &[
            ("the first element", first, &[7]),
            ("the second element", second, &[4]),
            ("no element", outside, &[4, 7]),
        ],
    )
}

#[test]
fn mentioned(rt: HostRuntime) {
    let mut store = small(rt.alloc()).expect(&rt, "memory");
    assert_eq!(rt; terms(rt.alloc(), &mut store), Ok(None));
    assert_eq!(rt; conds(rt.alloc(), &mut store), Ok(None));
    let array = pair(rt.alloc(), Element::Free(7), Element::Free(4)).expect(&rt, "memory");
    assert_eq!(rt; elements(rt.alloc(), &mut store, array), Ok(None));
}
