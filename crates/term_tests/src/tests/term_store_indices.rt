//! Elements of arrays at indices that are cells, elements and conditions.

ghost use Rattle.std.specs.Prelude.{◌≡◌, IfOk};
ghost use Rattle.term_language.specs.Laws.{IsTable};
ghost use Rattle.term_math.specs.Kept.{table_of};
ghost use Rattle.term_store.specs.Stores.{IsSoundStore};

use super::{add_cell, add_table, compare, empty, marked, pair, seen_otherwise};
use sopl_base::{CmpOp, Fault, Interval};
use std::alloc::{AllocError, Global};
use term_language::Defined;
use term_math::{Element, Table};
use term_store::{CondId, NewTerm, TableId, TermId, TermStore};

/// A store over cells by which arrays are indexed; cell 0 is an element.
fn indexed(alloc: Global) -> Result<TermStore, AllocError>
    ensures sound { IfOk result (λ store. IsSoundStore store) }
{
    let mut roots = Vec::new(alloc);
    for (lo, hi) in [
        (-7, 9),
        (1, 1),
        (2, 2),
        (1, 2),
        (0, 3),
        (3, 9),
        (4, 9),
        (2, 3),
        (4, 4),
        (3, 3),
    ] {
        if let Some(interval) = Interval::new(lo, hi) {
            roots.push(interval)?;
        }
    }
    let store = TermStore::new(alloc, roots.as_slice())?;
    Ok(store)
}

/// The element of an array at an index.
pub(crate) fn at_one(store: &mut TermStore, table: u32, index: u32) -> Result<u32, Fault>
    requires sound { IsSoundStore store.old }
    ensures sound { IsSoundStore store.new }
{
    let count = store.count();
    if table >= count || index >= count {
        return Err(Fault::NoMemory);
    }
    let id = store.add_term(&NewTerm::Element(TableId(table), &[TermId(index)]))?;
    Ok(id.0)
}

/// The element of an array of two dimensions.
fn at_two(store: &mut TermStore, table: u32, row: u32, column: u32) -> Result<u32, Fault>
    requires sound { IsSoundStore store.old }
    ensures sound { IsSoundStore store.new }
{
    let count = store.count();
    if table >= count || row >= count || column >= count {
        return Err(Fault::NoMemory);
    }
    let at = [TermId(row), TermId(column)];
    let id = store.add_term(&NewTerm::Element(TableId(table), &at))?;
    Ok(id.0)
}

/// An array over 1 and 2, and over 2 and 3.
#[tactic(auto, using(crate::proofs::Arrays::grid_is))]
fn grid(alloc: Global) -> Result<Table, AllocError>
    ensures proper { IfOk result (λ table. IsTable (table_of table)) }
{
    let rows = Vec::from_slice(alloc, &[1, 2])?;
    let columns = Vec::from_slice(alloc, &[2, 3])?;
    let mut sets = Vec::new(alloc);
    sets.push(rows)?;
    sets.push(columns)?;
    let x = Element::Free(0);
    let elements = Vec::from_slice(
        alloc,
        &[
            Element::Fixed(12),
            x,
            Element::Fixed(22),
            Element::Fixed(23),
        ],
    )?;
    Ok(Table::of(sets, elements))
}

/// The element of an array of three dimensions.
fn at_three(
    store: &mut TermStore,
    table: u32,
    row: u32,
    column: u32,
    layer: u32,
) -> Result<u32, Fault>
    requires sound { IsSoundStore store.old }
    ensures sound { IsSoundStore store.new }
{
    let count = store.count();
    if table >= count || row >= count || column >= count || layer >= count {
        return Err(Fault::NoMemory);
    }
    let at = [TermId(row), TermId(column), TermId(layer)];
    let id = store.add_term(&NewTerm::Element(TableId(table), &at))?;
    Ok(id.0)
}

/// An array over 1 and 2, over 4 and over 3.
#[tactic(auto, using(crate::proofs::Arrays::row_is))]
fn row(alloc: Global) -> Result<Table, AllocError>
    ensures proper { IfOk result (λ table. IsTable (table_of table)) }
{
    let rows = Vec::from_slice(alloc, &[1, 2])?;
    let columns = Vec::from_slice(alloc, &[4])?;
    let layers = Vec::from_slice(alloc, &[3])?;
    let mut sets = Vec::new(alloc);
    sets.push(rows)?;
    sets.push(columns)?;
    sets.push(layers)?;
    let elements = Vec::from_slice(alloc, &[Element::Fixed(143), Element::Fixed(243)])?;
    Ok(Table::of(sets, elements))
}

/// Whether an element has this interval and this mark over the root.
fn seen(
    store: &mut TermStore,
    table: u32,
    cell: u32,
    hull: (i64, i64),
    mark: Defined,
) -> Result<bool, Fault>
    requires sound { IsSoundStore store.old }
    ensures sound { IsSoundStore store.new }
{
    let index = add_cell(store, cell)?;
    let id = at_one(store, table, index)?;
    Ok(marked(store, id, hull.0, hull.1, mark))
}

/// Which of the elements of 10 at 1 and x at 3, at cells, is seen otherwise.
fn at_cells(store: &mut TermStore, array: Table) -> Result<Option<&'static str>, Fault>
    requires sound { IsSoundStore store.old }
    requires proper { IsTable (table_of array) }
    ensures sound { IsSoundStore store.new }
{
    let table = add_table(store, array)?;
    for (word, cell, hull, mark) in [
        ("an index", 1, (10, 10), Defined::Always),
        ("no index", 2, (-7, 10), Defined::Never),
        ("an index and the gap", 3, (10, 10), Defined::Maybe),
        ("both indices and more", 4, (-7, 10), Defined::Maybe),
        ("the last index and more", 5, (-7, 9), Defined::Maybe),
        ("all behind the last index", 6, (-7, 10), Defined::Never),
    ] {
        if !seen(store, table, cell, hull, mark)? {
            return Ok(Some(word));
        }
    }
    Ok(None)
}

/// Which of the elements of two dimensions, at cells, is seen otherwise.
fn at_pairs(store: &mut TermStore, array: Table) -> Result<Option<&'static str>, Fault>
    requires sound { IsSoundStore store.old }
    requires proper { IsTable (table_of array) }
    ensures sound { IsSoundStore store.new }
{
    let table = add_table(store, array)?;
    for (word, row, column, hull, mark) in [
        ("all rows and columns", 3, 7, (-7, 23), Defined::Always),
        ("one column", 3, 2, (12, 22), Defined::Always),
        ("one row", 2, 7, (22, 23), Defined::Always),
        (
            "one row, the last column and more",
            1,
            5,
            (-7, 9),
            Defined::Maybe,
        ),
        (
            "all rows and more, one column",
            4,
            2,
            (12, 22),
            Defined::Maybe,
        ),
        ("all rows, no column", 3, 6, (-7, 23), Defined::Never),
    ] {
        let first = add_cell(store, row)?;
        let second = add_cell(store, column)?;
        let id = at_two(store, table, first, second)?;
        if !marked(store, id, hull.0, hull.1, mark) {
            return Ok(Some(word));
        }
    }
    Ok(None)
}

/// Which of the elements of three dimensions, two of which have one number, at cells, is seen otherwise.
fn at_triples(store: &mut TermStore, array: Table) -> Result<Option<&'static str>, Fault>
    requires sound { IsSoundStore store.old }
    requires proper { IsTable (table_of array) }
    ensures sound { IsSoundStore store.new }
{
    let table = add_table(store, array)?;
    for (word, row, column, layer, hull, mark) in [
        ("all rows", 3, 8, 9, (143, 243), Defined::Always),
        ("one row", 2, 8, 9, (243, 243), Defined::Always),
        ("all rows and more", 4, 8, 9, (143, 243), Defined::Maybe),
        (
            "one row, more columns and layers",
            1,
            6,
            7,
            (143, 143),
            Defined::Maybe,
        ),
        ("no layer", 3, 6, 2, (143, 243), Defined::Never),
        ("no column", 1, 7, 9, (143, 243), Defined::Never),
    ] {
        let first = add_cell(store, row)?;
        let second = add_cell(store, column)?;
        let third = add_cell(store, layer)?;
        let id = at_three(store, table, first, second, third)?;
        if !marked(store, id, hull.0, hull.1, mark) {
            return Ok(Some(word));
        }
    }
    Ok(None)
}

/// Which element is seen otherwise: one at more indices than an array of one dimension has, one of an array of two at one index, or one of an array that has none.
fn at_others(
    store: &mut TermStore,
    one: Table,
    two: Table,
    none: Table,
) -> Result<Option<&'static str>, Fault>
    requires sound { IsSoundStore store.old }
    requires one { IsTable (table_of one) }
    requires two { IsTable (table_of two) }
    requires none { IsTable (table_of none) }
    ensures sound { IsSoundStore store.new }
{
    let one = add_table(store, one)?;
    let two = add_table(store, two)?;
    let none = add_table(store, none)?;
    let index = add_cell(store, 1)?;
    let more = at_two(store, one, index, index)?;
    let fewer = at_one(store, two, index)?;
    let open = add_cell(store, 3)?;
    let nowhere = at_one(store, none, open)?;
    Ok(seen_otherwise(
        store,
        &[
            ("an index too many", more, (-7, 10), Defined::Never),
            ("an index too few", fewer, (-7, 23), Defined::Never),
            ("an empty array", nowhere, (0, 0), Defined::Never),
        ],
    ))
}

/// Which of the elements of 10 at 1 and x at 3, at elements of 3 at 1 and 1 at 3, is seen otherwise.
fn at_elements(
    store: &mut TermStore,
    array: Table,
    inner: Table,
) -> Result<Option<&'static str>, Fault>
    requires sound { IsSoundStore store.old }
    requires proper { IsTable (table_of array) }
    requires inner { IsTable (table_of inner) }
    ensures sound { IsSoundStore store.new }
{
    let outer = add_table(store, array)?;
    let inner = add_table(store, inner)?;
    for (word, cell, hull, mark) in [
        ("an index", 1, (-7, 9), Defined::Always),
        ("no index", 2, (-7, 10), Defined::Never),
        ("an index and the gap", 3, (-7, 9), Defined::Maybe),
        ("both indices and more", 4, (-7, 10), Defined::Maybe),
    ] {
        let index = add_cell(store, cell)?;
        let element = at_one(store, inner, index)?;
        let id = at_one(store, outer, element)?;
        if !marked(store, id, hull.0, hull.1, mark) {
            return Ok(Some(word));
        }
    }
    Ok(None)
}

/// The element at whether two cells are the same, as a number.
fn at_condition(store: &mut TermStore, array: Table) -> Result<bool, Fault>
    requires sound { IsSoundStore store.old }
    requires proper { IsTable (table_of array) }
    ensures sound { IsSoundStore store.new }
{
    let table = add_table(store, array)?;
    let a = add_cell(store, 2)?;
    let b = add_cell(store, 3)?;
    let same = compare(store, CmpOp::Eq, a, b)?;
    if same >= store.count() {
        return Err(Fault::NoMemory);
    }
    let number = store.add_term(&NewTerm::Number(CondId(same)))?;
    let id = at_one(store, table, number.0)?;
    Ok(marked(store, id, 10, 10, Defined::Maybe))
}

#[test]
fn elements_at_cells(rt: HostRuntime) {
    let mut store = indexed(rt.alloc()).expect(&rt, "memory");
    let array = pair(rt.alloc(), Element::Fixed(10), Element::Free(0)).expect(&rt, "memory");
    assert_eq!(rt; at_cells(&mut store, array), Ok(None));
    let array = grid(rt.alloc()).expect(&rt, "memory");
    assert_eq!(rt; at_pairs(&mut store, array), Ok(None));
    let array = row(rt.alloc()).expect(&rt, "memory");
    assert_eq!(rt; at_triples(&mut store, array), Ok(None));
}

#[test]
fn elements_at_other_dimensions(rt: HostRuntime) {
    let mut store = indexed(rt.alloc()).expect(&rt, "memory");
    let one = pair(rt.alloc(), Element::Fixed(10), Element::Free(0)).expect(&rt, "memory");
    let two = grid(rt.alloc()).expect(&rt, "memory");
    let none = empty(rt.alloc()).expect(&rt, "memory");
    assert_eq!(rt; at_others(&mut store, one, two, none), Ok(None));
}

#[test]
fn elements_at_terms(rt: HostRuntime) {
    let mut store = indexed(rt.alloc()).expect(&rt, "memory");
    let array = pair(rt.alloc(), Element::Fixed(10), Element::Free(0)).expect(&rt, "memory");
    let inner = pair(rt.alloc(), Element::Fixed(3), Element::Fixed(1)).expect(&rt, "memory");
    assert_eq!(rt; at_elements(&mut store, array, inner), Ok(None));
    let array = pair(rt.alloc(), Element::Fixed(10), Element::Free(0)).expect(&rt, "memory");
    assert_eq!(rt; at_condition(&mut store, array), Ok(true));
}
