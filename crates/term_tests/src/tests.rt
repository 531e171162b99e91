ghost use Rattle.std.specs.Prelude.{◌≡◌, IfOk};
ghost use Rattle.term_language.specs.Laws.{IsTable};
ghost use Rattle.term_math.specs.Kept.{table_of};
ghost use Rattle.term_math.specs.Made.{IsPossible};
ghost use Rattle.term_store.specs.Stores.{IsSoundStore};

use sopl_base::{CmpOp, Extreme, Fault, Interval};
use std::alloc::{AllocError, Global};
use term_language::{Defined, Divisor, Operation, Truth};
use term_math::{Element, Table};
use term_store::{NewCond, NewTerm, TableId, TermId, TermStore};

/// A store over x from -7 to 9 and y from -5 to 4.
fn small(alloc: Global) -> Result<TermStore, AllocError>
    ensures sound { IfOk result (λ store. IsSoundStore store) }
{
    let mut roots = Vec::new(alloc);
    for (lo, hi) in [(-7, 9), (-5, 4)] {
        if let Some(interval) = Interval::new(lo, hi) {
            roots.push(interval)?;
        }
    }
    let store = TermStore::new(alloc, roots.as_slice())?;
    Ok(store)
}

/// A cell.
fn add_cell(store: &mut TermStore, cell: u32) -> Result<u32, Fault>
    requires sound { IsSoundStore store.old }
    ensures sound { IsSoundStore store.new }
{
    let id = store.add_term(&NewTerm::Cell(cell))?;
    Ok(id.0)
}

/// A number.
fn add_constant(store: &mut TermStore, value: i64) -> Result<u32, Fault>
    requires sound { IsSoundStore store.old }
    ensures sound { IsSoundStore store.new }
{
    let id = store.add_term(&NewTerm::Constant(value))?;
    Ok(id.0)
}

/// An array.
fn add_table(store: &mut TermStore, array: Table) -> Result<u32, Fault>
    requires sound { IsSoundStore store.old }
    requires proper { IsTable (table_of array) }
    ensures sound { IsSoundStore store.new }
{
    let id = store.add_table(array)?;
    Ok(id.0)
}

/// The sum of two terms, or their difference.
fn sum(store: &mut TermStore, a: u32, subtracted: bool, b: u32) -> Result<u32, Fault>
    requires sound { IsSoundStore store.old }
    ensures sound { IsSoundStore store.new }
{
    let count = store.count();
    if a >= count || b >= count {
        return Err(Fault::NoMemory);
    }
    let parts = [(false, TermId(a)), (subtracted, TermId(b))];
    let id = store.add_term(&NewTerm::Sum(&parts))?;
    Ok(id.0)
}

/// The product of two terms.
fn product(store: &mut TermStore, a: u32, b: u32) -> Result<u32, Fault>
    requires sound { IsSoundStore store.old }
    ensures sound { IsSoundStore store.new }
{
    let count = store.count();
    if a >= count || b >= count {
        return Err(Fault::NoMemory);
    }
    let id = store.add_term(&NewTerm::Product(TermId(a), TermId(b)))?;
    Ok(id.0)
}

/// A comparison of two terms.
fn compare(store: &mut TermStore, op: CmpOp, a: u32, b: u32) -> Result<u32, Fault>
    requires sound { IsSoundStore store.old }
    ensures sound { IsSoundStore store.new }
{
    let count = store.count();
    if a >= count || b >= count {
        return Err(Fault::NoMemory);
    }
    let id = store.add_cond(&NewCond::Compare(op, TermId(a), TermId(b)))?;
    Ok(id.0)
}

/// What is made of a term.
fn operation(store: &mut TermStore, operation: Operation, a: u32) -> Result<u32, Fault>
    requires sound { IsSoundStore store.old }
    requires possible { IsPossible operation }
    ensures sound { IsSoundStore store.new }
{
    if a >= store.count() {
        return Err(Fault::NoMemory);
    }
    let id = store.add_term(&NewTerm::Operation(operation, TermId(a)))?;
    Ok(id.0)
}

/// A term divided by -2, and what is left of it by 4.
fn divided(store: &mut TermStore, a: u32) -> Result<(u32, u32), Fault>
    requires sound { IsSoundStore store.old }
    ensures sound { IsSoundStore store.new }
{
    let quotient = operation(store, Operation::Quotient(Divisor { number: -2 }), a)?;
    let remainder = operation(store, Operation::Remainder(Divisor { number: 4 }), a)?;
    Ok((quotient, remainder))
}

/// The size of a term.
fn size(store: &mut TermStore, a: u32) -> Result<u32, Fault>
    requires sound { IsSoundStore store.old }
    ensures sound { IsSoundStore store.new }
{
    operation(store, Operation::Size, a)
}

/// The least or the greatest of two terms.
fn extreme(store: &mut TermStore, which: Extreme, a: u32, b: u32) -> Result<u32, Fault>
    requires sound { IsSoundStore store.old }
    ensures sound { IsSoundStore store.new }
{
    let count = store.count();
    if a >= count || b >= count {
        return Err(Fault::NoMemory);
    }
    let id = store.add_term(&NewTerm::Extreme(which, &[TermId(a), TermId(b)]))?;
    Ok(id.0)
}

/// The least and the greatest of two terms.
fn extremes(store: &mut TermStore, a: u32, b: u32) -> Result<(u32, u32), Fault>
    requires sound { IsSoundStore store.old }
    ensures sound { IsSoundStore store.new }
{
    let least = extreme(store, Extreme::Least, a, b)?;
    let greatest = extreme(store, Extreme::Greatest, a, b)?;
    Ok((least, greatest))
}

/// Whether a term has this interval and this mark over the root.
fn marked(store: &TermStore, id: u32, low: i64, high: i64, mark: Defined) -> bool
    requires sound { IsSoundStore store.now }
{
    if id >= store.count() {
        return false;
    }
    let seen = store.range_of(id, &store.root());
    seen.ends.low == low && seen.ends.high == high && seen.mark == mark
}

/// What a row is about, a term, and its interval and its mark over the root.
type SeenTerm = (&'static str, u32, (i64, i64), Defined);

/// The first row whose term is seen otherwise.
fn seen_otherwise(store: &TermStore, rows: &[SeenTerm]) -> Option<&'static str>
    requires sound { IsSoundStore store.now }
{
    for (word, id, hull, mark) in rows {
        if !marked(store, *id, hull.0, hull.1, *mark) {
            return Some(*word);
        }
    }
    None
}

/// Which of some terms of x and y is seen otherwise.
fn intervals(store: &mut TermStore) -> Result<Option<&'static str>, Fault>
    requires sound { IsSoundStore store.old }
    ensures sound { IsSoundStore store.new }
{
    let x = add_cell(store, 0)?;
    let y = add_cell(store, 1)?;
    let both = sum(store, x, false, y)?;
    let difference = sum(store, x, true, y)?;
    let none = sum(store, x, true, x)?;
    let times = product(store, x, y)?;
    let never = product(store, none, times)?;
    Ok(seen_otherwise(
        store,
        &[
            ("a sum", both, (-12, 13), Defined::Always),
            ("a difference", difference, (-11, 14), Defined::Always),
            ("a cell without itself", none, (0, 0), Defined::Always),
            ("a product", times, (-45, 36), Defined::Always),
            ("a product with 0", never, (0, 0), Defined::Always),
        ],
    ))
}

/// Which of what is made of x and y is seen otherwise.
fn made(store: &mut TermStore) -> Result<Option<&'static str>, Fault>
    requires sound { IsSoundStore store.old }
    ensures sound { IsSoundStore store.new }
{
    let x = add_cell(store, 0)?;
    let y = add_cell(store, 1)?;
    let (quotient, remainder) = divided(store, x)?;
    let size = size(store, x)?;
    let (least, greatest) = extremes(store, x, y)?;
    Ok(seen_otherwise(
        store,
        &[
            ("a quotient", quotient, (-4, 3), Defined::Always),
            ("a remainder", remainder, (-3, 3), Defined::Always),
            ("a size", size, (0, 9), Defined::Always),
            ("the least of both", least, (-7, 4), Defined::Always),
            ("the greatest of both", greatest, (-5, 9), Defined::Always),
        ],
    ))
}

#[test]
fn made_over_the_root(rt: HostRuntime) {
    let mut store = small(rt.alloc()).expect(&rt, "memory");
    assert_eq!(rt; made(&mut store), Ok(None));
}

/// Which of what is made of the number -7 is seen otherwise.
fn folded(store: &mut TermStore) -> Result<Option<&'static str>, Fault>
    requires sound { IsSoundStore store.old }
    ensures sound { IsSoundStore store.new }
{
    let number = add_constant(store, -7)?;
    let (quotient, remainder) = divided(store, number)?;
    let (least, greatest) = extremes(store, quotient, remainder)?;
    Ok(seen_otherwise(
        store,
        &[
            ("a quotient", quotient, (3, 3), Defined::Always),
            ("a remainder", remainder, (-3, -3), Defined::Always),
            ("the least of both", least, (-3, -3), Defined::Always),
            ("the greatest of both", greatest, (3, 3), Defined::Always),
        ],
    ))
}

#[test]
fn numbers_fold(rt: HostRuntime) {
    let mut store = small(rt.alloc()).expect(&rt, "memory");
    assert_eq!(rt; folded(&mut store), Ok(None));
}

#[test]
fn intervals_over_the_root(rt: HostRuntime) {
    let mut store = small(rt.alloc()).expect(&rt, "memory");
    assert_eq!(rt; intervals(&mut store), Ok(None));
}

/// The first row whose condition has another truth over the root.
fn judged_otherwise(store: &TermStore, rows: &[(&'static str, u32, Truth)]) -> Option<&'static str>
    requires sound { IsSoundStore store.now }
{
    for (word, id, truth) in rows {
        if store.kleene(*id, &store.root()) != *truth {
            return Some(*word);
        }
    }
    None
}

/// Which comparison of x and y has another truth.
fn truths(store: &mut TermStore) -> Result<Option<&'static str>, Fault>
    requires sound { IsSoundStore store.old }
    ensures sound { IsSoundStore store.new }
{
    let x = add_cell(store, 0)?;
    let y = add_cell(store, 1)?;
    let less = compare(store, CmpOp::Lt, x, y)?;
    let same = compare(store, CmpOp::Le, x, x)?;
    let other = compare(store, CmpOp::Ne, y, y)?;
    Ok(judged_otherwise(
        store,
        &[
            ("x < y", less, Truth::Unknown),
            ("x <= x", same, Truth::True),
            ("y != y", other, Truth::False),
        ],
    ))
}

#[test]
fn truths_over_the_root(rt: HostRuntime) {
    let mut store = small(rt.alloc()).expect(&rt, "memory");
    assert_eq!(rt; truths(&mut store), Ok(None));
}

#[test]
fn refused_for_its_size(rt: HostRuntime) {
    let mut store = small(rt.alloc()).expect(&rt, "memory");
    assert!(rt;
        add_constant(&mut store, 1 << 40).is_ok(),
        "the greatest number"
    );
    match add_constant(&mut store, -(1 << 40) - 1) {
        Err(Fault::Limit(excess)) => {
            assert_eq!(rt; excess.counted, (1 << 40) + 1, "one below the least number")
        }
        _ => assert!(rt; false, "a limit"),
    }
}

/// What is wrong of equal constants, which are one node, and of others, which are not.
fn shared(store: &mut TermStore) -> Result<Option<&'static str>, Fault>
    requires sound { IsSoundStore store.old }
    ensures sound { IsSoundStore store.new }
{
    let first = add_constant(store, 5)?;
    let other = add_constant(store, -5)?;
    let count = store.count();
    let again = add_constant(store, 5)?;
    if first != again {
        return Ok(Some("equal constants are two nodes"));
    }
    if first == other {
        return Ok(Some("other constants are one node"));
    }
    if store.count() != count {
        return Ok(Some("there is another node"));
    }
    Ok(None)
}

#[test]
fn equal_constants_are_one_node(rt: HostRuntime) {
    let mut store = small(rt.alloc()).expect(&rt, "memory");
    assert_eq!(rt; shared(&mut store), Ok(None));
}

/// An array over 1 and 3.
#[tactic(auto, using(crate::proofs::Arrays::pair_is))]
fn pair(alloc: Global, first: Element, second: Element) -> Result<Table, AllocError>
    ensures proper { IfOk result (λ table. IsTable (table_of table)) }
{
    let set = Vec::from_slice(alloc, &[1, 3])?;
    let mut sets = Vec::new(alloc);
    sets.push(set)?;
    let elements = Vec::from_slice(alloc, &[first, second])?;
    Ok(Table::of(sets, elements))
}

/// An array with an index set that is empty.
#[tactic(auto, using(term_math::proofs::Apart::empty_is))]
fn empty(alloc: Global) -> Result<Table, AllocError>
    ensures proper { IfOk result (λ table. IsTable (table_of table)) }
{
    let mut sets = Vec::new(alloc);
    sets.push(Vec::new(alloc))?;
    Ok(Table::of(sets, Vec::new(alloc)))
}

/// The element of an array at a number.
fn element(store: &mut TermStore, table: u32, number: i64) -> Result<u32, Fault>
    requires sound { IsSoundStore store.old }
    ensures sound { IsSoundStore store.new }
{
    let index = add_constant(store, number)?;
    let count = store.count();
    if table >= count || index >= count {
        return Err(Fault::NoMemory);
    }
    let id = store.add_term(&NewTerm::Element(TableId(table), &[TermId(index)]))?;
    Ok(id.0)
}

/// Which of the elements at 1, at 3 and at 2 is not seen as 10, as x, or as nothing that is defined.
fn elements(store: &mut TermStore, array: Table) -> Result<Option<&'static str>, Fault>
    requires sound { IsSoundStore store.old }
    requires proper { IsTable (table_of array) }
    ensures sound { IsSoundStore store.new }
{
    let table = add_table(store, array)?;
    let first = element(store, table, 1)?;
    let second = element(store, table, 3)?;
    let none = element(store, table, 2)?;
    Ok(seen_otherwise(
        store,
        &[
            ("a number", first, (10, 10), Defined::Always),
            ("a cell", second, (-7, 9), Defined::Always),
            ("no element", none, (-7, 10), Defined::Never),
        ],
    ))
}

/// An element of an array that has none.
fn element_of_none(store: &mut TermStore, array: Table) -> Result<bool, Fault>
    requires sound { IsSoundStore store.old }
    requires proper { IsTable (table_of array) }
    ensures sound { IsSoundStore store.new }
{
    let table = add_table(store, array)?;
    let none = element(store, table, 1)?;
    Ok(marked(store, none, 0, 0, Defined::Never))
}

#[test]
fn elements_over_the_root(rt: HostRuntime) {
    let mut store = small(rt.alloc()).expect(&rt, "memory");
    let array = pair(rt.alloc(), Element::Fixed(10), Element::Free(0)).expect(&rt, "memory");
    assert_eq!(rt; elements(&mut store, array), Ok(None));
    let array = empty(rt.alloc()).expect(&rt, "memory");
    assert_eq!(rt; element_of_none(&mut store, array), Ok(true));
}

/// Whether a term of the size 2^40 + 1 is refused.
fn refused(outcome: Result<u32, Fault>) -> bool {
    match outcome {
        Err(Fault::Limit(excess)) => excess.counted == (1 << 40) + 1,
        _ => false,
    }
}

/// Which element of an array that has a number of the size 2^40 + 1 at 3 is not refused; that at 1 is there.
fn large(store: &mut TermStore, array: Table) -> Result<Option<&'static str>, Fault>
    requires sound { IsSoundStore store.old }
    requires proper { IsTable (table_of array) }
    ensures sound { IsSoundStore store.new }
{
    let table = add_table(store, array)?;
    element(store, table, 1)?;
    if !refused(element(store, table, 3)) {
        return Ok(Some("the large number"));
    }
    if !refused(element(store, table, 2)) {
        return Ok(Some("an element outside"));
    }
    Ok(None)
}

#[test]
fn elements_refused_for_their_size(rt: HostRuntime) {
    let mut store = small(rt.alloc()).expect(&rt, "memory");
    let most = Element::Fixed((1 << 40) + 1);
    let array = pair(rt.alloc(), Element::Fixed(10), most).expect(&rt, "memory");
    assert_eq!(rt; large(&mut store, array), Ok(None));
}

mod sopl_term_builders;
mod term_cells_mentions;
mod term_math_elements;
mod term_program_terms;
mod term_store_global_conditions;
mod term_store_indices;
