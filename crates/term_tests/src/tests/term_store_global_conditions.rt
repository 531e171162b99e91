//! What `allDifferent` and `cumulative` are over a box, by hand from the rules.

ghost use Rattle.std.specs.Prelude.{◌≡◌, ◌&&◌, nat_lt, IfOk};
ghost use Rattle.std.specs.List.{list_all};
ghost use Rattle.term_language.specs.Laws.{IsTable};
ghost use Rattle.term_math.specs.Kept.{table_of};
ghost use Rattle.term_store.specs.Stores.{IsSoundStore};

use super::term_store_indices::at_one;
use super::{add_cell, add_table, pair};
use sopl_base::{Fault, Interval};
use std::alloc::{AllocError, Global};
use term_language::Truth;
use term_math::{Element, Table};
use term_store::{NewCond, TermId, TermStore};

/// A cell from 0 to 9, and cells of one number.
const X: u32 = 0;

const ONE: u32 = 1;

const ALSO_ONE: u32 = 2;

const TWO: u32 = 3;

const ZERO: u32 = 4;

const BELOW: u32 = 5;

/// Three cells of 1 and 2, one from 3 to 4, one from 2 to 5 and one from -2 to 0.
const EARLY: u32 = 6;

const EARLY_TOO: u32 = 7;

const EARLY_AS_WELL: u32 = 8;

const LATE: u32 = 9;

const ACROSS: u32 = 10;

const OPEN: u32 = 11;

/// Elements of an array of 10 at 1 and x at 3: at 1 it is 10, at 1 and 2 it may be undefined, at 2 it is Never defined.
const TEN: u32 = 13;

const MAYBE: u32 = 14;

const NEVER: u32 = 15;

/// How many terms there are.
const TERMS: u32 = 16;

/// A store over these cells.
fn cells(alloc: Global) -> Result<TermStore, AllocError>
    ensures sound { IfOk result (λ store. IsSoundStore store) }
{
    let mut roots = Vec::new(alloc);
    for (lo, hi) in [
        (0, 9),
        (1, 1),
        (1, 1),
        (2, 2),
        (0, 0),
        (-1, -1),
        (1, 2),
        (1, 2),
        (1, 2),
        (3, 4),
        (2, 5),
        (-2, 0),
    ] {
        if let Some(interval) = Interval::new(lo, hi) {
            roots.push(interval)?;
        }
    }
    let store = TermStore::new(alloc, roots.as_slice())?;
    Ok(store)
}

/// Adds these terms, each by its number.
fn add_terms(store: &mut TermStore, array: Table) -> Result<(), Fault>
    requires sound { IsSoundStore store.old }
    requires proper { IsTable (table_of array) }
    ensures sound { IsSoundStore store.new }
{
    for cell in 0..12 {
        add_cell(store, cell)?;
    }
    let table = add_table(store, array)?;
    at_one(store, table, ONE)?;
    at_one(store, table, EARLY)?;
    at_one(store, table, TWO)?;
    Ok(())
}

/// Terms by their numbers.
fn terms_of(alloc: Global, ids: &[u32]) -> Result<Vec<TermId>, AllocError> {
    ids.iter().map(|id| TermId(*id)).collect(alloc)
}

/// Whether a term is there.
fn is_below(id: &TermId, count: u32) -> bool
    ensures { result ≡ nat_lt id.now.0 count }
{
    id.0 < count
}

/// Whether all terms are there.
fn are_below(terms: &[TermId], count: u32) -> bool
    ensures { result ≡ list_all (λ id. nat_lt id.0 count) terms.now }
{
    terms.iter().all(|id| is_below(id, count))
}

/// The truth of `allDifferent` over the root.
fn differ(store: &mut TermStore, terms: &[TermId]) -> Result<Truth, Fault>
    requires sound { IsSoundStore store.old }
    ensures sound { IsSoundStore store.new }
{
    let count = store.count();
    if !are_below(terms, count) {
        return Err(Fault::NoMemory);
    }
    let id = store.add_cond(&NewCond::AllDifferent(terms))?;
    Ok(store.kleene(id.0, &store.root()))
}

const DIFFERENT: &[(&str, &[u32], Truth)] = &[
    ("no term", &[], Truth::True),
    ("one term", &[X], Truth::True),
    ("numbers apart", &[ONE, TWO, LATE], Truth::True),
    (
        "numbers apart in another order",
        &[LATE, TWO, ONE],
        Truth::True,
    ),
    ("two terms of one number", &[ONE, ALSO_ONE], Truth::False),
    ("one term twice", &[ONE, LATE, ONE], Truth::False),
    (
        "three terms of two numbers",
        &[EARLY, EARLY_TOO, EARLY_AS_WELL],
        Truth::False,
    ),
    (
        "three terms of two numbers among others",
        &[X, EARLY, LATE, EARLY_TOO, EARLY_AS_WELL],
        Truth::False,
    ),
    (
        "one of two numbers that are both taken",
        &[ACROSS, EARLY, ONE, TWO],
        Truth::False,
    ),
    (
        "two terms of two numbers",
        &[EARLY, EARLY_TOO, LATE],
        Truth::Unknown,
    ),
    (
        "two terms of two numbers, and one of more",
        &[X, EARLY, EARLY_TOO],
        Truth::Unknown,
    ),
    (
        "two terms that share a number",
        &[ACROSS, EARLY],
        Truth::Unknown,
    ),
    ("an open term twice", &[X, X], Truth::Unknown),
    ("an element that is a number", &[TEN, ONE], Truth::True),
    (
        "an element that is a number twice",
        &[TEN, TEN],
        Truth::False,
    ),
    ("an element that may be undefined", &[MAYBE], Truth::Unknown),
    (
        "an element that may be undefined, and a number",
        &[MAYBE, ONE],
        Truth::Unknown,
    ),
    (
        "an element that may be undefined, and its number",
        &[MAYBE, TEN],
        Truth::False,
    ),
    (
        "an element that may be undefined, and one number twice",
        &[MAYBE, ONE, ALSO_ONE],
        Truth::False,
    ),
    ("an element that is never defined", &[NEVER], Truth::False),
    (
        "an element that is never defined, among others",
        &[ONE, NEVER, MAYBE],
        Truth::False,
    ),
];

/// Whether a list of terms differs so.
fn differs_so(
    alloc: Global,
    store: &mut TermStore,
    ids: &[u32],
    truth: Truth,
) -> Result<bool, Fault>
    requires sound { IsSoundStore store.old }
    ensures sound { IsSoundStore store.new }
{
    let terms = terms_of(alloc, ids)?;
    Ok(differ(store, terms.as_slice())? == truth)
}

/// The first row whose terms differ otherwise.
fn differ_otherwise(alloc: Global, store: &mut TermStore) -> Result<Option<&'static str>, Fault>
    requires sound { IsSoundStore store.old }
    ensures sound { IsSoundStore store.new }
{
    for (word, terms, truth) in DIFFERENT {
        if !differs_so(alloc, store, terms, *truth)? {
            return Ok(Some(*word));
        }
    }
    Ok(None)
}

/// The store with these terms.
fn filled(alloc: Global) -> Result<TermStore, Fault>
    ensures sound { IfOk result (λ store. IsSoundStore store) }
{
    let mut store = cells(alloc)?;
    let array = pair(alloc, Element::Fixed(10), Element::Free(X))?;
    add_terms(&mut store, array)?;
    Ok(store)
}

#[test]
fn terms_that_differ(rt: HostRuntime) {
    let mut store = filled(rt.alloc()).expect(&rt, "memory");
    assert_eq!(rt; store.count(), TERMS);
    assert_eq!(rt; differ_otherwise(rt.alloc(), &mut store), Ok(None));
}

/// The start, the length and the demand of a task.
type TaskTerms = (u32, u32, u32);

/// A task, by its terms.
type Task = (TermId, TermId, TermId);

/// A task of three terms.
fn task_of(terms: &TaskTerms) -> Task {
    (TermId(terms.0), TermId(terms.1), TermId(terms.2))
}

/// Tasks of three terms each.
fn tasks_of(alloc: Global, rows: &[TaskTerms]) -> Result<Vec<Task>, AllocError> {
    rows.iter().map(|terms| task_of(terms)).collect(alloc)
}

/// Whether the terms of a task are there.
fn is_task_below(task: &Task, count: u32) -> bool
    ensures { result ≡ (nat_lt task.now.0.0 count && nat_lt task.now.1.0 count && nat_lt task.now.2.0 count) }
{
    task.0.0 < count && task.1.0 < count && task.2.0 < count
}

/// Whether the terms of all tasks are there.
fn are_tasks_below(tasks: &[Task], count: u32) -> bool
    ensures { result ≡ list_all (λ t. nat_lt t.0.0 count && nat_lt t.1.0 count && nat_lt t.2.0 count) tasks.now }
{
    tasks.iter().all(|task| is_task_below(task, count))
}

/// The truth of `cumulative` over the root.
fn fit(store: &mut TermStore, tasks: &[Task], capacity: u32) -> Result<Truth, Fault>
    requires sound { IsSoundStore store.old }
    ensures sound { IsSoundStore store.new }
{
    let count = store.count();
    if capacity >= count {
        return Err(Fault::NoMemory);
    }
    if !are_tasks_below(tasks, count) {
        return Err(Fault::NoMemory);
    }
    let id = store.add_cond(&NewCond::Cumulative(tasks, TermId(capacity)))?;
    Ok(store.kleene(id.0, &store.root()))
}

const FITTING: &[(&str, &[TaskTerms], u32, Truth)] = &[
    ("no task, a capacity below 0", &[], BELOW, Truth::False),
    (
        "no task, a capacity perhaps below 0",
        &[],
        OPEN,
        Truth::Unknown,
    ),
    ("no task, no capacity", &[], ZERO, Truth::True),
    ("one task", &[(ONE, TWO, ONE)], ONE, Truth::True),
    (
        "one task that asks for too much",
        &[(ONE, TWO, TWO)],
        ONE,
        Truth::False,
    ),
    (
        "two tasks that meet",
        &[(ONE, TWO, ONE), (TWO, ONE, ONE)],
        ONE,
        Truth::False,
    ),
    (
        "one task behind the other",
        &[(ONE, ONE, ONE), (TWO, ONE, ONE)],
        ONE,
        Truth::True,
    ),
    (
        "open starts that surely meet",
        &[(EARLY, TWO, ONE), (EARLY_TOO, TWO, ONE)],
        ONE,
        Truth::False,
    ),
    (
        "an open start that may meet a task",
        &[(EARLY, ONE, ONE), (ONE, ONE, ONE)],
        ONE,
        Truth::Unknown,
    ),
    (
        "open starts that are apart",
        &[(EARLY, ONE, ONE), (LATE, ONE, ONE)],
        ONE,
        Truth::True,
    ),
    (
        "an open length that may meet a task",
        &[(ONE, EARLY, ONE), (TWO, ONE, ONE)],
        ONE,
        Truth::Unknown,
    ),
    (
        "an open length that ends before a task",
        &[(ONE, EARLY, ONE), (LATE, ONE, ONE)],
        ONE,
        Truth::True,
    ),
    ("an open demand", &[(ONE, ONE, EARLY)], ONE, Truth::Unknown),
    (
        "an open capacity",
        &[(ONE, ONE, TWO)],
        EARLY,
        Truth::Unknown,
    ),
    (
        "a demand above an open capacity",
        &[(ONE, ONE, LATE)],
        EARLY,
        Truth::False,
    ),
    ("a length below 0", &[(ONE, BELOW, ONE)], TWO, Truth::False),
    ("a demand below 0", &[(ONE, ONE, BELOW)], TWO, Truth::False),
    (
        "a length perhaps below 0",
        &[(ONE, OPEN, ONE)],
        TWO,
        Truth::Unknown,
    ),
    (
        "a demand perhaps below 0",
        &[(ONE, ONE, OPEN)],
        TWO,
        Truth::Unknown,
    ),
    (
        "a start below 0, and no capacity",
        &[(BELOW, TWO, ONE)],
        OPEN,
        Truth::False,
    ),
    (
        "no length, and no capacity",
        &[(ONE, ZERO, TWO)],
        ZERO,
        Truth::True,
    ),
    (
        "no demand, and no capacity",
        &[(ONE, TWO, ZERO)],
        ZERO,
        Truth::True,
    ),
    (
        "a start that is an element",
        &[(TEN, ONE, ONE), (X, ONE, ONE)],
        ONE,
        Truth::True,
    ),
    (
        "a start that may be undefined",
        &[(MAYBE, ONE, ONE)],
        TWO,
        Truth::Unknown,
    ),
    (
        "a start that may be undefined, and too great a demand",
        &[(MAYBE, ONE, TWO)],
        ONE,
        Truth::False,
    ),
    (
        "a capacity that may be undefined",
        &[(ONE, ONE, ONE)],
        MAYBE,
        Truth::Unknown,
    ),
    (
        "a start that is never defined",
        &[(NEVER, ONE, ONE)],
        TWO,
        Truth::False,
    ),
    (
        "a length that is never defined",
        &[(ONE, ONE, ONE), (ONE, NEVER, ONE)],
        TEN,
        Truth::False,
    ),
    ("a capacity that is never defined", &[], NEVER, Truth::False),
];

/// Whether the tasks of a row fit so.
fn fits_so(
    alloc: Global,
    store: &mut TermStore,
    rows: &[TaskTerms],
    capacity: u32,
    truth: Truth,
) -> Result<bool, Fault>
    requires sound { IsSoundStore store.old }
    ensures sound { IsSoundStore store.new }
{
    let tasks = tasks_of(alloc, rows)?;
    Ok(fit(store, tasks.as_slice(), capacity)? == truth)
}

/// The first row whose tasks fit otherwise.
fn fit_otherwise(alloc: Global, store: &mut TermStore) -> Result<Option<&'static str>, Fault>
    requires sound { IsSoundStore store.old }
    ensures sound { IsSoundStore store.new }
{
    for (word, rows, capacity, truth) in FITTING {
        if !fits_so(alloc, store, rows, *capacity, *truth)? {
            return Ok(Some(*word));
        }
    }
    Ok(None)
}

#[test]
fn tasks_that_fit(rt: HostRuntime) {
    let mut store = filled(rt.alloc()).expect(&rt, "memory");
    assert_eq!(rt; fit_otherwise(rt.alloc(), &mut store), Ok(None));
}
