//! Places that binders give, as a planner would write them, and the place of an instance.

use compile_counts::{all_places, known_at};
use sopl_ast::{Binder, Binders, Expr, Kind, Name, RangeText};
use sopl_base::Fault;
use std::alloc::{AllocError, Global};
use std::test::Fail;
use unfold_constants::ConstantScope;
use unfold_constraints::Env;
use unfold_tables::{Count, Table};

/// `name in lo..hi`.
fn binder(alloc: Global, name: &[u8], lo: Expr, hi: i64) -> Result<Binder, AllocError> {
    Ok(Binder {
        name: Name::from_bytes(alloc, name)?,
        at: 0,
        range: RangeText::Ends {
            lo,
            hi: Expr::literal(0, hi),
        },
    })
}

/// `j in i..most`.
fn behind_i(alloc: Global, most: i64) -> Result<Binder, AllocError> {
    let first = Expr::name(0, Name::from_bytes(alloc, b"i")?);
    binder(alloc, b"j", first, most)
}

/// `sum(i in 1..last, j in i..most) 0`.
fn sum(alloc: Global, last: i64, most: i64) -> Result<Expr, AllocError> {
    let mut over = Binders::new(alloc);
    over.push(binder(alloc, b"i", Expr::literal(0, 1), last)?)?;
    over.push(behind_i(alloc, most)?)?;
    Expr::total(alloc, 0, over, Expr::literal(0, 0))
}

/// The places of a sum that passes.
fn places_of<'a>(
    alloc: Global,
    known: &ConstantScope<'a>,
    e: &'a Expr,
) -> Result<Vec<ConstantScope<'a>>, Fault> {
    let mut count = Count::new();
    known.expression(&mut count, e)?;
    match &e.kind {
        Kind::Sum(over, _) => Ok(all_places(alloc, known, None, over.as_slice())?),
        _ => Ok(Vec::new(alloc)),
    }
}

/// Adds the numbers of all bound names.
fn add_numbers(found: &mut Vec<i64>, known: &ConstantScope<'_>) -> Result<(), AllocError> {
    for binding in known.bindings() {
        found.push(binding.1)?;
    }
    Ok(())
}

/// The numbers of all bound names at each place of a sum.
fn numbers_of<'a>(alloc: Global, table: &'a Table, e: &'a Expr) -> Result<Vec<i64>, Fault> {
    let known = ConstantScope::new(alloc, table);
    let places = places_of(alloc, &known, e)?;
    let mut found = Vec::new(alloc);
    for place in places.as_slice() {
        add_numbers(&mut found, place)?;
    }
    Ok(found)
}

/// What `i` and `j` are given at an instance.
fn instance<'a>(alloc: Global, table: &'a Table, env: &'a Env) -> Result<Vec<i64>, AllocError> {
    let known = known_at(alloc, table, env)?;
    let mut found = Vec::new(alloc);
    add_numbers(&mut found, &known)?;
    Ok(found)
}

/// Whether these are the numbers at each place of a sum.
fn has_places(
    alloc: Global,
    table: &Table,
    last: i64,
    most: i64,
    want: &[i64],
) -> Result<bool, Fault> {
    let e = sum(alloc, last, most)?;
    let found = numbers_of(alloc, table, &e)?;
    Ok(found.as_slice() == want)
}

/// What a row is about, the last i, the greatest j, and the numbers at each place.
const PLACES: &[(&str, i64, i64, &[i64])] = &[
    ("some j for each i", 2, 3, &[1, 1, 1, 2, 1, 3, 2, 2, 2, 3]),
    ("no j for the last i", 3, 2, &[1, 1, 1, 2, 2, 2]),
    ("one place", 1, 1, &[1, 1]),
    ("no i", 0, 5, &[]),
];

#[test]
fn places(rt: HostRuntime) -> Result<(), Fail> {
    let table = Table::new(rt.alloc());
    for (word, last, most, want) in PLACES {
        assert!(rt;
            has_places(rt.alloc(), &table, *last, *most, want)?,
            "{word}"
        );
    }
    Ok(())
}

/// The environment of an instance, in which i is 4 and j is 9.
fn four_and_nine(alloc: Global) -> Result<Env, AllocError> {
    let mut env = Env::new(alloc);
    env.push((Name::from_bytes(alloc, b"i")?, 4))?;
    env.push((Name::from_bytes(alloc, b"j")?, 9))?;
    Ok(env)
}

/// The numbers of that instance, where nothing is declared.
fn numbers_of_instance(alloc: Global) -> Result<Vec<i64>, AllocError> {
    let table = Table::new(alloc);
    let env = four_and_nine(alloc)?;
    instance(alloc, &table, &env)
}

#[test]
fn instances(rt: HostRuntime) -> Result<(), Fail> {
    let found = numbers_of_instance(rt.alloc())?;
    assert_eq!(rt; found.as_slice(), [4, 9].as_slice());
    Ok(())
}
