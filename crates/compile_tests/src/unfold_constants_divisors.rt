//! The numbers that stand as divisors, at each instance of a constraint.
//!
//! Each number was worked out by hand.

use crate::instances::left_of;
use crate::rows::parts;
use compile_counts::{divisor, known_at};
use scen_accept::stated_in;
use sopl_ast::{Expr, Kind};
use sopl_base::Fault;
use sopl_unfold::{Ground, HardItem};
use std::alloc::Global;
use std::process::Abort;
use std::test::Fail;
use unfold_constants::ConstantScope;
use unfold_tables::Count;

/// What stands behind the first part of the product on the left of a condition.
fn divisor_in<'a>(conditions: &[&'a Expr], text: u32) -> Option<&'a Expr> {
    match &left_of(conditions, text)?.kind {
        Kind::Mul(parts) => Some(&parts.as_slice().first()?.1),
        _ => None,
    }
}

/// The number of an expression that divides; 0 where it can't.
#[tactic(auto, using(crate::proofs::Divisors::divisor_passes))]
fn number_of<'a>(known: &ConstantScope<'a>, e: &'a Expr) -> Result<i64, Fault> {
    let mut count = Count::new();
    if known.constant(&mut count, e)? == 0 {
        return Ok(0);
    }
    Ok(divisor(known, e)?)
}

/// Writes the number of an expression that divides.
fn put_number<'a>(out: &mut String, known: &ConstantScope<'a>, e: &'a Expr) -> Result<(), Fault> {
    write!(out, "{} ", number_of(known, e)?)?;
    Ok(())
}

/// Writes the divisor of an instance, if it has one.
fn put_divisor<'a>(
    out: &mut String,
    alloc: Global,
    ground: &'a Ground,
    conditions: &[&'a Expr],
    hard: &'a HardItem,
) -> Result<(), Fault> {
    let Some(e) = divisor_in(conditions, hard.text) else {
        return Ok(());
    };
    let known = known_at(alloc, ground.table(), &hard.env)?;
    put_number(out, &known, e)
}

/// Writes the divisors of all instances of hard constraints.
fn put_divisors(out: &mut String, alloc: Global, ground: &Ground) -> Result<(), Fault> {
    let conditions = ground.conditions(alloc)?;
    for hard in ground.hards() {
        put_divisor(out, alloc, ground, conditions.as_slice(), hard)?;
    }
    Ok(())
}

/// The divisors of all instances of hard constraints, in words.
fn divisors_of(alloc: Global, ground: &Ground) -> Result<String, Fault> {
    let mut out = String::new(alloc);
    put_divisors(&mut out, alloc, ground)?;
    Ok(out)
}

/// The divisors of a text.
fn divisors_in(alloc: Global, text: &str) -> Result<String, Fault> {
    let stated = stated_in(alloc, text.as_bytes())?;
    divisors_of(alloc, &stated.ground)
}

/// Texts, and the divisors of their instances.
const TEXTS: &str = "\
literals and a number below 0: dvar int x in 0..9; subject to { x div 2 == 1; x mod 3 == 1; x div (0 - 4) == 1; } -> 2 3 -4
a binder: dvar int x in 0..9; subject to { forall(i in 1..3) x div (2 * i) == 1; x mod 5 == 1; } -> 2 4 6 5
elements: range R = 1..2; int a[R] = [5, 0 - 7]; dvar int x in 0..9; subject to { forall(i in R) x mod a[i] == 1; } -> 5 -7
two binders: {int} S = {9, 2}; dvar int x in 0..9; subject to { forall(i in S, j in i..i + 1) x div (i - 2 * j) == 1; } -> -2 -4 -9 -11
a sum over a range: dvar int x in 0..9; subject to { forall(i in 1..3) x div (1 + sum(j in 1..i, k in j..2) k) == 1; } -> 4 6 6
products, remainders and a comparison: dvar int x in 0..9; subject to { x div (17 mod 7 * 2) == 1; x mod (1 - 3 div 2 - 1) == 1; x div (7 == 7) == 1; } -> 6 -1 1
functions, and no instance: dvar int x in 0..9; subject to { x div (min(4, 3) + max(1, 2) * abs(0 - 5)) == 1; forall(i in 1..0) x div i == 1; } -> 13
";

/// A text has these divisors.
fn gives(alloc: Global, rt: &impl Abort, word: &str, text: &str, want: &str) -> Result<(), Fail> {
    let found = divisors_in(alloc, text)?;
    assert_eq!(rt; found.as_str().trim_end(), want, "{word}: {text}");
    Ok(())
}

#[test]
fn divisors(rt: HostRuntime) -> Result<(), Fail> {
    for row in TEXTS.lines() {
        let (word, text, want) = parts(row);
        gives(rt.alloc(), &rt, word, text, want)?;
    }
    Ok(())
}
