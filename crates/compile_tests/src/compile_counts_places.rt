//! The places that binders give, at each instance of a constraint.
//!
//! Each was written down by hand.

use crate::instances::left_of;
use crate::rows::parts;
use compile_counts::{all_places, known_at};
use scen_accept::stated_in;
use sopl_ast::{Expr, Kind};
use sopl_base::Fault;
use sopl_unfold::Ground;
use std::alloc::{AllocError, Global};
use std::process::Abort;
use std::test::Fail;
use unfold_constants::ConstantScope;
use unfold_tables::Count;

/// Writes the bound names of a place with their numbers, and `;` behind them.
fn put_place(out: &mut String, known: &ConstantScope<'_>) -> Result<(), AllocError> {
    for (name, number) in known.bindings() {
        for byte in name.as_slice() {
            out.push(char::from(*byte))?;
        }
        write!(out, "{}", *number)?;
    }
    out.push_str("; ")
}

/// Writes the places that the binders of a sum give, or the place itself.
fn put_places<'a>(
    out: &mut String,
    alloc: Global,
    known: &ConstantScope<'a>,
    e: &'a Expr,
) -> Result<(), Fault> {
    let mut count = Count::new();
    known.expression(&mut count, e)?;
    match &e.kind {
        Kind::Sum(over, _) => {
            let places = all_places(alloc, known, None, over.as_slice())?;
            for place in places.as_slice() {
                put_place(out, place)?;
            }
            Ok(())
        }
        _ => Ok(put_place(out, known)?),
    }
}

/// Writes the places on the left side of each instance of a hard constraint, and `|` behind them.
fn put_instances(out: &mut String, alloc: Global, ground: &Ground) -> Result<(), Fault> {
    let conditions = ground.conditions(alloc)?;
    for hard in ground.hards() {
        let known = known_at(alloc, ground.table(), &hard.env)?;
        if let Some(left) = left_of(conditions.as_slice(), hard.text) {
            put_places(out, alloc, &known, left)?;
        }
        out.push_str("| ")?;
    }
    Ok(())
}

/// The places of all instances, in words.
fn places_of(alloc: Global, ground: &Ground) -> Result<String, Fault> {
    let mut out = String::new(alloc);
    put_instances(&mut out, alloc, ground)?;
    Ok(out)
}

/// The places of a text.
fn places_in(alloc: Global, text: &str) -> Result<String, Fault> {
    let stated = stated_in(alloc, text.as_bytes())?;
    places_of(alloc, &stated.ground)
}

/// Texts, and for each instance the places on its left side.
const TEXTS: &str = "\
binders of sums, and no sum: subject to { sum(i in 1..2, j in i..3) i == 0; sum(i in 5..4) i == 0; 1 == 1; } -> i1j1; i1j2; i1j3; i2j2; i2j3; | | ; |
binders of `forall`: subject to { forall(i in 1..2, j in i..2) i <= j; } -> i1j1; | i1j2; | i2j2; |
a set in order: {int} S = {9, 2, 5}; subject to { forall(i in S) sum(j in 1..2) (i * j) >= 0; } -> i2j1; i2j2; | i5j1; i5j2; | i9j1; i9j2; |
a range by the number of another binder: {int} S = {9, 2, 5}; range R = 3..4; int n = 8; subject to { sum(r in R, s in S, t in n..n + r - 3) t >= 0; } -> r3s2t8; r3s5t8; r3s9t8; r4s2t8; r4s2t9; r4s5t8; r4s5t9; r4s9t8; r4s9t9; |
elements as ends: int a[i in 1..3] = 2 - i; subject to { forall(i in 1..3) sum(j in a[i]..1) j == i; } -> i1j1; | i2j0; i2j1; | i3j-1; i3j0; i3j1; |
ten binders, the last over the first two: subject to { sum(a in 1..2, b in a..2, c in 3..3, d in 4..4, e in 5..5, f in 6..6, g in 7..7, h in 8..8, i in 9..9, j in a..b) j >= 0; } -> a1b1c3d4e5f6g7h8i9j1; a1b2c3d4e5f6g7h8i9j1; a1b2c3d4e5f6g7h8i9j2; a2b2c3d4e5f6g7h8i9j2; |
nine binders around one, over the first two: subject to { forall(a in 1..2, b in a..2, c in 3..3, d in 4..4, e in 5..5, f in 6..6, g in 7..7, h in 8..8, i in b..2) sum(j in a..i) j >= 0; } -> a1b1c3d4e5f6g7h8i1j1; | a1b1c3d4e5f6g7h8i2j1; a1b1c3d4e5f6g7h8i2j2; | a1b2c3d4e5f6g7h8i2j1; a1b2c3d4e5f6g7h8i2j2; | a2b2c3d4e5f6g7h8i2j2; |
`forall` in `forall`: subject to { forall(i in 1..2) { sum(j in 1..i) j >= 0; forall(k in i..2) { sum(j in k..k) j >= i; } } } -> i1j1; | i1k1j1; | i1k2j2; | i2j1; i2j2; | i2k2j2; |
";

/// A text has these places.
fn gives(alloc: Global, rt: &impl Abort, word: &str, text: &str, want: &str) -> Result<(), Fail> {
    let found = places_in(alloc, text)?;
    assert_eq!(rt; found.as_str().trim_end(), want, "{word}: {text}");
    Ok(())
}

#[test]
fn places(rt: HostRuntime) -> Result<(), Fail> {
    for row in TEXTS.lines() {
        let (word, text, want) = parts(row);
        gives(rt.alloc(), &rt, word, text, want)?;
    }
    Ok(())
}
