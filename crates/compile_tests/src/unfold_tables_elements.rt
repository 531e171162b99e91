//! The elements of constants, as a table lists them by their names.
//!
//! Each list was written down by hand.

use crate::rows::parts;
use scen_accept::{AcceptedProblem, stated_in};
use sopl_ast::Name;
use sopl_base::Fault;
use std::alloc::{AllocError, Global};
use std::process::Abort;
use std::test::Fail;
use unfold_tables::{ConstantElement, Table};

/// Writes elements with their indices.
fn put_elements(out: &mut String, elements: &[ConstantElement<'_>]) -> Result<(), AllocError> {
    for element in elements {
        write!(out, "{:?}{} ", element.index, element.value)?;
    }
    Ok(())
}

/// The elements of a name in a table.
fn listed(alloc: Global, name: &str, table: &Table) -> Result<String, AllocError> {
    let name = Name::from_bytes(alloc, name.as_bytes())?;
    let elements = table.elements_of(alloc, &name)?;
    let mut out = String::new(alloc);
    put_elements(&mut out, elements.as_slice())?;
    Ok(out)
}

/// The elements of a name in the table of a text.
fn elements_of(alloc: Global, name: &str, stated: &AcceptedProblem) -> Result<String, Fault> {
    Ok(listed(alloc, name, stated.ground.table())?)
}

/// The elements of a name in a text.
fn elements_in(alloc: Global, name: &str, text: &str) -> Result<String, Fault> {
    let stated = stated_in(alloc, text.as_bytes())?;
    elements_of(alloc, name, &stated)
}

/// Names in texts, and their elements in the order of their declaration.
const TEXTS: &str = "\
a constant: n in int n = 7; subject to { } -> []7
one number for an array: a in int a[1..2] = 7; int b = a[1] + 1; subject to { } -> [1]7 [2]7
a constant by an element: b in int a[1..2] = 7; int b = a[1] + 1; subject to { } -> []8
elements by their binder: a in int b = 1; int a[i in 0..2] = b - 2 * i; int c = 1; subject to { } -> [0]1 [1]-1 [2]-3
a set in the order of its list: a in {int} S = {9, 2}; int a[S] = [5, 6]; subject to { } -> [2]5 [9]6
a set and a binder as dimensions: a in {int} S = {9, 2}; int a[S][i in 1..2] = [[5, 6], [7, 8]]; subject to { } -> [2, 1]5 [2, 2]6 [9, 1]7 [9, 2]8
three dimensions: a in int a[i in 3..4][1..1][k in 0..1] = 10 * i + k; subject to { } -> [3, 1, 0]30 [3, 1, 1]31 [4, 1, 0]40 [4, 1, 1]41
an empty array, beside a longer name: a in int ab[1..2] = 7; int a[1..0] = 7; range R = 1..2; subject to { } -> 
an array beside names that it begins or ends with: ab in int a[1..2] = 6; int ab[1..2] = 7; int b[1..2] = 8; subject to { } -> [1]7 [2]7
a range: R in range R = 1..2; int a[R] = 7; subject to { } -> 
a decision: x in dvar int x in 0..1; stoch int d in {1:1}; subject to { } -> 
a stochastic variable: d in dvar int x in 0..1; stoch int d in {1:1}; subject to { } -> 
";

/// A name has these elements in a text.
fn gives(alloc: Global, rt: &impl Abort, word: &str, asked: &str, want: &str) -> Result<(), Fail> {
    let (name, text) = asked.split_once(" in ").unwrap_or(("", asked));
    let found = elements_in(alloc, name, text)?;
    assert_eq!(rt; found.as_str().trim_end(), want, "{word}: {asked}");
    Ok(())
}

#[test]
fn elements_by_name(rt: HostRuntime) -> Result<(), Fail> {
    for row in TEXTS.lines() {
        let (word, asked, want) = parts(row);
        gives(rt.alloc(), &rt, word, asked, want)?;
    }
    Ok(())
}
