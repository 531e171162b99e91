//! The arrays of names, and names without an index, with where their items come from.
//!
//! Each row was worked out by hand. An origin is a number (`Fixed(5)`), a stochastic variable by its number, by stage and then in text order (`Drawn(0)`), or a
//! decision by its number in text order (`Decided(2)`).

use crate::rows::parts;
use compile_names::Scenarios;
use scen_accept::{AcceptedProblem, stated_in};
use sopl_ast::Name;
use sopl_base::Fault;
use std::alloc::{AllocError, Global};
use std::process::Abort;
use std::test::Fail;

/// The names of a text; there are fewer than 2^32.
fn setting_of<'a>(alloc: Global, stated: &'a AcceptedProblem) -> Result<Scenarios<'a>, Fault> {
    let stochs = stated.ground.stochs();
    if stochs.len() > u32::MAX as usize {
        return Err(Fault::NoMemory);
    }
    let decisions = stated.ground.decisions();
    if decisions.len() > u32::MAX as usize {
        return Err(Fault::NoMemory);
    }
    Ok(Scenarios::of(
        alloc,
        stated.ground.table(),
        stochs,
        decisions,
        &stated.tree,
    )?)
}

/// A name without an index, and then the sets and the items of its array.
fn shown(alloc: Global, setting: &Scenarios<'_>, name: &str) -> Result<String, AllocError> {
    let name = Name::from_bytes(alloc, name.as_bytes())?;
    let scalar = setting.scalar(&name);
    let array = setting.array(alloc, &name)?;
    format!(in alloc; "{scalar:?} {:?} {:?}", array.sets, array.origins)
}

/// What a name is among the names of a text.
fn name_of(alloc: Global, name: &str, stated: &AcceptedProblem) -> Result<String, Fault> {
    let setting = setting_of(alloc, stated)?;
    Ok(shown(alloc, &setting, name)?)
}

/// What a name is in a text.
fn named_in(alloc: Global, name: &str, text: &str) -> Result<String, Fault> {
    let stated = stated_in(alloc, text.as_bytes())?;
    name_of(alloc, name, &stated)
}

/// Names of texts, and what they are.
const TEXTS: &str = "\
a constant: n of int n = 7; subject to { } -> None [] [Fixed(7)]
a decision: x of dvar int y in 0..1; dvar int x in 0..1; subject to { } -> Some(Decided(1)) [] [Decided(1)]
a stochastic variable: d of stoch int d in {1:1} stage 2; stoch int e in {1:1}; subject to { } -> Some(Drawn(1)) [] [Drawn(1)]
a range: z of int a = 7; range z = 1..2; dvar int x in 0..1; subject to { } -> None [[]] []
a list over a set: a of {int} S = {9, 2}; int a[S] = [5, 6]; int b[S] = 7; subject to { } -> None [[2, 9]] [Fixed(5), Fixed(6)]
two dimensions: a of int a[i in 3..4][j in 0..1] = 10 * i + j; subject to { } -> None [[3, 4], [0, 1]] [Fixed(30), Fixed(31), Fixed(40), Fixed(41)]
stochastic variables by their stages: d of stoch int e in {1:1}; stoch int d[i in 1..3] in {i:1} stage 4 - i; subject to { } -> None [[1, 2, 3]] [Drawn(3), Drawn(2), Drawn(1)]
decisions of two dimensions: x of dvar int y in 0..1; dvar int x[i in 1..2][j in 1..2] in 0..1 stage j; subject to { } -> None [[1, 2], [1, 2]] [Decided(1), Decided(2), Decided(3), Decided(4)]
an empty dimension: x of dvar int x[1..2][1..0] in 0..1; dvar int xy in 0..1; subject to { } -> None [[]] []
";

/// A name is so in a text.
fn gives(alloc: Global, rt: &impl Abort, word: &str, asked: &str, want: &str) -> Result<(), Fail> {
    let (name, text) = asked.split_once(" of ").unwrap_or(("", asked));
    let found = named_in(alloc, name, text)?;
    assert_eq!(rt; found.as_str(), want, "{word}: {asked}");
    Ok(())
}

#[test]
fn arrays_by_name(rt: HostRuntime) -> Result<(), Fail> {
    for row in TEXTS.lines() {
        let (word, asked, want) = parts(row);
        gives(rt.alloc(), &rt, word, asked, want)?;
    }
    Ok(())
}
