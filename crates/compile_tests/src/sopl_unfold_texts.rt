//! What texts unfold to: the instances that they state, or the first refusal or limit.
//!
//! An instance is a word with its index in brackets: a decision with its domain and its stage (`x[1] 0..5 @2`), a stochastic
//! variable with its outcomes (`d[] 1:2 3:1 @1`), a hard constraint with the number of its condition and what its binders give
//! (`h0 i=1`), and a chance constraint with its threshold besides (`c1 1/2 i=1`). The place of each refusal was marked by hand
//! in its text.

use crate::rows::parts;
use scen_accept::typed_in;
use sopl_ast::Name;
use sopl_base::Fault;
use sopl_unfold::{ChanceItem, DecisionItem, Env, Ground, HardItem, StochItem, unfold};
use std::alloc::{AllocError, Global};
use std::process::Abort;
use std::test::Fail;

/// The ground problem of a text.
fn ground_of(alloc: Global, text: &str) -> Result<Ground, Fault> {
    let typed = typed_in(alloc, text.as_bytes())?;
    unfold(alloc, typed)
}

/// What a text gives, as one line.
fn answer(alloc: Global, text: &str) -> Result<String, Fault> {
    match ground_of(alloc, text) {
        Ok(ground) => Ok(shown(alloc, &ground)?),
        Err(fault) => refused(alloc, &fault),
    }
}

/// A refusal with its place, or a limit with what was counted.
pub fn refused(alloc: Global, fault: &Fault) -> Result<String, Fault> {
    match fault {
        Fault::Text(refusal) => Ok(format!(in alloc; "{} at {}", refusal.code, refusal.at)?),
        Fault::Limit(excess) => {
            Ok(format!(in alloc; "{}, {} of {}", excess.code, excess.counted, excess.limit)?)
        }
        Fault::NoMemory => Err(Fault::NoMemory),
    }
}

/// The instances of a ground problem.
fn shown(alloc: Global, ground: &Ground) -> Result<String, AllocError> {
    let mut out = String::new(alloc);
    put_decisions(&mut out, ground.decisions())?;
    put_stochs(&mut out, ground.stochs())?;
    put_hards(&mut out, ground.hards())?;
    put_chances(&mut out, ground.chances())?;
    Ok(out)
}

fn put_decisions(out: &mut String, items: &[DecisionItem]) -> Result<(), AllocError> {
    for item in items {
        put_head(out, &item.name, item.index.as_slice())?;
        write!(out, " {}..{} @{}; ", item.lo, item.hi, item.stage)?;
    }
    Ok(())
}

fn put_stochs(out: &mut String, items: &[StochItem]) -> Result<(), AllocError> {
    for item in items {
        put_head(out, &item.name, item.index.as_slice())?;
        put_outcomes(out, item.values.as_slice())?;
        write!(out, " @{}; ", item.stage)?;
    }
    Ok(())
}

fn put_outcomes(out: &mut String, outcomes: &[(i64, i64)]) -> Result<(), AllocError> {
    for outcome in outcomes {
        write!(out, " {}:{}", outcome.0, outcome.1)?;
    }
    Ok(())
}

fn put_hards(out: &mut String, items: &[HardItem]) -> Result<(), AllocError> {
    for item in items {
        write!(out, "h{}", item.text)?;
        put_env(out, &item.env)?;
    }
    Ok(())
}

fn put_chances(out: &mut String, items: &[ChanceItem]) -> Result<(), AllocError> {
    for item in items {
        write!(out, "c{} {}/{}", item.text, item.p, item.q)?;
        put_env(out, &item.env)?;
    }
    Ok(())
}

fn put_env(out: &mut String, env: &Env) -> Result<(), AllocError> {
    for binding in env.as_slice() {
        out.push(' ')?;
        put_name(out, &binding.0)?;
        write!(out, "={}", binding.1)?;
    }
    out.push_str("; ")
}

fn put_head(out: &mut String, name: &Name, index: &[i64]) -> Result<(), AllocError> {
    put_name(out, name)?;
    for number in index {
        write!(out, "[{}]", *number)?;
    }
    Ok(())
}

fn put_name(out: &mut String, name: &Name) -> Result<(), AllocError> {
    for byte in name.as_slice() {
        out.push(char::from(*byte))?;
    }
    Ok(())
}

/// Texts, and what they give.
const TEXTS: &str = "\
a decision: dvar int x in 0..5; subject to { } -> x 0..5 @1;
a decision, a stochastic variable and a constraint: dvar int x in 0..5 stage 2; stoch int d in {3:1, 1:2}; subject to { x <= 5; } -> x 0..5 @2; d 3:1 1:2 @1; h0;
decisions whose domain and stage go by their index: range R = 1..2; dvar int x[i in R] in i..2*i stage i; subject to { } -> x[1] 1..2 @1; x[2] 2..4 @2;
decisions of two dimensions: dvar int x[i in 1..2][j in 1..2] in i..i+j; subject to { } -> x[1][1] 1..2 @1; x[1][2] 1..3 @1; x[2][1] 2..3 @1; x[2][2] 2..4 @1;
stochastic variables whose outcomes go by their index: stoch int d[i in 1..2] in {i:1, 2*i:i} stage i; subject to { } -> d[1] 1:1 2:1 @1; d[2] 2:1 4:2 @2;
stochastic variables by their stages: stoch int a in {1:1} stage 2; stoch int b in {1:1}; stoch int c in {1:1} stage 2; subject to { } -> b 1:1 @1; a 1:1 @2; c 1:1 @2;
a set in order, each number once: {int} S = {3, 1, 3}; dvar int x[S] in 0..1; subject to { forall(i in S) x[i] <= i; } -> x[1] 0..1 @1; x[3] 0..1 @1; h0 i=1; h0 i=3;
constraints by their conditions: subject to { forall(i in 1..2) { i >= 1; prob(i == 1) >= i/2; } 1 == 1; prob(1 == 1) >= 0/1; } -> h0 i=1; h0 i=2; h2; c1 1/2 i=1; c1 2/2 i=2; c3 0/1;
a binder's range by another binder: subject to { forall(i in 1..2, j in i..2) i <= j; } -> h0 i=1 j=1; h0 i=1 j=2; h0 i=2 j=2;
no instance: subject to { forall(i in 2..1) { 1 == 1; 2 == 2; } 3 == 3; } -> h2;
a range as a domain: range R = 2..4; dvar int x in R; subject to { } -> x 2..4 @1;
elements as ends of a domain: int a[1..2] = [5, 7]; dvar int x in a[1]..a[2]; subject to { } -> x 5..7 @1;
a quotient below 0: int n = -7 div 2; dvar int x in n..0; subject to { } -> x -3..0 @1;
a remainder below 0: int n = -7 mod 2; dvar int x in n..0; subject to { } -> x -1..0 @1;
a comparison in a constant: int n = (1 == 1) + 1; dvar int x in 0..n; subject to { } -> x 0..2 @1;
the largest domain: dvar int x in 0..65535; subject to { } -> x 0..65535 @1;
the least threshold: subject to { prob(1 == 2) >= 0/1; } -> c0 0/1;
the greatest denominator: subject to { prob(1 == 2) >= 1/1048576; } -> c0 1/1048576;
the last stage: dvar int x in 0..1 stage 24; subject to { } -> x 0..1 @24;
nothing: subject to { } -> 
a constant divided by 0: int n = 1 div 0; subject to { } -> 110 at 8
a remainder by 0: int n = 7 mod (1 - 1); subject to { } -> 110 at 8
a quotient by 0 as an end: int n = 1 + sum(i in 1..(1 div 0)) i; subject to { } -> 110 at 8
a quotient by 0 in a sum: int n = 2 * (3 + 1 div 0); subject to { } -> 110 at 8
a product too large within a quotient: int n = 1099511627776 * 2 div 2; subject to { } -> 110 at 8
a quotient by 0 behind and: int n = 1 == 2 && 1 div 0 == 1; subject to { } -> 110 at 8
an index outside an array: int a[1..2] = [5, 7]; int n = a[3]; subject to { } -> 110 at 30
a sum too large: int n = 1099511627776 + 1; subject to { } -> 110 at 8
a sum too large on the way: int n = 1099511627776 + 1 - 1; subject to { n == n; } -> h0;
a divisor of 0: subject to { 4 div 0 == 1; } -> 110 at 19
a divisor that is worth 0: subject to { 4 div (1 - 1) == 1; } -> 110 at 19
a decision divided by 0: dvar int x in 0..1; subject to { 2*x div 0 == 1; } -> 110 at 41
a quotient by 0 as an end in a constraint: subject to { sum(i in 1..(1 div 0)) i == 1; } -> 110 at 25
a divisor that is 0 in one instance: subject to { forall(i in 0..1) 1 div i == 1; } -> 110 at 37
a divisor of 0 in no instance: subject to { forall(i in 1..0) 1 div 0 == 1; } -> 
a divisor of 0 in the objective and in a constraint: minimize expected(1 div 0); subject to { 1 div 0 == 1; } -> 110 at 24
an empty domain: dvar int x in 3..2; subject to { } -> 111 at 14
an empty range as a domain: range R = 3..2; dvar int x in R; subject to { } -> 111 at 30
an empty domain before a stage too late: dvar int x in 2..1 stage 30; subject to { } -> 111 at 14
an empty domain with far ends: dvar int x in 100000..0; subject to { } -> 111 at 14
an element too few: range R = 1..2; int a[R] = [5]; subject to { } -> 112 at 27
an element too many: range R = 1..2; int a[R] = [5, 6, 7]; subject to { } -> 112 at 27
an element too few in an inner list: int a[1..2][1..2] = [[1, 2], [3]]; subject to { } -> 112 at 29
a weight of 0: stoch int d in {1:0} stage 1; subject to { } -> 113 at 18
an outcome twice: stoch int d in {1:1, 1:1}; subject to { } -> 113 at 21
an outcome twice with another between: stoch int d in {1:1, 2:1, 1:1}; subject to { } -> 113 at 26
an outcome twice before a weight of 0: stoch int d in {1:1, 1:0}; subject to { } -> 113 at 21
a stage too late: dvar int x in 0..1 stage 25; subject to { } -> 114 at 25
the stage 0: dvar int x in 0..1 stage 0; subject to { } -> 114 at 25
a stage below 0: stoch int d in {1:1} stage 0 - 1; subject to { } -> 114 at 27
a threshold above 1: subject to { prob(1 == 2) >= 3/2; } -> 115 at 29
a threshold below 0: subject to { prob(1 == 2) >= 0 - 1/2; } -> 115 at 29
a denominator of 0: subject to { prob(1 == 2) >= 0/0; } -> 115 at 29
a denominator too large: subject to { prob(1 == 2) >= 1/1048577; } -> 115 at 29
a quotient by 0 in a denominator: subject to { prob(1 == 2) >= 0 - 1/(1 div 0); } -> 110 at 35
a domain too large: dvar int x in 0..65536; subject to { } -> 203, 65537 of 65536
a range too large: range R = 1..65537; subject to { } -> 208, 65537 of 65536
a dimension too large: dvar int x[1..65537] in 0..1; subject to { } -> 208, 65537 of 65536
a binder's range too large: subject to { forall(i in 1..65537) 1 == 1; } -> 208, 65537 of 65536
a binder's range too large before a quotient by 0: int n = (sum(i in 1..70000) 1) + (1 div 0); subject to { } -> 208, 70000 of 65536
too many instances of a constraint: range R = 1..600; subject to { forall(i in R, j in R) 1 == 1; } -> 205, 262145 of 262144
too many decisions: dvar int x[1..600][1..600] in 0..1; subject to { } -> 205, 262145 of 262144
too many values of binders in a constant: int n = sum(i in 1..600, j in 1..600) 1; subject to { } -> 205, 262145 of 262144
";

/// A text gives what stands beside it.
fn gives(alloc: Global, rt: &impl Abort, word: &str, text: &str, want: &str) -> Result<(), Fail> {
    let given = answer(alloc, text)?;
    assert_eq!(rt; given.as_str().trim_end(), want, "{word}: {text}");
    Ok(())
}

#[test]
fn texts_unfold(rt: HostRuntime) -> Result<(), Fail> {
    for row in TEXTS.lines() {
        let (word, text, want) = parts(row);
        gives(rt.alloc(), &rt, word, text, want)?;
    }
    Ok(())
}
