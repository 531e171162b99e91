//! The boxes in which all propagators of a text's program come to rest.
//!
//! Each box was computed by hand.

ghost use Rattle.term_program.specs.Programs.{IsMade};

use crate::sopl_compile_programs::program_in;
use box_store::BoxStore;
use prop_core::{Calm, fixpoint};
use prop_set::{AnyProp, props_of};
use sopl_base::{Fault, Steps};
use sopl_search::SearchProblem;
use sopl_term::Program;
use std::alloc::{AllocError, Global};
use std::process::Abort;
use std::test::Fail;

/// The lower ends of all cells, and then the upper ones, of the box of a store where propagators came to rest; none where a reason closed it.
fn ends_of(alloc: Global, store: &BoxStore, calm: Calm) -> Result<Vec<i64>, AllocError> {
    let mut ends = Vec::new(alloc);
    if calm == Calm::Quiet {
        ends.extend_from_slice(store.lows())?;
        ends.extend_from_slice(store.highs())?;
    }
    Ok(ends)
}

/// The ends of the cells where all propagators of a program come to rest, against the best value where there is one.
fn rest_of(alloc: Global, program: &Program, best: Option<i128>) -> Result<Vec<i64>, AllocError>
    requires made { IsMade program.now }
{
    let roots = AnyProp::roots(alloc, program)?;
    let mut store = BoxStore::new(alloc, roots.as_slice())?;
    let mut list = props_of(alloc, program)?;
    let mut steps = Steps::new(alloc);
    let calm = fixpoint(list.as_mut_slice(), program, &mut store, best, &mut steps)?;
    ends_of(alloc, &store, calm)
}

/// The ends of the cells where all propagators of a text come to rest, against the best value where there is one.
fn rest_in(alloc: Global, text: &str, best: Option<i128>) -> Result<Vec<i64>, Fault> {
    let program = program_in(alloc, text)?;
    Ok(rest_of(alloc, &program, best)?)
}

/// Texts behind a word, each with the best value that is known or none, and with the lower and then the upper ends of the cells; none where a reason
/// closes the box. A chance constraint asks for enough weight; the expected value, and the worst one, is to be better than the best that is
/// known, and nothing is better where there is no objective; and a bound and hard constraints narrow in turn. Scenarios
/// that stand behind one another have what is seen first in common, and the decisions that follow it. Three values are left for
/// three terms where two of them have two values, and none where there are fewer values than terms, at either end, of terms that fall as their cell
/// rises, and of terms with a cell in common; tasks that may not run at once, and a length that is not negative; an index of its array.
const RESTS: &str = "\
weight of a quarter is enough at the lower demand: dvar int x in 0..9; stoch int d in {2:1, 6:3}; maximize expected(x); subject to { prob(x >= d) >= 1/4; } -> none : 2 9
three quarters ask for the greater demand: dvar int x in 0..9; stoch int d in {2:1, 6:3}; maximize expected(x); subject to { prob(x >= d) >= 3/4; } -> none : 6 9
a chance constraint at each end: dvar int x in 0..9; stoch int d in {2:1, 6:3}; maximize expected(x); subject to { prob(x >= d) >= 1/4; prob(x <= d) >= 3/4; } -> none : 2 6
two chance constraints that cannot both hold: dvar int x in 0..9; stoch int d in {2:1, 6:3}; maximize expected(x); subject to { prob(x < d) >= 1/2; prob(x > d) >= 1/2; } -> none :
the expected value is to be above 20: dvar int x in 0..9; stoch int d in {2:1, 6:3}; maximize expected(x); subject to { prob(x >= d) >= 1/4; } -> 20 : 6 9
nothing but the greatest value is better than 35: dvar int x in 0..9; stoch int d in {2:1, 6:3}; maximize expected(x); subject to { prob(x >= d) >= 1/4; } -> 35 : 9 9
no value is better than 36: dvar int x in 0..9; stoch int d in {2:1, 6:3}; maximize expected(x); subject to { prob(x >= d) >= 1/4; } -> 36 :
the expected value is to be below 20: dvar int x in 0..9; stoch int d in {2:1, 6:3}; minimize expected(x); subject to { prob(x >= d) >= 1/4; } -> 20 : 2 4
no value is below what the chance asks for: dvar int x in 0..9; stoch int d in {2:1, 6:3}; minimize expected(x); subject to { prob(x >= d) >= 3/4; } -> 24 :
the worst value is to be above 2: dvar int x in 0..9; stoch int d in {1:1, 3:1}; maximize worst(x - d); subject to { } -> 2 : 6 9
the worst value is to be below 2: dvar int x in 0..9; stoch int d in {1:1, 3:1}; minimize worst(x - d); subject to { } -> 2 : 0 2
nothing to be better than without an objective: dvar int x in 0..9; subject to { x >= 3; } -> none : 3 9
nothing is better without an objective: dvar int x in 0..9; subject to { x >= 3; } -> 0 :
hard constraints of two scenarios: dvar int x in 0..5 stage 1; stoch int d in {1:1, 3:1} stage 1; dvar int y in 0..3 stage 2; maximize expected(4*y - 3*x); subject to { y <= d; y <= x; } -> none : 0 0 0 5 1 3
a bound and hard constraints narrow in turn: dvar int x in 0..5 stage 1; stoch int d in {1:1, 3:1} stage 1; dvar int y in 0..3 stage 2; maximize expected(4*y - 3*x); subject to { y <= d; y <= x; } -> 1 : 0 0 0 1 1 1
no plan is better than 8: dvar int x in 0..5 stage 1; stoch int d in {1:1, 3:1} stage 1; dvar int y in 0..3 stage 2; maximize expected(4*y - 3*x); subject to { y <= d; y <= x; } -> 8 :
what follows a demand is at most it: dvar int x in 0..9; stoch int a in {1:1, 2:1}; stoch int b in {0:1, 3:1} stage 2; dvar int y in 0..9 stage 2; subject to { x >= a; y <= a; } -> none : 2 0 0 9 1 2
what follows two demands is at least the second: dvar int x in 0..9; stoch int a in {1:1, 2:1}; stoch int b in {0:1, 3:1} stage 2; dvar int y in 0..9 stage 2; subject to { y >= b; } -> none : 0 3 3 9 9 9
a bound on what follows two demands: dvar int x in 0..9; stoch int a in {1:1, 2:1}; stoch int b in {0:1, 3:1} stage 2; dvar int y in 0..9 stage 2; maximize expected(y); subject to { y <= 2*a; } -> 10 : 0 2 4 9 2 4
two terms of two values leave the third one value: range R = 1..3; dvar int x[R] in 1..3; subject to { allDifferent(all(i in R) x[i]); x[1] <= 2; x[2] <= 2; } -> none : 1 1 3 2 2 3
three terms of two values: range R = 1..3; dvar int x[R] in 1..2; subject to { allDifferent(all(i in R) x[i]); } -> none :
terms that fall, at the upper end: range R = 1..3; dvar int x[R] in 0..3; subject to { allDifferent(all(i in R) (4 - x[i])); x[1] <= 1; x[2] <= 1; } -> none : 0 0 2 1 1 3
terms behind a number, at the lower end: range R = 1..3; dvar int x[R] in 1..4; subject to { allDifferent(all(i in R) (x[i] + 7)); x[1] >= 3; x[2] >= 3; } -> none : 3 3 1 4 4 2
terms with a cell in common: range R = 1..2; dvar int x[R] in 0..3; subject to { allDifferent(all(i in R) (x[1] + i*x[2] - x[2])); x[1] == 2; } -> none : 2 1 2 3
two tasks that may not run at once: range R = 1..2; dvar int s[R] in 0..4; subject to { cumulative(all(i in R) (s[i], 2, 1), 1); s[1] <= 0; } -> none : 0 2 0 4
a length that is not negative: range R = 1..2; dvar int s[R] in 0..4; dvar int l in -3..9; subject to { cumulative(all(i in R) (s[i], l, i), 2); s[1] == 1; s[2] == 4; } -> none : 1 4 0 1 4 3
an index of its array: range R = 1..4; int a[R] = [2, 9, 4, 7]; dvar int x in 0..6; subject to { a[x] >= 4; } -> none : 2 4
not all are different: range R = 1..3; dvar int x[R] in 1..3; subject to { !allDifferent(all(i in R) x[i]); x[1] == 1; x[2] == 2; x[3] >= 2; } -> none : 1 2 2 1 2 2
";

/// The numbers of a text, between blanks.
fn numbers_in(alloc: Global, text: &str) -> Result<Vec<i64>, AllocError> {
    let mut numbers = Vec::new(alloc);
    for word in text.split_whitespace() {
        if let Ok(number) = word.parse::<i64>() {
            numbers.push(number)?;
        }
    }
    Ok(numbers)
}

/// The propagators of a text's program come to rest there, against a value or none.
fn rests(alloc: Global, rt: &impl Abort, word: &str, text: &str, case: &str) -> Result<(), Fail> {
    let (best, want) = case.split_once(" :").unwrap_or((case, ""));
    let left = rest_in(alloc, text, best.parse::<i128>().ok())?;
    let wanted = numbers_in(alloc, want)?;
    assert_eq!(rt; left.as_slice(), wanted.as_slice(), "{word}");
    Ok(())
}

#[test]
fn propagators_come_to_rest(rt: HostRuntime) -> Result<(), Fail> {
    for row in RESTS.lines() {
        let (word, told) = row.split_once(": ").unwrap_or((row, ""));
        let (text, case) = told.split_once(" -> ").unwrap_or((told, ""));
        rests(rt.alloc(), &rt, word, text, case)?;
    }
    Ok(())
}
