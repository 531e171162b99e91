//! Searches by several seats, in turn and in an order.

use crate::runs::{FARMER, ORDER, is_accepted, ran};
use answer_run::Status;
use std::alloc::{AllocError, Global};
use std::process::Abort;
use std::test::Fail;

/// What a text is about, the text, and what its answer begins and ends with.
const TEXTS: &[(&str, &str, &str, &str)] = &[
    (
        "one decision",
        "dvar int x in 0..3; maximize expected(x); subject to { }",
        "{\"answer\":\"optimal\"",
        "\"value\":\"3/1\"}\n",
    ),
    (
        "orders and sales",
        ORDER,
        "{\"answer\":\"optimal\"",
        "\"value\":\"2/2\"}\n",
    ),
    (
        "a farm",
        FARMER,
        "{\"answer\":\"optimal\"",
        "\"value\":\"325170/3\"}\n",
    ),
    (
        "a guess",
        "dvar int x in 0..5 stage 1; stoch int d in {1:1, 3:1} stage 1; subject to { x == d; }",
        "{\"answer\":\"infeasible\"",
        "}\n",
    ),
    (
        "a chance constraint",
        "dvar int x in 0..5; stoch int d in {1:1, 3:1}; minimize expected(x); subject to { prob(x >= d) >= 501/1000; }",
        "{\"answer\":\"optimal\"",
        "\"value\":\"6/2\"}\n",
    ),
    (
        "the worst value",
        "dvar int x in 0..5; stoch int d in {1:1, 3:1}; minimize worst(abs(x - d)); subject to { }",
        "{\"answer\":\"optimal\"",
        "\"value\":\"1/1\"}\n",
    ),
    (
        "three terms over two numbers",
        "range R = 1..3; dvar int x[R] in 1..2; subject to { allDifferent(all(i in R) x[i]); }",
        "{\"answer\":\"infeasible\"",
        "}\n",
    ),
    (
        "inequalities of each two of three",
        "range R = 1..3; dvar int x[R] in 0..2; maximize expected(sum(i in R) i*x[i]); subject to { forall(i in R, j in R) (i < j => x[i] != x[j]); }",
        "{\"answer\":\"optimal\"",
        "\"value\":\"8/1\"}\n",
    ),
    (
        "two tasks",
        "range R = 1..2; dvar int s[R] in 0..3; minimize expected(max(s[1] + 2, s[2] + 2)); subject to { cumulative(all(i in R) (s[i], 2, 1), 1); s[1] <= s[2]; }",
        "{\"answer\":\"optimal\"",
        "\"value\":\"4/1\"}\n",
    ),
    (
        "a product and a square",
        "dvar int x in 0..9; dvar int y in 0..9; maximize expected(x*y - x*x); subject to { x + y <= 11; }",
        "{\"answer\":\"optimal\"",
        "\"value\":\"15/1\"}\n",
    ),
];

/// Words, which tell how many seats there are, and the order in which they take steps; no order for turns.
const SCHEDULES: &str = "\
solve --seats 1 m
solve --seats 2 m
solve --seats 3 m
solve --seats 64 m
solve --seats 1 --order 7 m
solve --seats 2 --order 0 m
solve --seats 2 --order 1 m
solve --seats 3 --order 2 m
solve --seats 3 --order 2147483647 m
solve --seats 3 --order 8191 m
solve --seats 7 --order 12345 m
solve --seats 64 --order 1 m
solve --seats 64 --order 99 m
solve --seats 64 --order 1000000007 m
";

/// A run by a schedule has an answer of this begin and this end, and `check` accepts its log.
fn is_scheduled(
    rt: &impl Abort,
    alloc: Global,
    words: &str,
    row: (&str, &str, &str, &str),
) -> Result<(), AllocError> {
    let (about, text, begin, end) = row;
    let ended = ran(alloc, words, text)?;
    let line = std::str::from_utf8(ended.answer.bytes()).unwrap_or("");
    assert_eq!(rt; ended.status, Status::Done, "{about}: {words}");
    assert!(rt; line.starts_with(begin), "{about}: {words}");
    assert!(rt; line.ends_with(end), "{about}: {words}");
    is_accepted(rt, alloc, about, text, ended.log.bytes())
}

/// Each text has one kind of answer and one value by all schedules.
#[test]
fn schedules_change_no_answer(rt: HostRuntime) -> Result<(), Fail> {
    for row in TEXTS {
        for words in SCHEDULES.lines() {
            is_scheduled(&rt, rt.alloc(), words, *row)?;
        }
    }
    Ok(())
}
