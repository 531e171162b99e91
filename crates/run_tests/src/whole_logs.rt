//! Searches and their whole logs.

use crate::runs::{Ended, TableRow, ends_as, ran, row_in};
use std::alloc::{AllocError, Global};
use std::process::Abort;
use std::test::Fail;

/// What a search is about; its words, its text and its log, the lines of which are parted by ` / `; and the status and the line that must
/// come.
const SEARCHED: &str = r##"
a budget for the root alone: solve --budget 1 m | dvar int x in 0..1; maximize expected(x); subject to { } | sopl-log 1 / n 0 r / x 0 0 / n 1 0 l / o / n 2 0 h / o / end bounded none 1 -> 5 {"answer":"bounded","bound":"1/1"}
a budget that is just enough: solve --budget 3 m | dvar int x in 0..1; maximize expected(x); subject to { } | sopl-log 1 / n 0 r / x 0 0 / n 1 0 l / v / n 2 0 h / v / end optimal 1 -> 0 {"answer":"optimal","policy":{"decide":[["x",[],1]],"next":[]},"value":"1/1"}
a budget behind the first policy: solve --budget 3 m | dvar int x in 0..3; maximize expected(x); subject to { } | sopl-log 1 / n 0 r / x 0 1 / n 1 0 l / x 0 0 / n 2 1 l / v / n 3 0 h / o / n 4 1 h / o / end bounded 0 3 -> 5 {"answer":"bounded","bound":"3/1","policy":{"decide":[["x",[],0]],"next":[]},"value":"0/1"}
a budget that is not spent: solve --budget 1000 m | dvar int x in 0..1; subject to { x >= 2; } | sopl-log 1 / n 0 r / f h 0 0 / end infeasible -> 0 {"answer":"infeasible"}
steps of hard constraints and of the objective: solve m | dvar int x in 0..5 stage 1; stoch int d in {1:1, 3:1} stage 1; dvar int y in 0..3 stage 2; maximize expected(4*y - 3*x); subject to { y <= d; y <= x; } | sopl-log 1 / n 0 r / s h 0 0 1 le 1 / x 0 2 / n 1 0 l / s h 1 1 2 le 2 / x 0 1 / n 2 1 l / s h 1 1 2 le 1 / x 0 0 / n 3 2 l / s h 1 0 1 le 0 / s h 1 1 2 le 0 / v / n 4 2 h / s b 1 ge 1 / s b 2 ge 1 / v / n 5 1 h / f b / n 6 0 h / f b / end optimal 2 -> 0 {"answer":"optimal","policy":{"decide":[["x",[],1]],"next":[{"seen":[["d",[],1]],"then":{"decide":[["y",[],1]],"next":[]}},{"seen":[["d",[],3]],"then":{"decide":[["y",[],1]],"next":[]}}]},"value":"2/2"}
a root that allDifferent closes: solve m | range R = 1..3; dvar int x[R] in 1..2; subject to { allDifferent(all(i in R) x[i]); } | sopl-log 1 / n 0 r / f h 0 0 / end infeasible -> 0 {"answer":"infeasible"}
steps of allDifferent: solve m | range R = 1..3; dvar int x[R] in 1..3; subject to { allDifferent(all(i in R) x[i]); x[1] <= 2; x[2] <= 2; } | sopl-log 1 / n 0 r / s h 1 0 0 le 2 / s h 2 0 1 le 2 / s h 0 0 2 ge 3 / x 0 1 / n 1 0 l / s h 0 0 1 ge 2 / v / n 2 0 h / s h 0 0 1 le 1 / f b / end optimal 0 -> 0 {"answer":"optimal","policy":{"decide":[["x",[1],1],["x",[2],2],["x",[3],3]],"next":[]},"value":"0/1"}
a second seat, which takes the oldest node of the first one: solve --seats 2 m | dvar int x in 0..3; maximize expected(x); subject to { } | sopl-log 1 / n 0 r / x 0 1 / n 1 0 h / x 0 2 / n 2 0 l / x 0 0 / n 3 1 l / v / n 4 2 l / f b / n 5 1 h / v / n 6 2 h / f b / end optimal 3 -> 0 {"answer":"optimal","policy":{"decide":[["x",[],3]],"next":[]},"value":"3/1"}
"##;

/// The log has these lines.
fn logs(rt: &impl Abort, about: &str, ended: &Ended, want: &str) {
    let log = std::str::from_utf8(ended.log.bytes()).unwrap_or("");
    let mut lines = log.lines();
    for line in want.split(" / ") {
        assert_eq!(rt; lines.next(), Some(line), "{about}");
    }
    assert_eq!(rt; lines.next(), None, "{about}");
}

/// A search ends as its row says, with this log.
fn is_searched(rt: &impl Abort, alloc: Global, row: &TableRow<'_>) -> Result<(), AllocError> {
    let (words, rest) = row.text.split_once(" | ").unwrap_or(("", row.text));
    let (text, log) = rest.split_once(" | ").unwrap_or((rest, ""));
    let ended = ran(alloc, words, text)?;
    ends_as(rt, row, &ended);
    logs(rt, row.about, &ended, log);
    Ok(())
}

#[test]
fn whole_logs(rt: HostRuntime) -> Result<(), Fail> {
    for line in SEARCHED.lines() {
        match row_in(line) {
            Some(row) => is_searched(&rt, rt.alloc(), &row)?,
            None => assert!(rt; line.is_empty(), "{line}"),
        }
    }
    Ok(())
}
