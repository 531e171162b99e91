//! Checks of logs.

use crate::runs::{TableRow, ends_as, ran_on_two, row_in};
use std::alloc::{AllocError, Global};
use std::process::Abort;
use std::test::Fail;

/// What a check is about, a model and a log, the lines of which are parted by ` / `, and the status and the line that must come.
const CHECKED: &str = r##"
steps, points and boxes that are closed: dvar int x in 0..5 stage 1; stoch int d in {1:1, 3:1} stage 1; dvar int y in 0..3 stage 2; maximize expected(4*y - 3*x); subject to { y <= d; y <= x; } | sopl-log 1 / n 0 r / s h 0 0 1 le 1 / s b 0 le 2 / s h 1 1 2 le 2 / s b 0 le 1 / s h 1 1 2 le 1 / x 0 0 / n 1 0 l / s h 1 0 1 le 0 / s h 1 1 2 le 0 / v / n 2 0 h / x 1 0 / n 3 2 l / f b / n 4 2 h / x 2 0 / n 5 4 l / f b / n 6 4 h / v / end optimal 2 -> 0 {"answer":"accepted","claim":"optimal","value":"2/2"}
a box called a point: dvar int x in 0..5 stage 1; stoch int d in {1:1, 3:1} stage 1; dvar int y in 0..3 stage 2; maximize expected(4*y - 3*x); subject to { y <= d; y <= x; } | sopl-log 1 / n 0 r / v / end optimal 2 -> 1 {"answer":"rejected","line":3,"node":0}
an empty log: dvar int x in 0..5 stage 1; stoch int d in {1:1, 3:1} stage 1; dvar int y in 0..3 stage 2; maximize expected(4*y - 3*x); subject to { y <= d; y <= x; } |  -> 9 {"answer":"unreadable","at":1,"code":301}
a text that breaks a rule, whose log is not begun:  | sopl-log 1 / n 0 r / v / end optimal 2 -> 3 {"answer":"refused","at":0,"code":104}
a root that is closed: range R = 1..3; dvar int x[R] in 1..2; subject to { allDifferent(all(i in R) x[i]); } | sopl-log 1 / n 0 r / f h 0 0 / end infeasible -> 0 {"answer":"accepted","claim":"infeasible"}
the greatest cell number: dvar int x in 0..9; maximize expected(x); subject to { 3*x <= 20; } | sopl-log 1 / n 0 r / s b 4294967295 le 0 / f h 0 0 / end infeasible -> 1 {"answer":"rejected","line":3,"node":0}
a value of 2^127: dvar int x in 0..9; maximize expected(x); subject to { 3*x <= 20; } | sopl-log 1 / n 0 r / v / end optimal 170141183460469231731687303715884105728 -> 9 {"answer":"unreadable","at":4,"code":301}
a bound of 0: dvar int x in 0..1; minimize expected(x); subject to { } | sopl-log 1 / n 0 r / o / end bounded none 0 -> 0 {"answer":"accepted","bound":"0/1","claim":"bounded"}
a bound one below it: dvar int x in 0..1; minimize expected(x); subject to { } | sopl-log 1 / n 0 r / o / end bounded none -1 -> 1 {"answer":"rejected","line":4,"node":1}
a factor whose decision goes out: dvar int x in 0..5; dvar int y in 0..4; subject to { (x - x + 2)*y >= 9; } | sopl-log 1 / n 0 r / f h 0 0 / end infeasible -> 0 {"answer":"accepted","claim":"infeasible"}
a factor with a product of 0: dvar int x in 0..5; dvar int y in 0..4; subject to { (0*(x*x) + 2)*y >= 9; } | sopl-log 1 / n 0 r / f h 0 0 / end infeasible -> 0 {"answer":"accepted","claim":"infeasible"}
a factor whose products do not go out: dvar int x in 0..5; dvar int y in 0..4; subject to { (x*x - x*x + 2)*y >= 9; } | sopl-log 1 / n 0 r / f h 0 0 / end infeasible -> 1 {"answer":"rejected","line":3,"node":0}
an index whose decision goes out: range R = 1..2; dvar int z[i in R] in 0..i; dvar int x in 0..5; subject to { z[x - x + 1] >= 2; } | sopl-log 1 / n 0 r / f h 0 0 / end infeasible -> 0 {"answer":"accepted","claim":"infeasible"}
an index whose products do not go out: range R = 1..2; dvar int z[i in R] in 0..i; dvar int x in 0..5; subject to { z[x*x - x*x + 1] >= 2; } | sopl-log 1 / n 0 r / f h 0 0 / end infeasible -> 1 {"answer":"rejected","line":3,"node":0}
a zero with a sign: dvar int x in 0..9; maximize expected(x); subject to { 3*x <= 20; } | sopl-log 1 / n 0 r / v / end optimal -0 -> 9 {"answer":"unreadable","at":4,"code":301}
"##;

/// The log of these lines.
fn log_in(alloc: Global, lines: &str) -> Result<Vec<u8>, AllocError> {
    if lines.is_empty() {
        return Ok(Vec::new(alloc));
    }
    let mut bytes = Vec::new(alloc);
    for line in lines.split(" / ") {
        bytes.extend_from_slice(line.as_bytes())?;
        bytes.push(b'\n')?;
    }
    Ok(bytes)
}

/// A check ends as its row says, and writes no log.
fn is_checked(rt: &impl Abort, alloc: Global, row: &TableRow<'_>) -> Result<(), AllocError> {
    let about = row.about;
    let (text, lines) = row.text.split_once(" | ").unwrap_or((row.text, ""));
    let log = log_in(alloc, lines)?;
    let ended = ran_on_two(alloc, "check m o", text, log.as_slice())?;
    ends_as(rt, row, &ended);
    assert!(rt; ended.log.bytes().is_empty(), "{about}");
    Ok(())
}

#[test]
fn logs_are_checked(rt: HostRuntime) -> Result<(), Fail> {
    for line in CHECKED.lines() {
        match row_in(line) {
            Some(row) => is_checked(&rt, rt.alloc(), &row)?,
            None => assert!(rt; line.is_empty(), "{line}"),
        }
    }
    Ok(())
}
