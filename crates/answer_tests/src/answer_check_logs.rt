//! What `check` answers of the bytes of a log.

mod changes;
mod log_check_other_programs;

use answer_check::{fault_reply, program_reply, program_to_check};
use answer_texts::{Reply, Status};
use std::alloc::{AllocError, Global};
use std::test::Fail;

const ONE: &str = "dvar int x in 0..1; maximize expected(x); subject to { }";

const FOUR: &str = "dvar int x in 0..3; maximize expected(x); subject to { }";

const NONE: &str = "dvar int x in 0..1; subject to { x >= 2; }";

const ORDER: &str =
    "dvar int x in 0..5 stage 1; stoch int d in {1:1, 3:1} stage 1; dvar int y in 0..3 stage 2; maximize expected(4*y - 3*x); subject to { y <= d; y <= x; }";

const AHEAD: &str =
    "dvar int x in 0..5; stoch int d in {1:1, 3:1} stage 1; minimize expected(x); subject to { prob(x >= d) >= 1/1; }";

const LARGE: &str = "dvar int x in 0..65535; subject to { x*1099511627776 >= 0; }";

const CROWDED: &str =
    "range R = 1..3; dvar int x[R] in 1..2; subject to { allDifferent(all(i in R) x[i]); }";

// What a row is about, a text and a log of it, with the status and the line that must come; the lines of a log are parted by
// ` / `. Each log was worked out by hand.
const LOGS: &[(&str, &str, &str, Status, &str)] = &[
    (
        "a best value",
        ONE,
        "sopl-log 1 / n 0 r / x 0 0 / n 1 0 l / v / n 2 0 h / v / end optimal 1",
        Status::Done,
        r#"{"answer":"accepted","claim":"optimal","value":"1/1"}"#,
    ),
    (
        "a second point that is better than the claim",
        ONE,
        "sopl-log 1 / n 0 r / x 0 0 / n 1 0 l / v / n 2 0 h / v / end optimal 0",
        Status::Failing,
        r#"{"answer":"rejected","line":7,"node":2}"#,
    ),
    (
        "a best value that no point has",
        ONE,
        "sopl-log 1 / n 0 r / x 0 0 / n 1 0 l / v / n 2 0 h / v / end optimal 2",
        Status::Failing,
        r#"{"answer":"rejected","line":8,"node":3}"#,
    ),
    (
        "a side that is missing",
        ONE,
        "sopl-log 1 / n 0 r / x 0 0 / n 1 0 l / v / end optimal 0",
        Status::Failing,
        r#"{"answer":"rejected","line":3,"node":0}"#,
    ),
    (
        "a bound alone",
        ONE,
        "sopl-log 1 / n 0 r / x 0 0 / n 1 0 l / o / n 2 0 h / o / end bounded none 1",
        Status::Done,
        r#"{"answer":"accepted","bound":"1/1","claim":"bounded"}"#,
    ),
    (
        "a bound alone that is too high",
        ONE,
        "sopl-log 1 / n 0 r / x 0 0 / n 1 0 l / o / n 2 0 h / o / end bounded none 2",
        Status::Failing,
        r#"{"answer":"rejected","line":8,"node":3}"#,
    ),
    (
        "a value and a bound",
        FOUR,
        "sopl-log 1 / n 0 r / x 0 1 / n 1 0 l / x 0 0 / n 2 1 l / v / n 3 0 h / o / n 4 1 h / o / end bounded 0 3",
        Status::Done,
        r#"{"answer":"accepted","bound":"3/1","claim":"bounded","value":"0/1"}"#,
    ),
    (
        "a bound that is too low",
        FOUR,
        "sopl-log 1 / n 0 r / x 0 1 / n 1 0 l / x 0 0 / n 2 1 l / v / n 3 0 h / o / n 4 1 h / o / end bounded 0 1",
        Status::Failing,
        r#"{"answer":"rejected","line":12,"node":5}"#,
    ),
    (
        "no point",
        NONE,
        "sopl-log 1 / n 0 r / f h 0 0 / end infeasible",
        Status::Done,
        r#"{"answer":"accepted","claim":"infeasible"}"#,
    ),
    (
        "an open node where no point is claimed",
        NONE,
        "sopl-log 1 / n 0 r / o / end infeasible",
        Status::Failing,
        r#"{"answer":"rejected","line":3,"node":0}"#,
    ),
    (
        "steps of hard constraints and of the bound",
        ORDER,
        "sopl-log 1 / n 0 r / s h 0 0 1 le 1 / s b 0 le 2 / s h 1 1 2 le 2 / s b 0 le 1 / s h 1 1 2 le 1 / x 0 0 / n 1 0 l / s h 1 0 1 le 0 / s h 1 1 2 le 0 / v / n 2 0 h / x 1 0 / n 3 2 l / f b / n 4 2 h / x 2 0 / n 5 4 l / f b / n 6 4 h / v / end optimal 2",
        Status::Done,
        r#"{"answer":"accepted","claim":"optimal","value":"2/2"}"#,
    ),
    (
        "a step that cuts off more than its reason refutes",
        ORDER,
        "sopl-log 1 / n 0 r / s h 0 0 1 le 1 / s b 0 le 2 / s h 1 1 2 le 1 / s b 0 le 1 / x 0 0 / n 1 0 l / s h 1 0 1 le 0 / s h 1 1 2 le 0 / v / n 2 0 h / x 1 0 / n 3 2 l / f b / n 4 2 h / x 2 0 / n 5 4 l / f b / n 6 4 h / v / end optimal 2",
        Status::Failing,
        r#"{"answer":"rejected","line":5,"node":0}"#,
    ),
    (
        "a node that is no point",
        ORDER,
        "sopl-log 1 / n 0 r / s h 0 0 1 le 1 / s b 0 le 2 / s h 1 1 2 le 2 / s b 0 le 1 / s h 1 1 2 le 1 / x 0 0 / n 1 0 l / s h 1 0 1 le 0 / s h 1 1 2 le 0 / v / n 2 0 h / x 1 0 / n 3 2 l / v / n 4 2 h / x 2 0 / n 5 4 l / f b / n 6 4 h / v / end optimal 2",
        Status::Failing,
        r#"{"answer":"rejected","line":16,"node":3}"#,
    ),
    (
        "a chance constraint and the bound, each of which closes one side",
        AHEAD,
        "sopl-log 1 / n 0 r / x 0 2 / n 1 0 l / f c 0 / n 2 0 h / x 0 3 / n 3 2 l / v / n 4 2 h / f b / end optimal 6",
        Status::Done,
        r#"{"answer":"accepted","claim":"optimal","value":"6/2"}"#,
    ),
    (
        "a chance constraint that closes one side and not the other",
        AHEAD,
        "sopl-log 1 / n 0 r / x 0 2 / n 1 0 l / f c 0 / n 2 0 h / x 0 3 / n 3 2 l / v / n 4 2 h / f c 0 / end optimal 6",
        Status::Failing,
        r#"{"answer":"rejected","line":11,"node":4}"#,
    ),
    (
        "a bound that closes one side and not the other",
        AHEAD,
        "sopl-log 1 / n 0 r / x 0 2 / n 1 0 h / x 0 3 / n 2 1 l / v / n 3 1 h / f b / n 4 0 l / f b / end optimal 6",
        Status::Failing,
        r#"{"answer":"rejected","line":11,"node":4}"#,
    ),
    (
        "steps of a chance constraint and of the bound in turn",
        AHEAD,
        "sopl-log 1 / n 0 r / s c 0 0 ge 2 / s b 0 le 4 / s c 0 0 ge 3 / s b 0 le 3 / v / end optimal 6",
        Status::Done,
        r#"{"answer":"accepted","claim":"optimal","value":"6/2"}"#,
    ),
    (
        "a step that a chance constraint does not refute, behind one that it does",
        AHEAD,
        "sopl-log 1 / n 0 r / s c 0 0 ge 2 / s c 0 0 le 3 / v / end optimal 6",
        Status::Failing,
        r#"{"answer":"rejected","line":4,"node":0}"#,
    ),
    (
        "a value that no point of the log has",
        FOUR,
        "sopl-log 1 / n 0 r / x 0 1 / n 1 0 h / f b / n 2 0 l / f b / end bounded 3 3",
        Status::Failing,
        r#"{"answer":"rejected","line":8,"node":3}"#,
    ),
    (
        "two wrong lines, of which a walk along the low sides meets the later one first",
        FOUR,
        "sopl-log 1 / n 0 r / x 0 1 / n 1 0 h / f b / n 2 0 l / v / end optimal 2",
        Status::Failing,
        r#"{"answer":"rejected","line":5,"node":1}"#,
    ),
    (
        "no byte",
        ONE,
        "",
        Status::Unreadable,
        r#"{"answer":"unreadable","at":1,"code":301}"#,
    ),
    (
        "an end behind the first line of a node",
        ONE,
        "sopl-log 1 / n 0 r / x 0 0 / n 1 0 l / v / n 2 0 h",
        Status::Unreadable,
        r#"{"answer":"unreadable","at":7,"code":301}"#,
    ),
    (
        "two roots",
        ONE,
        "sopl-log 1 / n 0 r / v / n 0 r / v / end optimal 1",
        Status::Unreadable,
        r#"{"answer":"unreadable","at":4,"code":302}"#,
    ),
    (
        "a root that its one constraint closes",
        CROWDED,
        "sopl-log 1 / n 0 r / f h 0 0 / end infeasible",
        Status::Done,
        r#"{"answer":"accepted","claim":"infeasible"}"#,
    ),
    (
        "a constraint that the text does not have",
        CROWDED,
        "sopl-log 1 / n 0 r / f h 1 0 / end infeasible",
        Status::Failing,
        r#"{"answer":"rejected","line":3,"node":0}"#,
    ),
    (
        "terms that pass a limit, which is told before the log is looked at",
        LARGE,
        "",
        Status::Limit,
        r#"{"answer":"limit","code":207,"counted":"72056494526300160","limit":"1099511627776"}"#,
    ),
];

// The bytes of a log.
fn bytes_of(alloc: Global, log: &str) -> Result<String, AllocError> {
    let mut text = String::new(alloc);
    if log.is_empty() {
        return Ok(text);
    }
    for line in log.split(" / ") {
        text.push_str(line)?;
        text.push('\n')?;
    }
    Ok(text)
}

// The reply of a check: the log is looked at where the text is solved.
fn reply_of(alloc: Global, text: &str, log: &[u8]) -> Result<Reply, AllocError> {
    match program_to_check(alloc, text.as_bytes()) {
        Ok(program) => program_reply(alloc, &program, log.to_vec(alloc)?),
        Err(fault) => fault_reply(alloc, fault),
    }
}

// The status and the line of a check.
fn answered(alloc: Global, text: &str, log: &[u8]) -> Result<(Status, String), AllocError> {
    let reply = reply_of(alloc, text, log)?;
    Ok((reply.status, reply.line))
}

// Those of a check of these lines.
fn answered_lines(alloc: Global, text: &str, log: &str) -> Result<(Status, String), AllocError> {
    let bytes = bytes_of(alloc, log)?;
    answered(alloc, text, bytes.as_bytes())
}

#[test]
fn logs_are_checked(rt: HostRuntime) -> Result<(), Fail> {
    for (word, text, log, status, line) in LOGS {
        let (ended, told) = answered_lines(rt.alloc(), text, log)?;
        assert_eq!(rt; ended, *status, "{word}");
        assert_eq!(rt; told.as_str().strip_suffix("\n"), Some(*line), "{word}");
    }
    Ok(())
}

// The status of a check of a log of this text.
fn status_of(alloc: Global, log: &[u8]) -> Result<Status, AllocError> {
    let (status, _) = answered(alloc, ONE, log)?;
    Ok(status)
}

#[test]
fn logs_that_are_cut_are_unreadable(rt: HostRuntime) -> Result<(), Fail> {
    let bytes = bytes_of(
        rt.alloc(),
        "sopl-log 1 / n 0 r / x 0 0 / n 1 0 l / v / n 2 0 h / v / end optimal 1",
    )?;
    // the last line may lack its line feed
    let last = bytes.len().saturating_sub(1);
    for end in 0..bytes.len() {
        let cut = bytes.as_bytes().get(..end).unwrap_or(bytes.as_bytes());
        let want = if end < last {
            Status::Unreadable
        } else {
            Status::Done
        };
        assert_eq!(rt; status_of(rt.alloc(), cut)?, want, "cut at {end}");
    }
    Ok(())
}
