//! Runs that end early: a source or a sink fails, little fits into a sink, or memory runs out.

use crate::runs::{
    Ended, ORDER, ORDER_ANSWER, ORDER_LOG, Room, WIDE, ends, ran, ran_with, source_of, words_in,
};
use answer_run::Status;
use std::alloc::{AllocError, Global};
use std::test::Fail;

/// A run of `solve` on the ordering text that ends early: what it is about, the calls of the source that fail, what the sinks take, and
/// the status, the line and the log that must come.
type EarlyEnd = (
    &'static str,
    &'static [u64],
    Room,
    Status,
    &'static str,
    &'static str,
);

const FAULTS: &[EarlyEnd] = &[
    (
        "an answer's sink for ten bytes",
        &[9],
        Room {
            answer: 10,
            log: 100_000,
            failing: &[],
        },
        Status::WriteFault,
        "{\"answer\":",
        ORDER_LOG,
    ),
    (
        "a log's sink for twelve bytes",
        &[],
        Room {
            answer: 1000,
            log: 12,
            failing: &[],
        },
        Status::WriteFault,
        "",
        "sopl-log 1\nn",
    ),
    (
        "a log that cannot be begun",
        &[],
        Room {
            answer: 1000,
            log: 100_000,
            failing: &[0],
        },
        Status::WriteFault,
        "",
        "",
    ),
    (
        "a model that cannot be begun",
        &[0],
        WIDE,
        Status::ReadFault,
        "{\"answer\":\"read fault\"}\n",
        "",
    ),
    (
        "a model that cannot be read",
        &[1],
        WIDE,
        Status::ReadFault,
        "{\"answer\":\"read fault\"}\n",
        "",
    ),
];

/// Runs on the ordering text, where these calls of the source fail.
fn ran_early(alloc: Global, failing: &[u64], room: &Room) -> Result<Ended, AllocError> {
    let words = words_in(alloc, "solve m")?;
    let mut source = source_of(alloc, ORDER, failing)?;
    ran_with(alloc, &words, &mut source, room, Vec::new(alloc))
}

#[test]
fn faults(rt: HostRuntime) -> Result<(), Fail> {
    for (about, failing, room, status, line, log) in FAULTS {
        let ended = ran_early(rt.alloc(), failing, room)?;
        ends(&rt, about, &ended, *status, line);
        assert_eq!(rt; ended.log.bytes(), log.as_bytes(), "{about}");
    }
    Ok(())
}

/// The right line is answered, or nothing where memory runs out: also where any one allocation fails.
#[test]
fn line_or_nothing(rt: HostRuntime) {
    let Ok(ended) = ran(rt.alloc(), "solve m", ORDER) else {
        return;
    };
    if ended.status == Status::NoMemory {
        ends(&rt, "no memory", &ended, Status::NoMemory, "");
    } else {
        ends(&rt, "enough memory", &ended, Status::Done, ORDER_ANSWER);
    }
}
