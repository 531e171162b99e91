//! Rows and last lines as a log has them.

use log_rows::{Cut, EndLine, Footer, Parent, Row, put_head, put_log, put_node};
use sopl_base::{Reason, Side, Step, Steps};
use sopl_io::{Gather, MemSink};
use std::alloc::{AllocError, Global};
use std::test::Fail;

// The steps of the first row.
const STEPS: &[Step] = &[
    Step {
        reason: Reason::Hard {
            instance: 3,
            scenario: 17,
        },
        cell: 4,
        side: Side::Le,
        k: -12,
    },
    Step {
        reason: Reason::Bound,
        cell: 4294967295,
        side: Side::Ge,
        k: 9223372036854775807,
    },
];

// The rows: one of each kind of parent, end and reason.
const ENDS: [(Option<Parent>, EndLine); 6] = [
    (None, EndLine::Split(Cut { cell: 0, k: -1 })),
    (
        Some(Parent {
            node: 0,
            side: Side::Le,
        }),
        EndLine::Refuted(Reason::Chance { instance: 2 }),
    ),
    (
        Some(Parent {
            node: 0,
            side: Side::Ge,
        }),
        EndLine::Refuted(Reason::Undefined { scenario: 5 }),
    ),
    (
        Some(Parent {
            node: 18446744073709551615,
            side: Side::Ge,
        }),
        EndLine::Refuted(Reason::Bound),
    ),
    (
        Some(Parent {
            node: 1,
            side: Side::Le,
        }),
        EndLine::Point,
    ),
    (
        Some(Parent {
            node: 1,
            side: Side::Ge,
        }),
        EndLine::Unfinished,
    ),
];

const LINES: &str =
    "sopl-log 1\nn 0 r\ns h 3 17 4 le -12\ns b 4294967295 ge 9223372036854775807\nx 0 -1\nn 1 0 l\nf c 2\nn 2 0 h\nf u 5\nn 3 18446744073709551615 h\nf b\nn 4 1 l\nv\nn 5 1 h\no\n";

// What is claimed, and the last line.
const CLAIMS: [(&str, Footer, &str); 5] = [
    ("a best value", Footer::Optimal(-7), "end optimal -7\n"),
    ("no point", Footer::Infeasible, "end infeasible\n"),
    (
        "a bound alone",
        Footer::Bounded(None, 3),
        "end bounded none 3\n",
    ),
    (
        "a value and a bound",
        Footer::Bounded(Some(0), 3),
        "end bounded 0 3\n",
    ),
    (
        "the least value",
        Footer::Optimal(-170141183460469231731687303715884105728),
        "end optimal -170141183460469231731687303715884105728\n",
    ),
];

fn steps_of(alloc: Global, list: &[Step]) -> Result<Steps, AllocError> {
    let mut steps = Steps::new(alloc);
    for step in list {
        steps.push(*step)?;
    }
    Ok(steps)
}

fn row(
    alloc: Global,
    parent: Option<Parent>,
    list: &[Step],
    end: EndLine,
) -> Result<Row, AllocError> {
    let steps = steps_of(alloc, list)?;
    Ok(Row { parent, steps, end })
}

fn sample(alloc: Global) -> Result<Vec<Row>, AllocError> {
    let mut rows = Vec::new(alloc);
    for (parent, end) in ENDS {
        let steps: &[Step] = if rows.is_empty() { STEPS } else { &[] };
        rows.push(row(alloc, parent, steps, end)?)?;
    }
    Ok(rows)
}

// Whether all of a log is written to a sink.
fn is_whole(
    alloc: Global,
    rows: &[Row],
    footer: &Footer,
    sink: &mut MemSink,
) -> Result<bool, AllocError> {
    let mut gather = Gather::new(alloc, 64)?;
    Ok(put_log(&mut gather, sink, rows, footer).is_ok())
}

// Whether the log of some rows is written with this last line.
fn is_written(
    alloc: Global,
    rows: &[Row],
    footer: &Footer,
    last: &str,
) -> Result<bool, AllocError> {
    let mut sink = MemSink::new(alloc, 512, Vec::new(alloc))?;
    let whole = is_whole(alloc, rows, footer, &mut sink)?;
    let text = str::from_utf8(sink.bytes()).unwrap_or("");
    Ok(whole && text.strip_prefix(LINES) == Some(last))
}

#[test]
fn logs_are_written(rt: HostRuntime) -> Result<(), Fail> {
    let rows = sample(rt.alloc())?;
    for (word, footer, last) in &CLAIMS {
        assert!(rt; is_written(rt.alloc(), &rows, footer, last)?, "{word}");
    }
    Ok(())
}

// Whether a sink of this room is full, and holds how the log of some rows begins.
fn has_prefix(alloc: Global, rows: &[Row], room: usize) -> Result<bool, AllocError> {
    let mut sink = MemSink::new(alloc, room, Vec::new(alloc))?;
    let whole = is_whole(alloc, rows, &Footer::Infeasible, &mut sink)?;
    let held = sink.bytes();
    Ok(!whole && held.len() == room && LINES.as_bytes().starts_with(held))
}

#[test]
fn a_full_sink_has_a_prefix(rt: HostRuntime) -> Result<(), Fail> {
    let rows = sample(rt.alloc())?;
    for room in [0, 5, 40] {
        assert!(rt; has_prefix(rt.alloc(), &rows, room)?, "room for {room}");
    }
    Ok(())
}

// Puts the lines of the first row, and whether the sink holds these bytes before it is flushed.
fn is_kept(alloc: Global, size: usize, before: &str, sink: &mut MemSink) -> Result<bool, Fail> {
    let mut gather = Gather::new(alloc, size.max(1))?;
    put_head(&mut gather, sink)?;
    put_node(&mut gather, sink, 0, None)?;
    let kept = sink.bytes() == before.as_bytes();
    gather.flush(sink)?;
    Ok(kept)
}

// Whether the sink holds these bytes before the flush, and the lines of the first row behind it.
fn is_put(alloc: Global, size: usize, before: &str) -> Result<bool, Fail> {
    let mut sink = MemSink::new(alloc, 512, Vec::new(alloc))?;
    let kept = is_kept(alloc, size, before, &mut sink)?;
    Ok(kept && sink.bytes() == b"sopl-log 1\nn 0 r\n".as_slice())
}

// The lines of the first row stay with the gathered bytes where these are many, and go to the sink where they are few.
#[test]
fn lines_are_kept_until_there_is_no_room(rt: HostRuntime) -> Result<(), Fail> {
    assert!(rt; is_put(rt.alloc(), 16, "sopl-log 1\nn 0 r")?, "few bytes");
    assert!(rt; is_put(rt.alloc(), 4096, "")?, "many bytes");
    Ok(())
}
