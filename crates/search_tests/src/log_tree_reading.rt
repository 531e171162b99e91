//! Logs that are read and written again, and what is no log.

ghost use Rattle.std.specs.Prelude.{◌<◌, length};
ghost use Rattle.log_rows.specs.Rows.{AreOrdered};

use log_tree::{Log, read_log, readings_are_texts, write_log};
use sopl_base::Fault;
use sopl_io::{Gather, MemSink};
use std::alloc::{AllocError, Global};
use std::test::Fail;

// A text, with 0 and the number of its rows where it is read, or else the code and the line of its first mistake.
const TEXTS: &[(&str, &str, u16, usize)] = &[
    (
        "one node",
        "sopl-log 1\nn 0 r\nf h 0 0\nend infeasible\n",
        0,
        1,
    ),
    (
        "no line feed at the end",
        "sopl-log 1\nn 0 r\nf h 0 0\nend infeasible",
        0,
        1,
    ),
    (
        "carriage returns before line feeds",
        "sopl-log 1\r\nn 0 r\nf h 0 0\r\nend infeasible\r\n",
        0,
        1,
    ),
    (
        "a carriage return alone at the end",
        "sopl-log 1\nn 0 r\nf h 0 0\nend infeasible\r",
        301,
        4,
    ),
    ("an end within a row", "sopl-log 1\nn 0 r\nf h 0", 301, 3),
    ("no last line", "sopl-log 1\nn 0 r\nf h 0 0\n", 301, 4),
    ("no line", "", 301, 1),
    ("the first line alone", "sopl-log 1", 301, 2),
    ("no row", "sopl-log 1\nend infeasible\n", 301, 2),
    (
        "a root that is not 0",
        "sopl-log 1\nn 1 r\nf h 0 0\nend infeasible\n",
        302,
        2,
    ),
    (
        "the high side first",
        "sopl-log 1\nn 0 r\nx 0 0\nn 1 0 h\nv\nn 2 0 l\nf b\nend optimal 1\n",
        0,
        3,
    ),
    (
        "the high side twice",
        "sopl-log 1\nn 0 r\nx 0 0\nn 1 0 h\nv\nn 2 0 h\nf b\nend optimal 1\n",
        302,
        6,
    ),
    (
        "a side of a node that is not cut",
        "sopl-log 1\nn 0 r\nv\nn 1 0 h\nv\nend optimal 1\n",
        302,
        4,
    ),
    (
        "0 with a minus",
        "sopl-log 1\nn 0 r\ns h 0 0 3 le -0\nv\nend optimal 1\n",
        301,
        3,
    ),
    (
        "the least number of 64 bits",
        "sopl-log 1\nn 0 r\ns h 0 0 3 le -9223372036854775808\nv\nend optimal 1\n",
        0,
        1,
    ),
    (
        "one less than the least of 64 bits",
        "sopl-log 1\nn 0 r\ns h 0 0 3 le -9223372036854775809\nv\nend optimal 1\n",
        301,
        3,
    ),
    (
        "a node below 0",
        "sopl-log 1\nn -1 r\nv\nend optimal 1\n",
        301,
        2,
    ),
    (
        "a parent below 0",
        "sopl-log 1\nn 0 r\nx 0 0\nn 1 -1 l\nv\nend optimal 1\n",
        301,
        4,
    ),
    (
        "a cell below 0",
        "sopl-log 1\nn 0 r\ns b -1 le 1\nv\nend optimal 1\n",
        301,
        3,
    ),
    (
        "a cell too large",
        "sopl-log 1\nn 0 r\ns h 0 0 4294967296 le 1\nv\nend optimal 1\n",
        301,
        3,
    ),
    (
        "two spaces",
        "sopl-log 1\nn 0 r\ns  b 4 le 1\nv\nend optimal 1\n",
        301,
        3,
    ),
    (
        "a space at the end of a line",
        "sopl-log 1\nn 0 r\nv \nend optimal 1\n",
        301,
        3,
    ),
    (
        "a zero before a number",
        "sopl-log 1\nn 0 r\nv\nend optimal 01\n",
        301,
        4,
    ),
    (
        "an empty line at the end",
        "sopl-log 1\nn 0 r\nv\nend bounded none 170141183460469231731687303715884105727\n\n",
        301,
        5,
    ),
    (
        "two zeros as a number",
        "sopl-log 1\nn 00 r\nv\nend optimal 1\n",
        301,
        2,
    ),
    (
        "another first line",
        "sopl-log 2\nn 0 r\nv\nend optimal 1\n",
        301,
        1,
    ),
    (
        "a parent too large",
        "sopl-log 1\nn 0 r\nx 0 0\nn 1 18446744073709551616 h\nv\nend optimal 1\n",
        301,
        4,
    ),
    (
        "seven nodes, level by level",
        "sopl-log 1\nn 0 r\nx 0 0\nn 1 0 l\nx 1 0\nn 2 0 h\nx 1 0\nn 3 1 l\nv\nn 4 2 l\nv\nn 5 1 h\nv\nn 6 2 h\nv\nend optimal 1\n",
        0,
        7,
    ),
    (
        "one more than the greatest value",
        "sopl-log 1\nn 0 r\nv\nend optimal 170141183460469231731687303715884105728\n",
        301,
        4,
    ),
    (
        "two roots",
        "sopl-log 1\nn 0 r\nv\nn 0 r\nv\nend optimal 1\n",
        302,
        4,
    ),
];

// A log that has each kind of line.
const EACH_KIND: &str =
    "sopl-log 1\nn 0 r\ns h 3 17 4 le -12\ns b 4294967295 ge 9223372036854775807\nx 0 -1\nn 1 0 l\nf c 2\nn 2 0 h\ns u 7 1 ge 0\nx 0 3\nn 3 2 h\nv\nn 4 2 l\no\nend bounded -7 170141183460469231731687303715884105727\n";

fn outcome(alloc: Global, text: &[u8]) -> (u16, usize) {
    match read_log(alloc, text) {
        Ok(log) => (0, log.rows.len()),
        Err(Fault::Text(refusal)) => (refusal.code, refusal.at),
        Err(_) => (1, 0),
    }
}

// A log of so many nodes, each the low side of the one before.
fn chain(alloc: Global, nodes: usize) -> Result<Vec<u8>, AllocError> {
    let mut text = Vec::new(alloc);
    text.extend_from_slice(b"sopl-log 1\nn 0 r\n")?;
    for number in 1..nodes {
        let parent = number - 1;
        let lines = format!(in alloc; "x 0 0\nn {number} {parent} l\n")?;
        text.extend_from_slice(lines.as_bytes())?;
    }
    text.extend_from_slice(b"o\nend bounded none 0\n")?;
    Ok(text)
}

#[test]
fn logs_are_read(rt: HostRuntime) -> Result<(), Fail> {
    for (word, text, code, at) in TEXTS {
        let told = outcome(rt.alloc(), text.as_bytes());
        assert_eq!(rt; told, (*code, *at), "{word}");
    }
    Ok(())
}

#[test]
fn nodes_lie_at_a_limited_depth(rt: HostRuntime) -> Result<(), Fail> {
    let alloc = rt.alloc();
    let deepest = chain(alloc, 2049)?;
    assert_eq!(rt; outcome(alloc, &deepest), (0, 2049), "as deep as can be");
    let deeper = chain(alloc, 2050)?;
    assert_eq!(rt; outcome(alloc, &deeper), (303, 4100), "one deeper");
    Ok(())
}

// Whether a log is written as the text from which it was read, where so many bytes are gathered.
fn is_written_again(alloc: Global, log: &Log, size: usize) -> Result<bool, AllocError>
    requires ordered { AreOrdered log.now.rows.items }
    requires at_least_one { 0 < length log.now.rows.items }
{
    let mut gather = Gather::new(alloc, size.max(1))?;
    let mut sink = MemSink::new(alloc, 512, Vec::new(alloc))?;
    let whole = write_log(log, &mut gather, &mut sink).is_ok();
    Ok(whole && sink.bytes() == EACH_KIND.as_bytes())
}

#[test]
fn what_is_read_is_written_again(rt: HostRuntime) -> Result<(), Fail> {
    let alloc = rt.alloc();
    let Ok(log) = read_log(alloc, EACH_KIND.as_bytes()) else {
        panic!(rt; "not read")
    };
    readings_are_texts();
    for size in [1, 7, 65536] {
        assert!(rt; is_written_again(alloc, &log, size)?, "{size}");
    }
    Ok(())
}
