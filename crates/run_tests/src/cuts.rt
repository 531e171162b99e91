//! Where the branchers of `main` cut.

use crate::runs::ran_as_main;
use sopl_io::MemSink;
use std::alloc::{AllocError, Global};
use std::test::Fail;

const TWO: &str =
    "dvar int x in 0..3; dvar int y in 0..9; maximize expected(x + y); subject to { }";

/// No point satisfies, and only a box of one point shows it.
const ODD: &str =
    "dvar int x in 0..3; dvar int y in 0..1; dvar int z in 0..1; subject to { (2*x + 2*y + 2*z) mod 2 == 1; }";

const EITHER: &str = "dvar int x in 0..1; maximize expected(x); subject to { }";

/// The words, the text, and the whole log that must come.
const LOGS: [(&str, &str, &str); 6] = [
    (
        "solve --branch lower --budget 1 m",
        TWO,
        "sopl-log 1\nn 0 r\nx 0 0\nn 1 0 l\no\nn 2 0 h\no\nend bounded none 12\n",
    ),
    (
        "solve --budget 1 m",
        TWO,
        "sopl-log 1\nn 0 r\nx 0 0\nn 1 0 l\no\nn 2 0 h\no\nend bounded none 12\n",
    ),
    (
        "solve --branch widest --budget 1 m",
        TWO,
        "sopl-log 1\nn 0 r\nx 1 4\nn 1 0 l\no\nn 2 0 h\no\nend bounded none 12\n",
    ),
    (
        "solve --branch failing --budget 1 m",
        TWO,
        "sopl-log 1\nn 0 r\nx 0 1\nn 1 0 l\no\nn 2 0 h\no\nend bounded none 12\n",
    ),
    (
        "solve --branch failing --budget 9 m",
        ODD,
        "sopl-log 1\nn 0 r\nx 0 1\nn 1 0 l\nx 0 0\nn 2 1 l\nx 1 0\nn 3 2 l\ns h 0 0 2 ge 1\nf h 0 0\nn 4 2 h\ns h 0 0 2 ge 1\nf h 0 0\nn 5 1 h\nx 1 0\nn 6 5 l\ns h 0 0 2 ge 1\nf h 0 0\nn 7 5 h\ns h 0 0 2 ge 1\nf h 0 0\nn 8 0 h\nx 1 0\nn 9 8 l\no\nn 10 8 h\no\nend bounded none 0\n",
    ),
    (
        "solve --branch lower --budget 3 m",
        EITHER,
        "sopl-log 1\nn 0 r\nx 0 0\nn 1 0 l\nv\nn 2 0 h\nv\nend optimal 1\n",
    ),
];

/// What a run with the words of a line writes to the log's sink.
fn logged(alloc: Global, line: &str, text: &str) -> Result<MemSink, AllocError> {
    let ended = ran_as_main(alloc, line, text)?;
    Ok(ended.log)
}

#[test]
fn each_kind_cuts_by_its_rule(rt: HostRuntime) -> Result<(), Fail> {
    for (line, text, want) in &LOGS {
        let log = logged(rt.alloc(), line, text)?;
        assert_eq!(rt; log.bytes(), want.as_bytes(), "{line}");
    }
    Ok(())
}

/// The first one is asked where none is named, to the end of the search.
#[test]
fn the_first_one_is_taken_where_none_is_named(rt: HostRuntime) -> Result<(), Fail> {
    let first = logged(rt.alloc(), "solve m", TWO)?;
    let named = logged(rt.alloc(), "solve --branch=lower m", TWO)?;
    assert_eq!(rt; first.bytes(), named.bytes());
    Ok(())
}
