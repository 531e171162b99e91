//! Runs over sources and sinks in memory, how they must end, and the rows of tables of runs.

use answer_run::{Status, Word, Words, run};
use brancher::{Brancher, Failing, Lower, Widest, known_branchers};
use sopl_io::{MemSink, MemSource};
use std::alloc::{AllocError, Global};
use std::process::Abort;

pub(crate) const ORDER: &str =
    "dvar int x in 0..5 stage 1;\nstoch int d in {1:1, 3:1} stage 1;\ndvar int y in 0..3 stage 2;\nmaximize expected(4*y - 3*x);\nsubject to { y <= d; y <= x; }\n";

pub(crate) const ORDER_ANSWER: &str =
    "{\"answer\":\"optimal\",\"policy\":{\"decide\":[[\"x\",[],1]],\"next\":[{\"seen\":[[\"d\",[],1]],\"then\":{\"decide\":[[\"y\",[],1]],\"next\":[]}},{\"seen\":[[\"d\",[],3]],\"then\":{\"decide\":[[\"y\",[],1]],\"next\":[]}}]},\"value\":\"2/2\"}\n";

/// The log of a search of the ordering text that asks no brancher.
pub(crate) const ORDER_LOG: &str =
    "sopl-log 1\nn 0 r\ns h 0 0 1 le 1\nx 0 2\nn 1 0 l\ns h 1 1 2 le 2\nx 0 1\nn 2 1 l\ns h 1 1 2 le 1\nx 0 0\nn 3 2 l\ns h 1 0 1 le 0\ns h 1 1 2 le 0\nv\nn 4 2 h\ns b 1 ge 1\ns b 2 ge 1\nv\nn 5 1 h\nf b\nn 6 0 h\nf b\nend optimal 2\n";

pub(crate) const FARMER: &str =
    "int acres = 50; dvar int w in 0..acres stage 1; dvar int c in 0..acres stage 1; dvar int b in 0..acres stage 1; stoch int y in {4:1, 5:1, 6:1} stage 1; maximize expected(min(170*(5*y*w - 200), 238*(5*y*w - 200)) + min(150*(6*y*c - 240), 210*(6*y*c - 240)) + min(36*(40*y*b), 10*(40*y*b) + 156000) - 1500*w - 2300*c - 2600*b); subject to { w + c + b <= acres; }";

/// The words of a line, each behind one space; an empty line has none.
pub(crate) fn words_in(alloc: Global, line: &str) -> Result<Words, AllocError> {
    if line.is_empty() {
        return Ok(Words::new(alloc));
    }
    let mut words = Words::new(alloc);
    for word in line.split(' ') {
        words.push(Word::new(String::from_str(alloc, word)?))?;
    }
    Ok(words)
}

/// A file of this name.
pub(crate) fn file(
    alloc: Global,
    name: &str,
    text: &[u8],
) -> Result<(String, Vec<u8>), AllocError> {
    let name = String::from_str(alloc, name)?;
    Ok((name, Vec::from_slice(alloc, text)?))
}

/// A source of a model `m`; the calls with these numbers fail.
pub(crate) fn source_of(
    alloc: Global,
    text: &str,
    failing: &[u64],
) -> Result<MemSource, AllocError> {
    let mut texts = Vec::new(alloc);
    texts.push(file(alloc, "m", text.as_bytes())?)?;
    Ok(MemSource::new(texts, Vec::from_slice(alloc, failing)?))
}

/// A source of a model `m` and of a second file `o`.
pub(crate) fn source_of_two(
    alloc: Global,
    text: &str,
    other: &[u8],
) -> Result<MemSource, AllocError> {
    let mut texts = Vec::new(alloc);
    texts.push(file(alloc, "m", text.as_bytes())?)?;
    texts.push(file(alloc, "o", other)?)?;
    Ok(MemSource::new(texts, Vec::new(alloc)))
}

/// How a run ended, and what its sinks took.
#[derive(Drop)]
pub(crate) struct Ended {
    pub(crate) status: Status,
    pub(crate) answer: MemSink,
    pub(crate) log: MemSink,
}

/// How many bytes the two sinks take, and which calls of the log's sink fail.
#[derive(Clone, Copy)]
pub(crate) struct Room {
    pub(crate) answer: usize,
    pub(crate) log: usize,
    pub(crate) failing: &'static [u64],
}

/// Sinks that take all.
pub(crate) const WIDE: Room = Room {
    answer: 1000,
    log: 100_000,
    failing: &[],
};

/// The sinks of an answer and of a log.
fn sinks(alloc: Global, room: &Room) -> Result<(MemSink, MemSink), AllocError> {
    let failing = Vec::from_slice(alloc, room.failing)?;
    let log = MemSink::new(alloc, room.log, failing)?;
    Ok((MemSink::new(alloc, room.answer, Vec::new(alloc))?, log))
}

/// Runs over a source, with sinks that take so many bytes, and with these branchers.
pub(crate) fn ran_with(
    alloc: Global,
    words: &Words,
    source: &mut MemSource,
    room: &Room,
    branchers: Vec<Box<dyn Brancher>>,
) -> Result<Ended, AllocError> {
    let (mut answer, mut log) = sinks(alloc, room)?;
    let status = run(alloc, words, source, &mut answer, &mut log, branchers);
    Ok(Ended {
        status,
        answer,
        log,
    })
}

/// Runs over a source, with sinks that take so many bytes, and with the branchers of `main`.
pub(crate) fn ran_branching(
    alloc: Global,
    words: &Words,
    source: &mut MemSource,
    room: &Room,
) -> Result<Ended, AllocError> {
    let lower = Box::new(alloc, Lower::new())?;
    let widest = Box::new(alloc, Widest::new())?;
    let failing = Box::new(alloc, Failing::new())?;
    let branchers = known_branchers(alloc, lower, widest, failing)?;
    ran_with(alloc, words, source, room, branchers)
}

/// Runs with the words of a line on a text, and with the branchers of `main`.
pub(crate) fn ran_as_main(alloc: Global, line: &str, text: &str) -> Result<Ended, AllocError> {
    let words = words_in(alloc, line)?;
    let mut source = source_of(alloc, text, &[])?;
    ran_branching(alloc, &words, &mut source, &WIDE)
}

/// Runs with the words of a line on a text, and without a brancher.
pub(crate) fn ran(alloc: Global, line: &str, text: &str) -> Result<Ended, AllocError> {
    let words = words_in(alloc, line)?;
    let mut source = source_of(alloc, text, &[])?;
    ran_with(alloc, &words, &mut source, &WIDE, Vec::new(alloc))
}

/// Runs with the words of a line on a text and a second file.
pub(crate) fn ran_on_two(
    alloc: Global,
    line: &str,
    text: &str,
    other: &[u8],
) -> Result<Ended, AllocError> {
    let words = words_in(alloc, line)?;
    let mut source = source_of_two(alloc, text, other)?;
    ran_with(alloc, &words, &mut source, &WIDE, Vec::new(alloc))
}

/// A run ended so, with this line.
pub(crate) fn ends(rt: &impl Abort, about: &str, ended: &Ended, status: Status, want: &str) {
    assert_eq!(rt; ended.status, status, "{about}");
    assert_eq!(rt; ended.answer.bytes(), want.as_bytes(), "{about}");
}

/// The answer's sink took this line, and nothing else.
pub(crate) fn answers(rt: &impl Abort, about: &str, ended: &Ended, want: &str) {
    let answer = std::str::from_utf8(ended.answer.bytes()).unwrap_or("");
    let (line, behind) = answer.split_once("\n").unwrap_or((answer, "no line feed"));
    assert_eq!(rt; line, want, "{about}");
    assert_eq!(rt; behind, "", "{about}");
}

/// A log of a text is accepted.
pub(crate) fn is_accepted(
    rt: &impl Abort,
    alloc: Global,
    about: &str,
    text: &str,
    log: &[u8],
) -> Result<(), AllocError> {
    let checked = ran_on_two(alloc, "check m o", text, log)?;
    assert_eq!(rt; checked.status, Status::Done, "{about}");
    Ok(())
}

/// A row of a table: what it is about, a text, and what must come.
#[derive(Clone, Copy, Drop)]
pub(crate) struct TableRow<'a> {
    pub(crate) about: &'a str,
    pub(crate) text: &'a str,
    pub(crate) want: &'a str,
}

/// The row that a line shows as `about: text -> want`.
pub(crate) fn row_in(line: &str) -> Option<TableRow<'_>> {
    let (about, rest) = line.split_once(": ")?;
    let (text, want) = rest.split_once(" -> ")?;
    Some(TableRow { about, text, want })
}

/// A run ended with the status and the line that a row has as `0 {"answer":..}`.
pub(crate) fn ends_as(rt: &impl Abort, row: &TableRow<'_>, ended: &Ended) {
    let about = row.about;
    let code = row.want.as_bytes().first().copied().unwrap_or(0);
    assert_eq!(rt; ended.status.code(), code.wrapping_sub(b'0'), "{about}");
    let (_code, line) = row.want.split_once(" ").unwrap_or(("", row.want));
    answers(rt, about, ended, line);
}
