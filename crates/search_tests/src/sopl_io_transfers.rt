//! Texts that are read and written, whole, in drops and in gathered pieces, and calls that fail.

use sopl_io::{Failed, Gather, MemSink, MemSource, PlainSource, read_all, write_all};
use std::alloc::{AllocError, Global};
use std::test::Fail;

// The text of the name `model`.
fn named_text(alloc: Global) -> Result<Vec<(String, Vec<u8>)>, AllocError> {
    let name = String::from_str(alloc, "model")?;
    let text = b"abcde".to_vec(alloc)?;
    Ok(vec![in alloc; (name, text)]?)
}

fn named_source(alloc: Global, failing: &[u64]) -> Result<MemSource, AllocError> {
    let texts = named_text(alloc)?;
    Ok(MemSource::new(texts, failing.to_vec(alloc)?))
}

// Where the text is cut, and what is read of it.
const CUTS: [(&str, Option<usize>, &str); 4] = [
    ("no cut", None, "abcde"),
    ("behind the text", Some(9), "abcde"),
    ("within the text", Some(3), "abc"),
    ("before the text", Some(0), ""),
];

// The bytes that are read of a source.
fn bytes_of(alloc: Global, source: &mut MemSource, most: Option<usize>) -> Result<Vec<u8>, Fail> {
    let bytes = read_all(alloc, source, "model", most)?;
    Ok(bytes)
}

// Whether a sink holds the bytes that are written to it.
fn holds(mut sink: MemSink, bytes: &[u8]) -> Result<bool, Fail> {
    write_all(&mut sink, bytes)?;
    Ok(sink.bytes() == bytes)
}

#[test]
fn a_text_is_read(rt: HostRuntime) -> Result<(), Fail> {
    for (word, most, expected) in &CUTS {
        let mut source = named_source(rt.alloc(), &[])?;
        let bytes = bytes_of(rt.alloc(), &mut source, *most)?;
        assert_eq!(rt; bytes.as_slice(), expected.as_bytes(), "{word}");
    }
    Ok(())
}

#[test]
fn a_text_is_written(rt: HostRuntime) -> Result<(), Fail> {
    for (word, _, text) in &CUTS {
        let sink = MemSink::new(rt.alloc(), 8, Vec::new(rt.alloc()))?;
        assert!(rt; holds(sink, text.as_bytes())?, "{word}");
    }
    Ok(())
}

// The names that a source of one text is begun with, the calls that fail, and whether it is read.
const FAULTS: [(&str, &str, &[u64], bool); 5] = [
    ("no call fails", "model", &[], true),
    ("another name", "other", &[], false),
    ("the begin fails", "model", &[0], false),
    ("the read that finds the end fails", "model", &[2], false),
    ("a call behind the last one would fail", "model", &[3], true),
];

// Whether a text is read by this name, where these calls fail.
fn is_read(alloc: Global, name: &str, failing: &[u64]) -> Result<bool, AllocError> {
    let mut source = named_source(alloc, failing)?;
    Ok(read_all(alloc, &mut source, name, None).is_ok())
}

#[test]
fn listed_calls_of_a_source_fail(rt: HostRuntime) -> Result<(), Fail> {
    for (word, name, failing, want) in &FAULTS {
        assert_eq!(rt; is_read(rt.alloc(), name, failing)?, *want, "{word}");
    }
    Ok(())
}

// How much a sink can hold, the calls that fail, and what it holds of five bytes in the end.
const HELD: [(&str, usize, &[u64], &str); 3] = [
    ("room for all", 5, &[], "abcde"),
    ("room for three", 3, &[], "abc"),
    ("the first call fails", 5, &[0], ""),
];

// Whether a sink of so much room holds these bytes of the text in the end, and tells whether these are all.
fn fits(alloc: Global, capacity: usize, failing: &[u64], held: &str) -> Result<bool, AllocError> {
    let mut sink = MemSink::new(alloc, capacity, failing.to_vec(alloc)?)?;
    let whole = write_all(&mut sink, b"abcde").is_ok();
    Ok(whole == (held.len() == 5) && sink.bytes() == held.as_bytes())
}

#[test]
fn a_sink_holds_what_fits(rt: HostRuntime) -> Result<(), Fail> {
    for (word, capacity, failing, held) in &HELD {
        assert!(rt; fits(rt.alloc(), *capacity, failing, held)?, "{word}");
    }
    Ok(())
}

// Whether the next text of a source is this one.
fn gives(alloc: Global, source: &mut PlainSource, want: &str) -> Result<bool, Fail> {
    let bytes = read_all(alloc, source, "any", None)?;
    Ok(bytes.as_slice() == want.as_bytes())
}

// Where a source of two texts stands, and what it gives.
const ORDERED: [(&str, &str); 4] = [
    ("the first text", "one"),
    ("the second text", "two"),
    ("behind the last text", ""),
    ("once more behind it", ""),
];

#[test]
fn texts_in_order_ignore_names(rt: HostRuntime) -> Result<(), Fail> {
    let alloc = rt.alloc();
    let texts = vec![in alloc; b"one".to_vec(alloc)?, b"two".to_vec(alloc)?]?;
    let mut source = PlainSource::new(texts);
    for (word, want) in &ORDERED {
        assert!(rt; gives(alloc, &mut source, want)?, "{word}");
    }
    Ok(())
}

// How many bytes a source and a sink move at once.
const MOST: [usize; 4] = [1, 2, 5, 9];

// A source of the text that moves so many bytes at once.
fn dribbling(alloc: Global, most: usize) -> Result<MemSource, AllocError> {
    let texts = named_text(alloc)?;
    Ok(MemSource::dribbling(texts, Vec::new(alloc), most.max(1)))
}

#[test]
fn a_text_goes_in_drops(rt: HostRuntime) -> Result<(), Fail> {
    let alloc = rt.alloc();
    for most in MOST {
        let mut source = dribbling(alloc, most)?;
        let bytes = bytes_of(alloc, &mut source, None)?;
        assert_eq!(rt; bytes.as_slice(), b"abcde".as_slice(), "read by {most}");
    }
    for most in MOST {
        let sink = MemSink::dribbling(alloc, 8, Vec::new(alloc), most)?;
        assert!(rt; holds(sink, b"abcde")?, "written by {most}");
    }
    Ok(())
}

// What a row is about, how many bytes are gathered, how many the sink takes at once, which of its calls fails, what it holds before the flush,
// and in the end.
type Row = (
    &'static str,
    usize,
    usize,
    &'static [u64],
    &'static str,
    &'static str,
);

const GATHERED: &[Row] = &[
    ("all of it", 16, 8, &[], "", "abcdefg"),
    ("four, and three are left", 4, 8, &[], "abcd", "abcdefg"),
    ("three, and one is left", 3, 8, &[], "abcdef", "abcdefg"),
    ("each byte alone", 1, 8, &[], "abcdef", "abcdefg"),
    (
        "four, for a sink that takes one",
        4,
        1,
        &[],
        "abcd",
        "abcdefg",
    ),
    (
        "four, and the sink fails within them",
        4,
        2,
        &[1],
        "ab",
        "ab",
    ),
    (
        "four, and the sink fails at the flush",
        4,
        8,
        &[1],
        "abcd",
        "abcd",
    ),
];

fn gathered(gather: &mut Gather, sink: &mut MemSink) -> Result<(), Failed> {
    for piece in ["ab", "", "cdefg"] {
        gather.put(sink, piece.as_bytes())?;
    }
    Ok(())
}

// Whether a sink holds these bytes before the flush, and whether all calls pass.
fn put_pieces(
    alloc: Global,
    size: usize,
    before: &str,
    sink: &mut MemSink,
) -> Result<(bool, bool), AllocError> {
    let mut gather = Gather::new(alloc, size.max(1))?;
    let put = gathered(&mut gather, sink).is_ok();
    let held = sink.bytes() == before.as_bytes();
    Ok((held, put && gather.flush(sink).is_ok()))
}

// Whether pieces are gathered as a row says; where the sink does not take all, a call tells.
fn is_gathered(alloc: Global, row: &Row) -> Result<bool, AllocError> {
    let (_, size, most, failing, before, after) = *row;
    let mut sink = MemSink::dribbling(alloc, 16, failing.to_vec(alloc)?, most.max(1))?;
    let (held, ended) = put_pieces(alloc, size, before, &mut sink)?;
    Ok(held && sink.bytes() == after.as_bytes() && ended == (after.len() == 7))
}

#[test]
fn pieces_are_gathered(rt: HostRuntime) -> Result<(), Fail> {
    for row in GATHERED {
        assert!(rt; is_gathered(rt.alloc(), row)?, "{}", row.0);
    }
    Ok(())
}
