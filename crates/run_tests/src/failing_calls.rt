//! Runs in which one call of the source or of a sink fails: each call once, until a run meets none that fails.

use crate::answer_lines_commands::{RUNS, WholeRun, files_of};
use crate::runs::{Ended, ends, words_in};
use answer_run::{Status, run};
use sopl_io::{MemSink, MemSource};
use std::alloc::{AllocError, Global};
use std::process::Abort;
use std::test::Fail;

/// So many bytes are moved by one call at most.
const PIECE: usize = 40;

/// More calls than any of these runs has.
const CALLS: u64 = 100;

/// What fails: the source, the answer's sink or the log's sink.
#[derive(Clone, Copy, PartialEq, Eq)]
enum Stream {
    Source,
    Answer,
    Log,
}

/// The calls of one of the three that fail.
fn failing(alloc: Global, one: Stream, stream: Stream, call: u64) -> Result<Vec<u64>, AllocError> {
    if one == stream {
        return Vec::from_slice(alloc, &[call]);
    }
    Ok(Vec::new(alloc))
}

/// A source of both files.
fn source_of(
    alloc: Global,
    whole: &WholeRun,
    stream: Stream,
    call: u64,
) -> Result<MemSource, AllocError> {
    let texts = files_of(alloc, whole)?;
    let calls = failing(alloc, Stream::Source, stream, call)?;
    Ok(MemSource::dribbling(texts, calls, PIECE))
}

/// A sink that takes one of the two texts.
fn sink_of(alloc: Global, one: Stream, stream: Stream, call: u64) -> Result<MemSink, AllocError> {
    let calls = failing(alloc, one, stream, call)?;
    MemSink::dribbling(alloc, 1000, calls, PIECE)
}

/// The sinks of the answer and of the log.
fn sinks(alloc: Global, stream: Stream, call: u64) -> Result<(MemSink, MemSink), AllocError> {
    let answer = sink_of(alloc, Stream::Answer, stream, call)?;
    Ok((answer, sink_of(alloc, Stream::Log, stream, call)?))
}

/// Runs, where this call of one of the three fails.
fn ran(alloc: Global, whole: &WholeRun, stream: Stream, call: u64) -> Result<Ended, AllocError> {
    let words = words_in(alloc, whole.words)?;
    let mut source = source_of(alloc, whole, stream, call)?;
    let (mut answer, mut log) = sinks(alloc, stream, call)?;
    let branchers = Vec::new(alloc);
    let status = run(alloc, &words, &mut source, &mut answer, &mut log, branchers);
    Ok(Ended {
        status,
        answer,
        log,
    })
}

/// What is left where a call failed: of the source's, a line that tells of it alone; of the answer's, the whole log and the line as far as
/// it was taken; of the log's, of which the first one begins it, no line and the log as far as it was taken.
fn is_left(rt: &impl Abort, whole: &WholeRun, ended: &Ended, stream: Stream, call: u64) {
    let about = whole.words;
    let (answer, log) = (ended.answer.bytes(), ended.log.bytes());
    match stream {
        Stream::Source => {
            let line = "{\"answer\":\"read fault\"}\n";
            ends(rt, about, ended, Status::ReadFault, line);
            assert!(rt; log.is_empty(), "{about}, call {call}");
        }
        Stream::Answer => {
            assert_eq!(rt; ended.status, Status::WriteFault, "{about}, call {call}");
            assert_eq!(rt; log, whole.log.as_bytes(), "{about}, call {call}");
            assert!(rt;
                whole.line.as_bytes().starts_with(answer),
                "{about}, call {call}"
            );
            let taken = PIECE.checked_mul(call as usize);
            assert_eq!(rt; Some(answer.len()), taken, "{about}, call {call}");
        }
        Stream::Log => {
            assert_eq!(rt; ended.status, Status::WriteFault, "{about}, call {call}");
            assert!(rt; answer.is_empty(), "{about}, call {call}");
            assert!(rt;
                whole.log.as_bytes().starts_with(log),
                "{about}, call {call}"
            );
            let taken = PIECE.checked_mul(call.saturating_sub(1) as usize);
            assert_eq!(rt; Some(log.len()), taken, "{about}, call {call}");
        }
    }
}

/// How many calls one of the three has in a run. Each of them fails once.
fn calls_of(
    rt: &impl Abort,
    alloc: Global,
    whole: &WholeRun,
    stream: Stream,
) -> Result<u64, AllocError> {
    let about = whole.words;
    for call in 0..CALLS {
        let ended = ran(alloc, whole, stream, call)?;
        if ended.status == Status::Done {
            ends(rt, about, &ended, Status::Done, whole.line);
            assert_eq!(rt; ended.log.bytes(), whole.log.as_bytes(), "{about}");
            return Ok(call);
        }
        is_left(rt, whole, &ended, stream, call);
    }
    Ok(CALLS)
}

/// How many calls move a text, with so many beside them; none where it is empty.
fn calls_for(text: &str, beside: u64) -> u64 {
    if text.is_empty() {
        return 0;
    }
    (text.len().div_ceil(PIECE) as u64).saturating_add(beside)
}

/// Each call of a run fails once, until a run meets none that fails: one begins a file and one finds its end, one begins a log, and the
/// answer's sink is not begun. No run calls the source but for its files, nor the log's sink but for a search.
#[test]
fn each_call_fails_once(rt: HostRuntime) -> Result<(), Fail> {
    let alloc = rt.alloc();
    for whole in RUNS {
        let about = whole.words;
        let reads = calls_for(whole.model, 2).saturating_add(calls_for(whole.other, 2));
        let source = calls_of(&rt, alloc, whole, Stream::Source)?;
        assert_eq!(rt; source, reads, "{about}");
        let log = calls_of(&rt, alloc, whole, Stream::Log)?;
        assert_eq!(rt; log, calls_for(whole.log, 1), "{about}");
        let answer = calls_of(&rt, alloc, whole, Stream::Answer)?;
        assert_eq!(rt; answer, calls_for(whole.line, 0), "{about}");
    }
    Ok(())
}
