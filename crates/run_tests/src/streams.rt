//! Sources and sinks that move a byte at a time, and files.

ghost use Rattle.std.specs.Prelude.{None};
ghost use Rattle.sopl_io.specs.Calls.{counted};

use crate::answer_lines_commands::{RUNS, WholeRun, files_of};
use crate::runs::{Ended, ORDER, ORDER_ANSWER, ORDER_LOG, ends, words_in};
use answer_run::{Status, run};
use sopl_io::{
    Failed, FileSink, FileSource, MemSink, MemSource, Sink, Source, read_all, write_all,
};
use std::alloc::{AllocError, Global};
use std::test::Fail;

/// A source that gives one byte at a time.
#[derive(Drop)]
struct Drops {
    text: Vec<u8>,
    at: usize,
}

impl Source for Drops {
    ghost left = { λ _. None };

    ghost stock = { λ _. None };

    ghost faults = { λ _. 0 };

    ghost outcomes = { λ _. counted 0 };

    ghost names = { λ _. None };

    fn begin(&mut self, _name: &str) -> Result<(), Failed> {
        self.at = 0;
        Ok(())
    }

    fn read(&mut self, buf: &mut [u8]) -> Result<usize, Failed> {
        if self.at < self.text.len() {
            buf[0] = self.text[self.at];
            self.at += 1;
            return Ok(1);
        }
        Ok(0)
    }
}

/// A sink that takes one byte at a time.
#[derive(Drop)]
struct Narrow {
    taken: Vec<u8>,
    faults: u64,
}

impl Sink for Narrow {
    ghost taken = { λ _. None };

    ghost faults = { λ s. s.faults };

    ghost outcomes = { λ s. counted s.faults };

    ghost names = { λ _. None };

    fn begin(&mut self, _name: &str) -> Result<(), Failed> {
        self.taken.clear();
        Ok(())
    }

    fn write(&mut self, piece: &[u8]) -> Result<usize, Failed> {
        if piece.is_empty() {
            return Ok(0);
        }
        if self.taken.push(piece[0]).is_err() {
            self.faults = self.faults.saturating_add(1);
            return Err(Failed);
        }
        Ok(1)
    }
}

#[test]
fn one_byte_at_a_time(rt: HostRuntime) -> Result<(), Fail> {
    let alloc = rt.alloc();
    let words = words_in(alloc, "solve m")?;
    let mut source = Drops {
        text: Vec::from_slice(alloc, ORDER.as_bytes())?,
        at: 0,
    };
    let mut answer = Narrow {
        taken: Vec::new(alloc),
        faults: 0,
    };
    let mut log = Narrow {
        taken: Vec::new(alloc),
        faults: 0,
    };
    let ended = run(
        alloc,
        &words,
        &mut source,
        &mut answer,
        &mut log,
        Vec::new(alloc),
    );
    assert_eq!(rt; ended, Status::Done);
    assert_eq!(rt; answer.taken.as_slice(), ORDER_ANSWER.as_bytes());
    assert_eq!(rt; log.taken.as_slice(), ORDER_LOG.as_bytes());
    Ok(())
}

/// Sinks that take one byte at a time.
fn sinks(alloc: Global) -> Result<(MemSink, MemSink), AllocError> {
    let answer = MemSink::dribbling(alloc, 1000, Vec::new(alloc), 1)?;
    let log = MemSink::dribbling(alloc, 1000, Vec::new(alloc), 1)?;
    Ok((answer, log))
}

/// Runs over a source and sinks in memory that move one byte at a time.
fn ran_by_bytes(alloc: Global, whole: &WholeRun) -> Result<Ended, AllocError> {
    let words = words_in(alloc, whole.words)?;
    let texts = files_of(alloc, whole)?;
    let mut source = MemSource::dribbling(texts, Vec::new(alloc), 1);
    let (mut answer, mut log) = sinks(alloc)?;
    let branchers = Vec::new(alloc);
    let status = run(alloc, &words, &mut source, &mut answer, &mut log, branchers);
    Ok(Ended {
        status,
        answer,
        log,
    })
}

/// Each command answers as it does where all is moved at once, and has the same log.
#[test]
fn bytes_change_no_answer(rt: HostRuntime) -> Result<(), Fail> {
    for whole in RUNS {
        let about = whole.words;
        let ended = ran_by_bytes(rt.alloc(), whole)?;
        ends(&rt, about, &ended, Status::Done, whole.line);
        assert_eq!(rt; ended.log.bytes(), whole.log.as_bytes(), "{about}");
    }
    Ok(())
}

#[test]
fn files_hold_what_was_written(rt: HostRuntime) -> Result<(), Fail> {
    let mut sink = FileSink::file(&rt);
    // The second text is shorter, and nothing of the first one stays.
    for text in ["abcdef", "xyz"] {
        sink.begin("written")?;
        write_all(&mut sink, text.as_bytes())?;
        let mut source = FileSource::new(&rt);
        let bytes = read_all(rt.alloc(), &mut source, "written", None)?;
        assert_eq!(rt; bytes.as_slice(), text.as_bytes());
    }
    Ok(())
}
