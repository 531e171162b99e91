//! The program `sopl`: words in, one answer line out. What it calls is tested in `run_tests`; the program itself is run by `.ci/run`.
#![tactic(auto)]

ghost use Rattle.std.specs.Prelude.{◌≡◌, map};
ghost use Rattle.brancher.specs.Known.{known_names};
ghost use Rattle.sopl_io.specs.Files.{standard_output, not_begun};

use answer_run::{Status, Word, Words, run};
use brancher::{Brancher, Failing, Lower, Widest, known_branchers};
use sopl_io::{FileSink, FileSource};
use std::alloc::{AllocError, Global};
use std::env;
use std::process::ExitCode;
use std::rt::{Env, Files};

/// The words after the program's name. A word that is no text cannot be made, and ends the program as running out of memory does.
fn words_given<R: Env + AllocGlobal>(rt: &R) -> Result<Words, AllocError> {
    let mut words = Words::new(rt.alloc());
    let Ok(texts) = env::args(rt) else {
        return Err(AllocError);
    };
    for text in texts.skip(1) {
        words.push(Word::new(text))?;
    }
    Ok(words)
}

/// Runs the command that the words name, with the answer on standard output and the log in a file. A search may ask each of the branchers that the
/// program knows, and asks the first of them where the words name none.
fn run_over<'a, R: Files + Print>(
    alloc: Global,
    words: &Words,
    source: &mut FileSource<'a, R>,
    answer: &mut FileSink<'a, R>,
    log: &mut FileSink<'a, R>,
    branchers: Vec<Box<dyn Brancher>>,
) -> Status
    requires answer { answer.old.destination ≡ standard_output }
    requires log { log.old.destination ≡ not_begun }
    requires branchers { map (λ b. label b) branchers.items ≡ known_names }
{
    run(alloc, words, source, answer, log, branchers)
}

/// Runs the command that the words of the command line name, over files and standard output.
fn run_given<R: Env + Files + Print + AllocGlobal>(rt: &R) -> Result<Status, AllocError> {
    let alloc = rt.alloc();
    let lower = Box::new(alloc, Lower::new())?;
    let widest = Box::new(alloc, Widest::new())?;
    let failing = Box::new(alloc, Failing::new())?;
    let branchers = known_branchers(alloc, lower, widest, failing)?;
    let words = words_given(rt)?;
    let mut source = FileSource::new(rt);
    let mut answer = FileSink::output(rt);
    let mut log = FileSink::file(rt);
    Ok(run_over(alloc, &words, &mut source, &mut answer, &mut log, branchers))
}

fn main(rt: HostRuntime) -> ExitCode {
    let status = run_given(&rt).unwrap_or(Status::NoMemory);
    ExitCode::from(status.code())
}
