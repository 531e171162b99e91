//! A source and a sink over files: the edge to the outside. They tell what a file's own type tells, and no names.
ghost use Rattle.std.specs.Prelude.{◌≡◌, ◌≢◌, ◌<◌, [], false, length, Some, None, Ok, IsOk, IsErr, IfOk, OnOk, OnErr, is_ok};
ghost use Rattle.std.specs.Io.{ReadsAtMost, WritesAtMost};
ghost use Rattle.std.specs.Io.KnownBytes.{ReadConsumes, WriteAppends, IsAtEnd};
ghost use Rattle.sopl_io.specs.Calls.{counted, outcome_of, with_call};
ghost use Rattle.sopl_io.specs.Causes.{HasCause};
ghost use Rattle.sopl_io.specs.Stock.{GivesText};
ghost use Rattle.sopl_io.specs.Files.{standard_output, not_begun, dropped, begun_destination};

use crate::fault::fault;
use crate::{Failed, Sink, Source};
use std::fs;
use std::io::{Read, Write};
use std::marker::Model;
use std::rt::Files;

/// Reads files by their names.
///
/// What a file of a given name holds is in no clause.
#[derive(Drop)]
pub struct FileSource<'a, R: Files> {
    rt: &'a R,
    file: Option<R::File>,
    faults: u64,
}

impl<'a, R: Files> Model for FileSource<'a, R> {
    ghost use Rattle.std.specs.Prelude.{is_some};
    ghost use Rattle.sopl_io.specs.Files.{FileInput, left_of};

    ghost Value = { FileInput };

    ghost view = { λ s. record {
      is_open = is_some s.file;
      left = left_of R.File.remaining s.file;
      faults = s.faults;
    } };
}

impl<'a, R: Files> FileSource<'a, R> {
    /// A source of the files that the runtime opens, of which none is begun.
    pub fn new(rt: &'a R) -> FileSource<'a, R>
        ensures is_open { result.is_open ≡ false }
        ensures left { result.left ≡ Some [] }
        ensures faults { result.faults ≡ 0 }
    {
        FileSource {
            rt,
            file: None,
            faults: 0,
        }
    }
}

impl<'a, R: Files> Source for FileSource<'a, R> {
    ghost left = { λ s. s.left };

    ghost stock = { λ _. None };

    ghost faults = { λ s. s.faults };

    ghost outcomes = { λ s. counted s.faults };

    ghost names = { λ _. None };

    fn begin(&mut self, name: &str) -> Result<(), Failed>
        ensures text { OnOk result (GivesText None self.new.left name.now) }
        ensures nothing { OnErr result (IsAtEnd self.new.left) }
        ensures closed { OnErr result (self.new.left ≡ Some []) }
        ensures is_open { self.new.is_open ≡ is_ok result }
        ensures cause { HasCause self.old.faults self.new.faults result }
        ensures kept { OnOk result (self.new.faults ≡ self.old.faults) }
        ensures outcomes { counted self.new.faults ≡ with_call (counted self.old.faults) (outcome_of result) }
    {
        self.file = None;
        match fs::open(self.rt, name) {
            Ok(file) => {
                self.file = Some(file);
                Ok(())
            }
            Err(_) => Err(fault(&mut self.faults)),
        }
    }

    fn read(&mut self, buf: &mut [u8]) -> Result<usize, Failed>
        requires { 0 < length buf.old }
        ensures bound { ReadsAtMost result buf.new }
        ensures bytes { ReadConsumes self.old.left self.new.left result buf.new }
        ensures cause { HasCause self.old.faults self.new.faults result }
        ensures kept { OnOk result (self.new.faults ≡ self.old.faults) }
        ensures outcomes { counted self.new.faults ≡ with_call (counted self.old.faults) (outcome_of result) }

        // After a `begin` that failed, and before any, it is at the end of input.
        ensures closed { self.old.is_open ≡ false → result ≡ Ok 0 }
        ensures is_open { self.new.is_open ≡ self.old.is_open }
    {
        let Some(file) = &mut self.file else {
            return Ok(0);
        };
        match file.read(buf) {
            Ok(count) => Ok(count),
            Err(_) => Err(fault(&mut self.faults)),
        }
    }
}

// Where a file sink puts what it takes.
#[derive(Drop)]
enum Target<F> {
    Output,
    Nowhere,
    Dropped,
    File(F),
}

/// Writes to standard output, or to files by their names.
#[derive(Drop)]
pub struct FileSink<'a, R: Files + Print> {
    rt: &'a R,
    target: Target<R::File>,
    faults: u64,
}

impl<'a, R: Files + Print> Model for FileSink<'a, R> {
    ghost use Rattle.sopl_io.specs.Files.{FileOutput, destination_of, held_by};

    ghost Value = { FileOutput };

    ghost view = { λ s. record {
      destination = destination_of s.target;
      held = held_by R.File.contents s.target;
      faults = s.faults;
    } };
}

impl<'a, R: Files + Print> FileSink<'a, R> {
    /// A sink that writes to standard output from the start, and stays with it whatever it is begun with.
    pub fn output(rt: &'a R) -> FileSink<'a, R>
        ensures destination { result.destination ≡ standard_output }
        ensures faults { result.faults ≡ 0 }
    {
        FileSink {
            rt,
            target: Target::Output,
            faults: 0,
        }
    }

    /// A sink that makes the file of the name that it is begun with, and keeps nothing where that name is
    /// empty. Before a `begin`, and after one that failed, it takes nothing.
    pub fn file(rt: &'a R) -> FileSink<'a, R>
        ensures destination { result.destination ≡ not_begun }
        ensures faults { result.faults ≡ 0 }
    {
        FileSink {
            rt,
            target: Target::Nowhere,
            faults: 0,
        }
    }
}

impl<'a, R: Files + Print> Sink for FileSink<'a, R> {
    ghost taken = { λ _. None };

    ghost faults = { λ s. s.faults };

    ghost outcomes = { λ s. counted s.faults };

    ghost names = { λ _. None };

    fn begin(&mut self, name: &str) -> Result<(), Failed>
        ensures cause { HasCause self.old.faults self.new.faults result }
        ensures kept { OnOk result (self.new.faults ≡ self.old.faults) }
        ensures outcomes { counted self.new.faults ≡ with_call (counted self.old.faults) (outcome_of result) }
        ensures output { self.old.destination ≡ standard_output → IsOk result }
        ensures stays_output { self.old.destination ≡ standard_output
            → self.new.destination ≡ standard_output }
        ensures file { self.old.destination ≢ standard_output
            → self.new.destination ≡ begun_destination result name.now }
        ensures empty { name.now ≡ [] → IsOk result }
    {
        if matches!(self.target, Target::Output) {
            return Ok(());
        }
        self.target = Target::Nowhere;
        if name.is_empty() {
            self.target = Target::Dropped;
            return Ok(());
        }
        match fs::create(self.rt, name) {
            Ok(file) => {
                self.target = Target::File(file);
                Ok(())
            }
            Err(_) => Err(fault(&mut self.faults)),
        }
    }

    fn write(&mut self, piece: &[u8]) -> Result<usize, Failed>
        ensures bound { WritesAtMost result piece.now }
        ensures bytes { WriteAppends None None result piece.now }
        ensures held { WriteAppends self.old.held self.new.held result piece.now }
        ensures some { IfOk result (λ n. 0 < length piece.now → 0 < n) }
        ensures cause { HasCause self.old.faults self.new.faults result }
        ensures kept { OnOk result (self.new.faults ≡ self.old.faults) }
        ensures outcomes { counted self.new.faults ≡ with_call (counted self.old.faults) (outcome_of result) }
        ensures not_begun { self.old.destination ≡ not_begun → IsErr result }
        ensures dropped { self.old.destination ≡ dropped → result ≡ Ok (length piece.now) }
        ensures destination { self.new.destination ≡ self.old.destination }
    {
        let answer = match &mut self.target {
            Target::Output => self.rt.write_some(piece).ok(),
            Target::Nowhere => None,
            Target::Dropped => Some(piece.len()),
            Target::File(file) => file.write(piece).ok(),
        };
        match answer {
            Some(count) if count > 0 || piece.is_empty() => Ok(count),
            _ => Err(fault(&mut self.faults)),
        }
    }
}
