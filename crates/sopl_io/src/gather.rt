//! Bytes that are gathered before they are written.
ghost use Rattle.std.specs.Prelude.{◌≡◌, ◌+◌, ◌≤◌, ◌++◌, [], length, IfOk, OnOk, OnErr};
ghost use Rattle.std.specs.Io.KnownBytes.{Appends};
ghost use Rattle.sopl_io.specs.Calls.{StopsAtFailure};
ghost use Rattle.sopl_io.specs.Causes.{HasCause};
ghost use Rattle.sopl_io.specs.Transfer.{AppendsPrefix};
ghost use Rattle.sopl_io.specs.Gathered.{GathersAll};

use crate::transfer::write_all;
use crate::{Failed, Sink};
use std::alloc::{AllocError, Global};
use std::marker::Model;

/// Bytes, cut in two.
#[derive(Clone, Copy, Drop)]
struct BytesCut<'a> {
    first: &'a [u8],
    later: &'a [u8],
}

/// The first so many bytes, and those behind them.
#[tactic(auto, using(crate::proofs::Gathering::parts_are))]
fn parts_at(bytes: &[u8], at: usize) -> BytesCut<'_>
    requires within { at ≤ length bytes.now }
    ensures whole { result.first.now ++ result.later.now ≡ bytes.now }
    ensures first { length result.first.now ≡ at }
    ensures later { length result.later.now + at ≡ length bytes.now }
{
    BytesCut {
        first: &bytes[..at],
        later: &bytes[at..],
    }
}

/// Keeps bytes for a sink until there is no room for more, so that many short pieces are few calls. What is kept when it is dropped is lost.
#[derive(Drop)]
pub struct Gather {
    bytes: Vec<u8>,
    size: usize,
}

impl Model for Gather {
    ghost use Rattle.std.specs.Prelude.{◌≤◌, vec_len, vec_capacity};
    ghost use Rattle.sopl_io.specs.Gathered.{GatheredBytes};

    ghost Value = { GatheredBytes };

    ghost view = { λ s. record { kept = s.bytes.items; size = s.size } };

    ghost invariant = { λ s. (s.size ≤ vec_capacity s.bytes) × (vec_len s.bytes ≤ s.size) × (1 ≤ s.size) };
}

impl Gather {
    /// One that keeps at most so many bytes, and keeps none yet; it takes the memory for all of them.
    pub fn new(alloc: Global, size: usize) -> Result<Gather, AllocError>
        requires some { 1 ≤ size }
        ensures kept { IfOk result (λ s. s.kept ≡ []) }
        ensures size { IfOk result (λ s. s.size ≡ size) }
    {
        let bytes = Vec::with_capacity(alloc, size)?;
        Ok(Gather { bytes, size })
    }

    /// Writes what is kept.
    pub fn flush<K: Sink>(&mut self, sink: &mut K) -> Result<(), Failed>
        ensures all { OnOk result (Appends (K.taken sink.old) (K.taken sink.new) self.old.kept) }
        ensures kept { OnOk result (self.new.kept ≡ []) }
        ensures prefix { OnErr result (AppendsPrefix (K.taken sink.old) (K.taken sink.new) self.old.kept) }
        ensures size { self.new.size ≡ self.old.size }
        ensures names { K.names sink.new ≡ K.names sink.old }
        ensures outcomes { StopsAtFailure (K.outcomes sink.old) (K.outcomes sink.new) result }
        ensures cause { HasCause (K.faults sink.old) (K.faults sink.new) result }
    {
        write_all(sink, self.bytes.as_slice())?;
        self.bytes.clear();
        Ok(())
    }

    /// Keeps a piece that there is room for.
    fn keep(&mut self, piece: &[u8])
        requires room { length self.old.kept + length piece.now ≤ self.old.size }
        ensures kept { self.new.kept ≡ self.old.kept ++ piece.now }
        ensures size { self.new.size ≡ self.old.size }
    {
        match self.bytes.extend_from_slice(piece) {
            Ok(()) => (),
            Err(_) => unreachable!(),
        }
    }

    /// Keeps a piece that there is room for, and writes all that is kept.
    fn fill<K: Sink>(&mut self, sink: &mut K, piece: &[u8]) -> Result<(), Failed>
        requires room { length self.old.kept + length piece.now ≤ self.old.size }
        ensures all { OnOk result (Appends (K.taken sink.old) (K.taken sink.new) (self.old.kept ++ piece.now)) }
        ensures kept { OnOk result (self.new.kept ≡ []) }
        ensures prefix { OnErr result (AppendsPrefix (K.taken sink.old) (K.taken sink.new) (self.old.kept ++ piece.now)) }
        ensures size { self.new.size ≡ self.old.size }
        ensures names { K.names sink.new ≡ K.names sink.old }
        ensures outcomes { StopsAtFailure (K.outcomes sink.old) (K.outcomes sink.new) result }
        ensures cause { HasCause (K.faults sink.old) (K.faults sink.new) result }
    {
        self.keep(piece);
        self.flush(sink)
    }

    /// Keeps bytes. Where there is no room for more, it writes what is kept, and goes on with the rest.
    #[tactic(auto, using(crate::proofs::Gathering::gathered_start, crate::proofs::Gathering::gathered_end, crate::proofs::Calling::none_called, crate::proofs::Calling::calls_last))]
    pub fn put<K: Sink>(&mut self, sink: &mut K, bytes: &[u8]) -> Result<(), Failed>
        ensures all { OnOk result (GathersAll (K.taken sink.old) self.old.kept (K.taken sink.new) self.new.kept bytes.now) }
        ensures prefix { OnErr result (AppendsPrefix (K.taken sink.old) (K.taken sink.new) (self.old.kept ++ bytes.now)) }
        ensures size { self.new.size ≡ self.old.size }
        ensures names { K.names sink.new ≡ K.names sink.old }
        ensures outcomes { StopsAtFailure (K.outcomes sink.old) (K.outcomes sink.new) result }
        ensures cause { HasCause (K.faults sink.old) (K.faults sink.new) result }
    {
        let mut left = bytes;
        'pieces: while left.len() > self.size - self.bytes.len() {
            let room = self.size - self.bytes.len();
            let parts = parts_at(left, room);
            self.fill(sink, parts.first)?;
            left = parts.later;
        }
        self.keep(left);
        Ok(())
    }
}
