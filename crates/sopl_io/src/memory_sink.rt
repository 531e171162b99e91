//! A sink in memory.
ghost use Rattle.std.specs.Prelude.{◌≡◌, ◌↔◌, ◌⊎◌, ◌<◌, ◌≤◌, ◌-◌, ◌^◌, [], length, min, Some, None, IsErr, IfOk, Contains};
ghost use Rattle.std.specs.Io.{WritesAtMost};
ghost use Rattle.std.specs.Io.KnownBytes.{WriteAppends};
ghost use Rattle.sopl_io.specs.Calls.{counted, outcome_of, with_call};
ghost use Rattle.sopl_io.specs.Causes.{HasCause, one_more, count_after};
ghost use Rattle.sopl_io.specs.Memory.{IsRefused};

use crate::fault_plan::FaultPlan;
use crate::{Failed, Sink};
use std::alloc::{AllocError, Global};
use std::marker::Model;

/// Takes bytes into a buffer, which it reserves when it is made, and at most so many at once. A call fails where its number is listed:
/// calls are numbered from 0, and the number stays at 2^64 - 1 once it is there.
#[derive(Drop)]
pub struct MemSink {
    bytes: Vec<u8>,
    capacity: usize,
    most: usize,
    plan: FaultPlan,
}

impl Model for MemSink {
    ghost use Rattle.std.specs.Prelude.{◌≤◌, vec_len, vec_capacity};
    ghost use Rattle.sopl_io.specs.Memory.{BufferedOutput};

    ghost Value = { BufferedOutput };

    ghost view = { λ s. record {
      taken = s.bytes.items;
      capacity = s.capacity;
      most = s.most;
      failing = s.plan.failing.items;
      calls = s.plan.calls;
      faults = s.plan.faults;
    } };

    ghost invariant = { λ s. (s.capacity ≤ vec_capacity s.bytes) × (vec_len s.bytes ≤ s.capacity) × (1 ≤ s.most) };
}

impl MemSink {
    /// A sink that can hold so many bytes, and holds none.
    pub fn new(alloc: Global, capacity: usize, failing: Vec<u64>) -> Result<MemSink, AllocError>
        ensures taken { IfOk result (λ s. s.taken ≡ []) }
        ensures names { IfOk result (λ s. ⟦<MemSink as Sink>⟧.names s ≡ None) }
        ensures capacity { IfOk result (λ s. s.capacity ≡ capacity) }
        ensures most { IfOk result (λ s. s.most ≡ 2 ^ 64 - 1) }
        ensures failing { IfOk result (λ s. s.failing ≡ failing.items) }
        ensures calls { IfOk result (λ s. s.calls ≡ 0) }
        ensures faults { IfOk result (λ s. s.faults ≡ 0) }
    {
        MemSink::dribbling(alloc, capacity, failing, usize::MAX)
    }

    /// A sink that can hold so many bytes, holds none, and takes at most so many at once.
    pub fn dribbling(
        alloc: Global,
        capacity: usize,
        failing: Vec<u64>,
        most: usize,
    ) -> Result<MemSink, AllocError>
        requires some { 1 ≤ most }
        ensures taken { IfOk result (λ s. s.taken ≡ []) }
        ensures names { IfOk result (λ s. ⟦<MemSink as Sink>⟧.names s ≡ None) }
        ensures capacity { IfOk result (λ s. s.capacity ≡ capacity) }
        ensures most { IfOk result (λ s. s.most ≡ most) }
        ensures failing { IfOk result (λ s. s.failing ≡ failing.items) }
        ensures calls { IfOk result (λ s. s.calls ≡ 0) }
        ensures faults { IfOk result (λ s. s.faults ≡ 0) }
    {
        let bytes = Vec::with_capacity(alloc, capacity)?;
        Ok(MemSink {
            bytes,
            capacity,
            most,
            plan: FaultPlan::new(failing),
        })
    }

    /// The bytes taken since the last `begin`, or since it was made.
    pub fn bytes(&self) -> &[u8]
        ensures { result.now ≡ self.now.taken }
    {
        &self.bytes
    }
}

impl Sink for MemSink {
    ghost taken = { λ s. Some s.taken };

    ghost faults = { λ s. s.faults };

    ghost outcomes = { λ s. counted s.faults };

    ghost names = { λ _. None };

    fn begin(&mut self, _name: &str) -> Result<(), Failed>
        ensures taken { self.new.taken ≡ [] }
        ensures cause { HasCause self.old.faults self.new.faults result }

        // It fails exactly where its number is listed.
        ensures fails { IsErr result ↔ Contains self.old.failing self.old.calls }
        ensures capacity { self.new.capacity ≡ self.old.capacity }
        ensures most { self.new.most ≡ self.old.most }
        ensures failing { self.new.failing ≡ self.old.failing }
        ensures calls { self.new.calls ≡ one_more self.old.calls }
        ensures counted { self.new.faults ≡ count_after result self.old.faults }
        ensures outcomes { counted self.new.faults ≡ with_call (counted self.old.faults) (outcome_of result) }
    {
        self.bytes.clear();
        if self.plan.is_next_listed() {
            return Err(self.plan.fail());
        }
        Ok(())
    }

    fn write(&mut self, piece: &[u8]) -> Result<usize, Failed>
        ensures bound { WritesAtMost result piece.now }
        ensures bytes { WriteAppends (Some self.old.taken) (Some self.new.taken) result piece.now }
        ensures some { IfOk result (λ n. 0 < length piece.now → 0 < n) }
        ensures cause { HasCause self.old.faults self.new.faults result }

        // It fails exactly where its number is listed, or where nothing fits of a piece that has bytes.
        // Else it takes what fits, and at most so many bytes.
        ensures fails { IsErr result ↔ (Contains self.old.failing self.old.calls
            ⊎ IsRefused self.old piece.now) }
        ensures fits { IfOk result
            (λ n. n ≡ min (min (length piece.now) (self.old.capacity - length self.old.taken)) self.old.most) }
        ensures capacity { self.new.capacity ≡ self.old.capacity }
        ensures most { self.new.most ≡ self.old.most }
        ensures failing { self.new.failing ≡ self.old.failing }
        ensures calls { self.new.calls ≡ one_more self.old.calls }
        ensures counted { self.new.faults ≡ count_after result self.old.faults }
        ensures outcomes { counted self.new.faults ≡ with_call (counted self.old.faults) (outcome_of result) }
    {
        if self.plan.is_next_listed() {
            return Err(self.plan.fail());
        }
        let room = self.capacity - self.bytes.len();
        if room == 0 && !piece.is_empty() {
            return Err(self.plan.fail());
        }
        let count = piece.len().min(room).min(self.most);
        match self.bytes.extend_from_slice(&piece[..count]) {
            Ok(()) => Ok(count),
            Err(_) => unreachable!(),
        }
    }
}
