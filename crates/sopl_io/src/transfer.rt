//! Transfers between sources, sinks and lists of bytes.
ghost use Rattle.std.specs.Prelude.{◌≡◌, ◌⊎◌, ◌+◌, ◌≤◌, drop, length, Some, option_map, IfOk, IfSome, OnOk, OnErr, vec_len};
ghost use Rattle.std.specs.Io.KnownBytes.{Appends, IsAtEnd};
ghost use Rattle.sopl_io.specs.Calls.{MakesAtMost, StopsAtFailure, StopsWhere};
ghost use Rattle.sopl_io.specs.Causes.{Rose, HasCause};
ghost use Rattle.sopl_io.specs.Rests.{LeavesRest};
ghost use Rattle.sopl_io.specs.Stock.{text_of, begun_stock, with_name};
ghost use Rattle.sopl_io.specs.declared.transfer.ReadStop.TheVariants.{Fault, NoMemory};
ghost use Rattle.sopl_io.specs.Transfer.{cut_at, AppendsPrefix};

use crate::{Failed, Sink, Source};
use std::alloc::{AllocError, Global};

const PIECE: usize = 4096;

/// Why a text was not read.
#[derive(Clone, Copy, Debug, PartialEq, Eq)]
pub enum ReadStop {
    /// The source failed.
    Fault,
    /// There was no memory for it.
    NoMemory,
}

impl From<Failed> for ReadStop {
    ghost from_gives = { λ _ e. e ≡ Fault };

    fn from(_: Failed) -> Self {
        ReadStop::Fault
    }
}

impl From<AllocError> for ReadStop {
    ghost from_gives = { λ _ e. e ≡ NoMemory };

    fn from(_: AllocError) -> Self {
        ReadStop::NoMemory
    }
}

/// Begins the name, and reads to the end of input, or until it holds `most` bytes.
#[tactic(auto, using(crate::proofs::Reading::read_more, crate::proofs::Reading::read_to_end, crate::proofs::Reading::read_to_most, crate::proofs::Reading::is_full, crate::proofs::Reading::rest_left, crate::proofs::Reading::rest_behind, crate::proofs::Reading::rest_kept, crate::proofs::Reading::rest_closed, crate::proofs::Calling::call_made, crate::proofs::Calling::call_failed, crate::proofs::Calling::none_called))]
pub fn read_all<S: Source>(
    alloc: Global,
    source: &mut S,
    name: &str,
    most: Option<usize>,
) -> Result<Vec<u8>, ReadStop>
    ensures text { IfOk result (λ bytes. IfSome (S.stock source.old)
        (λ s. bytes.items ≡ cut_at most (text_of s name.now))) }
    ensures bound { IfOk result (λ bytes. IfSome most (λ m. vec_len bytes ≤ m)) }

    // It goes on to the end of input, or until it holds `most` bytes.
    ensures end { IfOk result (λ bytes. IsAtEnd (S.left source.new) ⊎ (most ≡ Some (vec_len bytes))) }
    ensures left { IfOk result (λ bytes. IfSome (S.stock source.old)
        (λ s. S.left source.new ≡ Some (drop (vec_len bytes) (text_of s name.now)))) }

    // Also where it failed, no more than `most` bytes of the text were taken.
    ensures rest { IfSome (S.stock source.old)
        (λ s. LeavesRest most (text_of s name.now) (S.faults source.old) (S.faults source.new) (S.left source.new)) }

    // It begins the source once, with this name.
    ensures stock { S.stock source.new ≡ option_map begun_stock (S.stock source.old) }
    ensures names { S.names source.new ≡ with_name (S.names source.old) name.now }

    ensures faults_grow { S.faults source.old ≤ S.faults source.new }
    ensures fault { result ≡ Err ReadStop.Fault → Rose (S.faults source.old) (S.faults source.new) }

    // No call follows one that failed.
    ensures outcomes { StopsWhere (result ≡ Err ReadStop.Fault) (S.outcomes source.old) (S.outcomes source.new) }

    // Each read adds at least one byte, except the one that finds the end. One call more begins the source.
    ensures turns { IfOk result (λ bytes. MakesAtMost (length bytes.items + 2) (S.outcomes source.old) (S.outcomes source.new)) }
    ensures turns_to_most { IfSome most (λ m. MakesAtMost (m + 1) (S.outcomes source.old) (S.outcomes source.new)) }
{
    source.begin(name)?;
    let most = most.unwrap_or(usize::MAX);
    let mut bytes = Vec::new(alloc);
    let mut buf = [0u8; PIECE];
    'pieces: while bytes.len() < most {
        let room = PIECE.min(most - bytes.len());
        let count = source.read(&mut buf[..room])?;
        if count == 0 {
            return Ok(bytes);
        }
        bytes.extend_from_slice(&buf[..count])?;
    }
    Ok(bytes)
}

/// Writes all the bytes, or a prefix of them where the sink fails.
#[tactic(auto, using(crate::proofs::Writing::written_more, crate::proofs::Writing::written_whole, crate::proofs::Writing::written_prefix, crate::proofs::Calling::call_made, crate::proofs::Calling::call_failed, crate::proofs::Calling::none_called))]
pub fn write_all<K: Sink>(sink: &mut K, bytes: &[u8]) -> Result<(), Failed>
    ensures all { OnOk result (Appends (K.taken sink.old) (K.taken sink.new) bytes.now) }
    ensures prefix { OnErr result (AppendsPrefix (K.taken sink.old) (K.taken sink.new) bytes.now) }
    ensures names { K.names sink.new ≡ K.names sink.old }
    ensures outcomes { StopsAtFailure (K.outcomes sink.old) (K.outcomes sink.new) result }

    // Each write takes at least one byte.
    ensures turns { MakesAtMost (length bytes.now) (K.outcomes sink.old) (K.outcomes sink.new) }
    ensures cause { HasCause (K.faults sink.old) (K.faults sink.new) result }
{
    let mut at = 0;
    'pieces: while at < bytes.len() {
        at += sink.write(&bytes[at..])?;
    }
    Ok(())
}
