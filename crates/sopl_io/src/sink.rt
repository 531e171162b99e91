//! Sinks of bytes.
ghost use Rattle.std.specs.Prelude.{◌≡◌, ◌<◌, List, ℕ, length, Option, option_map, [], IfOk};
ghost use Rattle.std.specs.Io.{WritesAtMost};
ghost use Rattle.std.specs.Io.KnownBytes.{WriteAppends};
ghost use Rattle.sopl_io.specs.Calls.{Outcomes, outcome_of, with_call};
ghost use Rattle.sopl_io.specs.Causes.{HasCause};
ghost use Rattle.sopl_io.specs.Stock.{with_name};

use crate::Failed;

/// Takes texts by name, a piece at a time.
pub trait Sink {
    /// The bytes that it took since it was begun last, or since it was made, where they are told.
    ghost taken: { Self → Option (List ℕ) };

    /// How many faults it counted.
    ghost faults: { Self → ℕ };

    /// What came of its calls.
    ghost outcomes: { Self → Outcomes };

    /// The names with which it was begun, where they are told.
    ghost names: { Self → Option (List (List ℕ)) };

    /// Turns to a new text of that name, which is empty.
    fn begin(&mut self, name: &str) -> Result<(), Failed>
        // A `begin` that failed counts as one.
        ensures taken { taken self.new ≡ option_map (λ _. []) (taken self.old) }
        ensures names { names self.new ≡ with_name (names self.old) name.now }
        ensures outcomes { outcomes self.new ≡ with_call (outcomes self.old) (outcome_of result) }
        ensures cause { HasCause (faults self.old) (faults self.new) result };

    /// Takes a prefix of the piece, and answers its length.
    fn write(&mut self, piece: &[u8]) -> Result<usize, Failed>
        ensures bound { WritesAtMost result piece.now }
        ensures bytes { WriteAppends (taken self.old) (taken self.new) result piece.now }
        ensures some { IfOk result (λ n. 0 < length piece.now → 0 < n) }
        ensures names { names self.new ≡ names self.old }
        ensures outcomes { outcomes self.new ≡ with_call (outcomes self.old) (outcome_of result) }
        ensures cause { HasCause (faults self.old) (faults self.new) result };
}
