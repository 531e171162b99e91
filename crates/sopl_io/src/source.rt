//! Sources of bytes.
ghost use Rattle.std.specs.Prelude.{◌≡◌, ◌<◌, List, ℕ, length, Option, option_map, OnOk, OnErr};
ghost use Rattle.std.specs.Io.{ReadsAtMost};
ghost use Rattle.std.specs.Io.KnownBytes.{ReadConsumes, IsAtEnd};
ghost use Rattle.sopl_io.specs.Calls.{Outcomes, outcome_of, with_call};
ghost use Rattle.sopl_io.specs.Causes.{HasCause};
ghost use Rattle.sopl_io.specs.Stock.{Stock, begun_stock, GivesText, with_name};

/// A source or a sink failed.
#[derive(Clone, Copy, Debug, PartialEq, Eq)]
pub struct Failed;

/// Gives texts by name, a piece at a time.
pub trait Source {
    /// The bytes that are left of the text that was begun last, where they are told.
    ghost left: { Self → Option (List ℕ) };

    /// The texts that it can give, where they are told.
    ghost stock: { Self → Option Stock };

    /// How many faults it counted.
    ghost faults: { Self → ℕ };

    /// What came of its calls.
    ghost outcomes: { Self → Outcomes };

    /// The names with which it was begun, where they are told.
    ghost names: { Self → Option (List (List ℕ)) };

    /// Turns to the text of that name.
    fn begin(&mut self, name: &str) -> Result<(), Failed>
        ensures text { OnOk result (GivesText (stock self.old) (left self.new) name.now) }
        ensures nothing { OnErr result (IsAtEnd (left self.new)) }
        ensures stock { stock self.new ≡ option_map begun_stock (stock self.old) }
        ensures names { names self.new ≡ with_name (names self.old) name.now }
        ensures outcomes { outcomes self.new ≡ with_call (outcomes self.old) (outcome_of result) }
        ensures cause { HasCause (faults self.old) (faults self.new) result };

    /// Places the next bytes at the front of the buffer, and answers how many: 0 only at the end.
    fn read(&mut self, buf: &mut [u8]) -> Result<usize, Failed>
        requires { 0 < length buf.old }
        ensures bound { ReadsAtMost result buf.new }
        ensures bytes { ReadConsumes (left self.old) (left self.new) result buf.new }
        ensures stock { stock self.new ≡ stock self.old }
        ensures names { names self.new ≡ names self.old }
        ensures outcomes { outcomes self.new ≡ with_call (outcomes self.old) (outcome_of result) }
        ensures cause { HasCause (faults self.old) (faults self.new) result };
}
