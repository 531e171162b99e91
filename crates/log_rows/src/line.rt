//! A line of a log while it is made.

ghost use Rattle.std.specs.Prelude.{◌≡◌, ◌+◌, ◌≤◌, ◌<◌, ◌++◌, length, [], OnOk, OnErr};
ghost use Rattle.sopl_io.specs.Gathered.{GathersAll};
ghost use Rattle.sopl_io.specs.Calls.{StopsAtFailure};
ghost use Rattle.sopl_io.specs.Causes.{HasCause};
ghost use Rattle.sopl_io.specs.Transfer.{AppendsPrefix};
ghost use Rattle.log_rows.specs.Lines.{ended};

use arrayvec::ArrayString;
use itoa::{Buffer, Integer};
use sopl_io::{Failed, Gather, Sink};
use std::marker::Model;

/// The bytes of a line, in the value itself: no line of a log has more than 192.
#[derive(Drop)]
pub struct Line {
    text: ArrayString<192>,
}

impl Model for Line {
    ghost use Rattle.std.specs.Prelude.{ℕ, List};

    ghost Value = { List ℕ };

    ghost view = { λ line. line.text.bytes };
}

impl Line {
    /// A line without bytes.
    pub fn new() -> Line
        ensures empty { result ≡ [] }
    {
        Line {
            text: ArrayString::new(),
        }
    }

    /// Adds a piece of text.
    pub fn text(&mut self, piece: &str)
        requires room { length self.old + length piece.now ≤ 192 }
        ensures added { self.new ≡ self.old ++ piece.now }
    {
        self.text.push_str(piece);
    }

    /// Adds a number in digits.
    pub fn number<I: Integer>(&mut self, value: I)
        requires room { length self.old + 40 ≤ 192 }
        ensures added { self.new ≡ self.old ++ I.text value }
        ensures bounded_length { length self.new ≤ length self.old + 40 }
    {
        let mut buffer = Buffer::new();
        self.text.push_str(buffer.format(value));
    }

    /// Its bytes.
    pub fn as_bytes(&self) -> &[u8]
        ensures bytes { result.now ≡ self.now }
    {
        self.text.as_str().as_bytes()
    }

    /// Writes the line and its end.
    #[tactic(auto, using(crate::proofs::Written::ended_all, crate::proofs::Written::ended_prefix))]
    pub fn put<K: Sink>(mut self, gather: &mut Gather, sink: &mut K) -> Result<(), Failed>
        requires room { length self < 192 }
        ensures all { OnOk result (GathersAll (K.taken sink.old) gather.old.kept (K.taken sink.new) gather.new.kept (ended self)) }
        ensures prefix { OnErr result (AppendsPrefix (K.taken sink.old) (K.taken sink.new) (gather.old.kept ++ ended self)) }
        ensures size { gather.new.size ≡ gather.old.size }
        ensures names { K.names sink.new ≡ K.names sink.old }
        ensures outcomes { StopsAtFailure (K.outcomes sink.old) (K.outcomes sink.new) result }
        ensures cause { HasCause (K.faults sink.old) (K.faults sink.new) result }
    {
        self.text("\n");
        gather.put(sink, self.text.as_str().as_bytes())
    }
}
