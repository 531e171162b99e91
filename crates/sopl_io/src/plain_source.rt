//! A source of texts in order, in memory.
ghost use Rattle.std.specs.Prelude.{◌≡◌, ◌<◌, [], length, min, drop, Some, None, IsOk, IfOk, unwrap_or, slice_get};
ghost use Rattle.std.specs.Io.{ReadsAtMost};
ghost use Rattle.std.specs.Io.KnownBytes.{ReadConsumes};
ghost use Rattle.sopl_io.specs.Calls.{counted, outcome_of, with_call};
ghost use Rattle.sopl_io.specs.Stock.{in_order};
ghost use Rattle.sopl_io.specs.Memory.{contents_of, content_at};

use crate::give::give;
use crate::{Failed, Source};
use std::marker::Model;

/// Gives its texts in order, whatever the names: the k-th `begin` turns to the k-th text, and past the last
/// one to an empty text. It never fails.
#[derive(Drop)]
pub struct PlainSource {
    texts: Vec<Vec<u8>>,
    current: Option<usize>,
    next: usize,
    position: usize,
}

impl Model for PlainSource {
    ghost use Rattle.std.specs.Prelude.{drop};
    ghost use Rattle.sopl_io.specs.Memory.{OrderedInput, contents_of, content_at};

    ghost Value = { OrderedInput };

    ghost view = { λ s. record {
      left = drop s.position (content_at s.texts.items s.current);
      later = drop s.next (contents_of s.texts.items);
    } };
}

impl PlainSource {
    /// A source of these texts, of which none is begun.
    pub fn new(texts: Vec<Vec<u8>>) -> PlainSource
        ensures stock { ⟦<PlainSource as Source>⟧.stock result ≡ Some (in_order (contents_of texts.items)) }
        ensures left { result.left ≡ [] }
        ensures names { ⟦<PlainSource as Source>⟧.names result ≡ None }
        ensures later { result.later ≡ contents_of texts.items }
    {
        PlainSource {
            texts,
            current: None,
            next: 0,
            position: 0,
        }
    }
}

impl Source for PlainSource {
    ghost left = { λ s. Some s.left };

    ghost stock = { λ s. Some (in_order s.later) };

    ghost faults = { λ _. 0 };

    ghost outcomes = { λ _. counted 0 };

    ghost names = { λ _. None };

    #[tactic(auto, using(crate::proofs::Order::first_later, crate::proofs::Order::after_first))]
    fn begin(&mut self, _name: &str) -> Result<(), Failed>
        ensures succeeds { IsOk result }
        ensures outcomes { counted 0 ≡ with_call (counted 0) (outcome_of result) }
        ensures text { self.new.left ≡ unwrap_or (slice_get self.old.later 0) [] }
        ensures later { self.new.later ≡ drop 1 self.old.later }
    {
        self.current = Some(self.next);
        self.position = 0;
        if self.next < self.texts.len() {
            self.next += 1;
        }
        Ok(())
    }

    fn read(&mut self, buf: &mut [u8]) -> Result<usize, Failed>
        requires { 0 < length buf.old }
        ensures succeeds { IsOk result }
        ensures outcomes { counted 0 ≡ with_call (counted 0) (outcome_of result) }
        ensures bound { ReadsAtMost result buf.new }
        ensures bytes { ReadConsumes (Some self.old.left) (Some self.new.left) result buf.new }
        ensures count { IfOk result (λ n. n ≡ min (length buf.old) (length self.old.left)) }
        ensures later { self.new.later ≡ self.old.later }
    {
        let text = content_at(&self.texts, self.current);
        Ok(give(text, &mut self.position, buf))
    }
}

// The text at that place, or the empty text where there is none.
fn content_at(texts: &[Vec<u8>], at: Option<usize>) -> &[u8]
    ensures { result.now ≡ content_at texts.now at }
{
    match at {
        Some(at) => match texts.get(at) {
            Some(text) => text,
            None => &[],
        },
        None => &[],
    }
}
