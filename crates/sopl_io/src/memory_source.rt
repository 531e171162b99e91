//! A source of named texts in memory.
ghost use Rattle.std.specs.Prelude.{◌≡◌, ◌↔◌, ◌⊎◌, ◌<◌, ◌≤◌, ◌-◌, ◌^◌, [], length, min, drop, Some, None, IsErr, IsNone, IfOk, OnOk, OnErr, Contains, position};
ghost use Rattle.std.specs.Io.{ReadsAtMost};
ghost use Rattle.std.specs.Io.KnownBytes.{ReadConsumes};
ghost use Rattle.sopl_io.specs.Calls.{counted, outcome_of, with_call};
ghost use Rattle.sopl_io.specs.Causes.{HasCause, one_more, count_after};
ghost use Rattle.sopl_io.specs.Stock.{named, named_text};
ghost use Rattle.sopl_io.specs.Memory.{texts_of, text_at, has_name};

use crate::fault_plan::FaultPlan;
use crate::give::give;
use crate::{Failed, Source};
use std::marker::Model;

/// Gives texts by name, at most so many bytes at once. A call fails where its number is listed: calls are numbered from 0, and the number
/// stays at 2^64 - 1 once it is there.
#[derive(Drop)]
pub struct MemSource {
    texts: Vec<(String, Vec<u8>)>,
    current: Option<usize>,
    position: usize,
    most: usize,
    plan: FaultPlan,
}

impl Model for MemSource {
    ghost use Rattle.std.specs.Prelude.{◌≤◌, drop};
    ghost use Rattle.sopl_io.specs.Memory.{NamedInput, texts_of, text_at};

    ghost Value = { NamedInput };

    ghost view = { λ s. record {
      texts = texts_of s.texts.items;
      left = drop s.position (text_at s.texts.items s.current);
      most = s.most;
      failing = s.plan.failing.items;
      calls = s.plan.calls;
      faults = s.plan.faults;
    } };

    ghost invariant = { λ s. 1 ≤ s.most };
}

impl MemSource {
    /// A source of these texts, of which none is begun.
    pub fn new(texts: Vec<(String, Vec<u8>)>, failing: Vec<u64>) -> MemSource
        ensures stock { ⟦<MemSource as Source>⟧.stock result ≡ Some (named (texts_of texts.items)) }
        ensures texts { result.texts ≡ texts_of texts.items }
        ensures left { result.left ≡ [] }
        ensures names { ⟦<MemSource as Source>⟧.names result ≡ None }
        ensures most { result.most ≡ 2 ^ 64 - 1 }
        ensures failing { result.failing ≡ failing.items }
        ensures calls { result.calls ≡ 0 }
        ensures faults { result.faults ≡ 0 }
    {
        MemSource::dribbling(texts, failing, usize::MAX)
    }

    /// A source of these texts, of which none is begun, that gives at most so many bytes at once.
    pub fn dribbling(texts: Vec<(String, Vec<u8>)>, failing: Vec<u64>, most: usize) -> MemSource
        requires some { 1 ≤ most }
        ensures stock { ⟦<MemSource as Source>⟧.stock result ≡ Some (named (texts_of texts.items)) }
        ensures texts { result.texts ≡ texts_of texts.items }
        ensures left { result.left ≡ [] }
        ensures names { ⟦<MemSource as Source>⟧.names result ≡ None }
        ensures most { result.most ≡ most }
        ensures failing { result.failing ≡ failing.items }
        ensures calls { result.calls ≡ 0 }
        ensures faults { result.faults ≡ 0 }
    {
        MemSource {
            texts,
            current: None,
            position: 0,
            most,
            plan: FaultPlan::new(failing),
        }
    }
}

impl Source for MemSource {
    ghost left = { λ s. Some s.left };

    ghost stock = { λ s. Some (named s.texts) };

    ghost faults = { λ s. s.faults };

    ghost outcomes = { λ s. counted s.faults };

    ghost names = { λ _. None };

    #[tactic(auto, using(crate::proofs::Places::text_found, crate::proofs::Places::text_missing))]
    fn begin(&mut self, name: &str) -> Result<(), Failed>
        ensures text { OnOk result (named_text self.old.texts name.now ≡ Some self.new.left) }
        ensures nothing { OnErr result (self.new.left ≡ []) }
        ensures texts { self.new.texts ≡ self.old.texts }
        ensures most { self.new.most ≡ self.old.most }
        ensures cause { HasCause self.old.faults self.new.faults result }

        // It fails exactly where its number is listed, or where no text has the name.
        ensures fails { IsErr result ↔ (Contains self.old.failing self.old.calls
            ⊎ IsNone (named_text self.old.texts name.now)) }
        ensures failing { self.new.failing ≡ self.old.failing }
        ensures calls { self.new.calls ≡ one_more self.old.calls }
        ensures counted { self.new.faults ≡ count_after result self.old.faults }
        ensures outcomes { counted self.new.faults ≡ with_call (counted self.old.faults) (outcome_of result) }
    {
        self.current = None;
        self.position = 0;
        if self.plan.is_next_listed() {
            return Err(self.plan.fail());
        }
        match place_of(&self.texts, name) {
            Some(at) => {
                self.current = Some(at);
                Ok(())
            }
            None => Err(self.plan.fail()),
        }
    }

    fn read(&mut self, buf: &mut [u8]) -> Result<usize, Failed>
        requires { 0 < length buf.old }
        ensures bound { ReadsAtMost result buf.new }
        ensures bytes { ReadConsumes (Some self.old.left) (Some self.new.left) result buf.new }
        ensures texts { self.new.texts ≡ self.old.texts }
        ensures most { self.new.most ≡ self.old.most }
        ensures cause { HasCause self.old.faults self.new.faults result }

        // It fails exactly where its number is listed, and else fills what it can, with at most so many bytes.
        ensures fails { IsErr result ↔ Contains self.old.failing self.old.calls }
        ensures count { IfOk result (λ n. n ≡ min (min (length buf.old) self.old.most) (length self.old.left)) }
        ensures failing { self.new.failing ≡ self.old.failing }
        ensures calls { self.new.calls ≡ one_more self.old.calls }
        ensures counted { self.new.faults ≡ count_after result self.old.faults }
        ensures outcomes { counted self.new.faults ≡ with_call (counted self.old.faults) (outcome_of result) }
    {
        if self.plan.is_next_listed() {
            return Err(self.plan.fail());
        }
        let text = text_at(&self.texts, self.current);
        let room = buf.len().min(self.most);
        Ok(give(text, &mut self.position, &mut buf[..room]))
    }
}

// The text at that place, or the empty text where there is none.
fn text_at(texts: &[(String, Vec<u8>)], at: Option<usize>) -> &[u8]
    ensures { result.now ≡ text_at texts.now at }
{
    match at {
        Some(at) => match texts.get(at) {
            Some(text) => &text.1,
            None => &[],
        },
        None => &[],
    }
}

// The place of the first text of that name.
fn place_of(texts: &[(String, Vec<u8>)], name: &str) -> Option<usize>
    ensures { result ≡ position (has_name name.now) texts.now }
{
    texts.iter().position(|text| text.0.as_str() == name)
}
