//! A brancher that answers as it is told to.

use brancher::{Brancher, Choice, Event};

/// What it answers: nothing; the first cell cut at its upper end; this choice; the first cell cut at its lower end, with the half that is
/// searched first changed at each call; or that with the low half first as long as it was asked more often than it heard of a node.
#[derive(Clone, Copy)]
pub(super) enum AnswerKind {
    Nothing,
    AtUpperEnd,
    Always(Choice),
    Turning,
    Counting,
}

/// It counts how often it was asked, and how many events it heard.
#[derive(Drop)]
pub(super) struct AnsweringBrancher {
    pub(super) kind: AnswerKind,
    pub(super) calls: u32,
    pub(super) events: u32,
}

/// The first cell, cut at the first one of these ends.
fn cut_at(ends: &[i64], low_first: bool) -> Option<Choice> {
    let Some(end) = ends.first() else {
        return None;
    };
    Some(Choice {
        cell: 0,
        cut: *end,
        low_first,
    })
}

impl Brancher for AnsweringBrancher {
    ghost use Rattle.std.specs.Prelude.{codes, None};
    ghost use Rattle.brancher.specs.Rules.{free};

    ghost label = { λ _. codes "answering" };

    ghost rule = { λ _. free };

    ghost heard = { λ _. None };

    fn name(&self) -> &str {
        "answering"
    }

    fn choose(&mut self, lows: &[i64], highs: &[i64]) -> Option<Choice> {
        self.calls = self.calls.saturating_add(1);
        match self.kind {
            AnswerKind::Nothing => None,
            AnswerKind::AtUpperEnd => cut_at(highs, true),
            AnswerKind::Always(choice) => Some(choice),
            AnswerKind::Turning => cut_at(lows, self.calls % 2 == 0),
            AnswerKind::Counting => cut_at(lows, self.calls > self.events),
        }
    }

    fn told(&mut self, _event: Event) {
        self.events = self.events.saturating_add(1);
    }
}
