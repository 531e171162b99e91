//! Each kind on worked ends, and what becomes of answers that cut nothing.

use brancher::{Brancher, Choice, Event, Failing, Lower, Widest, chosen, pick, tell};
use std::alloc::{AllocError, Global};
use std::test::Fail;

// A brancher that answers what it is made with, or, once it was told something, the cell of as many events as it heard.
#[derive(Drop)]
struct Scripted {
    answer: Option<Choice>,
    heard: u32,
}

impl Brancher for Scripted {
    ghost use Rattle.std.specs.Prelude.{codes, None};
    ghost use Rattle.brancher.specs.Rules.{free};

    ghost label = { λ _. codes "scripted" };

    ghost rule = { λ _. free };

    ghost heard = { λ _. None };

    fn name(&self) -> &str {
        "scripted"
    }

    fn choose(&mut self, _lows: &[i64], _highs: &[i64]) -> Option<Choice> {
        if self.heard == 0 {
            return self.answer;
        }
        low_of(self.heard, 0)
    }

    fn told(&mut self, _event: Event) {
        self.heard = self.heard.saturating_add(1);
    }
}

fn low_of(cell: u32, cut: i64) -> Option<Choice> {
    cut_at(cell, cut, true)
}

fn cut_at(cell: u32, cut: i64, low_first: bool) -> Option<Choice> {
    Some(Choice {
        cell,
        cut,
        low_first,
    })
}

// What is asked of three cells, over 0..0, 2..5 and 0..9: a brancher by its name, or the first one, after it was told these events.
#[derive(Clone, Copy)]
struct Asked {
    name: Option<&'static str>,
    events: &'static [Event],
    depth: u32,
    scripted: Option<Choice>,
}

const NAMED: Asked = Asked {
    name: Some("scripted"),
    events: &[],
    depth: 0,
    scripted: None,
};

fn answer_of(alloc: Global, asked: &Asked) -> Result<Option<Choice>, AllocError> {
    let mut list: Vec<Box<dyn Brancher>> = Vec::new(alloc);
    list.push(Box::new(alloc, Lower::new())?)?;
    list.push(Box::new(alloc, Widest::new())?)?;
    list.push(Box::new(alloc, Failing::new())?)?;
    let scripted = Scripted {
        answer: asked.scripted,
        heard: 0,
    };
    list.push(Box::new(alloc, scripted)?)?;
    let second = Scripted {
        answer: low_of(1, 3),
        heard: 0,
    };
    list.push(Box::new(alloc, second)?)?;
    let mut brancher = chosen(list, asked.name);
    for event in asked.events {
        tell(&mut brancher, *event);
    }
    Ok(pick(&mut brancher, &[0, 2, 0], &[0, 5, 9], asked.depth))
}

fn named(name: &'static str) -> Asked {
    Asked {
        name: Some(name),
        ..NAMED
    }
}

fn told(name: &'static str, events: &'static [Event]) -> Asked {
    Asked {
        name: Some(name),
        events,
        ..NAMED
    }
}

fn says(scripted: Option<Choice>) -> Asked {
    Asked { scripted, ..NAMED }
}

fn deep(depth: u32, name: &'static str) -> Asked {
    Asked {
        name: Some(name),
        depth,
        ..NAMED
    }
}

#[test]
fn each_is_asked(rt: HostRuntime) -> Result<(), Fail> {
    let nobody = named("nobody");
    let first = Asked {
        name: None,
        ..NAMED
    };
    let rows = [
        (
            "the least value of the first open cell",
            named("lower"),
            low_of(1, 2),
        ),
        (
            "the middle of the widest cell",
            named("widest"),
            low_of(2, 4),
        ),
        ("all counters 0", named("failing"), low_of(1, 3)),
        ("the first one where no name is given", first, low_of(1, 2)),
        ("no such name: none is asked", nobody, low_of(1, 3)),
        (
            "a counter raised",
            told("failing", &[Event::Closed { cell: Some(2) }]),
            low_of(2, 4),
        ),
        (
            "a counter is shared",
            told("failing", &[Event::Closed { cell: Some(258) }]),
            low_of(2, 4),
        ),
        (
            "a closed root",
            told("failing", &[Event::Closed { cell: None }]),
            low_of(1, 3),
        ),
        (
            "a split",
            told("failing", &[Event::Split { cell: 2, cut: 0 }]),
            low_of(1, 3),
        ),
        ("a point", told("failing", &[Event::Found]), low_of(1, 3)),
        (
            "the highest half first",
            says(cut_at(2, 8, false)),
            cut_at(2, 8, false),
        ),
        ("no answer", says(None), low_of(1, 3)),
        ("a fixed cell", says(low_of(0, 0)), low_of(1, 3)),
        ("a cut at the upper end", says(low_of(1, 5)), low_of(1, 3)),
        (
            "a cut below the lower end",
            says(low_of(1, 1)),
            low_of(1, 3),
        ),
        (
            "a cell that does not exist",
            says(low_of(4294967295, i64::MIN)),
            low_of(1, 3),
        ),
        (
            "two events are heard",
            told("scripted", &[Event::Found, Event::Found]),
            low_of(2, 0),
        ),
        ("asked at depth 511", deep(511, "widest"), low_of(2, 4)),
        ("not asked at depth 512", deep(512, "widest"), low_of(1, 3)),
    ];
    for (row, asked, wanted) in &rows {
        assert_eq!(rt; answer_of(rt.alloc(), asked)?, *wanted, "{row}");
    }
    Ok(())
}
