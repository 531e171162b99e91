//! What a brancher hears of the nodes of a search, held against the log.

use super::empty_sink;
use crate::small_problem::{Rising, members, rising_with};
use brancher::{Brancher, Choice, Event, pick};
use sopl_base::SearchStop;
use sopl_io::MemSink;
use sopl_search::Crew;
use std::alloc::{AllocError, Global};

/// Chooses nothing, and keeps the events that it hears. Asked where the first cell ends at 1000 or above, it answers a choice that stands for the next one.
#[derive(Drop)]
struct ListeningBrancher {
    heard: [Option<Event>; 40],
    count: usize,
    told: usize,
}

/// A choice that stands for an event, or for none.
fn choice_for(event: Option<Event>) -> Choice {
    let (cell, cut) = match event {
        Some(Event::Split { cell, cut }) => (cell, cut),
        Some(Event::Closed { cell: Some(cell) }) => (cell, 100),
        Some(Event::Closed { cell: None }) => (0, 101),
        Some(Event::Found) => (0, 102),
        None => (0, 103),
    };
    Choice {
        cell,
        cut,
        low_first: true,
    }
}

impl Brancher for ListeningBrancher {
    ghost use Rattle.std.specs.Prelude.{codes, None};
    ghost use Rattle.brancher.specs.Rules.{free};

    ghost label = { λ _. codes "listening" };

    ghost rule = { λ _. free };

    ghost heard = { λ _. None };

    fn name(&self) -> &str {
        "listening"
    }

    fn choose(&mut self, _lows: &[i64], highs: &[i64]) -> Option<Choice> {
        if *highs.first()? < 1000 {
            return None;
        }
        let at = self.told;
        self.told = at.saturating_add(1);
        match self.heard.get(at) {
            Some(event) => Some(choice_for(*event)),
            None => None,
        }
    }

    fn told(&mut self, event: Event) {
        let at = self.count;
        self.count = at.saturating_add(1);
        if let Some(place) = self.heard.get_mut(at) {
            *place = Some(event);
        }
    }
}

/// The choice that stands for the next event which a brancher heard.
fn told_next(asked: &mut Option<Box<dyn Brancher>>) -> Option<Choice> {
    pick(asked, &[0, 0], &[1000, 1000], 0)
}

/// A log as far as it was read: the cell that each node cut, the number of the last node, and the cell that its parent cut.
#[derive(Drop)]
struct LogReading {
    cells: [Option<u32>; 40],
    node: usize,
    above: Option<u32>,
}

/// The number that digits write.
fn number(digits: &str) -> u32 {
    let mut value: u32 = 0;
    for byte in digits.bytes() {
        value = value
            .wrapping_mul(10)
            .wrapping_add(u32::from(byte.wrapping_sub(b'0')));
    }
    value
}

impl LogReading {
    /// Goes to the node that a line begins.
    fn begin(&mut self, line: &str) {
        let (node, parent) = line.split_once(' ').unwrap_or((line, ""));
        let (above, _side) = parent.split_once(' ').unwrap_or(("39", ""));
        self.node = number(node) as usize;
        self.above = match self.cells.get(number(above) as usize) {
            Some(cell) => *cell,
            None => None,
        };
    }

    /// Notes where the node is cut.
    fn cut(&mut self, line: &str) -> Event {
        let (cell, cut) = line.split_once(' ').unwrap_or((line, ""));
        let cell = number(cell);
        if let Some(place) = self.cells.get_mut(self.node) {
            *place = Some(cell);
        }
        Event::Split {
            cell,
            cut: i64::from(number(cut)),
        }
    }

    /// Reads a line; the event of the node that it finishes, if it finishes one.
    fn event(&mut self, line: &str) -> Option<Event> {
        if line == "v" {
            return Some(Event::Found);
        }
        let (kind, rest) = line.split_once(' ')?;
        if kind == "n" {
            self.begin(rest);
        }
        if kind == "x" {
            return Some(self.cut(rest));
        }
        if kind == "f" {
            return Some(Event::Closed { cell: self.above });
        }
        None
    }
}

/// How many nodes a log has that are split, closed or a point; none where a brancher heard anything but these, in this order.
fn counts_heard(asked: &mut Option<Box<dyn Brancher>>, log: &str) -> Option<(u32, u32, u32)> {
    let mut reading = LogReading {
        cells: [None; 40],
        node: 0,
        above: None,
    };
    let mut splits: u32 = 0;
    let mut closed: u32 = 0;
    let mut points: u32 = 0;
    for line in log.lines() {
        let Some(event) = reading.event(line) else {
            continue;
        };
        if told_next(asked) != Some(choice_for(Some(event))) {
            return None;
        }
        match event {
            Event::Split { .. } => splits = splits.wrapping_add(1),
            Event::Closed { .. } => closed = closed.wrapping_add(1),
            Event::Found => points = points.wrapping_add(1),
        }
    }
    if told_next(asked) != Some(choice_for(None)) {
        return None;
    }
    Some((splits, closed, points))
}

/// Gives two seats these turns, as long as a node is open, and closes the search. The brancher that was asked comes back.
#[tactic(auto, using(crate::proofs::Rising::rising_posed))]
fn asked_in(
    alloc: Global,
    program: &Rising,
    turns: &[u32],
    brancher: Option<Box<dyn Brancher>>,
    sink: &mut MemSink,
) -> Result<Option<Box<dyn Brancher>>, SearchStop> {
    let props = members(alloc, program)?;
    let mut crew = Crew::new(alloc, program, props, 2, brancher)?;
    'steps: for seat in turns {
        if crew.open_nodes() == 0 || *seat > 1 || crew.finished() > 1000 {
            break;
        }
        crew.step(program, *seat, sink)?;
    }
    if crew.finished() == 0 || crew.finished() > 1000 {
        return Err(SearchStop::NoMemory);
    }
    match crew.close(program, sink) {
        Ok(_) => Ok(crew.brancher.take()),
        Err(stop) => Err(stop),
    }
}

/// How many nodes of a search are split, closed or a point; none where its brancher heard anything else.
fn counts_of(
    alloc: Global,
    program: &Rising,
    turns: &[u32],
    sink: &mut MemSink,
) -> Result<Option<(u32, u32, u32)>, SearchStop> {
    let listening = ListeningBrancher {
        heard: [None; 40],
        count: 0,
        told: 0,
    };
    let asked: Box<dyn Brancher> = match Box::new(alloc, listening) {
        Ok(asked) => asked,
        Err(failed) => return Err(AllocError::from(failed).into()),
    };
    let mut heard = asked_in(alloc, program, turns, Some(asked), sink)?;
    let log = std::str::from_utf8(sink.bytes()).unwrap_or("");
    Ok(counts_heard(&mut heard, log))
}

#[test]
fn events_in_the_order_of_the_log(rt: HostRuntime) {
    for (word, first, second, turns, want) in [
        ("one point", (3, 3), (4, 4), [0; 20].as_slice(), (0, 0, 1)),
        (
            "a closed root",
            (5, 6),
            (0, 4),
            [0; 20].as_slice(),
            (0, 1, 0),
        ),
        ("all kinds", (0, 2), (0, 1), [0; 20].as_slice(), (2, 1, 2)),
        (
            "a search that is cut off",
            (0, 7),
            (0, 5),
            [0; 9].as_slice(),
            (6, 2, 1),
        ),
        (
            "two seats by turns",
            (0, 3),
            (3, 3),
            [0, 1, 0, 1, 0, 1, 0, 1].as_slice(),
            (3, 2, 2),
        ),
    ] {
        if let Some(program) = rising_with(rt.alloc(), &[first, second]).expect(&rt, "memory") {
            let mut sink = empty_sink(rt.alloc(), &[]).expect(&rt, "memory");
            let counts = counts_of(rt.alloc(), &program, turns, &mut sink).expect(&rt, "steps");
            assert_eq!(rt; counts, Some(want), "{word}");
        }
    }
}
