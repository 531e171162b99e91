//! Branchers that answer what cuts nothing, what is odd, or what they are told to, and one that counts what it is asked and told.

use crate::runs::{
    Ended, FARMER, ORDER, ORDER_ANSWER, WIDE, ends, is_accepted, ran_as_main, ran_with, source_of,
    words_in,
};
use answer_run::Status;
use brancher::{Brancher, Choice, Event};
use std::alloc::{AllocError, Global};
use std::process::Abort;
use std::test::Fail;

/// What a brancher answers.
#[derive(Clone, Copy)]
enum Habit {
    /// Nothing.
    Silent,
    /// Always this choice.
    Always(Choice),
    /// The first cell, cut at its upper end.
    AtTheTop,
    /// The first cell that has one value, cut at it.
    Fixed,
    /// The first cell that has more, cut at its least value, of the halves by turns the low and the high one first.
    Turning,
    /// The first cell that has more, cut at its least value; the half that comes first is told by what was counted.
    Counting,
    /// The cell behind the last one, cut at 0.
    Behind,
    /// The first cell, cut below its lower end.
    Below,
    /// What cuts the box for which it was asked before.
    Late,
    /// By turns nothing, and the first cell that has more than one value, cut at its least value.
    Halting,
}

/// A brancher of a habit. It counts how often it was asked, and how many events it was told, and keeps what cuts the box for which it was
/// asked last.
#[derive(Drop)]
struct Odd {
    name: &'static str,
    habit: Habit,
    asked: u32,
    told: u32,
    kept: Option<Choice>,
}

/// Whether the low half comes first where so much was counted.
const fn is_low_first(asked: u32, told: u32) -> bool {
    asked.saturating_add(told) % 3 == 0
}

/// The first cell that has more than one value, cut at its lower end.
fn cut_low(lows: &[i64], highs: &[i64], low_first: bool) -> Option<Choice> {
    let at = lows.iter().zip(highs).position(|(lo, hi)| lo < hi)?;
    Some(Choice {
        cell: u32::try_from(at).unwrap_or(0),
        cut: *lows.get(at)?,
        low_first,
    })
}

/// The first cell that has one value, cut at it.
fn cut_fixed(lows: &[i64], highs: &[i64]) -> Option<Choice> {
    let at = lows.iter().zip(highs).position(|(lo, hi)| lo == hi)?;
    Some(Choice {
        cell: u32::try_from(at).unwrap_or(0),
        cut: *lows.get(at)?,
        low_first: true,
    })
}

/// The first cell, cut at its upper end.
fn cut_top(highs: &[i64]) -> Option<Choice> {
    Some(Choice {
        cell: 0,
        cut: *highs.first()?,
        low_first: true,
    })
}

/// The cell behind the last one, cut at 0.
fn cut_behind(lows: &[i64]) -> Option<Choice> {
    Some(Choice {
        cell: u32::try_from(lows.len()).unwrap_or(0),
        cut: 0,
        low_first: true,
    })
}

/// The first cell, cut below its lower end.
fn cut_below(lows: &[i64]) -> Option<Choice> {
    let lo = *lows.first()?;
    Some(Choice {
        cell: 0,
        cut: lo.saturating_sub(1),
        low_first: true,
    })
}

/// At each second time the first cell that has more than one value, cut at its least value.
fn cut_at_times(lows: &[i64], highs: &[i64], asked: u32) -> Option<Choice> {
    if asked % 2 == 1 {
        return None;
    }
    cut_low(lows, highs, true)
}

impl Brancher for Odd {
    ghost use Rattle.std.specs.Prelude.{None};
    ghost use Rattle.brancher.specs.Rules.{free};

    ghost label = { λ b. b.name.now };

    ghost rule = { λ _. free };

    ghost heard = { λ _. None };

    fn name(&self) -> &str {
        self.name
    }

    fn choose(&mut self, lows: &[i64], highs: &[i64]) -> Option<Choice> {
        self.asked = self.asked.saturating_add(1);
        let before = self.kept;
        self.kept = cut_low(lows, highs, true);
        match self.habit {
            Habit::Silent => None,
            Habit::Always(choice) => Some(choice),
            Habit::AtTheTop => cut_top(highs),
            Habit::Fixed => cut_fixed(lows, highs),
            Habit::Turning => cut_low(lows, highs, self.asked % 2 == 1),
            Habit::Counting => cut_low(lows, highs, is_low_first(self.asked, self.told)),
            Habit::Behind => cut_behind(lows),
            Habit::Below => cut_below(lows),
            Habit::Late => before,
            Habit::Halting => cut_at_times(lows, highs, self.asked),
        }
    }

    fn told(&mut self, _event: Event) {
        self.told = self.told.saturating_add(1);
    }
}

/// Always this choice.
const fn always(cell: u32, cut: i64, low_first: bool) -> Habit {
    Habit::Always(Choice {
        cell,
        cut,
        low_first,
    })
}

/// A brancher of a name and a habit, which has counted nothing yet.
const fn new_odd(name: &'static str, habit: Habit) -> Odd {
    Odd {
        name,
        habit,
        asked: 0,
        told: 0,
        kept: None,
    }
}

/// Runs with the words of a line on a text, with these branchers.
fn ran_over(
    alloc: Global,
    line: &str,
    text: &str,
    branchers: Vec<Box<dyn Brancher>>,
) -> Result<Ended, AllocError> {
    let words = words_in(alloc, line)?;
    let mut source = source_of(alloc, text, &[])?;
    ran_with(alloc, &words, &mut source, &WIDE, branchers)
}

/// One brancher of this habit.
fn one(alloc: Global, habit: Habit) -> Result<Vec<Box<dyn Brancher>>, AllocError> {
    let mut branchers: Vec<Box<dyn Brancher>> = Vec::new(alloc);
    branchers.push(Box::new(alloc, new_odd("odd", habit))?)?;
    Ok(branchers)
}

/// Runs with the words of a line on a text, with a brancher of this habit.
fn ran_by(alloc: Global, line: &str, text: &str, habit: Habit) -> Result<Ended, AllocError> {
    let branchers = one(alloc, habit)?;
    ran_over(alloc, line, text, branchers)
}

/// The log is that of a brancher which counts: it was asked once at each box that was cut, and told of each one that was finished. Behind a
/// cut comes the half that its counts have first.
fn tells_counts(rt: &impl Abort, about: &str, ended: &Ended) {
    let log = std::str::from_utf8(ended.log.bytes()).unwrap_or("");
    let mut asked: u32 = 0;
    let mut told: u32 = 0;
    let mut awaited: Option<bool> = None;
    for line in log.lines() {
        if line.starts_with("n ") {
            let low = line.ends_with(" l");
            assert_eq!(rt; low, awaited.unwrap_or(low), "{about}");
            awaited = None;
        }
        if line.starts_with("x ") {
            asked = asked.saturating_add(1);
            awaited = Some(is_low_first(asked, told));
        }
        if line.starts_with("x ") || line.starts_with("f ") || line == "v" {
            told = told.saturating_add(1);
        }
    }
}

const FARMER_ANSWER: &str =
    "{\"answer\":\"optimal\",\"policy\":{\"decide\":[[\"w\",[],17],[\"c\",[],8],[\"b\",[],25]],\"next\":[]},\"value\":\"325170/3\"}\n";

const CROWDED: &str =
    "range R = 1..3; dvar int x[R] in 1..2; subject to { allDifferent(all(i in R) x[i]); }";

const TASKS: &str =
    "range R = 1..2; dvar int s[R] in 0..3; minimize expected(max(s[1] + 2, s[2] + 2)); subject to { cumulative(all(i in R) (s[i], 2, 1), 1); s[1] <= s[2]; }";

const TASKS_ANSWER: &str =
    "{\"answer\":\"optimal\",\"policy\":{\"decide\":[[\"s\",[1],0],[\"s\",[2],2]],\"next\":[]},\"value\":\"4/1\"}\n";

/// A text is answered so with a brancher of this habit, and `check` accepts the log.
fn is_answered(
    rt: &impl Abort,
    alloc: Global,
    about: &str,
    habit: Habit,
    text: &str,
    want: &str,
) -> Result<(), AllocError> {
    let ended = ran_by(alloc, "solve m", text, habit)?;
    ends(rt, about, &ended, Status::Done, want);
    is_accepted(rt, alloc, about, text, ended.log.bytes())
}

/// Each habit answers each text as no brancher does: also one that names no cell that there is, a cut that is no number of a cell, or
/// what cuts another box.
#[test]
fn habits_change_no_answer(rt: HostRuntime) -> Result<(), Fail> {
    let habits = [
        ("no choice", Habit::Silent),
        ("the upper end", Habit::AtTheTop),
        ("a cell of one value", Habit::Fixed),
        ("sides by turns", Habit::Turning),
        ("sides by counts", Habit::Counting),
        ("a cell behind the last one", Habit::Behind),
        ("a cut below the lower end", Habit::Below),
        ("another box", Habit::Late),
        ("none and some by turns", Habit::Halting),
        ("the first cell at 0", always(0, 0, false)),
        ("the first cell at the least cut", always(0, i64::MIN, true)),
        (
            "the first cell at the greatest cut",
            always(0, i64::MAX, false),
        ),
        ("a cell that is not there", always(999, 0, false)),
        (
            "the greatest cell at the least cut",
            always(4294967295, i64::MIN, true),
        ),
    ];
    for (text, want) in [
        (ORDER, ORDER_ANSWER),
        (FARMER, FARMER_ANSWER),
        (CROWDED, "{\"answer\":\"infeasible\"}\n"),
        (TASKS, TASKS_ANSWER),
    ] {
        for (about, habit) in habits {
            is_answered(&rt, rt.alloc(), about, habit, text, want)?;
        }
    }
    Ok(())
}

/// One that counts was asked once at each box that is cut, and told of each one that is finished.
#[test]
fn counts_are_told(rt: HostRuntime) -> Result<(), Fail> {
    for (about, text) in [
        ("orders", ORDER),
        ("a farm", FARMER),
        ("a crowd", CROWDED),
        ("tasks", TASKS),
    ] {
        let ended = ran_by(rt.alloc(), "solve m", text, Habit::Counting)?;
        tells_counts(&rt, about, &ended);
    }
    Ok(())
}

const EITHER: &str = "dvar int x in 0..1; maximize expected(x); subject to { }";

const HIGH_FIRST: &str = "sopl-log 1\nn 0 r\nx 0 0\nn 1 0 h\nv\nn 2 0 l\nf b\nend optimal 1\n";

const LOW_FIRST: &str = "sopl-log 1\nn 0 r\nx 0 0\nn 1 0 l\nv\nn 2 0 h\nv\nend optimal 1\n";

/// The half that a brancher has searched first comes first in the log.
#[test]
fn half_that_comes_first(rt: HostRuntime) -> Result<(), Fail> {
    for (about, low_first, log) in [
        ("the high half", false, HIGH_FIRST),
        ("the low half", true, LOW_FIRST),
    ] {
        let habit = always(0, 0, low_first);
        let ended = ran_by(rt.alloc(), "solve --budget 3 m", EITHER, habit)?;
        assert_eq!(rt; ended.status, Status::Done, "{about}");
        assert_eq!(rt; ended.log.bytes(), log.as_bytes(), "{about}");
    }
    Ok(())
}

const TEN: &str = "dvar int x in 0..9; maximize expected(x); subject to { }";

/// Words, the status, and how the log begins: by where the root is cut it tells which of three branchers was asked.
const NAMES: &[(&str, Status, &str)] = &[
    ("solve m", Status::Done, "sopl-log 1\nn 0 r\nx 0 0\n"),
    (
        "solve --branch twice m",
        Status::Done,
        "sopl-log 1\nn 0 r\nx 0 1\n",
    ),
    (
        "solve m --branch=once",
        Status::Done,
        "sopl-log 1\nn 0 r\nx 0 0\n",
    ),
    ("solve --branch nobody m", Status::Usage, ""),
    ("tree --branch twice m", Status::Usage, ""),
];

/// Three branchers, the last two of one name.
fn three(alloc: Global) -> Result<Vec<Box<dyn Brancher>>, AllocError> {
    let mut branchers: Vec<Box<dyn Brancher>> = Vec::new(alloc);
    for (name, cut) in [("once", 0), ("twice", 1), ("twice", 2)] {
        branchers.push(Box::new(alloc, new_odd(name, always(0, cut, true)))?)?;
    }
    Ok(branchers)
}

/// Runs with the words of a line and three branchers, the last two of one name.
fn ran_by_three(alloc: Global, line: &str) -> Result<Ended, AllocError> {
    let branchers = three(alloc)?;
    ran_over(alloc, line, TEN, branchers)
}

/// Of several branchers the first one of a name is asked, or the first of all; usage where there is none.
#[test]
fn first_of_a_name_is_asked(rt: HostRuntime) -> Result<(), Fail> {
    for (line, status, begin) in NAMES {
        let ended = ran_by_three(rt.alloc(), line)?;
        assert_eq!(rt; ended.status, *status, "{line}");
        assert!(rt; ended.log.bytes().starts_with(begin.as_bytes()), "{line}");
        assert_eq!(rt; ended.log.bytes().is_empty(), begin.is_empty(), "{line}");
    }
    Ok(())
}

const THOUSAND: &str = "dvar int x in 0..1000; maximize expected(x); subject to { }";

const THOUSAND_ANSWER: &str =
    "{\"answer\":\"optimal\",\"policy\":{\"decide\":[[\"x\",[],1000]],\"next\":[]},\"value\":\"1000/1\"}\n";

/// The first line that cuts a box.
fn first_cut(log: &str) -> &str {
    for line in log.lines() {
        if line.starts_with("x ") {
            return line;
        }
    }
    ""
}

/// One that cuts at the least value is asked down to the depth 511. At the next one the box from 512 to 1000 is halved.
#[test]
fn no_one_is_asked_at_a_depth_of_512(rt: HostRuntime) -> Result<(), Fail> {
    let ended = ran_as_main(rt.alloc(), "solve --branch lower m", THOUSAND)?;
    ends(&rt, "lower", &ended, Status::Done, THOUSAND_ANSWER);
    let log = std::str::from_utf8(ended.log.bytes()).unwrap_or("");
    let (_before, behind) = log.split_once("\nx 0 511\n").unwrap_or((log, ""));
    assert_eq!(rt; first_cut(behind), "x 0 756");
    Ok(())
}
