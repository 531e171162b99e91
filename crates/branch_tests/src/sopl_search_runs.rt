//! Searches of small problems: their outcomes, their logs, whom they ask, and what is left where a call fails.

ghost use Rattle.std.specs.Prelude.{◌≤◌};
ghost use Rattle.sopl_search.specs.Schedules.{AreSeats, IsOrder};

use crate::small_problem::{Rising, members, rising_with};
use crate::sopl_search_runs::answering::{AnswerKind, AnsweringBrancher};
use brancher::{Brancher, Choice};
use sopl_io::MemSink;
use sopl_search::{Crew, Found, Outcome, Schedule, SearchStop, Values, search};
use std::alloc::{AllocError, Global};

mod answering;
mod hearing;

/// What a search over cells that are to rise answers; a sink takes its log.
fn outcome_of(
    alloc: Global,
    program: &Rising,
    budget: u32,
    seats: u32,
    order: Option<u32>,
    sink: &mut MemSink,
) -> Result<Outcome, SearchStop>
    requires budget { 1 ≤ budget }
    requires seats { AreSeats seats }
    requires order { IsOrder order }
{
    let props = members(alloc, program)?;
    let schedule = Schedule::new(seats, order);
    search(alloc, program, props, budget, schedule, None, sink)
}

/// What it answers where a brancher of this kind is asked.
fn outcome_by(
    alloc: Global,
    program: &Rising,
    budget: u32,
    seats: u32,
    kind: AnswerKind,
    sink: &mut MemSink,
) -> Result<Outcome, SearchStop>
    requires budget { 1 ≤ budget }
    requires seats { AreSeats seats }
{
    let props = members(alloc, program)?;
    let schedule = Schedule::new(seats, None);
    let answering = AnsweringBrancher {
        kind,
        calls: 0,
        events: 0,
    };
    let asked: Box<dyn Brancher> = match Box::new(alloc, answering) {
        Ok(asked) => asked,
        Err(failed) => return Err(AllocError::from(failed).into()),
    };
    search(alloc, program, props, budget, schedule, Some(asked), sink)
}

/// Gives two seats these turns, as long as a node is open, and closes the search; what the last call answers. No first line is written. A
/// brancher may be asked.
#[tactic(auto, using(crate::proofs::Rising::rising_posed))]
fn driven(
    alloc: Global,
    program: &Rising,
    turns: &[u32],
    brancher: Option<Box<dyn Brancher>>,
    sink: &mut MemSink,
) -> Result<Result<Outcome, SearchStop>, SearchStop> {
    let props = members(alloc, program)?;
    let mut crew = Crew::new(alloc, program, props, 2, brancher)?;
    'steps: for seat in turns {
        if crew.open_nodes() == 0 || *seat > 1 || crew.finished() > 1000 {
            break;
        }
        crew.step(program, *seat, sink)?;
    }
    if crew.finished() == 0 || crew.finished() > 1000 {
        return Err(SearchStop::NoMemory);
    }
    Ok(crew.close(program, sink))
}

/// Whether the members of a crew have rested after the first step of its one seat.
#[tactic(auto, using(crate::proofs::Rising::rising_posed))]
fn rests_after_a_step(
    alloc: Global,
    program: &Rising,
    sink: &mut MemSink,
) -> Result<bool, SearchStop> {
    let props = members(alloc, program)?;
    let mut crew = Crew::new(alloc, program, props, 1, None)?;
    crew.step(program, 0, sink)?;
    let members = crew.members();
    Ok(members.len() == 2 && members.iter().all(|member| member.resting.rested.is_some()))
}

/// Whether a point and its value are these.
fn is_point(value: i128, cells: &Values, want: (i128, [i64; 2])) -> bool {
    value == want.0 && cells.as_slice() == want.1.as_slice()
}

/// Whether this was found, and this bound told, or none.
fn is_told(outcome: &Outcome, want: Option<(i128, [i64; 2])>, bound: Option<i128>) -> bool {
    match outcome {
        Outcome::Optimal { value, cells } => {
            bound.is_none() && want.is_some_and(|want| is_point(*value, cells, want))
        }
        Outcome::Infeasible => want.is_none() && bound.is_none(),
        Outcome::Bounded { found, bound: told } => { bound == Some(*told) && is_found(found, want) }
    }
}

/// Whether this was found, or nothing.
fn is_found(found: &Option<Found>, want: Option<(i128, [i64; 2])>) -> bool {
    match (found, want) {
        (Some(found), Some(want)) => is_point(found.value, &found.cells, want),
        (None, None) => true,
        _ => false,
    }
}

/// A sink without bytes, which takes nine at once; the calls with these numbers fail.
fn empty_sink(alloc: Global, failing: &[u64]) -> Result<MemSink, AllocError> {
    MemSink::dribbling(alloc, 1000, Vec::from_slice(alloc, failing)?, 9)
}

#[test]
fn outcomes(rt: HostRuntime) {
    for (word, first, second, budget, want, bound) in [
        ("optimal", (0, 7), (0, 5), 100, Some((5, [5, 5])), None),
        ("one point", (3, 3), (4, 4), 1, Some((3, [3, 4])), None),
        ("infeasible", (5, 6), (0, 4), 100, None, None),
        ("a budget of one node", (0, 7), (0, 5), 1, None, Some(5)),
        (
            "a budget with a point",
            (0, 7),
            (0, 5),
            7,
            Some((0, [0, 0])),
            Some(5),
        ),
    ] {
        if let Some(program) = rising_with(rt.alloc(), &[first, second]).expect(&rt, "memory") {
            let mut sink = empty_sink(rt.alloc(), &[]).expect(&rt, "memory");
            let outcome = outcome_of(rt.alloc(), &program, budget, 1, None, &mut sink).expect(
                &rt, "outcome",
            );
            assert!(rt; is_told(&outcome, want, bound), "{word}");
        }
    }
}

#[test]
fn logs(rt: HostRuntime) {
    for (word, first, second, budget, log) in [
        (
            "one point",
            (3, 3),
            (4, 4),
            1,
            "sopl-log 1\nn 0 r\nv\nend optimal 3\n",
        ),
        (
            "infeasible",
            (5, 6),
            (0, 4),
            100,
            "sopl-log 1\nn 0 r\nf h 0 0\nend infeasible\n",
        ),
        (
            "steps and points",
            (0, 2),
            (0, 1),
            100,
            "sopl-log 1\nn 0 r\ns h 0 0 0 le 1\nx 0 0\nn 1 0 l\nx 1 0\nn 2 1 l\nv\nn 3 1 h\nf b\nn 4 0 h\ns h 0 0 1 ge 1\nv\nend optimal 1\n",
        ),
        (
            "open nodes behind a point",
            (0, 3),
            (3, 3),
            3,
            "sopl-log 1\nn 0 r\nx 0 1\nn 1 0 l\nx 0 0\nn 2 1 l\nv\nn 3 0 h\no\nn 4 1 h\no\nend bounded 0 3\n",
        ),
        (
            "open nodes without a point",
            (0, 7),
            (0, 5),
            3,
            "sopl-log 1\nn 0 r\ns h 0 0 0 le 5\nx 0 2\nn 1 0 l\nx 0 1\nn 2 1 l\nx 0 0\nn 3 0 h\no\nn 4 1 h\no\nn 5 2 l\no\nn 6 2 h\no\nend bounded none 5\n",
        ),
        (
            "open nodes at all depths",
            (0, 7),
            (0, 5),
            7,
            "sopl-log 1\nn 0 r\ns h 0 0 0 le 5\nx 0 2\nn 1 0 l\nx 0 1\nn 2 1 l\nx 0 0\nn 3 2 l\nx 1 2\nn 4 3 l\nx 1 1\nn 5 4 l\nx 1 0\nn 6 5 l\nv\nn 7 0 h\no\nn 8 1 h\no\nn 9 2 h\no\nn 10 3 h\no\nn 11 4 h\no\nn 12 5 h\no\nend bounded 0 5\n",
        ),
    ] {
        if let Some(program) = rising_with(rt.alloc(), &[first, second]).expect(&rt, "memory") {
            let mut sink = empty_sink(rt.alloc(), &[]).expect(&rt, "memory");
            outcome_of(rt.alloc(), &program, budget, 1, None, &mut sink).expect(&rt, "outcome");
            assert!(rt; sink.bytes() == log.as_bytes(), "{word}");
        }
    }
}

#[test]
fn faults(rt: HostRuntime) {
    for (failing, log) in [(0, ""), (2, "sopl-log 1\nn 0 r\nv")] {
        if let Some(program) = rising_with(rt.alloc(), &[(3, 3), (4, 4)]).expect(&rt, "memory") {
            let mut sink = empty_sink(rt.alloc(), &[failing]).expect(&rt, "memory");
            let stopped = outcome_of(rt.alloc(), &program, 1, 1, None, &mut sink);
            assert!(rt; matches!(stopped, Err(SearchStop::Write)), "no fault");
            assert!(rt; sink.bytes() == log.as_bytes(), "another front");
        }
    }
}

#[test]
fn seats(rt: HostRuntime) {
    let log =
        "sopl-log 1\nn 0 r\nx 0 1\nn 1 0 h\nx 0 2\nn 2 0 l\nx 0 0\nn 3 1 l\nv\nn 4 2 l\nf b\nn 5 1 h\nv\nn 6 2 h\nf b\nend optimal 3\n";
    if let Some(program) = rising_with(rt.alloc(), &[(0, 3), (3, 3)]).expect(&rt, "memory") {
        let mut sink = empty_sink(rt.alloc(), &[]).expect(&rt, "memory");
        outcome_of(rt.alloc(), &program, 100, 2, None, &mut sink).expect(&rt, "outcome");
        assert!(rt; sink.bytes() == log.as_bytes(), "another log of two seats");
    }
}

#[test]
fn turns_by_hand(rt: HostRuntime) {
    for (turns, log) in [
        (
            [0, 1, 0, 1, 0, 1, 0, 1].as_slice(),
            "n 0 r\nx 0 1\nn 1 0 h\nx 0 2\nn 2 0 l\nx 0 0\nn 3 1 l\nv\nn 4 2 l\nf b\nn 5 1 h\nv\nn 6 2 h\nf b\nend optimal 3\n",
        ),
        (
            [0, 1].as_slice(),
            "n 0 r\nx 0 1\nn 1 0 h\nx 0 2\nn 2 0 l\no\nn 3 1 l\no\nn 4 1 h\no\nend bounded none 3\n",
        ),
    ] {
        if let Some(program) = rising_with(rt.alloc(), &[(0, 3), (3, 3)]).expect(&rt, "memory") {
            let mut sink = empty_sink(rt.alloc(), &[]).expect(&rt, "memory");
            let closed = driven(rt.alloc(), &program, turns, None, &mut sink).expect(&rt, "steps");
            assert!(rt; closed.is_ok(), "no outcome");
            assert!(rt; sink.bytes() == log.as_bytes(), "another log of two seats");
        }
    }
}

#[test]
fn members_that_have_rested(rt: HostRuntime) {
    if let Some(program) = rising_with(rt.alloc(), &[(0, 3), (3, 3)]).expect(&rt, "memory") {
        let mut sink = empty_sink(rt.alloc(), &[]).expect(&rt, "memory");
        let rested = rests_after_a_step(rt.alloc(), &program, &mut sink).expect(&rt, "a step");
        assert!(rt; rested, "not rested");
    }
}

#[test]
fn fault_at_close(rt: HostRuntime) {
    if let Some(program) = rising_with(rt.alloc(), &[(0, 3), (3, 3)]).expect(&rt, "memory") {
        let none = Vec::from_slice(rt.alloc(), &[]).expect(&rt, "memory");
        let mut sink = MemSink::new(rt.alloc(), 3, none).expect(&rt, "memory");
        let closed = driven(rt.alloc(), &program, &[0, 1, 0], None, &mut sink).expect(&rt, "steps");
        assert!(rt; matches!(closed, Err(SearchStop::Write)), "no fault");
        assert!(rt; sink.bytes() == "n 0".as_bytes(), "another front");
    }
}

/// A choice of a cell, of the greatest value of its low half, and of the half that is searched first.
fn choice(cell: u32, cut: i64, low_first: bool) -> Choice {
    Choice {
        cell,
        cut,
        low_first,
    }
}

#[test]
fn any_brancher(rt: HostRuntime) {
    for (word, kind) in [
        ("no answer", AnswerKind::Nothing),
        ("the upper end", AnswerKind::AtUpperEnd),
        ("one choice always", AnswerKind::Always(choice(1, 3, false))),
        (
            "a choice of no cell",
            AnswerKind::Always(choice(4_294_967_295, i64::MIN, true)),
        ),
        ("halves by turns", AnswerKind::Turning),
        ("halves by what was counted", AnswerKind::Counting),
    ] {
        for seats in [1, 2] {
            if let Some(program) = rising_with(rt.alloc(), &[(0, 7), (0, 5)]).expect(
                &rt, "memory",
            ) {
                let mut sink = empty_sink(rt.alloc(), &[]).expect(&rt, "memory");
                let outcome = outcome_by(rt.alloc(), &program, 100, seats, kind, &mut sink).expect(
                    &rt, "outcome",
                );
                assert!(rt;
                    is_told(&outcome, Some((5, [5, 5])), None),
                    "{word} under {seats}"
                );
            }
        }
    }
}

#[test]
fn logs_by_branchers(rt: HostRuntime) {
    for (word, kind, budget, log) in [
        (
            "one choice always",
            AnswerKind::Always(choice(0, 0, false)),
            3,
            "sopl-log 1\nn 0 r\nx 0 0\nn 1 0 h\nx 0 2\nn 2 1 l\nx 0 1\nn 3 0 l\no\nn 4 1 h\no\nn 5 2 l\no\nn 6 2 h\no\nend bounded none 3\n",
        ),
        (
            "halves by turns",
            AnswerKind::Turning,
            100,
            "sopl-log 1\nn 0 r\nx 0 0\nn 1 0 h\nx 0 1\nn 2 1 l\nv\nn 3 1 h\nx 0 2\nn 4 3 h\nv\nn 5 3 l\nf b\nn 6 0 l\nf b\nend optimal 3\n",
        ),
        (
            "halves by what was counted",
            AnswerKind::Counting,
            100,
            "sopl-log 1\nn 0 r\nx 0 0\nn 1 0 l\nv\nn 2 0 h\nx 0 1\nn 3 2 h\nx 0 2\nn 4 3 h\nv\nn 5 3 l\nf b\nn 6 2 l\nf b\nend optimal 3\n",
        ),
    ] {
        if let Some(program) = rising_with(rt.alloc(), &[(0, 3), (3, 3)]).expect(&rt, "memory") {
            let mut sink = empty_sink(rt.alloc(), &[]).expect(&rt, "memory");
            outcome_by(rt.alloc(), &program, budget, 1, kind, &mut sink).expect(&rt, "outcome");
            assert!(rt; sink.bytes() == log.as_bytes(), "{word}");
        }
    }
}

#[test]
fn one_outcome(rt: HostRuntime) {
    for (word, many, order) in [
        ("one seat", 1, None),
        ("two seats", 2, None),
        ("three seats", 3, None),
        ("the most seats", 64, None),
        ("two seats in a drawn order", 2, Some(1)),
        ("three seats by the least seed", 3, Some(0)),
        ("the most seats by the greatest seed", 64, Some(2147483647)),
    ] {
        if let Some(program) = rising_with(rt.alloc(), &[(0, 7), (0, 5)]).expect(&rt, "memory") {
            let mut sink = empty_sink(rt.alloc(), &[]).expect(&rt, "memory");
            let outcome = outcome_of(rt.alloc(), &program, 100, many, order, &mut sink).expect(
                &rt, "outcome",
            );
            assert!(rt; is_told(&outcome, Some((5, [5, 5])), None), "{word}");
        }
    }
}

/// The seat of the next of the first thousand steps.
fn next_of(schedule: &mut Schedule) -> Option<u32> {
    if schedule.turn > 1000 {
        return None;
    }
    Some(schedule.next())
}

#[test]
fn turns(rt: HostRuntime) {
    let mut drawn = Schedule::new(2, Some(1));
    for want in [0, 0, 1, 1, 1] {
        assert!(rt; next_of(&mut drawn) == Some(want), "another seat is drawn");
    }
    let mut turn = Schedule::new(3, None);
    for want in [0, 1, 2, 0, 1] {
        assert!(rt;
            next_of(&mut turn) == Some(want),
            "another seat has its turn"
        );
    }
}
