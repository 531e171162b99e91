//! Texts that are drawn, and searches of them.

use crate::answer_lines_commands::FIRST;
use crate::runs::{Ended, Room, WIDE, ends, ran_branching, source_of_two, words_in};
use answer_run::Status;
use sopl_io::MemSource;
use std::alloc::{AllocError, Global};
use std::test::Fail;

/// Words, and how their run ends.
const RUNS: [(&str, Status, &str); 6] = [
    ("gen 1 1", Status::Done, FIRST),
    (
        "demo 1 1",
        Status::Done,
        "{\"answer\":\"summary\",\"cells\":1,\"result\":\"optimal\",\"scenarios\":2,\"value\":\"23/3\"}\n",
    ),
    (
        "demo 2 7",
        Status::Done,
        "{\"answer\":\"summary\",\"cells\":3,\"result\":\"optimal\",\"scenarios\":4,\"value\":\"112/16\"}\n",
    ),
    (
        "demo 3 1",
        Status::Done,
        "{\"answer\":\"summary\",\"cells\":7,\"result\":\"optimal\",\"scenarios\":8,\"value\":\"424/24\"}\n",
    ),
    (
        "demo 1 1 --budget 1",
        Status::Bounded,
        "{\"answer\":\"summary\",\"cells\":1,\"result\":\"bounded\",\"scenarios\":2}\n",
    ),
    ("demo 10 1", Status::Usage, "{\"answer\":\"usage\"}\n"),
];

/// Numbers of stages and seeds of texts that are evaluated.
const DRAWN: [(u32, u32); 12] = [
    (1, 0),
    (1, 2147483647),
    (2, 7),
    (2, 1),
    (3, 0),
    (3, 12345),
    (4, 2147483647),
    (5, 12345),
    (6, 99),
    (7, 3),
    (8, 1),
    (9, 1),
];

/// Sinks that take a text of nine stages.
const LARGE: Room = Room {
    answer: 4000,
    log: 1000,
    failing: &[],
};

fn no_files(alloc: Global) -> MemSource {
    MemSource::new(Vec::new(alloc), Vec::new(alloc))
}

/// Runs with the words of a line, without a file.
fn ran(alloc: Global, line: &str, room: &Room) -> Result<Ended, AllocError> {
    let words = words_in(alloc, line)?;
    ran_branching(alloc, &words, &mut no_files(alloc), room)
}

#[test]
fn drawn_texts_are_answered(rt: HostRuntime) -> Result<(), Fail> {
    let alloc = rt.alloc();
    for (line, status, want) in &RUNS {
        let ended = ran(alloc, line, &WIDE)?;
        ends(&rt, line, &ended, *status, want);
    }
    Ok(())
}

/// What so many draws leave, of which the last one is a number below 2.
fn drawn(seed: u32, draws: u32) -> u64 {
    let mut state = seed as u64;
    for _draw in 0..draws {
        state = state.wrapping_mul(1103515245).wrapping_add(12345) % 2147483648;
    }
    state / 65536 % 2
}

/// The ways on from a stage: both demands, and the node behind them.
fn ways(alloc: Global, stage: u32, seed: u32, node: &str) -> Result<String, AllocError> {
    let draws = stage.saturating_sub(1).saturating_mul(5);
    let low = drawn(seed, draws.saturating_add(3));
    let high = drawn(seed, draws.saturating_add(4))
        .saturating_add(low)
        .saturating_add(1);
    format!(in alloc;
        "{{\"seen\":[[\"d\",[{stage}],{low}]],\"then\":{node}}},{{\"seen\":[[\"d\",[{stage}],{high}]],\"then\":{node}}}"
    )
}

/// The node of a stage, which buys two at the first one and else nothing; none is behind the last stage.
fn node_of(alloc: Global, stage: u32, seed: u32, behind: &str) -> Result<String, AllocError> {
    let bought = if stage == 1 { 2 } else { 0 };
    let next = if behind.is_empty() {
        String::new(alloc)
    } else {
        ways(alloc, stage, seed, behind)?
    };
    format!(in alloc; "{{\"decide\":[[\"x\",[{stage}],{bought}]],\"next\":[{next}]}}")
}

/// The policy that buys two at the first stage, and nothing behind it.
fn policy(alloc: Global, stages: u32, seed: u32) -> Result<String, AllocError> {
    let mut node = String::new(alloc);
    for behind in 0..stages {
        node = node_of(alloc, stages - behind, seed, node.as_str())?;
    }
    format!(in alloc; "{{\"policy\":{node}}}")
}

/// The text that is drawn is the answer of this run.
fn generated(alloc: Global, stages: u32, seed: u32) -> Result<Ended, AllocError> {
    let line = format!(in alloc; "gen {stages} {seed}")?;
    ran(alloc, line.as_str(), &LARGE)
}

/// Evaluates a policy of a text.
fn evaluated_by(alloc: Global, text: &str, policy: &[u8]) -> Result<Ended, AllocError> {
    let words = words_in(alloc, "eval m o")?;
    let mut source = source_of_two(alloc, text, policy)?;
    ran_branching(alloc, &words, &mut source, &LARGE)
}

/// Evaluates a policy of the text that is drawn.
fn evaluated(alloc: Global, stages: u32, seed: u32) -> Result<Ended, AllocError> {
    let made = generated(alloc, stages, seed)?;
    let text = std::str::from_utf8(made.answer.bytes()).unwrap_or("");
    let bought = policy(alloc, stages, seed)?;
    evaluated_by(alloc, text, bought.as_bytes())
}

#[test]
fn drawn_texts_have_a_policy(rt: HostRuntime) -> Result<(), Fail> {
    for (stages, seed) in &DRAWN {
        let ended = evaluated(rt.alloc(), *stages, *seed)?;
        assert_eq!(rt; ended.status, Status::Done, "{stages} {seed}");
        let answer = std::str::from_utf8(ended.answer.bytes()).unwrap_or("");
        assert!(rt;
            answer.starts_with("{\"answer\":\"satisfied\""),
            "{stages} {seed}"
        );
    }
    Ok(())
}
