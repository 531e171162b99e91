//! What `eval` answers of the bytes of a policy.

use answer_eval::{policy_reply, text_to_eval, unsolved_reply};
use answer_texts::{Reply, Status};
use std::alloc::{AllocError, Global};
use std::test::Fail;

mod policy_read_texts;
mod policy_values_forms;

const CHANCE: &str =
    "dvar int x in 0..5; stoch int d in {1:1, 2:1, 3:1}; minimize expected(x); subject to { prob(x >= d) >= 2/3; }";

const HARD: &str = "dvar int x in 0..9; maximize expected(x); subject to { 3*x <= 20; }";

const UNDEFINED: &str =
    "range R = 1..2; int a[R] = [5, 7]; dvar int x in 0..3; maximize expected(a[x]); subject to { }";

const ORDER: &str =
    "dvar int x in 0..5 stage 1; stoch int d in {1:1, 3:1} stage 1; dvar int y in 0..3 stage 2; maximize expected(4*y - 3*x); subject to { y <= d; y <= x; }";

const WORST: &str =
    "dvar int x in 0..5; stoch int d in {1:1, 3:1}; minimize worst(abs(x - d)); subject to { prob(x >= d) >= 1/2; prob(x <= d) >= 1/2; prob(x == d) >= 1/2; }";

// the cells are those of a at 1 and 3, and then those of b; a node has a and b
const TWO: &str =
    "stoch int d in {1:1, 3:1} stage 1; dvar int a in 0..3 stage 2; dvar int b in 0..3 stage 2; subject to { a + b <= d; }";

const LARGE: &str = "dvar int x in 0..65535; subject to { x*1099511627776 >= 0; }";

const APART: &str =
    "range R = 1..2; dvar int x[R] in 1..2; subject to { allDifferent(all(i in R) x[i]); }";

const MISSPELLED: &str = "dvar int x in 0..5; subject to {";

// What a row is about, a text, the bytes of a policy, and the status and the line that must come; `P` is the policy of one decision x with the
// value that follows it, and `Q` that of ORDER, with x, y after 1 and y after 3. Each was worked out by hand.
const POLICIES: &[(&str, &str, &str, Status, &str)] = &[
    (
        "a sum below its threshold",
        CHANCE,
        "P1",
        Status::Failing,
        r#"{"answer":"failing","instance":0,"sum":"1/3","what":"chance"}"#,
    ),
    (
        "a sum that meets its threshold",
        CHANCE,
        "P2",
        Status::Done,
        r#"{"answer":"satisfied","chances":["2/3"],"value":"6/3"}"#,
    ),
    (
        "a value outside its domain",
        CHANCE,
        "P9",
        Status::Unreadable,
        r#"{"answer":"unreadable","at":0,"code":403}"#,
    ),
    (
        "no JSON",
        CHANCE,
        "[",
        Status::Unreadable,
        r#"{"answer":"unreadable","at":0,"code":401}"#,
    ),
    (
        "no byte",
        CHANCE,
        "",
        Status::Unreadable,
        r#"{"answer":"unreadable","at":0,"code":401}"#,
    ),
    (
        "no policy",
        CHANCE,
        "{}",
        Status::Unreadable,
        r#"{"answer":"unreadable","at":0,"code":402}"#,
    ),
    (
        "a hard constraint that fails",
        HARD,
        "P7",
        Status::Failing,
        r#"{"answer":"failing","instance":0,"scenario":0,"what":"hard"}"#,
    ),
    (
        "a hard constraint that holds",
        HARD,
        "P6",
        Status::Done,
        r#"{"answer":"satisfied","chances":[],"value":"6/1"}"#,
    ),
    (
        "an undefined objective",
        UNDEFINED,
        "P0",
        Status::Failing,
        r#"{"answer":"failing","scenario":0,"what":"objective"}"#,
    ),
    (
        "an element as the objective",
        UNDEFINED,
        "P2",
        Status::Done,
        r#"{"answer":"satisfied","chances":[],"value":"7/1"}"#,
    ),
    (
        "the best policy",
        ORDER,
        "Q1 1 1",
        Status::Done,
        r#"{"answer":"satisfied","chances":[],"value":"2/2"}"#,
    ),
    (
        "a policy that is worse",
        ORDER,
        "Q3 1 3",
        Status::Done,
        r#"{"answer":"satisfied","chances":[],"value":"-2/2"}"#,
    ),
    (
        "the first constraint in the first scenario, and the second one in the second",
        ORDER,
        "Q2 2 3",
        Status::Failing,
        r#"{"answer":"failing","instance":0,"scenario":0,"what":"hard"}"#,
    ),
    (
        "the second constraint in the second scenario",
        ORDER,
        "Q2 1 3",
        Status::Failing,
        r#"{"answer":"failing","instance":1,"scenario":1,"what":"hard"}"#,
    ),
    (
        "the last value outside its domain",
        ORDER,
        "Q2 1 4",
        Status::Unreadable,
        r#"{"answer":"unreadable","at":2,"code":403}"#,
    ),
    (
        "both values of y outside their domains",
        ORDER,
        "Q2 -1 4",
        Status::Unreadable,
        r#"{"answer":"unreadable","at":1,"code":403}"#,
    ),
    (
        "a value with a decimal point",
        ORDER,
        "Q2 1 1.0",
        Status::Unreadable,
        r#"{"answer":"unreadable","at":2,"code":402}"#,
    ),
    (
        "a policy of one stage for two",
        ORDER,
        "P2",
        Status::Unreadable,
        r#"{"answer":"unreadable","at":0,"code":402}"#,
    ),
    (
        "three sums and a worst value",
        WORST,
        "P1",
        Status::Done,
        r#"{"answer":"satisfied","chances":["1/2","2/2","1/2"],"value":"2/1"}"#,
    ),
    (
        "the last of three sums below its threshold",
        WORST,
        "P2",
        Status::Failing,
        r#"{"answer":"failing","instance":2,"sum":"0/2","what":"chance"}"#,
    ),
    (
        "two decisions in a node",
        TWO,
        r#"{"policy":{"decide":[],"next":[{"seen":[["d",[],1]],"then":{"decide":[["a",[],0],["b",[],1]],"next":[]}},{"seen":[["d",[],3]],"then":{"decide":[["a",[],2],["b",[],1]],"next":[]}}]}}"#,
        Status::Done,
        r#"{"answer":"satisfied","chances":[],"value":"0/1"}"#,
    ),
    (
        "a value outside in each of two nodes, the first as printed with the later cell",
        TWO,
        r#"{"policy":{"decide":[],"next":[{"seen":[["d",[],1]],"then":{"decide":[["a",[],0],["b",[],9]],"next":[]}},{"seen":[["d",[],3]],"then":{"decide":[["a",[],9],["b",[],1]],"next":[]}}]}}"#,
        Status::Unreadable,
        r#"{"answer":"unreadable","at":2,"code":403}"#,
    ),
    (
        "branches in another order",
        TWO,
        r#"{"policy":{"decide":[],"next":[{"seen":[["d",[],3]],"then":{"decide":[["a",[],2],["b",[],1]],"next":[]}},{"seen":[["d",[],1]],"then":{"decide":[["a",[],0],["b",[],1]],"next":[]}}]}}"#,
        Status::Unreadable,
        r#"{"answer":"unreadable","at":0,"code":402}"#,
    ),
    (
        "a branch that has seen what the other one has",
        TWO,
        r#"{"policy":{"decide":[],"next":[{"seen":[["d",[],1]],"then":{"decide":[["a",[],0],["b",[],1]],"next":[]}},{"seen":[["d",[],1]],"then":{"decide":[["a",[],2],["b",[],1]],"next":[]}}]}}"#,
        Status::Unreadable,
        r#"{"answer":"unreadable","at":0,"code":402}"#,
    ),
    (
        "equal terms of `allDifferent`",
        APART,
        r#"{"policy":{"decide":[["x",[1],1],["x",[2],1]],"next":[]}}"#,
        Status::Failing,
        r#"{"answer":"failing","instance":0,"scenario":0,"what":"hard"}"#,
    ),
    (
        "terms of `allDifferent` that differ",
        APART,
        r#"{"policy":{"decide":[["x",[1],2],["x",[2],1]],"next":[]}}"#,
        Status::Done,
        r#"{"answer":"satisfied","chances":[],"value":"0/1"}"#,
    ),
    (
        "terms that pass a limit, which is told before the policy is looked at",
        LARGE,
        "[",
        Status::Limit,
        r#"{"answer":"limit","code":207,"counted":"72056494526300160","limit":"1099511627776"}"#,
    ),
    (
        "a text that is refused, which is told before the policy is looked at",
        MISSPELLED,
        "[",
        Status::Refused,
        r#"{"answer":"refused","at":32,"code":104}"#,
    ),
];

// A policy of one decision.
fn one(alloc: Global, x: &str) -> Result<String, AllocError> {
    format!(in alloc; "{{\"policy\":{{\"decide\":[[\"x\",[],{x}]],\"next\":[]}}}}")
}

// A policy of ORDER, with members that are passed over.
fn ordered(alloc: Global, values: &str) -> Result<String, AllocError> {
    let mut words = values.split(' ');
    let x = words.next().unwrap_or("");
    let low = words.next().unwrap_or("");
    let high = words.next().unwrap_or("");
    format!(in alloc;
        "{{\"answer\":\"optimal\",\"policy\":{{\"decide\":[[\"x\",[],{x}]],\"next\":[{{\"seen\":[[\"d\",[],1]],\"then\":{{\"decide\":[[\"y\",[],{low}]],\"next\":[]}}}},{{\"seen\":[[\"d\",[],3]],\"then\":{{\"decide\":[[\"y\",[],{high}]],\"next\":[]}}}}]}},\"value\":\"2/2\"}}"
    )
}

// The bytes of a policy.
fn bytes_of(alloc: Global, policy: &str) -> Result<String, AllocError> {
    if let Some(x) = policy.strip_prefix("P") {
        return one(alloc, x);
    }
    match policy.strip_prefix("Q") {
        Some(values) => ordered(alloc, values),
        None => String::from_str(alloc, policy),
    }
}

// The reply to a text and the bytes of a policy.
fn evaluated(alloc: Global, text: &str, policy: &[u8]) -> Result<Reply, AllocError> {
    match text_to_eval(alloc, text.as_bytes()) {
        Ok(stated) => policy_reply(alloc, &stated, policy),
        Err(fault) => unsolved_reply(alloc, fault),
    }
}

// The status and the line of the reply to a policy that is told as in the table.
fn answered(alloc: Global, text: &str, policy: &str) -> Result<(Status, String), AllocError> {
    let bytes = bytes_of(alloc, policy)?;
    let reply = evaluated(alloc, text, bytes.as_bytes())?;
    Ok((reply.status, reply.line))
}

#[test]
fn policies_are_evaluated(rt: HostRuntime) -> Result<(), Fail> {
    for (word, text, policy, status, line) in POLICIES {
        let (ended, told) = answered(rt.alloc(), text, policy)?;
        assert_eq!(rt; told.as_str().strip_suffix("\n"), Some(*line), "{word}");
        assert_eq!(rt; ended, *status, "{word}");
    }
    Ok(())
}

#[test]
fn bytes_that_are_no_text_are_unreadable(rt: HostRuntime) -> Result<(), Fail> {
    let reply = evaluated(rt.alloc(), CHANCE, &[b'"', 255, b'"'])?;
    assert_eq!(rt;
        reply.line.as_str(),
        "{\"answer\":\"unreadable\",\"at\":0,\"code\":401}\n"
    );
    assert_eq!(rt; reply.status, Status::Unreadable);
    Ok(())
}
