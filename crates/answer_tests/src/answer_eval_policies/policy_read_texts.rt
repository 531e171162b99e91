//! Policies of `policy_read`: x of stage 1 and y of stage 2, which are 0 to 5; d, which is seen after stage 1, and e, after stage 2, which are
//! 1 or 3. The cell of x is 0; those of y are 1, where d is 1, and 2.

use super::evaluated;
use std::alloc::{AllocError, Global};
use std::test::Fail;

// A policy's value tells its numbers: it is 108 times x, three times the y where d is 1 and 18 times the y where d is 3.
const TEXT: &str =
    "dvar int x in 0..5 stage 1; dvar int y in 0..5 stage 2; stoch int d in {1:1, 3:2} stage 1; stoch int e in {1:1, 3:2} stage 2; maximize expected(12*x + y*d); subject to { }";

// What a row is about, words that stand for the values of x, of y where d is 1, and of y where d is 3, and a code with its place, or the value.
const VALUES: &str = r#"three values: 5, 0, 2 -> value 576
the ends of the domains: 0, 5, 5 -> value 105
spaces round a number:  1 , 0, 0 -> value 108
0 with a minus: -0, 0, 0 -> 402 at 0
a decimal point: 1.0, 0, 0 -> 402 at 0
an exponent: 1e0, 0, 0 -> 402 at 0
one more than the greatest of 64 bits: 9223372036854775808, 0, 0 -> 402 at 0
one less than the least of 64 bits: -9223372036854775809, 0, 0 -> 402 at 0
the greatest of 64 bits: 9223372036854775807, 0, 0 -> 403 at 0
the least of 64 bits: -9223372036854775808, 0, 0 -> 403 at 0
a string: "1", 0, 0 -> 402 at 0
null: null, 0, 0 -> 402 at 0
a number in brackets: [1], 0, 0 -> 402 at 0
two numbers: 1,1, 0, 0 -> 402 at 0
one more than the greatest of the domain: 6, 0, 0 -> 403 at 0
one less than the least of the domain: -1, 0, 0 -> 403 at 0
all values outside: 6, 6, 6 -> 403 at 0
both values of y outside: 0, 6, 6 -> 403 at 1
the last value outside: 0, 0, 6 -> 403 at 2
another form behind a value outside: 0, 6, 1.0 -> 402 at 2
another form before a value outside: 0, 1.0, 6 -> 402 at 1
another form at the end, and the first value outside: 6, 0, -0 -> 402 at 2
a zero before a number: 01, 0, 0 -> 401 at 0
no value: , 0, 0 -> 401 at 0
"#;

// What a row is about, a policy, and a code with its place, or the value; X stands for the entry of x, Y for a node of the last stage, and ONE and
// THREE for the branches that have seen 1 and 3.
const SHAPES: &str = r#"no byte:  -> 401 at 0
two numbers: 1 2 -> 401 at 0
no member: {} -> 402 at 0
an array: [] -> 402 at 0
a policy that is a number: {"policy":1} -> 402 at 0
a policy without members: {"policy":{}} -> 402 at 0
no decision: {"policy":{"decide":[],"next":[ONE,THREE]}} -> 402 at 0
a policy: {"policy":{"decide":[X],"next":[ONE,THREE]}} -> value 237
`policy` twice, the last one a policy: {"policy":0,"policy":{"decide":[X],"next":[ONE,THREE]}} -> value 237
`policy` twice, the last one a number: {"policy":{"decide":[X],"next":[ONE,THREE]},"policy":0} -> 402 at 0
other members, in another order: {"a":{},"policy":{"next":[ONE,THREE],"z":1,"decide":[X]}} -> value 237
a decision twice: {"policy":{"decide":[X,X],"next":[ONE,THREE]}} -> 402 at 0
a decision of another stage: {"policy":{"decide":[["y",[],2]],"next":[ONE,THREE]}} -> 402 at 0
an index that the decision does not have: {"policy":{"decide":[["x",[1],2]],"next":[ONE,THREE]}} -> 402 at 0
one branch of two: {"policy":{"decide":[X],"next":[ONE]}} -> 402 at 0
a branch too many: {"policy":{"decide":[X],"next":[ONE,THREE,THREE]}} -> 402 at 0
branches in another order: {"policy":{"decide":[X],"next":[THREE,ONE]}} -> 402 at 0
a branch without `then`: {"policy":{"decide":[X],"next":[ONE,{"seen":[["d",[],3]]}]}} -> 402 at 0
a node that is a number: {"policy":{"decide":[X],"next":[ONE,{"seen":[["d",[],3]],"then":0}]}} -> 402 at 2
a node that is a number before a branch that has seen another value: {"policy":{"decide":[X],"next":[{"seen":[["d",[],1]],"then":0},{"seen":[["d",[],2]],"then":Y}]}} -> 402 at 0
a branch that has seen nothing: {"policy":{"decide":[X],"next":[{"seen":[],"then":Y},THREE]}} -> 402 at 0
a branch behind the last stage: {"policy":{"decide":[X],"next":[{"seen":[["d",[],1]],"then":{"decide":[["y",[],1]],"next":[THREE]}},THREE]}} -> 402 at 1
"#;

// What each word of a shape stands for.
const WORDS: [(&str, &str); 4] = [
    ("ONE", r#"{"seen":[["d",[],1]],"then":Y}"#),
    ("THREE", r#"{"seen":[["d",[],3]],"then":Y}"#),
    ("X", r#"["x",[],2]"#),
    ("Y", r#"{"decide":[["y",[],1]],"next":[]}"#),
];

/// The word, the policy and what is wanted of it, in a row.
fn parts(row: &str) -> (&str, &str, &str) {
    let (word, behind) = row.split_once(": ").unwrap_or(("", row));
    let (policy, want) = behind.split_once(" -> ").unwrap_or((behind, ""));
    (word, policy, want)
}

/// The policy with these words as its values.
fn valued(alloc: Global, values: &str) -> Result<String, AllocError> {
    let mut words = values.split(", ");
    let x = words.next().unwrap_or("");
    let one = words.next().unwrap_or("");
    let three = words.next().unwrap_or("");
    format!(in alloc;
        "{{\"policy\":{{\"decide\":[[\"x\",[],{x}]],\"next\":[{{\"seen\":[[\"d\",[],1]],\"then\":{{\"decide\":[[\"y\",[],{one}]],\"next\":[]}}}},{{\"seen\":[[\"d\",[],3]],\"then\":{{\"decide\":[[\"y\",[],{three}]],\"next\":[]}}}}]}}}}"
    )
}

/// The policy that a shape stands for.
fn shaped(alloc: Global, shape: &str) -> Result<String, AllocError> {
    let mut text = String::from_str(alloc, shape)?;
    for (word, stands) in WORDS {
        text = text.as_str().replace(alloc, word, stands)?;
    }
    Ok(text)
}

/// The line that is wanted: a code with its place, or the value of a policy.
fn line(alloc: Global, want: &str) -> Result<String, AllocError> {
    match want.split_once(" at ") {
        Some((code, at)) => {
            format!(in alloc; "{{\"answer\":\"unreadable\",\"at\":{at},\"code\":{code}}}\n")
        }
        None => {
            let value = want.strip_prefix("value ").unwrap_or("");
            format!(in alloc;
                "{{\"answer\":\"satisfied\",\"chances\":[],\"value\":\"{value}/9\"}}\n"
            )
        }
    }
}

/// Whether the reply to the bytes of a policy is what is wanted.
fn is_answered(alloc: Global, policy: &[u8], want: &str) -> Result<bool, AllocError> {
    let line = line(alloc, want)?;
    let reply = evaluated(alloc, TEXT, policy)?;
    Ok(reply.line.as_str() == line.as_str())
}

#[test]
fn values(rt: HostRuntime) -> Result<(), Fail> {
    for row in VALUES.lines() {
        let (word, values, want) = parts(row);
        let policy = valued(rt.alloc(), values)?;
        assert!(rt; is_answered(rt.alloc(), policy.as_bytes(), want)?, "{word}");
    }
    Ok(())
}

#[test]
fn shapes(rt: HostRuntime) -> Result<(), Fail> {
    for row in SHAPES.lines() {
        let (word, shape, want) = parts(row);
        let policy = shaped(rt.alloc(), shape)?;
        assert!(rt; is_answered(rt.alloc(), policy.as_bytes(), want)?, "{word}");
    }
    Ok(())
}

/// So many arrays, each in the next.
fn nested(alloc: Global, depth: usize) -> Result<Vec<u8>, AllocError> {
    let mut text = vec![in alloc; b'['; depth]?;
    for _ in 0..depth {
        text.push(b']')?;
    }
    Ok(text)
}

#[test]
fn bytes(rt: HostRuntime) -> Result<(), Fail> {
    let alloc = rt.alloc();
    let no_text = is_answered(alloc, &[b'"', 255, b'"'], "401 at 0")?;
    assert!(rt; no_text, "a byte that is no text");
    for (depth, want) in [(127, "402 at 0"), (128, "401 at 0")] {
        let text = nested(alloc, depth)?;
        assert!(rt;
            is_answered(alloc, text.as_slice(), want)?,
            "{depth} arrays, each in the next"
        );
    }
    Ok(())
}
