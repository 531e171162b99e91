//! Evaluations of policies.

use crate::runs::{TableRow, ends_as, ran_on_two, row_in};
use std::alloc::{AllocError, Global};
use std::process::Abort;
use std::test::Fail;

/// What an evaluation is about, a model and a policy, and the status and the line that must come.
const EVALUATED: &str = r##"
a sum below its threshold: dvar int x in 0..5; stoch int d in {1:1, 2:1, 3:1}; minimize expected(x); subject to { prob(x >= d) >= 2/3; } | {"policy":{"decide":[["x",[],1]],"next":[]}} -> 1 {"answer":"failing","instance":0,"sum":"1/3","what":"chance"}
a sum that meets its threshold: dvar int x in 0..5; stoch int d in {1:1, 2:1, 3:1}; minimize expected(x); subject to { prob(x >= d) >= 2/3; } | {"policy":{"decide":[["x",[],2]],"next":[]}} -> 0 {"answer":"satisfied","chances":["2/3"],"value":"6/3"}
a value outside its domain: dvar int x in 0..5; stoch int d in {1:1, 2:1, 3:1}; minimize expected(x); subject to { prob(x >= d) >= 2/3; } | {"policy":{"decide":[["x",[],9]],"next":[]}} -> 9 {"answer":"unreadable","at":0,"code":403}
no JSON: dvar int x in 0..5; stoch int d in {1:1, 2:1, 3:1}; minimize expected(x); subject to { prob(x >= d) >= 2/3; } | [ -> 9 {"answer":"unreadable","at":0,"code":401}
no policy: dvar int x in 0..5; stoch int d in {1:1, 2:1, 3:1}; minimize expected(x); subject to { prob(x >= d) >= 2/3; } | {} -> 9 {"answer":"unreadable","at":0,"code":402}
a hard constraint that fails: dvar int x in 0..9; maximize expected(x); subject to { 3*x <= 20; } | {"policy":{"decide":[["x",[],7]],"next":[]}} -> 1 {"answer":"failing","instance":0,"scenario":0,"what":"hard"}
an undefined objective: range R = 1..2; int a[R] = [5, 7]; dvar int x in 0..3; maximize expected(a[x]); subject to { } | {"policy":{"decide":[["x",[],0]],"next":[]}} -> 1 {"answer":"failing","scenario":0,"what":"objective"}
a text that breaks a rule, whose policy is not begun:  | {"policy":{"decide":[["x",[],1]],"next":[]}} -> 3 {"answer":"refused","at":0,"code":104}
terms that pass a limit, so that the policy is not begun: dvar int x in 0..65535; subject to { x*1099511627776 >= 0; } |  -> 4 {"answer":"limit","code":207,"counted":"72056494526300160","limit":"1099511627776"}
"##;

/// An evaluation ends as its row says, and writes no log.
fn is_evaluated(rt: &impl Abort, alloc: Global, row: &TableRow<'_>) -> Result<(), AllocError> {
    let about = row.about;
    let (text, policy) = row.text.split_once(" | ").unwrap_or((row.text, ""));
    let ended = ran_on_two(alloc, "eval m o", text, policy.as_bytes())?;
    ends_as(rt, row, &ended);
    assert!(rt; ended.log.bytes().is_empty(), "{about}");
    Ok(())
}

#[test]
fn policies_are_evaluated(rt: HostRuntime) -> Result<(), Fail> {
    for line in EVALUATED.lines() {
        match row_in(line) {
            Some(row) => is_evaluated(&rt, rt.alloc(), &row)?,
            None => assert!(rt; line.is_empty(), "{line}"),
        }
    }
    Ok(())
}
