//! The lines that answer a check of a log.

ghost use Rattle.std.specs.Prelude.{◌≡◌, string_bytes, IfOk, pos};
ghost use Rattle.serde_json.specs.View.{view};
ghost use Rattle.answer_lines.specs.AnswerData.{fraction, line_of};
ghost use Rattle.answer_check.specs.CheckData.{claims_none, claims_best, claims_bound, claims_found, accepted_data, rejected_data};

use answer_lines::{fraction_text, line};
use log_rows::Footer;
use serde_json::{Value, json};
use std::alloc::{AllocError, Global};

fn none_answer(alloc: Global) -> Result<Value, AllocError>
    ensures answer { IfOk result (λ answer. view answer ≡ claims_none) }
{
    json!(in alloc; {"answer": "accepted", "claim": "infeasible"})
}

fn best_answer(alloc: Global, value: &str) -> Result<Value, AllocError>
    ensures answer { IfOk result (λ answer. view answer ≡ claims_best value.now) }
{
    json!(in alloc; {"answer": "accepted", "claim": "optimal", "value": value})
}

fn bound_answer(alloc: Global, bound: &str) -> Result<Value, AllocError>
    ensures answer { IfOk result (λ answer. view answer ≡ claims_bound bound.now) }
{
    json!(in alloc; {"answer": "accepted", "bound": bound, "claim": "bounded"})
}

fn found_answer(alloc: Global, bound: &str, value: &str) -> Result<Value, AllocError>
    ensures answer { IfOk result (λ answer. view answer ≡ claims_found bound.now value.now) }
{
    json!(in alloc; {"answer": "accepted", "bound": bound, "claim": "bounded", "value": value})
}

/// The line of a log that claims that no policy satisfies.
fn none_line(alloc: Global) -> Result<String, AllocError>
    ensures text { IfOk result (λ text. string_bytes text ≡ line_of claims_none) }
{
    let answer = none_answer(alloc)?;
    line(alloc, &answer)
}

/// The line of a log that claims the best value.
fn best_line(alloc: Global, value: i128, denominator: i128) -> Result<String, AllocError>
    ensures text { IfOk result (λ text. string_bytes text ≡ line_of (claims_best (fraction value denominator))) }
{
    let value = fraction_text(alloc, value, denominator)?;
    let answer = best_answer(alloc, value.as_str())?;
    line(alloc, &answer)
}

/// The line of a log that claims a bound, where no policy was found.
fn bound_line(alloc: Global, bound: i128, denominator: i128) -> Result<String, AllocError>
    ensures text { IfOk result (λ text. string_bytes text ≡ line_of (claims_bound (fraction bound denominator))) }
{
    let bound = fraction_text(alloc, bound, denominator)?;
    let answer = bound_answer(alloc, bound.as_str())?;
    line(alloc, &answer)
}

/// The line of a log that claims a bound and a value.
fn found_line(
    alloc: Global,
    bound: i128,
    value: i128,
    denominator: i128,
) -> Result<String, AllocError>
    ensures text { IfOk result (λ text. string_bytes text
        ≡ line_of (claims_found (fraction bound denominator) (fraction value denominator))) }
{
    let bound = fraction_text(alloc, bound, denominator)?;
    let value = fraction_text(alloc, value, denominator)?;
    let answer = found_answer(alloc, bound.as_str(), value.as_str())?;
    line(alloc, &answer)
}

/// The line of a log that is accepted with this claim, whose values are over this denominator.
pub(crate) fn accepted_line(
    alloc: Global,
    claim: &Footer,
    denominator: i128,
) -> Result<String, AllocError>
    ensures text { IfOk result (λ text. string_bytes text ≡ line_of (accepted_data claim.now denominator)) }
{
    match *claim {
        Footer::Optimal(value) => best_line(alloc, value, denominator),
        Footer::Infeasible => none_line(alloc),
        Footer::Bounded(Some(value), bound) => found_line(alloc, bound, value, denominator),
        Footer::Bounded(None, bound) => bound_line(alloc, bound, denominator),
    }
}

fn rejected_answer(alloc: Global, at: u64, node: u64) -> Result<Value, AllocError>
    ensures answer { IfOk result (λ answer. view answer ≡ rejected_data (pos at) (pos node)) }
{
    json!(in alloc; {"answer": "rejected", "line": at, "node": node})
}

/// The line of a log that is rejected: its first wrong line, and the node of it.
pub(crate) fn rejected_line(alloc: Global, at: u64, node: u64) -> Result<String, AllocError>
    ensures text { IfOk result (λ text. string_bytes text ≡ line_of (rejected_data (pos at) (pos node))) }
{
    let answer = rejected_answer(alloc, at, node)?;
    line(alloc, &answer)
}
