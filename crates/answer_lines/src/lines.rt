//! The answer lines but that of `tree`.

ghost use Rattle.std.specs.Prelude.{◌≡◌, false, codes, string_bytes, IfOk, pos};
ghost use Rattle.serde_json.specs.View.{view};
ghost use Rattle.serde_json.specs.Written.{has_float};
ghost use Rattle.std.specs.Fmt.{signed_decimal};
ghost use Rattle.answer_lines.specs.AnswerData.{word_data, refused_data, limit_data, limit_object, optimal_object, bound_object, found_object, fraction, line_of, summary_object, unreadable_data, valued_summary_object};

use serde_json::{Value, json};
use sopl_base::{Excess, Refusal};
use std::alloc::{AllocError, Global};

/// The line of an answer: its text in compact form, and a line feed.
pub fn line(alloc: Global, answer: &Value) -> Result<String, AllocError>
    requires whole { has_float (view answer.now) ≡ false }
    ensures text { IfOk result (λ text. string_bytes text ≡ line_of (view answer.now)) }
{
    let mut text = answer.to_string(alloc)?;
    text.push('\n')?;
    Ok(text)
}

fn word_answer(alloc: Global, word: &str) -> Result<Value, AllocError>
    ensures answer { IfOk result (λ value. view value ≡ word_data word.now) }
{
    json!(in alloc; {"answer": word})
}

/// The line of an answer that is one word: `{"answer":WORD}` and a line feed. It is refused only where memory runs out.
pub fn word_line(alloc: Global, word: &str) -> Result<String, AllocError>
    ensures text { IfOk result (λ text. string_bytes text ≡ line_of (word_data word.now)) }
{
    let answer = word_answer(alloc, word)?;
    line(alloc, &answer)
}

fn refused_answer(alloc: Global, at: usize, code: u16) -> Result<Value, AllocError>
    ensures answer { IfOk result (λ value. view value ≡ refused_data (pos at) (pos code)) }
{
    json!(in alloc; {"answer": "refused", "at": at, "code": code})
}

/// The line of a refusal: the code of the rule, and the offset of the byte that breaks it.
pub fn refused_line(alloc: Global, refusal: Refusal) -> Result<String, AllocError>
    ensures text { IfOk result (λ text. string_bytes text ≡ line_of (refused_data (pos refusal.at) (pos refusal.code))) }
{
    let answer = refused_answer(alloc, refusal.at, refusal.code)?;
    line(alloc, &answer)
}

/// A number in digits.
fn digits(alloc: Global, number: i128) -> Result<String, AllocError>
    ensures text { IfOk result (λ text. string_bytes text ≡ signed_decimal number) }
{
    format!(in alloc; "{number}")
}

fn limit_answer(alloc: Global, code: u16, counted: &str, limit: &str) -> Result<Value, AllocError>
    ensures answer { IfOk result (λ value. view value ≡ limit_object (pos code) counted.now limit.now) }
{
    json!(in alloc; {"answer": "limit", "code": code, "counted": counted, "limit": limit})
}

/// The line of a limit that is passed: its code, the number that was counted, and the one that is allowed.
pub fn limit_line(alloc: Global, excess: &Excess) -> Result<String, AllocError>
    ensures text { IfOk result (λ text. string_bytes text ≡ line_of (limit_data excess.now)) }
{
    let counted = digits(alloc, excess.counted)?;
    let limit = digits(alloc, excess.limit)?;
    let answer = limit_answer(alloc, excess.code, counted.as_str(), limit.as_str())?;
    line(alloc, &answer)
}

/// A numerator over a denominator, never reduced.
pub fn fraction_text(
    alloc: Global,
    numerator: i128,
    denominator: i128,
) -> Result<String, AllocError>
    ensures text { IfOk result (λ text. string_bytes text ≡ fraction numerator denominator) }
{
    format!(in alloc; "{numerator}/{denominator}")
}

fn optimal_answer(alloc: Global, policy: Value, value: &str) -> Result<Value, AllocError>
    ensures answer { IfOk result (λ answer. view answer ≡ optimal_object (view policy) value.now) }
{
    json!(in alloc; {"answer": "optimal", "policy": policy, "value": value})
}

/// The line of an optimal policy with its value.
pub fn optimal_line(
    alloc: Global,
    policy: Value,
    numerator: i128,
    denominator: i128,
) -> Result<String, AllocError>
    requires whole { has_float (view policy) ≡ false }
    ensures text { IfOk result (λ text. string_bytes text ≡ line_of (optimal_object (view policy) (fraction numerator denominator))) }
{
    let value = fraction_text(alloc, numerator, denominator)?;
    let answer = optimal_answer(alloc, policy, value.as_str())?;
    line(alloc, &answer)
}

fn bound_answer(alloc: Global, bound: &str) -> Result<Value, AllocError>
    ensures answer { IfOk result (λ answer. view answer ≡ bound_object bound.now) }
{
    json!(in alloc; {"answer": "bounded", "bound": bound})
}

/// The line of a bound, where no policy was found.
pub fn bound_line(alloc: Global, bound: i128, denominator: i128) -> Result<String, AllocError>
    ensures text { IfOk result (λ text. string_bytes text ≡ line_of (bound_object (fraction bound denominator))) }
{
    let bound = fraction_text(alloc, bound, denominator)?;
    let answer = bound_answer(alloc, bound.as_str())?;
    line(alloc, &answer)
}

fn found_answer(alloc: Global, bound: &str, policy: Value, value: &str) -> Result<Value, AllocError>
    ensures answer { IfOk result (λ answer. view answer ≡ found_object bound.now (view policy) value.now) }
{
    json!(in alloc; {"answer": "bounded", "bound": bound, "policy": policy, "value": value})
}

/// The line of a bound, and of a policy that was found with its value, over one denominator.
pub fn found_line(
    alloc: Global,
    bound: i128,
    policy: Value,
    value: i128,
    denominator: i128,
) -> Result<String, AllocError>
    requires whole { has_float (view policy) ≡ false }
    ensures text { IfOk result (λ text. string_bytes text
        ≡ line_of (found_object (fraction bound denominator) (view policy) (fraction value denominator))) }
{
    let most = fraction_text(alloc, bound, denominator)?;
    let value = fraction_text(alloc, value, denominator)?;
    let answer = found_answer(alloc, most.as_str(), policy, value.as_str())?;
    line(alloc, &answer)
}

fn summary_answer(
    alloc: Global,
    cells: u32,
    outcome: &str,
    scenarios: u32,
) -> Result<Value, AllocError>
    ensures answer { IfOk result (λ answer. view answer ≡ summary_object (pos cells) outcome.now (pos scenarios)) }
{
    json!(in alloc; {"answer": "summary", "cells": cells, "result": outcome, "scenarios": scenarios})
}

/// The line that tells of a search that found nothing: how many cells and scenarios there are, and what came of it.
pub fn summary_line(
    alloc: Global,
    cells: u32,
    outcome: &str,
    scenarios: u32,
) -> Result<String, AllocError>
    ensures text { IfOk result (λ text. string_bytes text ≡ line_of (summary_object (pos cells) outcome.now (pos scenarios))) }
{
    let answer = summary_answer(alloc, cells, outcome, scenarios)?;
    line(alloc, &answer)
}

fn valued_summary_answer(
    alloc: Global,
    cells: u32,
    outcome: &str,
    scenarios: u32,
    value: &str,
) -> Result<Value, AllocError>
    ensures answer { IfOk result (λ answer. view answer ≡ valued_summary_object (pos cells) outcome.now (pos scenarios) value.now) }
{
    json!(in alloc; {"answer": "summary", "cells": cells, "result": outcome, "scenarios": scenarios, "value": value})
}

/// The line that tells of a search that found a policy, with the policy's value.
pub fn valued_summary_line(
    alloc: Global,
    cells: u32,
    outcome: &str,
    scenarios: u32,
    value: i128,
    denominator: i128,
) -> Result<String, AllocError>
    ensures text { IfOk result (λ text. string_bytes text
        ≡ line_of (valued_summary_object (pos cells) outcome.now (pos scenarios) (fraction value denominator))) }
{
    let value = fraction_text(alloc, value, denominator)?;
    let answer = valued_summary_answer(alloc, cells, outcome, scenarios, value.as_str())?;
    line(alloc, &answer)
}

fn unreadable_answer(alloc: Global, at: usize, code: u16) -> Result<Value, AllocError>
    ensures answer { IfOk result (λ answer. view answer ≡ unreadable_data (pos at) (pos code)) }
{
    json!(in alloc; {"answer": "unreadable", "at": at, "code": code})
}

/// The line of bytes that are no log, or no policy: the place of the first mistake, and its code.
pub fn unreadable_line(alloc: Global, refusal: Refusal) -> Result<String, AllocError>
    ensures text { IfOk result (λ text. string_bytes text ≡ line_of (unreadable_data (pos refusal.at) (pos refusal.code))) }
{
    let answer = unreadable_answer(alloc, refusal.at, refusal.code)?;
    line(alloc, &answer)
}
