//! The lines that answer an evaluation of a policy.

ghost use Rattle.std.specs.Prelude.{◌≡◌, ◌∷◌, ◌++◌, map, string_bytes, IfOk, pos};
ghost use Rattle.serde_json.specs.Data.{string};
ghost use Rattle.serde_json.specs.View.{view};
ghost use Rattle.policy_json.specs.Entries.{list_of};
ghost use Rattle.answer_lines.specs.AnswerData.{fraction, line_of};
ghost use Rattle.answer_eval.specs.EvalData.{chance_object, hard_data, objective_data, satisfied_object, sum_data};

use answer_lines::{fraction_text, line};
use serde_json::{Value, json};
use std::alloc::{AllocError, Global};

/// A sum of weights over the weight of all scenarios.
fn sum_value(alloc: Global, sum: &i128, total: i128) -> Result<Value, AllocError>
    ensures { IfOk result (λ value. view value ≡ sum_data total sum.now) }
{
    let text = fraction_text(alloc, *sum, total)?;
    Ok(Value::String(text))
}

/// Sums of weights, each over the weight of all scenarios.
fn sum_values(alloc: Global, sums: &[i128], total: i128) -> Result<Value, AllocError>
    ensures { IfOk result (λ value. view value ≡ list_of (map (sum_data total) sums.now)) }
{
    let mut list = Vec::new(alloc);
    'sums: for sum in sums {
        list.push(sum_value(alloc, sum, total)?)?;
    }
    Ok(Value::Array(list))
}

fn satisfied_answer(alloc: Global, chances: Value, value: &str) -> Result<Value, AllocError>
    ensures answer { IfOk result (λ answer. view answer ≡ satisfied_object (view chances) value.now) }
{
    json!(in alloc; {"answer": "satisfied", "chances": chances, "value": value})
}

/// The line of a policy that satisfies: the weights of the scenarios in which the chance constraints are true, over the weight of all, and its value.
#[tactic(auto, using(crate::proofs::Plain::satisfied_plain))]
pub(crate) fn satisfied_line(
    alloc: Global,
    sums: &[i128],
    total: i128,
    value: i128,
    denominator: i128,
) -> Result<String, AllocError>
    ensures text { IfOk result (λ text. string_bytes text
        ≡ line_of (satisfied_object (list_of (map (sum_data total) sums.now)) (fraction value denominator))) }
{
    let chances = sum_values(alloc, sums, total)?;
    let value = fraction_text(alloc, value, denominator)?;
    let answer = satisfied_answer(alloc, chances, value.as_str())?;
    line(alloc, &answer)
}

fn hard_answer(alloc: Global, instance: u32, scenario: u32) -> Result<Value, AllocError>
    ensures answer { IfOk result (λ answer. view answer ≡ hard_data (pos instance) (pos scenario)) }
{
    json!(in alloc; {"answer": "failing", "instance": instance, "scenario": scenario, "what": "hard"})
}

/// The line of a policy under which a hard constraint is false: its instance, and the scenario.
pub(crate) fn hard_line(alloc: Global, instance: u32, scenario: u32) -> Result<String, AllocError>
    ensures text { IfOk result (λ text. string_bytes text ≡ line_of (hard_data (pos instance) (pos scenario))) }
{
    let answer = hard_answer(alloc, instance, scenario)?;
    line(alloc, &answer)
}

fn chance_answer(alloc: Global, instance: u32, sum: &str) -> Result<Value, AllocError>
    ensures answer { IfOk result (λ answer. view answer ≡ chance_object (pos instance) sum.now) }
{
    json!(in alloc; {"answer": "failing", "instance": instance, "sum": sum, "what": "chance"})
}

/// The line of a policy that does not reach a chance constraint: its instance, and the weight of the scenarios in which it is true, over the weight of all.
pub(crate) fn chance_line(
    alloc: Global,
    instance: u32,
    sum: i128,
    total: i128,
) -> Result<String, AllocError>
    ensures text { IfOk result (λ text. string_bytes text ≡ line_of (chance_object (pos instance) (fraction sum total))) }
{
    let sum = fraction_text(alloc, sum, total)?;
    let answer = chance_answer(alloc, instance, sum.as_str())?;
    line(alloc, &answer)
}

fn objective_answer(alloc: Global, scenario: u32) -> Result<Value, AllocError>
    ensures answer { IfOk result (λ answer. view answer ≡ objective_data (pos scenario)) }
{
    json!(in alloc; {"answer": "failing", "scenario": scenario, "what": "objective"})
}

/// The line of a policy under which the objective is undefined: the scenario.
pub(crate) fn objective_line(alloc: Global, scenario: u32) -> Result<String, AllocError>
    ensures text { IfOk result (λ text. string_bytes text ≡ line_of (objective_data (pos scenario))) }
{
    let answer = objective_answer(alloc, scenario)?;
    line(alloc, &answer)
}
