//! One scenario of the answer.

ghost use Rattle.std.specs.Prelude.{◌≡◌, ◌<◌, ◌^◌, ℤ, false, length, map, IsTrue, IfOk, string_bytes};
ghost use Rattle.std.specs.List.{list_all};
ghost use Rattle.serde_json.specs.View.{view};
ghost use Rattle.serde_json.specs.Written.{compact_text, has_float};
ghost use Rattle.sopl_ast.specs.Instances.{Stochastic};
ghost use Rattle.sopl_ast.specs.Pieces.{is_word};
ghost use Rattle.sopl_scen.specs.Layout.{count_in};
ghost use Rattle.answer_lines.specs.Answer.{digits, scenario_object};
ghost use Rattle.answer_lines.specs.Shown.{entries_from, shown};

use policy_json::entry_value;
use serde_json::{Value, json};
use sopl_scen::Tree;
use std::alloc::{AllocError, Global};
use unfold_variables::StochItem;

/// A number as a text of digits.
pub(crate) fn digits_value(alloc: Global, number: i128) -> Result<Value, AllocError>
    ensures { IfOk result (λ value. view value ≡ digits number) }
{
    let text = format!(in alloc; "{number}")?;
    Ok(Value::String(text))
}

/// The text of a value that has no float.
pub(crate) fn text_of(alloc: Global, value: Value) -> Result<String, AllocError>
    requires whole { has_float (view value) ≡ false }
    ensures text { IfOk result (λ text. string_bytes text ≡ compact_text (view value)) }
{
    value.to_string(alloc)
}

/// An entry for each stochastic variable, with its value in a scenario.
fn seen_list(
    alloc: Global,
    stochs: &[StochItem],
    tree: &Tree,
    scenario: u32,
) -> Result<Vec<Value>, AllocError>
    requires names { IsTrue (list_all is_word (map (λ (s : Stochastic). s.name) stochs.now)) }
    requires few { length stochs.now < 2 ^ 32 }
    requires variables { tree.now.variables ≡ length stochs.now }
    requires exists { scenario < count_in tree.now }
    ensures { IfOk result (λ list. map view list.items ≡ entries_from tree.now scenario 0 stochs.now) }
{
    let mut list = Vec::new(alloc);
    'stochs: for (place, stoch) in stochs.iter().enumerate() {
        let value = tree.value(place as u32, scenario);
        list.push(entry_value(alloc, &stoch.name, &stoch.index, value)?)?;
    }
    Ok(list)
}

/// A scenario, by the entries of its values and its weight.
fn scene_object(seen: Vec<Value>, weight: Value, alloc: Global) -> Result<Value, AllocError>
    ensures { IfOk result (λ value. (w : ℤ) → view weight ≡ digits w → view value ≡ scenario_object (map view seen.items) w) }
{
    let seen = Value::Array(seen);
    json!(in alloc; {"seen": seen, "weight": weight})
}

/// The text of a scenario.
pub(crate) fn scene_text(
    alloc: Global,
    stochs: &[StochItem],
    tree: &Tree,
    scenario: u32,
) -> Result<String, AllocError>
    requires names { IsTrue (list_all is_word (map (λ (s : Stochastic). s.name) stochs.now)) }
    requires few { length stochs.now < 2 ^ 32 }
    requires variables { tree.now.variables ≡ length stochs.now }
    requires exists { scenario < count_in tree.now }
    ensures { IfOk result (λ text. string_bytes text ≡ compact_text (shown stochs.now tree.now scenario)) }
{
    let seen = seen_list(alloc, stochs, tree, scenario)?;
    let weight = digits_value(alloc, tree.weight(scenario))?;
    let value = scene_object(seen, weight, alloc)?;
    text_of(alloc, value)
}
