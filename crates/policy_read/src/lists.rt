//! Data as a policy's text has it.

ghost use Rattle.std.specs.Prelude.{◌≡◌, map, option_map, unwrap_or, IfOk, []};
ghost use Rattle.serde_json.specs.View.{view};
ghost use Rattle.policy_read.specs.Listed as spec;

use serde_json::Value;
use std::alloc::{AllocError, Global};

/// The data of a text, if it has a reading.
pub fn data_in(alloc: Global, text: &[u8]) -> Result<Option<Value>, AllocError>
    ensures { IfOk result (λ found. option_map view found ≡ spec.data_in text.now) }
{
    let Ok(text) = std::str::from_utf8(text) else {
        return Ok(None);
    };
    match Value::from_str(alloc, text) {
        Ok(value) => Ok(Some(value)),
        Err(error) if error.is_memory() => Err(AllocError),
        Err(_) => Ok(None),
    }
}

/// The list that a value is.
#[tactic(auto, using(crate::proofs::Alike::listed))]
pub(crate) fn list_in(value: &Value) -> Option<&[Value]>
    ensures { option_map (λ list. map view list.now) result ≡ spec.list_in (view value.now) }
{
    Some(value.as_array()?.as_slice())
}

/// The list that stands at a key.
pub(crate) fn list_under<'a>(key: &str, value: &'a Value) -> Option<&'a [Value]>
    ensures { option_map (λ list. map view list.now) result ≡ spec.list_under key.now (view value.now) }
{
    list_in(value.get(key)?)
}

/// The list that stands at a key; an empty one where there is none.
pub(crate) fn items_at<'a>(key: &str, value: &'a Value) -> &'a [Value]
    ensures { map view result.now ≡ unwrap_or (spec.list_under key.now (view value.now)) [] }
{
    match list_under(key, value) {
        Some(items) => items,
        None => &[],
    }
}

/// Whether both are texts, and one.
pub(crate) fn same_text(form: &Value, given: &Value) -> bool
    ensures { result ≡ spec.same_text (view form.now) (view given.now) }
{
    let Some(text) = form.as_str() else {
        return false;
    };
    match given.as_str() {
        Some(other) => text == other,
        None => false,
    }
}

/// Whether both are whole numbers, and one.
pub(crate) fn same_whole(form: &Value, given: &Value) -> bool
    ensures { result ≡ spec.same_whole (view form.now) (view given.now) }
{
    let Some(number) = form.as_i64() else {
        return false;
    };
    match given.as_i64() {
        Some(other) => number == other,
        None => false,
    }
}
