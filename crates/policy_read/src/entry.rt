//! The entries of a policy's text, each held against one of a form.

ghost use Rattle.std.specs.Prelude.{◌≡◌, map};
ghost use Rattle.serde_json.specs.View.{view};
ghost use Rattle.policy_read.specs.Listed.{alike, lists_alike, list_in, same_whole};
ghost use Rattle.policy_read.specs.Entries as spec;

use crate::lists::{list_in, same_text, same_whole};
use serde_json::Value;

/// A value, with the number of its cell.
#[derive(Clone, Copy)]
pub struct Told {
    pub cell: u64,
    pub value: i64,
}

/// Whether items are the same whole numbers.
fn same_wholes(form: &[Value], given: &[Value]) -> bool
    ensures { result ≡ alike same_whole (map view form.now) (map view given.now) }
{
    if form.len() != given.len() {
        return false;
    }
    'numbers: for i in 0..form.len() {
        if !same_whole(&form[i], &given[i]) {
            return false;
        }
    }
    true
}

/// Whether both are the same indices.
fn same_index(form: &Value, given: &Value) -> bool
    ensures { result ≡ lists_alike same_whole (list_in (view form.now)) (list_in (view given.now)) }
{
    let Some(index) = list_in(form) else {
        return false;
    };
    match list_in(given) {
        Some(other) => same_wholes(index, other),
        None => false,
    }
}

/// Whether two names and two indices are the same.
fn same_place(name: &Value, index: &Value, other: &Value, place: &Value) -> bool
    ensures { result ≡ spec.same_place (view name.now) (view index.now) (view other.now) (view place.now) }
{
    if !same_text(name, other) {
        return false;
    }
    same_index(index, place)
}

/// The value of an entry of three parts, with the number of its cell.
fn told_parts(form: &[Value], given: &[Value]) -> Option<Told>
    ensures { result ≡ spec.told_parts (map view form.now) (map view given.now) }
{
    let [name, index, number] = form else {
        return None;
    };
    let [other, place, value] = given else {
        return None;
    };
    if !same_place(name, index, other, place) {
        return None;
    }
    Some(Told {
        cell: number.as_u64()?,
        value: value.as_i64()?,
    })
}

/// The value of an entry, with the number of its cell.
pub(crate) fn told_in(form: &Value, given: &Value) -> Option<Told>
    ensures { result ≡ spec.told_in (view form.now) (view given.now) }
{
    told_parts(list_in(form)?, list_in(given)?)
}

/// Whether an entry tells a value.
pub(crate) fn is_told(form: &Value, given: &Value) -> bool
    ensures { result ≡ spec.is_told (view form.now) (view given.now) }
{
    told_in(form, given).is_some()
}

/// Whether two entries of three parts have the same name, indices and value.
fn seen_parts(form: &[Value], given: &[Value]) -> bool
    ensures { result ≡ spec.seen_parts (map view form.now) (map view given.now) }
{
    let [name, index, value] = form else {
        return false;
    };
    let [other, place, seen] = given else {
        return false;
    };
    if !same_place(name, index, other, place) {
        return false;
    }
    same_whole(value, seen)
}

/// Whether two entries have the same name, indices and value.
pub(crate) fn same_seen(form: &Value, given: &Value) -> bool
    ensures { result ≡ spec.same_seen (view form.now) (view given.now) }
{
    let Some(parts) = list_in(form) else {
        return false;
    };
    match list_in(given) {
        Some(others) => seen_parts(parts, others),
        None => false,
    }
}
