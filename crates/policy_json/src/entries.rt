//! An instance with its value: its name, its indices, and a whole number.

ghost use Rattle.std.specs.Prelude.{◌≡◌, [], ◌∷◌, map, IsTrue, IfOk};
ghost use Rattle.serde_json.specs.Data.{string};
ghost use Rattle.serde_json.specs.View.{view};
ghost use Rattle.sopl_ast.specs.Pieces.{is_word};
ghost use Rattle.policy_json.specs.Entries.{entry_of, list_of, whole_number};

use serde_json::{Value, json};
use sopl_ast::Name;
use std::alloc::{AllocError, Global};
use unfold_variables::Index;

/// An instance with its value: `[name,[indices],value]`.
pub fn entry_value(
    alloc: Global,
    name: &Name,
    index: &Index,
    value: i64,
) -> Result<Value, AllocError>
    requires name { IsTrue (is_word name.now) }
    ensures { IfOk result (λ v. view v ≡ entry_of name.now index.now value) }
{
    let Ok(name) = std::str::from_utf8(name.as_slice()) else {
        unreachable!()
    };
    let index = index_value(alloc, index)?;
    entry_array(alloc, name, index, value)
}

/// The indices as an array.
fn index_value(alloc: Global, index: &Index) -> Result<Value, AllocError>
    ensures { IfOk result (λ v. view v ≡ list_of (map whole_number index.now)) }
{
    let mut list = Vec::new(alloc);
    'index: for item in index.as_slice() {
        list.push(Value::from(*item))?;
    }
    Ok(Value::Array(list))
}

/// An array of a name, indices and a value.
fn entry_array(alloc: Global, name: &str, index: Value, value: i64) -> Result<Value, AllocError>
    ensures { IfOk result (λ v. view v
        ≡ list_of (string name.now ∷ (view index ∷ (whole_number value ∷ [])))) }
{
    json!(in alloc; [name, index, value])
}
