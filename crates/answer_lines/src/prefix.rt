//! What stands before the scenarios.

ghost use Rattle.std.specs.Prelude.{◌≡◌, ◌≤◌, ◌++◌, codes, IfOk, string_bytes};
ghost use Rattle.serde_json.specs.View.{view};
ghost use Rattle.policy_json.specs.Entries.{list_of};
ghost use Rattle.answer_lines.specs.Shown.{counts_shown, prefix_of};

use crate::scenes::{digits_value, text_of};
use serde_json::Value;
use sopl_scen::Tree;
use std::alloc::{AllocError, Global};

/// How many histories each stage has, up to the last one.
fn history_counts(alloc: Global, tree: &Tree, last: u32) -> Result<Value, AllocError>
    requires stages { last ≤ 24 }
    ensures { IfOk result (λ value. view value ≡ list_of (counts_shown tree.now last)) }
{
    let mut counts = Vec::new(alloc);
    'stages: for before in 0..last {
        counts.push(Value::from(tree.histories(before + 1)))?;
    }
    Ok(Value::Array(counts))
}

/// The text of the answer before its scenarios.
#[tactic(auto, using(crate::proofs::Steps::prefix_made))]
pub(crate) fn prefix(alloc: Global, tree: &Tree, last: u32) -> Result<String, AllocError>
    requires stages { last ≤ 24 }
    ensures { IfOk result (λ text. string_bytes text ≡ prefix_of tree.now last) }
{
    let weight = text_of(alloc, digits_value(alloc, tree.total())?)?;
    let counts = text_of(alloc, history_counts(alloc, tree, last)?)?;
    joined(alloc, weight.as_str(), counts.as_str())
}

/// The members before the scenarios, by the texts of their values.
fn joined(alloc: Global, weight: &str, counts: &str) -> Result<String, AllocError>
    ensures { IfOk result (λ text. string_bytes text ≡ codes "{\"answer\":\"tree\",\"den\":" ++ (weight.now ++ (codes ",\"histories\":" ++ (counts.now ++ codes ",\"scenarios\":[")))) }
{
    format!(in alloc;
        "{{\"answer\":\"tree\",\"den\":{weight},\"histories\":{counts},\"scenarios\":["
    )
}
