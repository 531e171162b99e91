//! A policy's text, held against a form.

ghost use Rattle.std.specs.Prelude.{◌≡◌, ◌++◌, codes, map, option_map, IfOk, OnOk};
ghost use Rattle.serde_json.specs.View.{view};
ghost use Rattle.policy_read.specs.Listed.{alike, list_under, lists_alike, pairwise};
ghost use Rattle.policy_read.specs.Entries.{same_seen, is_told};
ghost use Rattle.policy_read.specs.Forms as spec;

use crate::entry::{Told, is_told, same_seen, told_in};
use crate::lists::{items_at, list_under};
use serde_json::Value;
use std::alloc::{AllocError, Global};

/// A node or a branch of the form, and what the text has in its place.
#[derive(Clone, Copy)]
pub(crate) struct Facing<'a> {
    pub form: &'a Value,
    pub given: &'a Value,
}

/// Whether entries tell values, and are as many as the form's.
fn all_tell(form: &[Value], given: &[Value]) -> bool
    ensures { result ≡ alike is_told (map view form.now) (map view given.now) }
{
    if form.len() != given.len() {
        return false;
    }
    'entries: for i in 0..form.len() {
        if !is_told(&form[i], &given[i]) {
            return false;
        }
    }
    true
}

/// Whether entries are the form's.
fn all_seen(form: &[Value], given: &[Value]) -> bool
    ensures { result ≡ alike same_seen (map view form.now) (map view given.now) }
{
    if form.len() != given.len() {
        return false;
    }
    'entries: for i in 0..form.len() {
        if !same_seen(&form[i], &given[i]) {
            return false;
        }
    }
    true
}

/// Whether both have entries of what is seen, and the same.
fn is_seen(form: &Value, given: &Value) -> bool
    ensures { result ≡ lists_alike same_seen (list_under (codes "seen") (view form.now)) (list_under (codes "seen") (view given.now)) }
{
    let Some(entries) = list_under("seen", form) else {
        return false;
    };
    match list_under("seen", given) {
        Some(others) => all_seen(entries, others),
        None => false,
    }
}

/// Whether a branch has what the form's has seen, and leads to something.
fn is_branch(form: &Value, given: &Value) -> bool
    ensures { result ≡ spec.is_branch (view form.now) (view given.now) }
{
    if !is_seen(form, given) {
        return false;
    }
    given.get("then").is_some()
}

/// Whether branches are as many as the form's, and have the same seen.
fn all_branches(form: &[Value], given: &[Value]) -> bool
    ensures { result ≡ alike spec.is_branch (map view form.now) (map view given.now) }
{
    if form.len() != given.len() {
        return false;
    }
    'branches: for i in 0..form.len() {
        if !is_branch(&form[i], &given[i]) {
            return false;
        }
    }
    true
}

/// Whether a node decides what the form's does, each by a whole number.
fn is_decided(form: &Value, given: &Value) -> bool
    ensures { result ≡ lists_alike is_told (list_under (codes "decide") (view form.now)) (list_under (codes "decide") (view given.now)) }
{
    let Some(entries) = list_under("decide", form) else {
        return false;
    };
    match list_under("decide", given) {
        Some(others) => all_tell(entries, others),
        None => false,
    }
}

/// Whether a node has the form's branches.
fn is_branched(form: &Value, given: &Value) -> bool
    ensures { result ≡ lists_alike spec.is_branch (list_under (codes "next") (view form.now)) (list_under (codes "next") (view given.now)) }
{
    let Some(branches) = list_under("next", form) else {
        return false;
    };
    match list_under("next", given) {
        Some(others) => all_branches(branches, others),
        None => false,
    }
}

/// Whether a node decides what the form's does, each by a whole number, and has its branches.
fn is_node(node: &Facing<'_>) -> bool
    ensures { result ≡ spec.is_node (spec.facing_in node.now) }
{
    if !is_decided(node.form, node.given) {
        return false;
    }
    is_branched(node.form, node.given)
}

/// What a branch leads to, in the form and in the text.
fn then_in<'a>(form: &'a Value, given: &'a Value) -> Option<Facing<'a>>
    ensures { option_map spec.facing_in result ≡ spec.then_in (spec.facing (view form.now) (view given.now)) }
{
    Some(Facing {
        form: form.get("then")?,
        given: given.get("then")?,
    })
}

/// Adds the nodes of a form in printed order, where so many stages come after the first one.
#[cycle(add)]
pub(crate) fn add_nodes<'a>(
    found: &mut Vec<Facing<'a>>,
    later: u32,
    form: &'a Value,
    given: &'a Value,
) -> Result<(), AllocError>
    ensures { OnOk result (map spec.facing_in found.new.items
        ≡ map spec.facing_in found.old.items ++ spec.nodes_of later (spec.facing (view form.now) (view given.now))) }
{
    found.push(Facing { form, given })?;
    if later == 0 {
        return Ok(());
    }
    add_branches(
        found,
        later - 1,
        items_at("next", form),
        items_at("next", given),
    )
}

/// Adds the nodes that branches lead to.
#[cycle(add)]
fn add_branches<'a>(
    found: &mut Vec<Facing<'a>>,
    later: u32,
    form: &'a [Value],
    given: &'a [Value],
) -> Result<(), AllocError>
    ensures { OnOk result (map spec.facing_in found.new.items
        ≡ map spec.facing_in found.old.items ++ pairwise (spec.nodes_behind (spec.nodes_of later)) (map view form.now) (map view given.now)) }
{
    let many = form.len().min(given.len());
    'branches: for i in 0..many {
        add_branch(found, later, &form[i], &given[i])?;
    }
    Ok(())
}

/// Adds the nodes that a branch leads to.
#[cycle(add)]
fn add_branch<'a>(
    found: &mut Vec<Facing<'a>>,
    later: u32,
    form: &'a Value,
    given: &'a Value,
) -> Result<(), AllocError>
    ensures { OnOk result (map spec.facing_in found.new.items
        ≡ map spec.facing_in found.old.items ++ spec.nodes_behind (spec.nodes_of later) (view form.now) (view given.now)) }
{
    match then_in(form, given) {
        Some(node) => add_nodes(found, later, node.form, node.given),
        None => Ok(()),
    }
}

/// The number of the first node that differs from the form's.
pub(crate) fn first_difference(nodes: &[Facing<'_>]) -> Option<usize>
    ensures { result ≡ spec.first_difference (map spec.facing_in nodes.now) }
{
    'nodes: for i in 0..nodes.len() {
        if !is_node(&nodes[i]) {
            return Some(i);
        }
    }
    None
}

/// Adds the values that a node tells.
fn add_told(found: &mut Vec<Told>, node: &Facing<'_>) -> Result<(), AllocError>
    ensures { OnOk result (found.new.items ≡ found.old.items ++ spec.told_by (spec.facing_in node.now)) }
{
    add_entries(
        found,
        items_at("decide", node.form),
        items_at("decide", node.given),
    )
}

/// Adds the values that entries tell.
fn add_entries(found: &mut Vec<Told>, form: &[Value], given: &[Value]) -> Result<(), AllocError>
    ensures { OnOk result (found.new.items ≡ found.old.items ++ pairwise spec.told_list (map view form.now) (map view given.now)) }
{
    let many = form.len().min(given.len());
    'entries: for i in 0..many {
        add_entry(found, &form[i], &given[i])?;
    }
    Ok(())
}

/// Adds the value that an entry tells.
fn add_entry(found: &mut Vec<Told>, form: &Value, given: &Value) -> Result<(), AllocError>
    ensures { OnOk result (found.new.items ≡ found.old.items ++ spec.told_list (view form.now) (view given.now)) }
{
    if let Some(told) = told_in(form, given) {
        found.push(told)?;
    }
    Ok(())
}

/// The values that nodes tell, as printed.
pub(crate) fn all_told(alloc: Global, nodes: &[Facing<'_>]) -> Result<Vec<Told>, AllocError>
    ensures { IfOk result (λ found. found.items ≡ spec.all_told (map spec.facing_in nodes.now)) }
{
    let mut found = Vec::new(alloc);
    'nodes: for node in nodes {
        add_told(&mut found, node)?;
    }
    Ok(found)
}
