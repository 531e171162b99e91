//! A policy is read.

ghost use Rattle.std.specs.Prelude.{◌≡◌, ◌++◌, ◌∷◌, [], ℕ, map, IsTrue, IfOk, OnOk};
ghost use Rattle.std.specs.List.{list_all};
ghost use Rattle.serde_json.specs.View.{view};
ghost use Rattle.sopl_ast.specs.Instances.{names_in};
ghost use Rattle.sopl_ast.specs.Pieces.{is_word};
ghost use Rattle.sopl_scen.specs.Layout.{AreStated, IsTreeOf};
ghost use Rattle.sopl_scen.specs.Domains.{ends_of};
ghost use Rattle.policy_read.specs.Domains.{low_in};
ghost use Rattle.policy_read.specs.Forms.{first_difference, all_told};
ghost use Rattle.policy_read.specs.Policies as spec;

use crate::domains::first_outside;
use crate::entry::Told;
use crate::form::{Facing, add_nodes, all_told, first_difference};
use crate::lists::data_in;
use policy_json::{greatest_stage, policy_value};
use serde_json::Value;
use sopl_base::Interval;
use sopl_scen::{Tree, domains};
use std::alloc::{AllocError, Global};
use unfold_variables::{DecisionItem, StochItem};

/// What a text says of a policy: the values of all cells, or why there is none.
#[derive(Drop)]
pub(crate) enum PolicyReading {
    /// The policy, as a point: the values of its cells.
    Point(Vec<i64>),
    /// The text is no JSON.
    NoJson,
    /// The node with this number has not the form of the policy's.
    Differs(usize),
    /// The value of the cell with this number lies outside its domain.
    Outside(u64),
}

/// The policy that a text holds, by its member `policy`, as a point of the cells of a tree.
pub(crate) fn policy_in(
    alloc: Global,
    text: &[u8],
    decisions: &[DecisionItem],
    stochs: &[StochItem],
    tree: &Tree,
) -> Result<PolicyReading, AllocError>
    requires stated { (constraints : ℕ) × AreStated decisions.now stochs.now constraints }
    requires tree { IsTreeOf decisions.now stochs.now tree.now }
    requires names { IsTrue (list_all is_word (names_in decisions.now stochs.now)) }
    ensures { IfOk result (λ reading. spec.policy_reading reading ≡ spec.policy_in decisions.now stochs.now text.now) }
{
    let Some(data) = data_in(alloc, text)? else {
        return Ok(PolicyReading::NoJson);
    };
    match data.get("policy") {
        Some(given) => node_read(alloc, given, decisions, stochs, tree),
        None => Ok(PolicyReading::Differs(0)),
    }
}

/// The policy that an outermost node holds.
fn node_read(
    alloc: Global,
    given: &Value,
    decisions: &[DecisionItem],
    stochs: &[StochItem],
    tree: &Tree,
) -> Result<PolicyReading, AllocError>
    requires stated { (constraints : ℕ) × AreStated decisions.now stochs.now constraints }
    requires tree { IsTreeOf decisions.now stochs.now tree.now }
    requires names { IsTrue (list_all is_word (names_in decisions.now stochs.now)) }
    ensures { IfOk result (λ reading. spec.policy_reading reading ≡ spec.node_read decisions.now stochs.now (view given.now)) }
{
    let form = form_for(alloc, decisions, stochs, tree)?;
    let domains = domains(alloc, decisions, tree)?;
    policy_from(alloc, greatest_stage(decisions) - 1, &form, given, &domains)
}

/// The form of a policy: its outermost node, where the value of each cell is the cell's number.
fn form_for(
    alloc: Global,
    decisions: &[DecisionItem],
    stochs: &[StochItem],
    tree: &Tree,
) -> Result<Value, AllocError>
    requires stated { (constraints : ℕ) × AreStated decisions.now stochs.now constraints }
    requires tree { IsTreeOf decisions.now stochs.now tree.now }
    requires names { IsTrue (list_all is_word (names_in decisions.now stochs.now)) }
    ensures { IfOk result (λ form. view form ≡ spec.form_for decisions.now stochs.now) }
{
    let numbers = numbers(alloc, tree.cells())?;
    policy_value(alloc, decisions, stochs, tree, &numbers)
}

/// The numbers below a number.
#[tactic(auto, using(crate::proofs::Placing::numbers_more, crate::proofs::Placing::numbers_none))]
fn numbers(alloc: Global, many: u32) -> Result<Vec<i64>, AllocError>
    ensures { IfOk result (λ found. found.items ≡ spec.numbers_below many) }
{
    let mut found = Vec::new(alloc);
    'numbers: for number in 0..many {
        found.push(i64::from(number))?;
    }
    Ok(found)
}

/// The policy of the outermost node of a text, held against that of a form.
fn policy_from(
    alloc: Global,
    later: u32,
    form: &Value,
    given: &Value,
    domains: &[Interval],
) -> Result<PolicyReading, AllocError>
    ensures { IfOk result (λ reading. spec.policy_reading reading ≡ spec.policy_from later (view form.now) (view given.now) (map ends_of domains.now)) }
{
    let mut nodes = Vec::new(alloc);
    add_nodes(&mut nodes, later, form, given)?;
    if let Some(number) = first_difference(nodes.as_slice()) {
        return Ok(PolicyReading::Differs(number));
    }
    let told = all_told(alloc, nodes.as_slice())?;
    told_policy(alloc, told.as_slice(), domains)
}

/// The policy with these values of its cells.
fn told_policy(
    alloc: Global,
    told: &[Told],
    domains: &[Interval],
) -> Result<PolicyReading, AllocError>
    ensures { IfOk result (λ reading. spec.policy_reading reading ≡ spec.told_policy told.now (map ends_of domains.now)) }
{
    if let Some(cell) = first_outside(domains, told) {
        return Ok(PolicyReading::Outside(cell));
    }
    let mut values = lows(alloc, domains)?;
    put_all(&mut values, told);
    Ok(PolicyReading::Point(values))
}

/// The least value of each domain.
fn lows(alloc: Global, domains: &[Interval]) -> Result<Vec<i64>, AllocError>
    ensures { IfOk result (λ found. found.items ≡ map low_in (map ends_of domains.now)) }
{
    let mut found = Vec::new(alloc);
    'domains: for i in 0..domains.len() {
        add_low(&mut found, &domains[i])?;
    }
    Ok(found)
}

/// Adds the least value of a domain.
fn add_low(found: &mut Vec<i64>, domain: &Interval) -> Result<(), AllocError>
    ensures { OnOk result (found.new.items ≡ found.old.items ++ low_in (ends_of domain.now) ∷ []) }
{
    found.push(domain.lo)?;
    Ok(())
}

/// Puts each value at the number of its cell.
fn put_all(values: &mut Vec<i64>, told: &[Told])
    ensures { values.new.items ≡ spec.put_all_at told.now values.old.items }
{
    'values: for i in 0..told.len() {
        put(values, &told[i]);
    }
}

/// Puts a value at the number of its cell.
fn put(values: &mut Vec<i64>, told: &Told)
    ensures { values.new.items ≡ spec.put_at told.now values.old.items }
{
    if told.cell < values.len() as u64 {
        values[told.cell as usize] = told.value;
    }
}
