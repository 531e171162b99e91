//! The nodes of a policy.

ghost use Rattle.std.specs.Prelude.{◌≡◌, ℕ, ◌+◌, ◌≤◌, length, map, IsTrue, IfOk, IfSome, false};
ghost use Rattle.std.specs.List.{list_all};
ghost use Rattle.serde_json.specs.View.{view};
ghost use Rattle.serde_json.specs.Written.{has_float};
ghost use Rattle.sopl_ast.specs.Cells.{policy_at};
ghost use Rattle.sopl_ast.specs.Instances.{names_in};
ghost use Rattle.sopl_ast.specs.Pieces.{is_word};
ghost use Rattle.sopl_scen.specs.Layout.{AreStated, IsTreeOf, cells_for, history_in};
ghost use Rattle.policy_json.specs.Held.{held_outermost};
ghost use Rattle.policy_json.specs.Nodes.{branch_of, node_of, outermost_node};
ghost use Rattle.policy_json.specs.Steps.{Begins, IsReady, node_in, parts_in, shown_in};

use crate::decided::decide_list;
use crate::last_stage::greatest_stage;
use crate::point::Point;
use crate::runs::run_end;
use crate::seen::seen_list;
use crate::stages::stages;
use serde_json::{Value, json};
use sopl_scen::Tree;
use std::alloc::{AllocError, Global};
use unfold_variables::{DecisionItem, StochItem};

/// The outermost node of the policy of a point of a tree's cells.
pub fn policy_value(
    alloc: Global,
    decisions: &[DecisionItem],
    stochs: &[StochItem],
    tree: &Tree,
    values: &[i64],
) -> Result<Value, AllocError>
    requires stated { (constraints : ℕ) × AreStated decisions.now stochs.now constraints }
    requires tree { IsTreeOf decisions.now stochs.now tree.now }
    requires values { length values.now ≡ tree.now.cells }
    requires names { IsTrue (list_all is_word (names_in decisions.now stochs.now)) }
    ensures node { IfOk result (λ value. view value
        ≡ outermost_node decisions.now stochs.now (policy_at (cells_for decisions.now stochs.now) values.now)) }
    ensures held { IfOk result (λ value. IfSome (held_outermost decisions.now stochs.now (policy_at (cells_for decisions.now stochs.now) values.now))
        (λ node. view value ≡ node)) }
    ensures whole { IfOk result (λ value. has_float (view value) ≡ false) }
{
    let stages = stages(alloc, decisions, stochs)?;
    let point = Point {
        decisions,
        stochs,
        tree,
        values,
        stages: &stages,
    };
    outermost(alloc, &point)
}

/// The node of the first stage, before anything is seen.
fn outermost(alloc: Global, point: &Point<'_>) -> Result<Value, AllocError>
    requires { IsReady (parts_in point.now) }
    ensures { IfOk result (λ v. view v ≡ shown_in (parts_in point.now)) }
{
    let later = greatest_stage(point.decisions) - 1;
    node_value(alloc, point, later, 1, 0)
}

/// The node of a stage and of the history that a scenario is the first of, where so many stages come after it.
fn node_value(
    alloc: Global,
    point: &Point<'_>,
    later: u32,
    stage: u32,
    scenario: u32,
) -> Result<Value, AllocError>
    requires ready { IsReady (parts_in point.now) }
    requires from { 1 ≤ stage }
    requires to { stage + later ≤ 24 }
    requires begins { Begins (parts_in point.now).stochastics stage scenario (history_in (parts_in point.now).tree stage scenario) }
    ensures { IfOk result (λ v. view v ≡ node_in (parts_in point.now) later stage scenario) }
{
    let decide = decide_list(alloc, point, stage, scenario)?;
    if later == 0 {
        return node_object(alloc, decide, Vec::new(alloc));
    }
    let end = run_end(point.tree, stage, scenario);
    let mut next = Vec::new(alloc);
    let mut first = scenario;
    'branches: while first < end {
        let node = node_value(alloc, point, later - 1, stage + 1, first)?;
        let seen = seen_list(alloc, point, stage, first)?;
        next.push(branch_object(alloc, seen, node)?)?;
        first = run_end(point.tree, stage + 1, first);
    }
    node_object(alloc, decide, next)
}

/// A node, with its two members.
fn node_object(alloc: Global, decide: Vec<Value>, next: Vec<Value>) -> Result<Value, AllocError>
    ensures { IfOk result (λ v. view v
        ≡ node_of (map view decide.items) (map view next.items)) }
{
    let decide = Value::Array(decide);
    let next = Value::Array(next);
    json!(in alloc; {"decide": decide, "next": next})
}

/// What may be seen next, with the node that follows.
fn branch_object(alloc: Global, seen: Vec<Value>, node: Value) -> Result<Value, AllocError>
    ensures { IfOk result (λ v. view v ≡ branch_of (map view seen.items) (view node)) }
{
    let seen = Value::Array(seen);
    json!(in alloc; {"seen": seen, "then": node})
}
