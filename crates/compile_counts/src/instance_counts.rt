//! The term nodes of the instances of constraints and of the objective.

ghost use Rattle.std.specs.Prelude.{◌≡◌, ◌<◌, IfOk, Some, length, map, slice_get};
ghost use Rattle.std.specs.List.{AllByRecursion, sum_by};
ghost use Rattle.compile_counts.specs.Counted.{capped, nodes_at};
ghost use Rattle.sopl_ast.specs.Instances.{Hard, Chance};
ghost use Rattle.sopl_ast.specs.References.{now_of};
ghost use Rattle.sopl_ast.specs.TermNodes.{objective_nodes, scenario_nodes};
ghost use Rattle.sopl_ast.specs.Unfolding.{problem_of, text_events};
ghost use Rattle.sopl_ast.specs.WholeModel.{whole};
ghost use Rattle.sopl_unfold.specs.GroundProblem.{ground_problem};
ghost use Rattle.unfold_laws.specs.Conditions.{IsMet};
ghost use Rattle.unfold_laws.specs.Passing.{NothingFails};
ghost use Rattle.unfold_tables.specs.Tables.{table_known};

use crate::counts::Nodes;
use crate::expressions::nodes_of;
use crate::instances::{condition_at, known_at};
use sopl_ast::{Expr, Model};
use sopl_unfold::{ChanceItem, Env, Ground, HardItem};
use std::alloc::{AllocError, Global};
use unfold_constants::ConstantScope;
use unfold_tables::Table;

/// The nodes of the condition with this number, where binders give this.
fn nodes_of_condition<'a>(
    alloc: Global,
    table: &'a Table,
    conditions: &[&'a Expr],
    text: u32,
    env: &'a Env,
) -> Result<Nodes, AllocError>
    requires met { IsMet (table_known table.now) (map now_of conditions.now) text env.now }
    ensures nodes { IfOk result (λ n. n.count ≡ capped (nodes_at (table_known table.now) (map now_of conditions.now) text env.now)) }
{
    let known = known_at(alloc, table, env)?;
    nodes_of(alloc, &known, None, condition_at(conditions, text))
}

/// Those of the conditions of hard constraints.
fn nodes_of_hards<'a>(
    alloc: Global,
    table: &'a Table,
    conditions: &[&'a Expr],
    hards: &'a [HardItem],
) -> Result<Nodes, AllocError>
    requires met { AllByRecursion (λ (h : Hard). IsMet (table_known table.now) (map now_of conditions.now) h.text h.bound) hards.now }
    ensures nodes { IfOk result (λ n. n.count ≡ capped (sum_by (λ (h : Hard). nodes_at (table_known table.now) (map now_of conditions.now) h.text h.bound) hards.now)) }
{
    let mut sum = Nodes::none();
    'hards: for hard in hards {
        let inside = nodes_of_condition(alloc, table, conditions, hard.text, &hard.env)?;
        sum = sum.plus(inside);
    }
    Ok(sum)
}

/// Those of the conditions of chance constraints.
fn nodes_of_chances<'a>(
    alloc: Global,
    table: &'a Table,
    conditions: &[&'a Expr],
    chances: &'a [ChanceItem],
) -> Result<Nodes, AllocError>
    requires met { AllByRecursion (λ (c : Chance). IsMet (table_known table.now) (map now_of conditions.now) c.text c.bound) chances.now }
    ensures nodes { IfOk result (λ n. n.count ≡ capped (sum_by (λ (c : Chance). nodes_at (table_known table.now) (map now_of conditions.now) c.text c.bound) chances.now)) }
{
    let mut sum = Nodes::none();
    'chances: for chance in chances {
        let inside = nodes_of_condition(alloc, table, conditions, chance.text, &chance.env)?;
        sum = sum.plus(inside);
    }
    Ok(sum)
}

/// Those of the objective of a model, if it has one.
fn nodes_of_objective<'a>(
    alloc: Global,
    table: &'a Table,
    model: &'a Model,
) -> Result<Nodes, AllocError>
    requires passes { NothingFails (text_events (whole model.now)) }
    requires known { table_known table.now ≡ (problem_of (whole model.now)).known }
    ensures nodes { IfOk result (λ n. n.count ≡ capped (objective_nodes (problem_of (whole model.now)))) }
{
    let known = ConstantScope::new(alloc, table);
    match &model.goal {
        None => Ok(Nodes::none()),
        Some(goal) => nodes_of(alloc, &known, None, &goal.expr),
    }
}

/// The nodes of all instances of constraints and of the objective.
pub(crate) fn nodes_of_instances(
    alloc: Global,
    ground: &Ground,
    conditions: &[&Expr],
) -> Result<Nodes, AllocError>
    requires conditions { map now_of conditions.now ≡ (ground_problem ground.now).conditions }
    ensures nodes { IfOk result (λ n. n.count ≡ capped (scenario_nodes (ground_problem ground.now))) }
{
    let model = ground.typed().model();
    let table = ground.table();
    let hards = nodes_of_hards(alloc, table, conditions, ground.hards())?;
    let chances = nodes_of_chances(alloc, table, conditions, ground.chances())?;
    let objective = nodes_of_objective(alloc, table, model)?;
    Ok(hards.plus(chances.plus(objective)))
}
