//! Constraints are added, each by its condition in each scenario.

ghost use Rattle.std.specs.Prelude.{◌≡◌, ◌<◌, ◌∷◌, [], length, map, slice_get, IfOk, OnOk, Some};
ghost use Rattle.std.specs.List.{AllByRecursion, flat_map};
ghost use Rattle.compile_laws.specs.Whole.{chance_terms, hard_terms};
ghost use Rattle.term_problem.specs.Problems.{ChanceTerms};
ghost use Rattle.compile_laws.specs.Measured.{Measures, constraint_subterms};
ghost use Rattle.compile_scene.specs.Scenes.{root_in};
ghost use Rattle.compile_scene.specs.Works.{Extends, IsReady, things_of};
ghost use Rattle.sopl_ast.specs.Instances.{Chance, Hard};
ghost use Rattle.sopl_ast.specs.References.{now_of};
ghost use Rattle.sopl_compile.specs.Adding.{Adds, HasWeights, with_chances, with_hards};
ghost use Rattle.sopl_compile.specs.Listed.{AreListed};
ghost use Rattle.sopl_compile.specs.Posed.{instances_in, posed};
ghost use Rattle.sopl_term.specs.Built.{cond_ids, problem_built};
ghost use Rattle.term_nodes.specs.Things.{cond_in};
ghost use Rattle.unfold_laws.specs.Conditions.{IsMet, IsThreshold};
ghost use Rattle.unfold_tables.specs.Tables.{table_known};

use crate::scenarios::conditions_of;
use compile_counts::{condition_at, known_at};
use compile_names::Scenarios;
use compile_scene::Lowering;
use sopl_ast::Expr;
use sopl_base::Fault;
use sopl_term::CondId;
use sopl_unfold::{ChanceItem, Env, HardItem};
use std::alloc::Global;

/// The condition with this number in each scenario, where binders give this.
fn instances_of<'a>(
    alloc: Global,
    setting: &Scenarios<'a>,
    conditions: &[&'a Expr],
    text: u32,
    env: &'a Env,
    work: &mut Lowering,
) -> Result<Vec<CondId>, Fault>
    requires ready { IsReady setting.now work.old }
    requires met { IsMet (table_known setting.now.table.now) (map now_of conditions.now) text env.now }
    ensures extends { OnOk result (Extends setting.now work.old work.new) }
    ensures listed { IfOk result (λ ids. AreListed cond_in (things_of work.new) (cond_ids ids.items) (instances_in setting.now (map now_of conditions.now) text env.now)) }
    ensures measured { Measures (root_in setting.now) (constraint_subterms (instances_in setting.now (map now_of conditions.now) text env.now)) result }
{
    let known = known_at(alloc, setting.table, env)?;
    conditions_of(alloc, setting, &known, work, condition_at(conditions, text))
}

/// Adds a hard constraint.
fn add_hard<'a>(
    alloc: Global,
    setting: &Scenarios<'a>,
    conditions: &[&'a Expr],
    hard: &'a HardItem,
    work: &mut Lowering,
) -> Result<(), Fault>
    requires ready { IsReady setting.now work.old }
    requires weights { HasWeights setting.now work.old }
    requires met { IsMet (table_known setting.now.table.now) (map now_of conditions.now) hard.now.text hard.now.bound }
    ensures adds { OnOk result (Adds setting.now work.old work.new (with_hards (problem_built work.old.builder) (hard_terms (posed setting.now (map now_of conditions.now)) hard.now ∷ []))) }
    ensures measured { Measures (root_in setting.now) (constraint_subterms (hard_terms (posed setting.now (map now_of conditions.now)) hard.now)) result }
{
    let ids = instances_of(alloc, setting, conditions, hard.text, &hard.env, work)?;
    work.builder.hard(ids.as_slice())?;
    Ok(())
}

/// Adds a chance constraint.
fn add_chance<'a>(
    alloc: Global,
    setting: &Scenarios<'a>,
    conditions: &[&'a Expr],
    chance: &'a ChanceItem,
    work: &mut Lowering,
) -> Result<(), Fault>
    requires ready { IsReady setting.now work.old }
    requires weights { HasWeights setting.now work.old }
    requires met { IsMet (table_known setting.now.table.now) (map now_of conditions.now) chance.now.text chance.now.bound }
    requires threshold { IsThreshold chance.now.p chance.now.q }
    ensures adds { OnOk result (Adds setting.now work.old work.new (with_chances (problem_built work.old.builder) (chance_terms (posed setting.now (map now_of conditions.now)) chance.now ∷ []))) }
    ensures measured { Measures (root_in setting.now) (constraint_subterms (chance_terms (posed setting.now (map now_of conditions.now)) chance.now).conditions) result }
{
    let ids = instances_of(alloc, setting, conditions, chance.text, &chance.env, work)?;
    work.builder.chance(ids.as_slice(), chance.p, chance.q)?;
    Ok(())
}

/// Adds hard constraints.
pub(crate) fn add_hards<'a>(
    alloc: Global,
    setting: &Scenarios<'a>,
    conditions: &[&'a Expr],
    hards: &'a [HardItem],
    work: &mut Lowering,
) -> Result<(), Fault>
    requires ready { IsReady setting.now work.old }
    requires weights { HasWeights setting.now work.old }
    requires met { AllByRecursion (λ (h : Hard). IsMet (table_known setting.now.table.now) (map now_of conditions.now) h.text h.bound) hards.now }
    ensures adds { OnOk result (Adds setting.now work.old work.new (with_hards (problem_built work.old.builder) (map (hard_terms (posed setting.now (map now_of conditions.now))) hards.now))) }
    ensures measured { Measures (root_in setting.now) (flat_map constraint_subterms (map (hard_terms (posed setting.now (map now_of conditions.now))) hards.now)) result }
{
    'hards: for hard in hards {
        add_hard(alloc, setting, conditions, hard, work)?;
    }
    Ok(())
}

/// Adds chance constraints.
pub(crate) fn add_chances<'a>(
    alloc: Global,
    setting: &Scenarios<'a>,
    conditions: &[&'a Expr],
    chances: &'a [ChanceItem],
    work: &mut Lowering,
) -> Result<(), Fault>
    requires ready { IsReady setting.now work.old }
    requires weights { HasWeights setting.now work.old }
    requires met { AllByRecursion (λ (c : Chance). IsMet (table_known setting.now.table.now) (map now_of conditions.now) c.text c.bound × IsThreshold c.p c.q) chances.now }
    ensures adds { OnOk result (Adds setting.now work.old work.new (with_chances (problem_built work.old.builder) (map (chance_terms (posed setting.now (map now_of conditions.now))) chances.now))) }
    ensures measured { Measures (root_in setting.now)
        (flat_map (λ (terms : ChanceTerms). constraint_subterms terms.conditions) (map (chance_terms (posed setting.now (map now_of conditions.now))) chances.now)) result }
{
    'chances: for chance in chances {
        add_chance(alloc, setting, conditions, chance, work)?;
    }
    Ok(())
}
