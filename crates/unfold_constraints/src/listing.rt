//! The instances and the conditions of a text's constraints.

ghost use Rattle.std.specs.Prelude.{◌≡◌, ◌++◌, IfOk, OnOk, map};
ghost use Rattle.sopl_ast.specs.Constraints.{cons_tree, cons_trees};
ghost use Rattle.sopl_ast.specs.References.{now_of};
ghost use Rattle.sopl_ast.specs.Unfolding.{conditions_of, all_conditions, constraints_events, all_constraint_instances, hards_among, chances_among};
ghost use Rattle.sopl_ast.specs.Whole.{conses};
ghost use Rattle.unfold_constants.specs.CountedAnswers.{Answers};
ghost use Rattle.unfold_constants.specs.Here.{known_in};
ghost use Rattle.unfold_constraints.specs.Shown.{found_in};
ghost use Rattle.unfold_constraints.specs.Stepping as spec;
ghost use Rattle.unfold_tables.specs.Tables.{table_known};
ghost use Rattle.unfold_tables.specs.Walks.{Walks};

use crate::items::Instances;
use crate::place::Place;
use sopl_ast::{Cons, ConsList, Expr};
use sopl_base::Fault;
use std::alloc::{AllocError, Global};
use unfold_constants::ConstantScope;
use unfold_tables::{Count, Table};

/// The instances of constraints, behind the declarations that have filled the table.
pub fn instances(
    alloc: Global,
    table: &Table,
    count: &mut Count,
    body: &ConsList,
) -> Result<Instances, Fault>
    ensures met { Walks count.old.counted count.new.counted (constraints_events (table_known table.now) (conses (cons_trees body.now))) result }
    ensures hards { IfOk result (λ found. found.hards.items ≡ hards_among (all_constraint_instances (table_known table.now) 0 (conses (cons_trees body.now)))) }
    ensures chances { IfOk result (λ found. found.chances.items ≡ chances_among (all_constraint_instances (table_known table.now) 0 (conses (cons_trees body.now)))) }
{
    let known = ConstantScope::new(alloc, table);
    let place = Place {
        alloc,
        known: &known,
    };
    all_instances(&place, count, body)
}

/// Lists the instances of constraints, as a step that counts what was evaluated.
fn all_instances<'a>(
    place: &Place<'a, '_>,
    count: &mut Count,
    body: &'a ConsList,
) -> Result<Instances, Fault>
    ensures { Answers found_in count.new.counted result
        (spec.constraints (known_in place.now.known.now) 0 (conses (cons_trees body.now)) spec.nothing_found count.old.counted) }
{
    let mut found = Instances::new(place.alloc);
    place.constraints(count, 0, body.as_slice(), &mut found)?;
    Ok(found)
}

/// The conditions of hard constraints and chance constraints, in text order; an instance names one of them by its number, counted from 0.
pub fn conditions<'a>(alloc: Global, body: &'a ConsList) -> Result<Vec<&'a Expr>, AllocError>
    ensures { IfOk result (λ found. map now_of found.items ≡ all_conditions (conses (cons_trees body.now))) }
{
    let mut found = Vec::new(alloc);
    add_all(&mut found, body.as_slice())?;
    Ok(found)
}

/// Adds the conditions of constraints.
#[tactic(auto, using(sopl_ast::proofs::ConstraintTrees::constraints, crate::proofs::Parts::parts))]
#[cycle(add)]
fn add_all<'a>(found: &mut Vec<&'a Expr>, parts: &'a [Cons]) -> Result<(), AllocError>
    ensures { OnOk result (map now_of found.new.items ≡ map now_of found.old.items ++ all_conditions (conses (map cons_tree parts.now))) }
{
    'parts: for part in parts {
        add_conditions(found, part)?;
    }
    Ok(())
}

/// Adds the conditions of a constraint.
#[tactic(auto, using(sopl_ast::proofs::ConstraintTrees::constraints, crate::proofs::Parts::parts))]
#[cycle(add)]
fn add_conditions<'a>(found: &mut Vec<&'a Expr>, constraint: &'a Cons) -> Result<(), AllocError>
    ensures { OnOk result (map now_of found.new.items ≡ map now_of found.old.items ++ conditions_of (cons_tree constraint.now)) }
{
    match constraint {
        Cons::Forall(_, inner) => add_conditions(found, inner),
        Cons::Block(parts) => add_all(found, parts.as_slice()),
        Cons::Hard(cond) | Cons::Chance { cond, .. } => {
            found.push(cond)?;
            Ok(())
        }
    }
}
