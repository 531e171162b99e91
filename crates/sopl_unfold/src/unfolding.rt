//! Unfolding: a model's declarations, then its objective, then its constraints.

ghost use Rattle.std.specs.Prelude.{◌≡◌, ◌⊎◌, IfOk, IfErr, Err, option_map};
ghost use Rattle.sopl_base.specs.declared.fault.Fault.TheVariants.{NoMemory};
ghost use Rattle.sopl_ast.specs.UnfoldEvents.{first_failure};
ghost use Rattle.sopl_ast.specs.Unfolding.{text_events, goal_events};
ghost use Rattle.sopl_ast.specs.WholeModel.{whole, goal_tree};
ghost use Rattle.unfold_tables.specs.Tables.{table_known};
ghost use Rattle.unfold_tables.specs.Walks.{Walks};
ghost use Rattle.unfold_laws.specs.Passing.{NothingFails};
ghost use Rattle.sopl_unfold.specs.Shown.{Unfolds};

use crate::declared::declare_all;
use crate::ground::{Ground, StatedParts};
use crate::stages::by_stage;
use sopl_ast::{Goal, Model};
use sopl_base::Fault;
use sopl_types::Typed;
use std::alloc::Global;
use unfold_constants::ConstantScope;
use unfold_constraints::instances;
use unfold_tables::{Count, Table};

/// Walks through the objective, where there is one.
fn walk_goal(
    alloc: Global,
    table: &Table,
    count: &mut Count,
    goal: Option<&Goal>,
) -> Result<(), Fault>
    ensures { Walks count.old.counted count.new.counted (goal_events (table_known table.now) (option_map (λ g. goal_tree g.now) goal.entry)) result }
{
    match goal {
        None => Ok(()),
        Some(goal) => {
            let known = ConstantScope::new(alloc, table);
            known.expression(count, &goal.expr)
        }
    }
}

/// What a model states, or the first refusal or limit.
pub(crate) fn found_in(alloc: Global, model: &Model) -> Result<StatedParts, Fault>
    ensures found { IfOk result (λ found. Unfolds (whole model.now) found) }
    ensures refused { IfErr result (λ fault. (fault ≡ NoMemory) ⊎ (first_failure 0 (text_events (whole model.now)) ≡ Err fault)) }
{
    let mut count = Count::new();
    let declared = declare_all(alloc, &mut count, &model.decls)?;
    walk_goal(alloc, &declared.table, &mut count, model.goal.as_ref())?;
    let instances = instances(alloc, &declared.table, &mut count, &model.body)?;
    let stochs = by_stage(declared.stochs)?;
    Ok(StatedParts {
        table: declared.table,
        decisions: declared.decisions,
        stochs,
        hards: instances.hards,
        chances: instances.chances,
    })
}

/// The ground problem of a typed model. It is refused where its unfolding meets a refusal or a limit, by the first one that is
/// met: a constant without a value (110), an empty domain (111), a bracket of another length than its index set (112), a weight
/// below 1 or a value that stands twice (113), a stage that is not 1 to 24 (114), a threshold that is no fraction from 0 to 1
/// (115); a domain with more than 65536 values (203), a range or set with more elements (208), or more than 262144 elements,
/// values of binders and instances of constraints together (205).
pub fn unfold(alloc: Global, typed: Typed) -> Result<Ground, Fault>
    ensures same { IfOk result (λ ground. ground.typed ≡ typed) }
    ensures passes { IfOk result (λ ground. NothingFails (text_events (whole typed.model))) }
    ensures refused { IfErr result (λ fault. (fault ≡ NoMemory) ⊎ (first_failure 0 (text_events (whole typed.model)) ≡ Err fault)) }
{
    let found = found_in(alloc, typed.model())?;
    Ok(Ground { typed, found })
}
