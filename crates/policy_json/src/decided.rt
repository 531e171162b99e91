//! What is decided at a stage: an entry for each decision.

ghost use Rattle.std.specs.Prelude.{◌≡◌, ◌≤◌, ◌<◌, pos, length, map, get_or, IfOk};
ghost use Rattle.serde_json.specs.View.{view};
ghost use Rattle.sopl_scen.specs.Layout.{cell_in, count_in};
ghost use Rattle.policy_json.specs.Steps.{IsReady, decide_in, decided_in, parts_in};

use crate::entries::entry_value;
use crate::point::Point;
use serde_json::Value;
use std::alloc::{AllocError, Global};

/// An entry for each decision of a stage, with what the point decides in a scenario.
pub(crate) fn decide_list(
    alloc: Global,
    point: &Point<'_>,
    stage: u32,
    scenario: u32,
) -> Result<Vec<Value>, AllocError>
    requires ready { IsReady (parts_in point.now) }
    requires from { 1 ≤ stage }
    requires to { stage ≤ 24 }
    requires exists { scenario < count_in (parts_in point.now).tree }
    ensures { IfOk result (λ list. map view list.items ≡ decide_in (parts_in point.now) stage scenario) }
{
    let stage = &point.stages[stage as usize - 1];
    let mut list = Vec::new(alloc);
    'numbers: for number in stage.decisions.as_slice() {
        list.push(decided(alloc, point, *number, scenario)?)?;
    }
    Ok(list)
}

/// The entry of the decision with this number, counted from 0.
fn decided(
    alloc: Global,
    point: &Point<'_>,
    number: u32,
    scenario: u32,
) -> Result<Value, AllocError>
    requires ready { IsReady (parts_in point.now) }
    requires decided { number < length (parts_in point.now).decisions }
    requires exists { scenario < count_in (parts_in point.now).tree }
    ensures { IfOk result (λ v. view v ≡ decided_in (parts_in point.now) scenario number) }
{
    let decision = &point.decisions[number as usize];
    let value = value_of(point, number, scenario);
    entry_value(alloc, &decision.name, &decision.index, value)
}

/// What the point decides for the decision with this number in a scenario: the value of its cell there.
fn value_of(point: &Point<'_>, number: u32, scenario: u32) -> i64
    requires ready { IsReady (parts_in point.now) }
    requires decided { number < length (parts_in point.now).decisions }
    requires exists { scenario < count_in (parts_in point.now).tree }
    ensures { result ≡ get_or (parts_in point.now).values (cell_in (parts_in point.now).tree number scenario) (pos 0) }
{
    let cell = point.tree.cell_of(number, scenario);
    point.values[cell as usize]
}
