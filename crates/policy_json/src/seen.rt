//! What is seen after a stage: an entry for each stochastic variable.

ghost use Rattle.std.specs.Prelude.{◌≡◌, ◌-◌, ◌≤◌, ◌<◌, length, map, IfOk};
ghost use Rattle.std.specs.List.{range_with_len};
ghost use Rattle.serde_json.specs.View.{view};
ghost use Rattle.sopl_scen.specs.Layout.{count_in};
ghost use Rattle.policy_json.specs.Steps.{IsReady, drawn_in, parts_in, seen_in};

use crate::entries::entry_value;
use crate::point::Point;
use serde_json::Value;
use std::alloc::{AllocError, Global};

/// An entry for each stochastic variable of a stage, with its value in a scenario.
pub(crate) fn seen_list(
    alloc: Global,
    point: &Point<'_>,
    stage: u32,
    scenario: u32,
) -> Result<Vec<Value>, AllocError>
    requires ready { IsReady (parts_in point.now) }
    requires from { 1 ≤ stage }
    requires to { stage ≤ 24 }
    requires exists { scenario < count_in (parts_in point.now).tree }
    ensures { IfOk result (λ list. map view list.items ≡ seen_in (parts_in point.now) stage scenario) }
{
    let stage = &point.stages[stage as usize - 1];
    drawn_list(alloc, point, stage.first, stage.end, scenario)
}

/// An entry for each stochastic variable from the first up to the end.
fn drawn_list(
    alloc: Global,
    point: &Point<'_>,
    first: usize,
    end: usize,
    scenario: u32,
) -> Result<Vec<Value>, AllocError>
    requires ready { IsReady (parts_in point.now) }
    requires order { first ≤ end }
    requires within { end ≤ length (parts_in point.now).stochastics }
    requires exists { scenario < count_in (parts_in point.now).tree }
    ensures { IfOk result (λ list. map view list.items ≡ map (drawn_in (parts_in point.now) scenario) (range_with_len first (end - first))) }
{
    let mut list = Vec::new(alloc);
    'numbers: for number in first..end {
        list.push(drawn(alloc, point, number, scenario)?)?;
    }
    Ok(list)
}

/// The entry of the stochastic variable with this number, counted from 0.
fn drawn(
    alloc: Global,
    point: &Point<'_>,
    number: usize,
    scenario: u32,
) -> Result<Value, AllocError>
    requires ready { IsReady (parts_in point.now) }
    requires drawn { number < length (parts_in point.now).stochastics }
    requires exists { scenario < count_in (parts_in point.now).tree }
    ensures { IfOk result (λ v. view v ≡ drawn_in (parts_in point.now) scenario number) }
{
    let stoch = &point.stochs[number];
    let value = point.tree.value(number as u32, scenario);
    entry_value(alloc, &stoch.name, &stoch.index, value)
}
