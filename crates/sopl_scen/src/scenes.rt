//! The scenarios of stochastic variables, as they are kept when their levels are dropped.

ghost use Rattle.std.specs.Prelude.{◌≡◌, ◌+◌, ◌≤◌, ◌<◌, ◌^◌, length, map, get_or, IfOk};
ghost use Rattle.sopl_scen.specs.Levels.{AreSmall, all_levels, level_at, weight_in};
ghost use Rattle.sopl_scen.specs.Stages.{all_stages};
ghost use Rattle.sopl_scen.specs.Tables.{all_paths, all_rows};

use crate::levels::levels;
use crate::nodes::{Level, Node};
use crate::stages::{Stage, stages};
use crate::table::Table;
use std::alloc::{AllocError, Global};
use unfold_variables::StochItem;

/// The weights of all scenarios, their values and histories, and the stages.
#[derive(Drop)]
pub(crate) struct Scenes {
    pub weights: Vec<i128>,
    pub table: Table,
    pub stages: Vec<Stage>,
}

impl Scenes {
    /// The scenarios of these variables.
    pub(crate) fn of(alloc: Global, stochs: &[StochItem]) -> Result<Self, AllocError>
        requires small { AreSmall stochs.now }
        ensures weights { IfOk result (λ s. s.weights.items ≡ map weight_in (level_at stochs.now (length stochs.now))) }
        ensures values { IfOk result (λ s. s.table.values.items ≡ all_rows (all_levels stochs.now) (length (level_at stochs.now (length stochs.now)))) }
        ensures nodes { IfOk result (λ s. s.table.nodes.items ≡ all_paths (all_levels stochs.now) (length (level_at stochs.now (length stochs.now)))) }
        ensures stages { IfOk result (λ s. s.stages.items ≡ all_stages stochs.now) }
    {
        let levels = levels(alloc, stochs)?;
        Scenes::of_levels(alloc, stochs, &levels)
    }

    /// The scenarios of these variables, of which each has its level beside it.
    fn of_levels(alloc: Global, stochs: &[StochItem], levels: &[Level]) -> Result<Self, AllocError>
        requires small { AreSmall stochs.now }
        requires levels { levels.now ≡ all_levels stochs.now }
        ensures weights { IfOk result (λ s. s.weights.items ≡ map weight_in (level_at stochs.now (length stochs.now))) }
        ensures values { IfOk result (λ s. s.table.values.items ≡ all_rows (all_levels stochs.now) (length (level_at stochs.now (length stochs.now)))) }
        ensures nodes { IfOk result (λ s. s.table.nodes.items ≡ all_paths (all_levels stochs.now) (length (level_at stochs.now (length stochs.now)))) }
        ensures stages { IfOk result (λ s. s.stages.items ≡ all_stages stochs.now) }
    {
        let last = levels[stochs.len()].as_slice();
        let stages = stages(alloc, stochs, levels)?;
        let table = Table::of(alloc, levels, last.len() as u32)?;
        let weights = weights_of(alloc, last)?;
        Ok(Scenes {
            weights,
            table,
            stages,
        })
    }
}

/// The weights of nodes.
fn weights_of(alloc: Global, level: &[Node]) -> Result<Vec<i128>, AllocError>
    ensures { IfOk result (λ weights. weights.items ≡ map weight_in level.now) }
{
    let mut weights = Vec::new(alloc);
    'level: for node in level {
        weights.push(node.weight)?;
    }
    Ok(weights)
}
