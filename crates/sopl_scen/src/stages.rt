//! What has been seen when each stage is chosen.

ghost use Rattle.std.specs.Prelude.{◌≡◌, ◌≤◌, ◌<◌, ◌+◌, ◌^◌, length, map, get_or, IfOk};
ghost use Rattle.scen_laws.specs.Laws.{seen_before};
ghost use Rattle.sopl_scen.specs.Levels.{AreSmall, all_levels};
ghost use Rattle.sopl_scen.specs.Stages.{all_stages, stage_in};

use crate::nodes::Level;
use sopl_base::limits;
use std::alloc::{AllocError, Global};
use unfold_variables::StochItem;

/// A stage: how many stochastic variables are seen before it is chosen, and how many histories it has.
#[derive(Clone, Copy)]
pub(crate) struct Stage {
    pub prefix: usize,
    pub histories: u32,
}

/// All stages, from the first on.
pub(crate) fn stages(
    alloc: Global,
    stochs: &[StochItem],
    levels: &[Level],
) -> Result<Vec<Stage>, AllocError>
    requires small { AreSmall stochs.now }
    requires levels { levels.now ≡ all_levels stochs.now }
    ensures { IfOk result (λ found. found.items ≡ all_stages stochs.now) }
{
    let mut found = Vec::new(alloc);
    'stages: for stage in 1..limits::STAGE + 1 {
        found.push(stage_at(stage, stochs, levels))?;
    }
    Ok(found)
}

/// A stage.
fn stage_at(stage: u32, stochs: &[StochItem], levels: &[Level]) -> Stage
    requires small { AreSmall stochs.now }
    requires levels { levels.now ≡ all_levels stochs.now }
    ensures { result ≡ stage_in stochs.now stage }
{
    let prefix = seen_before(stage, stochs);
    Stage {
        prefix,
        histories: levels[prefix].as_slice().len() as u32,
    }
}

/// How many variables come before the first whose stage is not below this one.
pub fn seen_before(stage: u32, stochs: &[StochItem]) -> usize
    ensures value { result ≡ seen_before stage stochs.now }
    ensures within { result ≤ length stochs.now }
{
    'stochs: for (i, stoch) in stochs.iter().enumerate() {
        if stoch.stage >= stage {
            return i;
        }
    }
    stochs.len()
}
