//! What each stage has: its decisions and its stochastic variables.

ghost use Rattle.std.specs.Prelude.{◌≡◌, ◌≤◌, ◌<◌, ◌^◌, length, IfOk};
ghost use Rattle.policy_json.specs.Stages.{all_stages, numbers_of, stage_in};

use sopl_base::limits;
use sopl_scen::seen_before;
use std::alloc::{AllocError, Global};
use std::marker::Model;
use unfold_variables::{DecisionItem, StochItem};

/// A stage: the numbers of its decisions; and its stochastic variables, which stand together, from the
/// first up to the end.
#[derive(Drop)]
pub(crate) struct Stage {
    pub decisions: Vec<u32>,
    pub first: usize,
    pub end: usize,
}

impl Model for Stage {
    ghost use Rattle.policy_json.specs.Stages.{StageParts};

    ghost Value = { StageParts };

    ghost view = { λ s. record { decisions = s.decisions.items; first = s.first; end = s.end } };
}

/// All stages, from the first on.
pub(crate) fn stages(
    alloc: Global,
    decisions: &[DecisionItem],
    stochs: &[StochItem],
) -> Result<Vec<Stage>, AllocError>
    requires few { length decisions.now < 2 ^ 32 }
    ensures { IfOk result (λ found. found.items ≡ all_stages decisions.now stochs.now) }
{
    let mut found = Vec::new(alloc);
    'stages: for stage in 1..limits::STAGE + 1 {
        found.push(stage_at(alloc, stage, decisions, stochs)?)?;
    }
    Ok(found)
}

/// A stage.
fn stage_at(
    alloc: Global,
    stage: u32,
    decisions: &[DecisionItem],
    stochs: &[StochItem],
) -> Result<Stage, AllocError>
    requires few { length decisions.now < 2 ^ 32 }
    requires to { stage ≤ 24 }
    ensures { IfOk result (λ found. found ≡ stage_in decisions.now stochs.now stage) }
{
    let decisions = numbers_of(alloc, stage, decisions)?;
    Ok(Stage {
        decisions,
        first: seen_before(stage, stochs),
        end: seen_before(stage + 1, stochs),
    })
}

/// The numbers of the decisions of a stage.
fn numbers_of(alloc: Global, stage: u32, decisions: &[DecisionItem]) -> Result<Vec<u32>, AllocError>
    requires few { length decisions.now < 2 ^ 32 }
    ensures { IfOk result (λ found. found.items ≡ numbers_of stage decisions.now) }
{
    let mut found = Vec::new(alloc);
    'decisions: for (number, decision) in decisions.iter().enumerate() {
        if decision.stage != stage {
            continue;
        }
        found.push(number as u32)?;
    }
    Ok(found)
}
