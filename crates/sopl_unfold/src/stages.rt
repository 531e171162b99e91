//! Stochastic variables by stage.

ghost use Rattle.std.specs.Prelude.{◌≡◌, IfOk};
ghost use Rattle.std.specs.List.{AllByRecursion};
ghost use Rattle.sopl_ast.specs.Instances.{Stochastic};
ghost use Rattle.sopl_ast.specs.Unfolding.{by_stage as in_stages};
ghost use Rattle.unfold_laws.specs.Bounds.{IsStage};

use std::alloc::AllocError;
use unfold_variables::StochItem;

/// Orders variables by stage; those of one stage keep the order that they had.
pub(crate) fn by_stage(stochs: Vec<StochItem>) -> Result<Vec<StochItem>, AllocError>
    requires stages { AllByRecursion (λ (s : Stochastic). IsStage s.stage) stochs.items }
    ensures sorted { IfOk result (λ sorted. sorted.items ≡ in_stages stochs.items) }
{
    let mut sorted = stochs;
    sorted.sort_by_key(|stoch| stoch.stage)?;
    Ok(sorted)
}
