//! Where the cells of each decision begin.

ghost use Rattle.std.specs.Prelude.{◌≡◌, ◌<◌, ◌^◌, All, IfOk};
ghost use Rattle.sopl_ast.specs.Instances.{Decision};
ghost use Rattle.unfold_laws.specs.Bounds.{IsStage};
ghost use Rattle.sopl_policy.specs.Laid.{cells_end, laid_firsts};

use sopl_scen::Tree;
use std::alloc::{AllocError, Global};
use unfold_variables::DecisionItem;

/// The number of the first cell of each decision, and behind them the number of all cells.
pub(crate) fn first_cells(
    alloc: Global,
    decisions: &[DecisionItem],
    tree: &Tree,
) -> Result<Vec<usize>, AllocError>
    requires staged { All (λ (d : Decision). IsStage d.stage) decisions.now }
    requires few { cells_end tree.now 0 decisions.now < 2 ^ 64 }
    ensures { IfOk result (λ found. found.items ≡ laid_firsts tree.now 0 decisions.now) }
{
    let mut found = Vec::new(alloc);
    let mut first: usize = 0;
    'decisions: for decision in decisions {
        found.push(first)?;
        first += tree.histories(decision.stage) as usize;
    }
    found.push(first)?;
    Ok(found)
}
