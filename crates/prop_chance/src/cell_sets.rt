//! Sets of cells.

ghost use Rattle.std.specs.Prelude.{◌≡◌, IfOk, OnOk};
ghost use Rattle.std.specs.List.Sorted.{IsStrictlySortedBy};
ghost use Rattle.std.specs.Ordering.{nat_cmp};
ghost use Rattle.prop_shave.specs.Probes.{HasAll, HasOnly};
ghost use Rattle.term_cells.specs.Cells.{with_cells};

use std::alloc::{AllocError, Global};
use std::collections::BTreeSet;

/// Puts cells into a set.
#[tactic(auto, using(crate::proofs::CellSets::no_cell_left))]
fn put(set: &mut BTreeSet<u32>, cells: &[u32]) -> Result<(), AllocError>
    ensures { OnOk result (set.new.keys ≡ with_cells set.old.keys cells.now) }
{
    'cells: for cell in cells {
        set.insert(*cell)?;
    }
    Ok(())
}

/// Puts cells into a set, which keeps those that it has.
pub fn put_cells(set: &mut BTreeSet<u32>, cells: &[u32]) -> Result<(), AllocError>
    ensures kept { OnOk result (HasAll set.new.keys set.old.keys) }
    ensures put { OnOk result (HasAll set.new.keys cells.now) }
    ensures only { OnOk result (HasOnly set.new.keys set.old.keys cells.now) }
{
    put(set, cells)?;
    Ok(())
}

/// The cells of a set, in ascending order.
pub fn cells_listed(alloc: Global, set: &BTreeSet<u32>) -> Result<Vec<u32>, AllocError>
    ensures keys { IfOk result (λ list. list.items ≡ set.now.keys) }
    ensures ascend { IfOk result (λ list. IsStrictlySortedBy nat_cmp list.items) }
{
    set.iter().copied().collect(alloc)
}
