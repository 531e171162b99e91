//! Sets of cells.

ghost use Rattle.std.specs.Prelude.{◌≡◌, OnOk, IfOk};
ghost use Rattle.std.specs.BTreeSet.{insert_key};
ghost use Rattle.std.specs.List.Sorted.{IsStrictlyIncreasing};
ghost use Rattle.std.specs.Ordering.{nat_cmp};

use std::alloc::{AllocError, Global};
use std::collections::BTreeSet;

/// Puts a cell into a set.
pub(crate) fn put(cells: &mut BTreeSet<u32>, cell: u32) -> Result<(), AllocError>
    ensures { OnOk result (cells.new.keys ≡ insert_key nat_cmp cells.old.keys cell) }
{
    cells.insert(cell)?;
    Ok(())
}

/// The cells of a set, in ascending order.
pub(crate) fn listed(alloc: Global, cells: &BTreeSet<u32>) -> Result<Vec<u32>, AllocError>
    ensures keys { IfOk result (λ list. list.items ≡ cells.now.keys) }
    ensures ascending { IfOk result (λ list. IsStrictlyIncreasing list.items) }
{
    let mut list = Vec::with_capacity(alloc, cells.len())?;
    'cells: for cell in cells {
        list.push(*cell)?;
    }
    Ok(list)
}
