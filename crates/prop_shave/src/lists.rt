//! Lists of cells, and of the parts that mention one.

ghost use Rattle.std.specs.Prelude.{◌≡◌, ◌∷◌, ◌++◌, [], if◌then◌else◌, OnOk};
ghost use Rattle.prop_shave.specs.Sums.{has_cell};

use std::alloc::AllocError;

/// Whether a list has a cell.
pub fn has(cells: &[u32], cell: u32) -> bool
    ensures { result ≡ has_cell cell cells.now }
{
    cells.contains(&cell)
}

/// Adds a part to a list, or nothing.
pub fn put_if<P: Copy>(list: &mut Vec<P>, part: P, wanted: bool) -> Result<(), AllocError>
    ensures { OnOk result (list.new.items ≡ list.old.items ++ (if wanted then part ∷ [] else [])) }
{
    if wanted {
        list.push(part)?;
        return Ok(());
    }
    Ok(())
}
