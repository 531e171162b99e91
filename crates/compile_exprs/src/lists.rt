//! Lists of numbers of terms and conditions.

ghost use Rattle.std.specs.Prelude.{◌≡◌, ◌∷◌, ◌++◌, [], OnOk};

use std::alloc::AllocError;

/// Puts the number of a term or a condition at the end.
pub(crate) fn listed<T: Drop>(ids: &mut Vec<T>, id: T) -> Result<(), AllocError>
    ensures more { OnOk result (ids.new.items ≡ ids.old.items ++ id ∷ []) }
{
    ids.push(id)?;
    Ok(())
}
