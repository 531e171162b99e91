//! The list of the branchers that the program knows.

ghost use Rattle.std.specs.Prelude.{◌≡◌, ◌∷◌, [], map, codes, IfOk};
ghost use Rattle.brancher.specs.Known.{known_names};

use crate::branching::Brancher;
use std::alloc::{AllocError, Global};

/// The branchers that the program knows, each once. A search asks the first one where it is given no name.
pub fn known_branchers(
    alloc: Global,
    lower: Box<dyn Brancher>,
    widest: Box<dyn Brancher>,
    failing: Box<dyn Brancher>,
) -> Result<Vec<Box<dyn Brancher>>, AllocError>
    requires lower { label lower ≡ codes "lower" }
    requires widest { label widest ≡ codes "widest" }
    requires failing { label failing ≡ codes "failing" }
    ensures names { IfOk result (λ list. map (λ b. label b) list.items ≡ known_names) }
    ensures same { IfOk result (λ list. list.items ≡ lower ∷ widest ∷ failing ∷ []) }
{
    let mut list = Vec::new(alloc);
    list.push(lower)?;
    list.push(widest)?;
    list.push(failing)?;
    Ok(list)
}
