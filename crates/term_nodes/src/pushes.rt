//! Nodes are added one by one.

ghost use Rattle.std.specs.Prelude.{◌≡◌, OnOk, OnErr, IfOk, ◌<◌, ◌^◌, length, ◌++◌, ◌∷◌, []};
ghost use Rattle.box_problem.specs.Box.{Box};
ghost use Rattle.term_nodes.specs.Things.{thing_of, things};
ghost use Rattle.term_nodes.specs.Built.{IsBuilt, IsNew};

use crate::items::Item;
use std::alloc::AllocError;

/// Adds a node, and gives its number; there is none left behind 2^32 - 1 nodes, which counts as out of memory.
#[tactic(auto, using(crate::proofs::Growing::built_more, crate::proofs::Growing::things_more))]
pub fn push(items: &mut Vec<Item>, item: Item) -> Result<u32, AllocError>
    ensures id { IfOk result (λ id. id ≡ length items.old.items) }
    ensures things { OnOk result (things items.new.items ≡ things items.old.items ++ thing_of (things items.old.items) item.node ∷ []) }
    ensures built { (root : Box) → IsBuilt root items.old.items → IsNew root items.old.items item → OnOk result (IsBuilt root items.new.items) }
    ensures few { OnOk result (length items.new.items < 2 ^ 32) }
    ensures err { OnErr result (items.new.items ≡ items.old.items) }
{
    let id = items.len();
    if id >= u32::MAX as usize {
        return Err(AllocError);
    }
    items.push(item)?;
    Ok(id as u32)
}
