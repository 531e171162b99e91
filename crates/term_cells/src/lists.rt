//! The cells that a term or a condition mentions, as a list.

ghost use Rattle.std.specs.Prelude.{◌↔◌, ℕ, Contains, IfOk};
ghost use Rattle.std.specs.List.Sorted.{IsStrictlyIncreasing};
ghost use Rattle.term_math.specs.Shown.{box_in};
ghost use Rattle.term_nodes.specs.Built.{IsBuilt};
ghost use Rattle.term_nodes.specs.Things.{cond_at, term_at, things};
ghost use Rattle.term_language.specs.Mentions.{cond_mentions, mentions};

use crate::kept::listed;
use crate::walk::Nodes;
use std::alloc::{AllocError, Global};
use std::collections::BTreeSet;

impl<'a> Nodes<'a> {
    /// The cells that a term mentions, in ascending order.
    pub fn cells_of_term(&self, alloc: Global, id: u32) -> Result<Vec<u32>, AllocError>
        requires built { IsBuilt (box_in self.now.root) self.now.items.now }
        ensures mentioned { IfOk result (λ cells. (cell : ℕ) → Contains cells.items cell ↔ Contains (mentions (box_in self.now.root) (term_at (things self.now.items.now) id)) cell) }
        ensures ascending { IfOk result (λ cells. IsStrictlyIncreasing cells.items) }
    {
        let mut cells = BTreeSet::new(alloc);
        self.term(id, &mut cells)?;
        listed(alloc, &cells)
    }

    /// The cells that a condition mentions, in ascending order.
    pub fn cells_of_cond(&self, alloc: Global, id: u32) -> Result<Vec<u32>, AllocError>
        requires built { IsBuilt (box_in self.now.root) self.now.items.now }
        ensures mentioned { IfOk result (λ cells. (cell : ℕ) → Contains cells.items cell ↔ Contains (cond_mentions (box_in self.now.root) (cond_at (things self.now.items.now) id)) cell) }
        ensures ascending { IfOk result (λ cells. IsStrictlyIncreasing cells.items) }
    {
        let mut cells = BTreeSet::new(alloc);
        self.cond(id, &mut cells)?;
        listed(alloc, &cells)
    }
}
