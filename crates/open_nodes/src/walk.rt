//! A box that goes from one open node to another.

ghost use Rattle.std.specs.Prelude.{◌≡◌, ◌+◌, ℕ, [], length, reverse, OnOk};
ghost use Rattle.box_problem.specs.Box.{Box};
ghost use Rattle.open_nodes.specs.Remade.{BeginsAtMost, GoesBack};
ghost use Rattle.open_nodes.specs.Walks.{StandsAt, IsTop, marked};

use box_store::BoxStore;
use std::alloc::AllocError;

/// A box, and the numbers of the splits on the way to it, the root's first. At the oldest mark of the store stands the root, and above it the box of each of
/// these splits.
#[derive(Drop)]
pub struct BoxWalk {
    pub store: BoxStore,
    pub here: Vec<u64>,
}

impl BoxWalk {
    /// Goes back to the newest split that has at most this number, or to the root.
    #[tactic(auto, using(crate::proofs::Walking::popped, crate::proofs::Walking::fewer, crate::proofs::Remaking::back_empty))]
    pub(crate) fn back_to(&mut self, node: u64)
        requires marks { length self.old.store.marks ≡ length self.old.here.items + 1 }
        ensures at { (root : Box) (f : ℕ → Box) → StandsAt root f self.old → StandsAt root f self.new }
        ensures marks { length self.new.store.marks ≡ length self.new.here.items + 1 }
        ensures back { GoesBack node (reverse self.old.here.items) (reverse self.new.here.items) }
        ensures most { BeginsAtMost (reverse self.new.here.items) node }
    {
        'splits: while let Some(last) = self.here.pop() {
            if last <= node {
                self.here.push_reserved(last);
                return;
            }
            self.store.undo();
        }
    }

    /// Goes back to the root.
    #[tactic(auto, using(crate::proofs::Walking::popped, crate::proofs::Walking::fewer))]
    pub(crate) fn back_to_root(&mut self)
        requires marks { length self.old.store.marks ≡ length self.old.here.items + 1 }
        ensures at { (root : Box) (f : ℕ → Box) → StandsAt root f self.old → StandsAt root f self.new }
        ensures marks { length self.new.store.marks ≡ length self.new.here.items + 1 }
        ensures none { self.new.here.items ≡ [] }
    {
        'splits: while let Some(_) = self.here.pop() {
            self.store.undo();
        }
    }

    /// Sets the box to that of the newest mark.
    pub(crate) fn settle(&mut self) -> Result<(), AllocError>
        requires marks { length self.old.store.marks ≡ length self.old.here.items + 1 }
        ensures at { (root : Box) (f : ℕ → Box) → StandsAt root f self.old → OnOk result (StandsAt root f self.new) }
        ensures same { OnOk result (marked self.new.store.marks ≡ marked self.old.store.marks) }
        ensures here { self.new.here ≡ self.old.here }
        ensures top { OnOk result (IsTop self.new.store.box (marked self.new.store.marks)) }
        ensures marks { OnOk result (length self.new.store.marks ≡ length self.new.here.items + 1) }
    {
        self.store.undo();
        self.store.reserve(1)?;
        self.store.mark();
        Ok(())
    }
}
