//! The way from a node up to where a box stands.

ghost use Rattle.std.specs.Prelude.{◌≡◌, ◌+◌, ◌++◌, ◌∷◌, ℕ, [], true, false, length, map, option_map, reverse, OnOk};
ghost use Rattle.box_problem.specs.Box.{Box};
ghost use Rattle.open_nodes.specs.Remade.{Descends, HasLeft, StandApart, split_numbers};
ghost use Rattle.open_nodes.specs.Walks.{StandsAt, BeginsWith, Meets, with_ups};
ghost use Rattle.open_nodes.specs.Ways.{ups};

use crate::split::SplitNode;
use crate::walk::BoxWalk;
use std::alloc::AllocError;

impl SplitNode {
    /// The split above this one.
    fn next(&self) -> Option<&SplitNode>
        ensures { with_ups (option_map (λ r. r.now) result) ≡ ups self.now }
    {
        match &self.above {
            Some(above) => Some(above),
            None => None,
        }
    }
}

impl BoxWalk {
    /// Whether the last split on the way is the one of this number.
    fn stands_at(&self, node: u64) -> bool
        ensures stands { result ≡ true → BeginsWith (reverse self.now.here.items) node }
        ensures elsewhere { result ≡ false → ¬ BeginsWith (reverse self.now.here.items) node }
    {
        match self.here.last() {
            Some(last) => *last == node,
            None => false,
        }
    }

    /// Goes back to the nearest split at or above this one on whose way the box is, and lists the splits below that one, this one first.
    pub(crate) fn meet<'a>(
        &mut self,
        split: &'a SplitNode,
        down: &mut Vec<&'a SplitNode>,
    ) -> Result<(), AllocError>
        requires marks { length self.old.store.marks ≡ length self.old.here.items + 1 }
        requires empty { down.old.items ≡ [] }
        ensures at { (root : Box) (f : ℕ → Box) → StandsAt root f self.old → StandsAt root f self.new }
        ensures marks { length self.new.store.marks ≡ length self.new.here.items + 1 }
        ensures met { OnOk result (Meets self.new.here.items (map (λ r. r.now) down.new.items) split.now) }
        ensures left { HasLeft (reverse self.old.here.items) (reverse self.new.here.items) }
        ensures apart { Descends (reverse self.old.here.items) → Descends (split_numbers (split.now ∷ ups split.now))
            → OnOk result (StandApart (reverse self.old.here.items) (map (λ r. r.now) down.new.items)) }
    {
        let mut at = Some(split);
        'up: while let Some(next) = at {
            self.back_to(next.node);
            if self.stands_at(next.node) {
                return Ok(());
            }
            down.push(next)?;
            at = next.next();
        }
        self.back_to_root();
        Ok(())
    }
}
