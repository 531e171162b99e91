//! A box that goes to an open node.

ghost use Rattle.std.specs.Prelude.{◌≡◌, ◌++◌, ◌∷◌, ℕ, [], map, reverse, OnOk};
ghost use Rattle.box_problem.specs.Box.{Box};
ghost use Rattle.open_nodes.specs.Remade.{AreBelow, Descends, MakesAgain, cells_along, split_numbers};
ghost use Rattle.open_nodes.specs.Ways.{ups};
ghost use Rattle.open_nodes.specs.Walks.{IsEntered, IsGoing, IsKnownWay, StandsAt};

use crate::descending::take_side;
use crate::split::SplitNode;
use crate::walk::BoxWalk;
use sopl_base::Side;
use std::alloc::{AllocError, Global};

impl BoxWalk {
    /// Goes down these splits, the last one first, and lists the cells of the ends that are made again.
    #[tactic(auto, using(crate::proofs::Arriving::is_above, crate::proofs::Arriving::gone_on))]
    fn go_down(
        &mut self,
        split: &SplitNode,
        downs: &mut Vec<&SplitNode>,
        remade: &mut Vec<u32>,
    ) -> Result<(), AllocError>
        requires going { (root : Box) × (f : ℕ → Box) × IsGoing root f self.old (map (λ r. r.now) downs.old.items) split.now }
        ensures gone { (root : Box) (f : ℕ → Box) → IsGoing root f self.old (map (λ r. r.now) downs.old.items) split.now → OnOk result (IsGoing root f self.new [] split.now) }
        ensures here { OnOk result (reverse self.new.here.items
            ≡ split_numbers (map (λ r. r.now) downs.old.items) ++ reverse self.old.here.items) }
        ensures listed { OnOk result (remade.new.items ≡ remade.old.items ++ cells_along (map (λ r. r.now) downs.old.items)) }
    {
        'splits: while let Some(next) = downs.pop() {
            self.descend(next, remade)?;
        }
        Ok(())
    }

    /// Goes to the root.
    pub fn enter_root(&mut self) -> Result<(), AllocError>
        requires known { (root : Box) × (f : ℕ → Box) × StandsAt root f self.old }
        ensures entered { (root : Box) (f : ℕ → Box) → StandsAt root f self.old
            → OnOk result (StandsAt root f self.new × (self.new.store.box ≡ root)) }
        ensures none { OnOk result (self.new.here.items ≡ []) }
    {
        self.back_to_root();
        self.settle()
    }

    /// Goes to the box with which a side of a split begins, and lists the cells of the ends that are made again on the way.
    #[tactic(auto, using(crate::proofs::Arriving::as_many, crate::proofs::Arriving::met_above, crate::proofs::Arriving::there))]
    pub fn enter(
        &mut self,
        alloc: Global,
        split: &SplitNode,
        side: Side,
        remade: &mut Vec<u32>,
    ) -> Result<(), AllocError>
        requires known { (root : Box) × (f : ℕ → Box) × IsKnownWay root f self.old split.now }
        ensures entered { (root : Box) (f : ℕ → Box) → IsKnownWay root f self.old split.now → OnOk result (IsEntered root f self.new split.now side) }
        ensures remade { OnOk result (MakesAgain (reverse self.old.here.items) split.now remade.old.items remade.new.items) }
        ensures descends { Descends (reverse self.old.here.items) → Descends (split_numbers (split.now ∷ ups split.now))
            → OnOk result (Descends (reverse self.new.here.items)) }
        ensures below { (most : ℕ) → AreBelow most (reverse self.old.here.items) → AreBelow most (split_numbers (split.now ∷ ups split.now))
            → OnOk result (AreBelow most (reverse self.new.here.items)) }
    {
        let mut downs = Vec::new(alloc);
        self.meet(split, &mut downs)?;
        self.settle()?;
        self.go_down(split, &mut downs, remade)?;
        remade.push(split.cut.cell)?;
        take_side(&mut self.store, &split.cut, side)
    }
}
