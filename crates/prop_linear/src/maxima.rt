//! The greatest of several numbers, of which one after the other changes.

ghost use Rattle.std.specs.Prelude.{◌≡◌, ◌+◌, ◌*◌, ◌<◌, ◌≤◌, ℕ, length, max, slice_index_or, slice_set, IfOk, OnOk};
ghost use Rattle.prop_linear.specs.Maxima.{IsTopped, IsZero, kept_node, kept_number};

use std::alloc::{AllocError, Global};

/// Numbers at several places, and over each two of them the greater one, over each two of these again, and so on up to the greatest of all,
/// node 1. Nodes `2 n` and `2 n + 1` stand below node `n`; the first place is node `first`, a power of two.
#[derive(Drop)]
pub struct Maxima {
    pub nodes: Vec<u64>,
    pub first: usize,
}

/// Adds so many times 0 to a list that has nothing else.
#[tactic(auto, using(crate::proofs::Topping::zero_more))]
fn add_zeros(nodes: &mut Vec<u64>, count: usize) -> Result<(), AllocError>
    requires zero { (node : ℕ) → slice_index_or nodes.old.items node 0 ≡ 0 }
    ensures zero { OnOk result ((node : ℕ) → slice_index_or nodes.new.items node 0 ≡ 0) }
    ensures count { OnOk result (length nodes.new.items ≡ length nodes.old.items + count) }
{
    'nodes: for _ in 0..count {
        nodes.push(0)?;
    }
    Ok(())
}

impl Maxima {
    /// As many places again.
    fn double(&mut self) -> Result<(), AllocError>
        requires zero { IsZero self.old }
        ensures zero { OnOk result (IsZero self.new) }
        ensures more { OnOk result (self.old.first < self.new.first) }
    {
        let count = self.nodes.len();
        add_zeros(&mut self.nodes, count)?;
        self.first = count;
        Ok(())
    }

    /// 0 at each of so many places.
    #[tactic(auto, using(crate::proofs::Topping::topped_zero))]
    pub(crate) fn new(alloc: Global, places: usize) -> Result<Maxima, AllocError>
        ensures places { IfOk result (λ made. places ≤ made.first) }
        ensures topped { IfOk result IsTopped }
    {
        let mut nodes = Vec::new(alloc);
        add_zeros(&mut nodes, 2)?;
        let mut made = Maxima { nodes, first: 1 };
        'levels: while made.first < places {
            made.double()?;
        }
        Ok(made)
    }

    /// Sets a node to the greater one of the two below it.
    fn mend(&mut self, node: usize)
        requires as_many { length self.old.nodes.items ≡ 2 * self.old.first }
        requires inner { node < self.old.first }
        ensures nodes { self.new.nodes.items
            ≡ slice_set self.old.nodes.items node (max (kept_node self.old (2 * node)) (kept_node self.old (2 * node + 1))) }
        ensures first { self.new.first ≡ self.old.first }
    {
        let low = self.nodes[2 * node];
        let high = self.nodes[2 * node + 1];
        self.nodes[node] = low.max(high);
    }

    /// Sets the number at a place.
    pub(crate) fn set(&mut self, place: usize, number: u64)
        requires topped { IsTopped self.old }
        requires exists { place < self.old.first }
        ensures topped { IsTopped self.new }
        ensures number { kept_number self.new place ≡ number }
        ensures others { (other : ℕ) → ¬ other ≡ place → kept_number self.new other ≡ kept_number self.old other }
        ensures first { self.new.first ≡ self.old.first }
    {
        let mut node = self.first + place;
        self.nodes[node] = number;
        'levels: while node > 1 {
            node /= 2;
            self.mend(node);
        }
    }

    /// The greatest number.
    #[tactic(auto, using(crate::proofs::Topping::under_top))]
    pub(crate) fn greatest(&self) -> u64
        requires topped { IsTopped self.now }
        ensures { (place : ℕ) → place < self.now.first → kept_number self.now place ≤ result }
    {
        self.nodes[1]
    }

    /// Of the two nodes below a node the first one that has at least this number, or the second one.
    fn below(&self, node: usize, least: u64) -> usize
        requires topped { IsTopped self.now }
        requires some { 1 ≤ node }
        requires inner { node < self.now.first }
        ensures later { node < result }
        ensures bound { result < 2 * self.now.first }
    {
        let low = 2 * node;
        if self.nodes[low] < least {
            low + 1
        } else {
            low
        }
    }

    /// The first place that has at least this number, if one has.
    pub(crate) fn first_from(&self, least: u64) -> usize
        requires topped { IsTopped self.now }
    {
        let mut node = 1;
        'levels: while node < self.first {
            node = self.below(node, least);
        }
        node - self.first
    }
}
