//! By how much a number turns with each of several cells at its ends, kept from one box to the next.

ghost use Rattle.std.specs.Prelude.{◌≡◌, ◌<◌, ℕ, get_or, length, Contains, IfOk, None};
ghost use Rattle.std.specs.List.Sorted.{IsStrictlySortedBy};
ghost use Rattle.std.specs.Ordering.{nat_cmp};
ghost use Rattle.prop_chance.specs.KeptTurns.{AreFewer, turns_of};

use prop_shave::EndTurns;
use std::alloc::{AllocError, Global};

/// By how much a number turns with each of several cells at its low and at its high end, in the order of the cells; none where this is to
/// be reckoned anew.
#[derive(Drop)]
pub struct KeptTurns {
    pub known: Vec<Option<EndTurns>>,
}

impl KeptTurns {
    /// None that are known, of so many cells.
    pub fn new(alloc: Global, cells: usize) -> Result<KeptTurns, AllocError>
        ensures none { IfOk result (λ made. (place : ℕ) → turns_of made place ≡ None) }
        ensures room { IfOk result (λ made. length made.known.items ≡ cells) }
    {
        let known = Vec::from_elem(alloc, None, cells)?;
        let mut made = KeptTurns { known };
        made.forget_all();
        Ok(made)
    }

    /// Forgets the turns of all cells.
    pub fn forget_all(&mut self)
        ensures none { (place : ℕ) → turns_of self.new place ≡ None }
        ensures room { length self.new.known.items ≡ length self.old.known.items }
    {
        'cells: for at in 0..self.known.len() {
            self.known[at] = None;
        }
    }

    /// Forgets the turns of a cell, by these cells, which ascend.
    fn forget_cell(&mut self, cells: &[u32], cell: u32)
        requires ascend { IsStrictlySortedBy nat_cmp cells.now }
        requires room { length self.old.known.items ≡ length cells.now }
        ensures forgotten { (place : ℕ) → place < length cells.now → get_or cells.now place 0 ≡ cell → turns_of self.new place ≡ None }
        ensures fewer { AreFewer self.old self.new }
        ensures room { length self.new.known.items ≡ length self.old.known.items }
    {
        match cells.binary_search(&cell) {
            Ok(place) => self.known[place] = None,
            Err(_) => self.forget_all(),
        }
    }

    /// Forgets the turns of several cells, by these cells, which ascend.
    pub fn forget(&mut self, cells: &[u32], list: &[u32])
        requires ascend { IsStrictlySortedBy nat_cmp cells.now }
        requires room { length self.old.known.items ≡ length cells.now }
        ensures forgotten { (place : ℕ) → place < length cells.now → Contains list.now (get_or cells.now place 0)
            → turns_of self.new place ≡ None }
        ensures fewer { AreFewer self.old self.new }
        ensures room { length self.new.known.items ≡ length self.old.known.items }
    {
        'list: for cell in list {
            self.forget_cell(cells, *cell);
        }
    }
}
