//! What is out of date of several things that mention cells.

ghost use Rattle.std.specs.Prelude.{◌≡◌, ◌<◌, ◌+◌, ◌++◌, ◌∷◌, [], ℕ, Bool, false, true, get_or, length, map, slice_set, IfNone, IfOk};
ghost use Rattle.std.specs.Prelude.{IfSome};
ghost use Rattle.prop_core.specs.Waking.{AreWoken};
ghost use Rattle.prop_core.specs.Watches.{waits_at};
ghost use Rattle.prop_chance.specs.UpToDate.{AreListed, AreListedBut, AreMentioning, IsUpToDate, left_to_see};
ghost use Rattle.prop_chance.specs.declared.outdated.Outdated.{Outdated as Keeping};

use crate::number_lists::NumberList;
use std::alloc::{AllocError, Global};

/// Which of several things are to be seen anew: those that wait, and those that mention a cell that was told. There is room for some cells;
/// where there is none left, all things wait. So that not all things are looked at where few wait, these are listed; of so many first
/// things, which are not listed, any may wait.
#[derive(Drop)]
pub struct Outdated {
    pub waits: Vec<bool>,
    pub listed: Vec<usize>,
    pub unlisted: usize,
    pub told: Vec<u32>,
}

impl Outdated {
    /// So many things, all of which wait, with room for so many cells.
    pub fn new(alloc: Global, count: usize, cells: usize) -> Result<Outdated, AllocError>
        ensures count { IfOk result (λ made. length made.waits.items ≡ count) }
        ensures listed { IfOk result (λ made. AreListed made) }
    {
        let waits = Vec::from_elem(alloc, true, count)?;
        let listed = Vec::with_capacity(alloc, count)?;
        let told = Vec::with_capacity(alloc, cells)?;
        Ok(Outdated {
            waits,
            listed,
            unlisted: count,
            told,
        })
    }

    /// Lists none of the things.
    pub fn unlist(&mut self)
        ensures listed { AreListed self.new }
        ensures waits { self.new.waits ≡ self.old.waits }
        ensures told { self.new.told ≡ self.old.told }
    {
        self.listed.clear();
        self.unlisted = self.waits.len();
    }

    /// Lists a thing; none of them where there is no room.
    fn list(&mut self, number: usize)
        ensures listed { AreListedBut number self.old → AreListed self.new }
        ensures waits { self.new.waits ≡ self.old.waits }
        ensures told { self.new.told ≡ self.old.told }
    {
        if self.listed.len() < self.listed.capacity() {
            self.listed.push_reserved(number);
        } else {
            self.unlist();
        }
    }

    /// Lets all things wait.
    pub fn let_all_wait(&mut self)
        ensures all { (number : ℕ) → waits_at self.new.waits.items number ≡ true }
        ensures listed { AreListed self.new }
        ensures count { length self.new.waits.items ≡ length self.old.waits.items }
        ensures told { self.new.told ≡ self.old.told }
    {
        'things: for at in 0..self.waits.len() {
            self.waits[at] = true;
        }
        self.unlist();
    }

    /// Is told that a cell may have changed.
    #[tactic(auto, using(crate::proofs::Outdating::told_one, crate::proofs::Outdating::none_fresh, crate::proofs::Outdating::listed_alike))]
    pub fn tell(&mut self, cell: u32)
        ensures told { (mentions : ℕ → ℕ → Bool) (number : ℕ) → IsUpToDate mentions self.new number → IsUpToDate mentions self.old number
            × (mentions cell number ≡ false) }
        ensures listed { AreListed self.old → AreListed self.new }
        ensures count { length self.new.waits.items ≡ length self.old.waits.items }
    {
        if self.told.len() < self.told.capacity() {
            self.told.push_reserved(cell);
        } else {
            self.told.clear();
            self.let_all_wait();
        }
    }

    /// Lets a thing wait.
    fn let_one_wait(&mut self, number: usize)
        requires exists { number < length self.old.waits.items }
        ensures woken { AreWoken (number ∷ []) self.old.waits.items self.new.waits.items }
        ensures listed { AreListed self.old → AreListed self.new }
        ensures count { length self.new.waits.items ≡ length self.old.waits.items }
        ensures told { self.new.told ≡ self.old.told }
    {
        if self.is_waiting(number) {
            return;
        }
        self.waits[number] = true;
        self.list(number);
    }

    /// Lets the things wait that have these numbers.
    fn let_each_wait<L: NumberList>(&mut self, list: &L)
        requires below { (i : ℕ) → i < length (L.numbers list.now) → get_or (L.numbers list.now) i 0 < length self.old.waits.items }
        ensures woken { AreWoken (L.numbers list.now) self.old.waits.items self.new.waits.items }
        ensures listed { AreListed self.old → AreListed self.new }
        ensures count { length self.new.waits.items ≡ length self.old.waits.items }
        ensures told { self.new.told ≡ self.old.told }
    {
        'numbers: for at in 0..list.len() {
            self.let_one_wait(list.number_at(at));
        }
    }

    /// Lets the things wait that mention a cell, which was the last one told, by the lists of their numbers for these cells; all things
    /// where it is none of them.
    fn let_cell_wait<L: NumberList>(&mut self, cells: &[u32], lists: &[L], cell: u32)
        requires lists { (mentions : ℕ → ℕ → Bool) × AreMentioning mentions (length self.old.waits.items) cells.now
            (map L.numbers lists.now) }
        ensures wait { (mentions : ℕ → ℕ → Bool) (before : Keeping) (number : ℕ)
            → AreMentioning mentions (length self.old.waits.items) cells.now (map L.numbers lists.now)
            → before.waits ≡ self.old.waits → before.told.items ≡ self.old.told.items ++ cell ∷ [] → IsUpToDate mentions self.new number
            → IsUpToDate mentions before number }
        ensures listed { AreListed self.old → AreListed self.new }
        ensures count { length self.new.waits.items ≡ length self.old.waits.items }
        ensures told { self.new.told ≡ self.old.told }
    {
        match cells.binary_search(&cell) {
            Ok(place) => self.let_each_wait(&lists[place]),
            Err(_) => self.let_all_wait(),
        }
    }

    /// Lets all things wait that mention a cell that was told, by the lists of their numbers for these cells.
    pub fn let_told_wait<L: NumberList>(&mut self, cells: &[u32], lists: &[L])
        requires lists { (mentions : ℕ → ℕ → Bool) × AreMentioning mentions (length self.old.waits.items) cells.now
            (map L.numbers lists.now) }
        ensures wait { (mentions : ℕ → ℕ → Bool) (number : ℕ) → AreMentioning mentions (length self.old.waits.items) cells.now
            (map L.numbers lists.now)
            → IsUpToDate mentions self.new number → IsUpToDate mentions self.old number }
        ensures clean { self.new.told.items ≡ [] }
        ensures listed { AreListed self.old → AreListed self.new }
        ensures count { length self.new.waits.items ≡ length self.old.waits.items }
    {
        'cells: while let Some(cell) = self.told.pop() {
            self.let_cell_wait(cells, lists, cell);
        }
    }

    /// Whether a thing waits.
    pub fn is_waiting(&self, number: usize) -> bool
        requires exists { number < length self.now.waits.items }
        ensures { result ≡ waits_at self.now.waits.items number }
    {
        self.waits[number]
    }

    /// Whether there is a thing with a number, and it waits.
    pub fn has_waiting(&self, number: usize) -> bool
        ensures exists { result ≡ true → number < length self.now.waits.items }
        ensures waits { result ≡ true → waits_at self.now.waits.items number ≡ true }
        ensures calm { result ≡ false → number < length self.now.waits.items → waits_at self.now.waits.items number ≡ false }
    {
        if number < self.waits.len() {
            self.is_waiting(number)
        } else {
            false
        }
    }

    /// Lets a thing wait no more.
    pub fn wait_no_more(&mut self, number: usize)
        requires exists { number < length self.old.waits.items }
        ensures waits { self.new.waits.items ≡ slice_set self.old.waits.items number false }
        ensures listed { AreListedBut number self.old → AreListed self.new }
        ensures left { left_to_see self.new ≡ left_to_see self.old }
        ensures told { self.new.told ≡ self.old.told }
    {
        self.waits[number] = false;
    }

    /// Takes the last one of the things that are not listed, if there is one.
    fn take_unlisted(&mut self) -> Option<usize>
        ensures taken { IfSome result (λ number. (number + 1 ≡ self.old.unlisted) × (self.new.unlisted ≡ number)) }
        ensures none { IfNone result (self.old.unlisted ≡ 0) }
        ensures waits { self.new.waits ≡ self.old.waits }
        ensures listed { self.new.listed ≡ self.old.listed }
        ensures told { self.new.told ≡ self.old.told }
    {
        if self.unlisted == 0 {
            return None;
        }
        self.unlisted -= 1;
        Some(self.unlisted)
    }

    /// Takes a thing that may wait off the list, or one of those that are not listed; none where none waits.
    pub fn take_number(&mut self) -> Option<usize>
        ensures taken { IfSome result (λ number. AreListed self.old → AreListedBut number self.new) }
        ensures fewer { IfSome result (λ _. left_to_see self.new < left_to_see self.old) }
        ensures calm { IfNone result (AreListed self.old → (number : ℕ) → number < length self.old.waits.items
            → waits_at self.old.waits.items number ≡ false) }
        ensures waits { self.new.waits ≡ self.old.waits }
        ensures told { self.new.told ≡ self.old.told }
    {
        match self.listed.pop() {
            Some(number) => Some(number),
            None => self.take_unlisted(),
        }
    }
}
