//! A sum that is kept from one box to the next.

ghost use Rattle.std.specs.Prelude.{◌≡◌, ◌<◌, ℕ, true, false, pos, length, IfOk, IfSome};
ghost use Rattle.term_problem.specs.Search.{numbers_to};
ghost use Rattle.prop_shave.specs.Sums.{sum_over};
ghost use Rattle.prop_chance.specs.KeptWeights.{IfSo};
ghost use Rattle.log_check.specs.KeptSums.{IsOfParts, IsCurrent, IsLater, IsPartSet, IsSumKept, KeepsSum, cells_of_part, part_kept};

use crate::changes::Changes;
use crate::sum_parts::SumParts;
use sopl_base::Wide;
use std::alloc::{AllocError, Global};

/// Several cells.
#[derive(Drop)]
pub(crate) struct CellList {
    pub(crate) cells: Vec<u32>,
}

/// The parts of a sum and the sum, as they were seen last over a box; the cells that each part mentions; and the time at which they were
/// seen, which is 0 where nothing was seen.
#[derive(Drop)]
pub(crate) struct SeenSum {
    pub(crate) lists: Vec<CellList>,
    pub(crate) parts: Vec<Wide>,
    pub(crate) sum: Wide,
    pub(crate) seen: u64,
}

impl SeenSum {
    /// Of parts that mention these cells; nothing was seen.
    pub(crate) fn new(alloc: Global, lists: Vec<CellList>) -> Result<SeenSum, AllocError>
        ensures lists { IfOk result (λ made. made.lists ≡ lists) }
        ensures parts { IfOk result (λ made. length made.parts.items ≡ length lists.items) }
        ensures seen { IfOk result (λ made. made.seen ≡ 0) }
    {
        let parts = Vec::from_elem(alloc, Wide { value: 0 }, lists.len())?;
        Ok(SeenSum {
            lists,
            parts,
            sum: Wide { value: 0 },
            seen: 0,
        })
    }

    /// Forgets what was seen.
    pub(crate) fn forget(&mut self)
        ensures seen { self.new.seen ≡ 0 }
    {
        self.seen = 0;
    }

    /// Takes each part for 0.
    fn clear(&mut self)
        ensures cleared { (part : ℕ) → part_kept self.new part ≡ pos 0 }
        ensures sum { self.new.sum.value ≡ pos 0 }
        ensures lists { self.new.lists ≡ self.old.lists }
        ensures seen { self.new.seen ≡ self.old.seen }
        ensures count { length self.new.parts.items ≡ length self.old.parts.items }
    {
        'places: for at in 0..self.parts.len() {
            self.parts[at] = Wide { value: 0 };
        }
        self.sum = Wide { value: 0 };
    }

    /// Sets one part, and the sum with it, where that has room; else nothing.
    fn set(&mut self, at: usize, part: Wide) -> bool
        requires exists { at < length self.old.parts.items }
        ensures set { IfSo result (IsPartSet self.old self.new at part) }
        ensures unset { result ≡ false → self.new ≡ self.old }
    {
        let Some(less) = self.sum.checked_minus(self.parts[at]) else {
            return false;
        };
        let Some(sum) = less.checked_plus(part) else {
            return false;
        };
        self.parts[at] = part;
        self.sum = sum;
        true
    }

    /// Whether these are the cells that are kept for a part.
    fn lists_cells(&self, at: usize, cells: &[u32]) -> bool
        requires exists { at < length self.now.lists.items }
        ensures { result ≡ true → cells_of_part self.now at ≡ cells.now }
    {
        self.lists[at].cells.as_slice() == cells
    }

    /// Whether it is of these parts: as many, which mention these cells.
    fn lists_all<P: SumParts>(&self, parts: &P) -> bool
        requires asked { P.asked parts.now }
        ensures { result ≡ true → IsOfParts (P.mention parts.now) (P.count parts.now) self.now }
    {
        let count = parts.len();
        if self.lists.len() != count {
            return false;
        }
        if self.parts.len() != count {
            return false;
        }
        'places: for at in 0..count {
            if !self.lists_cells(at, parts.cells(at)) {
                return false;
            }
        }
        true
    }

    /// Whether no cell that a part mentions has changed since the sum was seen.
    fn is_current(&self, changes: &Changes, at: usize) -> bool
        requires exists { at < length self.now.lists.items }
        ensures { result ≡ true → IsCurrent changes.now self.now at }
    {
        if self.seen == 0 {
            return false;
        }
        changes.are_unchanged(self.lists[at].cells.as_slice(), self.seen)
    }

    /// Sees a part anew, unless it is current; whether it and the sum have room.
    fn mend_part<P: SumParts>(&mut self, changes: &Changes, parts: &P, at: usize) -> bool
        requires asked { P.asked parts.now }
        requires exists { at < P.count parts.now }
        requires kept { IsSumKept changes.now (P.mention parts.now) (P.count parts.now) (P.value parts.now) self.old }
        ensures kept { IsSumKept changes.now (P.mention parts.now) (P.count parts.now) (P.value parts.now) self.new }
        ensures here { IfSo result (part_kept self.new at ≡ P.value parts.now at) }
        ensures others { (part : ℕ) → ¬ part ≡ at → part_kept self.new part ≡ part_kept self.old part }
        ensures seen { self.new.seen ≡ self.old.seen }
    {
        if self.is_current(changes, at) {
            return true;
        }
        match parts.part(at) {
            Some(part) => self.set(at, part),
            None => false,
        }
    }

    /// Sees all parts anew that are not current; whether they and the sum have room.
    fn mend<P: SumParts>(&mut self, changes: &Changes, parts: &P) -> bool
        requires asked { P.asked parts.now }
        requires kept { IsSumKept changes.now (P.mention parts.now) (P.count parts.now) (P.value parts.now) self.old }
        ensures kept { IsSumKept changes.now (P.mention parts.now) (P.count parts.now) (P.value parts.now) self.new }
        ensures all { IfSo result ((part : ℕ) → part < P.count parts.now → part_kept self.new part ≡ P.value parts.now part) }
        ensures seen { self.new.seen ≡ self.old.seen }
    {
        'places: for at in 0..parts.len() {
            if !self.mend_part(changes, parts, at) {
                return false;
            }
        }
        true
    }

    /// Whether it is the sum of these parts; where nothing was seen, each of them is taken for 0.
    fn is_of<P: SumParts>(&mut self, changes: &Changes, parts: &P) -> bool
        requires asked { P.asked parts.now }
        requires keeps { KeepsSum changes.now (P.mention parts.now) (P.count parts.now) (P.value parts.now) self.old }
        ensures kept { IfSo result (IsSumKept changes.now (P.mention parts.now) (P.count parts.now) (P.value parts.now) self.new) }
        ensures unseen { result ≡ false → self.new.seen ≡ 0 }
    {
        if self.seen > 0 {
            return true;
        }
        if !self.lists_all(parts) {
            return false;
        }
        self.clear();
        true
    }

    /// The sum of these parts, of which those are seen anew that mention a cell that has changed; none where it is kept of others, or it or
    /// the time has no room.
    pub(crate) fn renewed<P: SumParts>(&mut self, changes: &mut Changes, parts: &P) -> Option<Wide>
        requires asked { P.asked parts.now }
        requires keeps { KeepsSum changes.old (P.mention parts.now) (P.count parts.now) (P.value parts.now) self.old }
        ensures sum { IfSome result (λ sum. sum.value ≡ sum_over (P.value parts.now) (numbers_to (P.count parts.now))) }
        ensures keeps { KeepsSum changes.new (P.mention parts.now) (P.count parts.now) (P.value parts.now) self.new }
        ensures later { IsLater changes.old changes.new }
    {
        let next = changes.time.checked_add(1)?;
        if !self.is_of(changes, parts) {
            return None;
        }
        if !self.mend(changes, parts) {
            return None;
        }
        changes.time = next;
        self.seen = next;
        Some(self.sum)
    }
}
