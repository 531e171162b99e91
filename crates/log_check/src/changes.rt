//! When the cells of a box have changed.

ghost use Rattle.std.specs.Prelude.{◌≡◌, ◌<◌, ◌∷◌, [], true, get_or, length, IfOk};
ghost use Rattle.log_check.specs.KeptSums.{AreChanged, AreUnchanged};

use std::alloc::{AllocError, Global};

/// A time, and for each cell of a box the time at which it has changed last.
#[derive(Drop)]
pub(crate) struct Changes {
    pub(crate) time: u64,
    pub(crate) last: Vec<u64>,
}

impl Changes {
    /// Of so many cells.
    pub(crate) fn new(alloc: Global, cells: usize) -> Result<Changes, AllocError>
        ensures cells { IfOk result (λ made. length made.last.items ≡ cells) }
    {
        let last = Vec::from_elem(alloc, 0_u64, cells)?;
        Ok(Changes { time: 0, last })
    }

    /// Is told that a cell has changed.
    pub(crate) fn tell(&mut self, cell: u32)
        ensures changed { AreChanged (cell ∷ []) self.old self.new }
    {
        let at = cell as usize;
        if at >= self.last.len() {
            return;
        }
        self.last[at] = self.time;
    }

    /// Is told that each of these cells has changed.
    pub(crate) fn tell_all(&mut self, cells: &[u32])
        ensures changed { AreChanged cells.now self.old self.new }
    {
        'cells: for cell in cells {
            self.tell(*cell);
        }
    }

    /// Whether a cell has changed last before a time.
    fn is_unchanged(&self, cell: u32, time: u64) -> bool
        ensures { result ≡ true → get_or self.now.last.items cell 0 < time }
    {
        match self.last.get(cell as usize) {
            Some(last) => *last < time,
            None => false,
        }
    }

    /// Whether none of these cells has changed at a time or since.
    pub(crate) fn are_unchanged(&self, cells: &[u32], time: u64) -> bool
        ensures { result ≡ true → AreUnchanged self.now time cells.now }
    {
        'cells: for cell in cells {
            if !self.is_unchanged(*cell, time) {
                return false;
            }
        }
        true
    }
}
