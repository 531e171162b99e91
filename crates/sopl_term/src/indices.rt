//! Sets of indices.

ghost use Rattle.std.specs.Prelude.{◌≡◌, [], ◌∷◌, ◌++◌, OnOk, OnErr};

use std::alloc::{AllocError, Global};
use std::marker::Model;

/// The numbers of an index set, in ascending order.
#[derive(Debug, Drop)]
pub struct Indices {
    numbers: Vec<i64>,
}

impl Model for Indices {
    ghost use Rattle.std.specs.Prelude.{List, ℤ};

    ghost Value = { List ℤ };

    ghost view = { λ indices. indices.numbers.items };
}

impl Indices {
    /// No numbers; it takes no memory.
    pub fn new(alloc: Global) -> Self
        ensures empty { result ≡ [] }
    {
        Indices {
            numbers: Vec::new(alloc),
        }
    }

    /// Adds a number at the end.
    pub fn push(&mut self, item: i64) -> Result<(), AllocError>
        ensures ok { OnOk result (self.new ≡ self.old ++ item ∷ []) }
        ensures err { OnErr result (self.new ≡ self.old) }
    {
        self.numbers.push(item)?;
        Ok(())
    }

    /// The numbers as a slice.
    pub fn as_slice(&self) -> &[i64]
        ensures items { result.now ≡ self.now }
    {
        self.numbers.as_slice()
    }
}
