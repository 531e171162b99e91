//! A list of whole numbers.

ghost use Rattle.std.specs.Prelude.{◌≡◌, IfOk};

use std::alloc::{AllocError, Global};
use std::marker::Model;

/// Whole numbers, as the values of the cells of a point in the order of the cells.
#[derive(Drop)]
pub struct Values {
    items: Vec<i64>,
}

impl Model for Values {
    ghost use Rattle.std.specs.Prelude.{List, ℤ};

    ghost Value = { List ℤ };

    ghost view = { λ values. values.items.items };
}

impl Values {
    /// The values of a slice.
    pub fn copy_of(alloc: Global, items: &[i64]) -> Result<Self, AllocError>
        ensures { IfOk result (λ values. values ≡ items.now) }
    {
        let mut copy = Vec::new(alloc);
        copy.extend_from_slice(items)?;
        Ok(Values { items: copy })
    }

    /// The values as a slice.
    pub fn as_slice(&self) -> &[i64]
        ensures items { result.now ≡ self.now }
    {
        self.items.as_slice()
    }
}
