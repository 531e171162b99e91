//! The elements of a constant.

ghost use Rattle.std.specs.Prelude.{◌≡◌, [], ◌∷◌, ◌++◌, None, OnOk, OnErr, IsTrue};
ghost use Rattle.std.specs.Cmp.Lexicographic.{pointwise};
ghost use Rattle.std.specs.Map.{lookup};
ghost use Rattle.std.specs.Ordering.{int_eq};
ghost use Rattle.unfold_tables.specs.Tables.{elements_in, element_value, pairs, items};

use indexmap::IndexMap;
use std::alloc::{AllocError, Global};

/// The indices of a constant with the values there. An index that stands a second time, as none does where index sets have each number once, goes behind
/// all others.
#[derive(Drop)]
pub struct Elements {
    alloc: Global,
    pub(crate) first: IndexMap<Vec<i64>, i64>,
    pub(crate) again: Vec<(Vec<i64>, i64)>,
}

impl Elements {
    /// No elements; it takes no memory.
    pub fn new(alloc: Global) -> Elements
        ensures empty { elements_in result ≡ [] }
    {
        Elements {
            alloc,
            first: IndexMap::new(alloc),
            again: Vec::new(alloc),
        }
    }

    /// Adds an index, and the value there, behind the others.
    pub fn push(&mut self, index: &[i64], value: i64) -> Result<(), AllocError>
        ensures added { OnOk result (elements_in self.new ≡ elements_in self.old ++ (index.now, value) ∷ []) }
        ensures kept { OnErr result (elements_in self.new ≡ elements_in self.old) }
    {
        let key = Vec::from_slice(self.alloc, index)?;
        if self.is_new(index) {
            self.first.insert(key, value)?;
        } else {
            self.again.push((key, value))?;
        }
        Ok(())
    }

    /// Whether an index may stand among those that came first.
    fn is_new(&self, index: &[i64]) -> bool
        ensures last { IsTrue result → self.now.again.items ≡ [] }
        ensures absent { IsTrue result → lookup (λ key. pointwise int_eq index.now key.items) self.now.first.entries ≡ None }
    {
        if !self.again.is_empty() {
            return false;
        }
        self.first.get(index).is_none()
    }

    /// The value at an index, if there is one.
    pub(crate) fn value(&self, index: &[i64]) -> Option<i64>
        ensures { result ≡ element_value index.now (elements_in self.now) }
    {
        match self.first.get(index) {
            Some(value) => Some(*value),
            None => among(index, self.again.as_slice()),
        }
    }
}

/// The first value at an index.
#[tactic(auto, using(crate::proofs::Lookups::elements))]
fn among(index: &[i64], elements: &[(Vec<i64>, i64)]) -> Option<i64>
    ensures { result ≡ element_value index.now (pairs elements.now) }
{
    'elements: for element in elements {
        if index == element.0.as_slice() {
            return Some(element.1);
        }
    }
    None
}
