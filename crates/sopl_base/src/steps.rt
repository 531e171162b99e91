//! A list of steps.

ghost use Rattle.std.specs.Prelude.{◌≡◌, List, [], ◌∷◌, ◌++◌, IfOk, OnOk, OnErr};

use crate::reason::Step;
use std::alloc::{AllocError, Global};
use std::marker::Model;

/// Steps in the order in which they were made.
#[derive(Drop)]
pub struct Steps {
    items: Vec<Step>,
}

impl Model for Steps {
    ghost use Rattle.std.specs.Prelude.{List};
    ghost use Rattle.sopl_base.specs.declared.reason.Step.{Step};

    ghost Value = { List Step };

    ghost view = { λ steps. steps.items.items };
}

impl Steps {
    /// No steps; it takes no memory.
    pub fn new(alloc: Global) -> Self
        ensures empty { result ≡ [] }
    {
        Steps {
            items: Vec::new(alloc),
        }
    }

    /// No steps, with room for `capacity` of them and for no more.
    pub fn with_capacity(alloc: Global, capacity: usize) -> Result<Self, AllocError>
        ensures empty { IfOk result (λ steps. steps ≡ []) }
    {
        let items = Vec::with_capacity(alloc, capacity)?;
        Ok(Steps { items })
    }

    /// Adds a step at the end.
    pub fn push(&mut self, item: Step) -> Result<(), AllocError>
        ensures ok { OnOk result (self.new ≡ self.old ++ item ∷ []) }
        ensures err { OnErr result (self.new ≡ self.old) }
    {
        self.items.push(item)?;
        Ok(())
    }

    /// The steps as a slice.
    pub fn as_slice(&self) -> &[Step]
        ensures items { result.now ≡ self.now }
    {
        self.items.as_slice()
    }
}
