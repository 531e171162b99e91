//! The nodes of one level: a scenario of the first variables each.

ghost use Rattle.std.specs.Prelude.{◌≡◌, [], ◌∷◌, ◌++◌, OnOk};

use std::alloc::{AllocError, Global};
use std::marker::Model;

/// A scenario of the first variables: the number of the scenario without the last of them, the value of the last of them, and the
/// product of the weights.
#[derive(Clone, Copy)]
pub(crate) struct Node {
    pub parent: u32,
    pub value: i64,
    pub weight: i128,
}

/// The scenarios of the first variables, in order.
#[derive(Drop)]
pub(crate) struct Level {
    items: Vec<Node>,
}

impl Model for Level {
    ghost use Rattle.std.specs.Prelude.{List};
    ghost use Rattle.sopl_scen.specs.declared.nodes.Node.{Node};

    ghost Value = { List Node };

    ghost view = { λ level. level.items.items };
}

impl Level {
    /// No nodes; it takes no memory.
    pub(crate) fn new(alloc: Global) -> Self
        ensures { result ≡ [] }
    {
        Level {
            items: Vec::new(alloc),
        }
    }

    /// Adds a node at the end.
    pub(crate) fn push(&mut self, node: Node) -> Result<(), AllocError>
        ensures { OnOk result (self.new ≡ self.old ++ node ∷ []) }
    {
        self.items.push(node)?;
        Ok(())
    }

    /// The nodes as a slice.
    pub(crate) fn as_slice(&self) -> &[Node]
        ensures { result.now ≡ self.now }
    {
        self.items.as_slice()
    }
}
