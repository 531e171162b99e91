//! Names, as lists of bytes.

ghost use Rattle.std.specs.Prelude.{◌≡◌, ◌↔◌, ℕ, List, [], ◌∷◌, ◌++◌, IsTrue, OnOk, OnErr, IfOk};

use std::alloc::{AllocError, Global};
use std::marker::Model;

/// A name of the text, as its bytes.
#[derive(Debug, Drop)]
pub struct Name {
    bytes: Vec<u8>,
}

impl Model for Name {
    ghost use Rattle.std.specs.Prelude.{ℕ, List};

    ghost Value = { List ℕ };

    ghost view = { λ name. name.bytes.items };
}

impl Name {
    /// The empty name, to which bytes are pushed; it takes no memory.
    pub fn new(alloc: Global) -> Self
        ensures empty { result ≡ [] }
    {
        Name {
            bytes: Vec::new(alloc),
        }
    }

    /// A copy of these bytes as a name.
    pub fn from_bytes(alloc: Global, bytes: &[u8]) -> Result<Name, AllocError>
        ensures bytes { IfOk result (λ name. name ≡ bytes.now) }
    {
        let bytes = Vec::from_slice(alloc, bytes)?;
        Ok(Name { bytes })
    }

    /// Adds a byte at the end.
    pub fn push(&mut self, item: u8) -> Result<(), AllocError>
        ensures ok { OnOk result (self.new ≡ self.old ++ item ∷ []) }
        ensures err { OnErr result (self.new ≡ self.old) }
    {
        self.bytes.push(item)?;
        Ok(())
    }

    /// The bytes of the name.
    pub fn as_slice(&self) -> &[u8]
        ensures bytes { result.now ≡ self.now }
    {
        self.bytes.as_slice()
    }

    /// A copy of the name.
    pub fn copy(&self, alloc: Global) -> Result<Name, AllocError>
        ensures same { IfOk result (λ name. name ≡ self.now) }
    {
        Name::from_bytes(alloc, self.as_slice())
    }

    /// Whether both names have the same bytes.
    pub fn is(&self, other: &Name) -> bool
        ensures { IsTrue result ↔ (self.now ≡ other.now) }
    {
        self.as_slice() == other.as_slice()
    }
}
