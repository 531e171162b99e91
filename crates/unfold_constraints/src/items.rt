//! The instances of constraints as values of the program.

ghost use Rattle.std.specs.Prelude.{◌≡◌, ◌∷◌, ◌++◌, [], OnOk, OnErr, map};
ghost use Rattle.unfold_constraints.specs.Bindings.{binding_of};

use sopl_ast::Name;
use std::alloc::{AllocError, Global};
use std::marker::Model;

/// What the binders around a constraint give: pairs of a name and a number.
#[derive(Drop)]
pub struct Env {
    items: Vec<(Name, i64)>,
}

impl Model for Env {
    ghost use Rattle.std.specs.Prelude.{List, map};
    ghost use Rattle.sopl_ast.specs.Instances.{Binding};
    ghost use Rattle.unfold_constraints.specs.Bindings.{binding_of};

    ghost Value = { List Binding };

    ghost view = { λ env. map binding_of env.items.items };
}

impl Env {
    /// No bindings; it takes no memory.
    pub fn new(alloc: Global) -> Self
        ensures empty { result ≡ [] }
    {
        Env {
            items: Vec::new(alloc),
        }
    }

    /// Adds a binding at the end.
    pub fn push(&mut self, item: (Name, i64)) -> Result<(), AllocError>
        ensures ok { OnOk result (self.new ≡ self.old ++ binding_of item ∷ []) }
        ensures err { OnErr result (self.new ≡ self.old) }
    {
        self.items.push(item)?;
        Ok(())
    }

    /// The bindings as a slice of pairs.
    pub fn as_slice(&self) -> &[(Name, i64)]
        ensures items { map binding_of result.now ≡ self.now }
    {
        self.items.as_slice()
    }
}

/// An instance of a hard constraint: the number of its condition in the text, counted from 0, and what its binders give.
#[derive(Drop)]
pub struct HardItem {
    pub text: u32,
    pub env: Env,
}

impl Model for HardItem {
    ghost use Rattle.sopl_ast.specs.Instances.{Hard};

    ghost Value = { Hard };

    ghost view = { λ h. record { text = h.text; bound = h.env } };
}

/// An instance of a chance constraint: its condition is to hold in scenarios that weigh at least `p / q` of all.
#[derive(Drop)]
pub struct ChanceItem {
    pub text: u32,
    pub env: Env,
    pub p: i64,
    pub q: i64,
}

impl Model for ChanceItem {
    ghost use Rattle.sopl_ast.specs.Instances.{Chance};

    ghost Value = { Chance };

    ghost view = { λ c. record { text = c.text; bound = c.env; p = c.p; q = c.q } };
}

/// The instances of constraints, hard ones and chance ones, each in the order in which they are met.
#[derive(Drop)]
pub struct Instances {
    pub hards: Vec<HardItem>,
    pub chances: Vec<ChanceItem>,
}
