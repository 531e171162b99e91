//! Decisions and stochastic variables as values of the program.

ghost use Rattle.std.specs.Prelude.{◌≡◌, ◌∷◌, ◌++◌, [], OnOk, OnErr, IfOk, map};
ghost use Rattle.sopl_ast.specs.Instances.{distribution};
ghost use Rattle.unfold_variables.specs.Pairs.{outcome_in};

use smallvec::SmallVec;
use sopl_ast::Name;
use std::alloc::{AllocError, Global};
use std::marker::Model;

/// The indices of an instance, in order; a scalar has none.
#[derive(Drop)]
pub struct Index {
    items: SmallVec<i64, 4>,
}

impl Model for Index {
    ghost use Rattle.std.specs.Prelude.{ℤ, List};

    ghost Value = { List ℤ };

    ghost view = { λ index. index.items.items };
}

impl Index {
    /// No indices; it takes no memory.
    pub fn new(alloc: Global) -> Self
        ensures empty { result ≡ [] }
    {
        Index {
            items: SmallVec::new(alloc),
        }
    }

    /// These numbers.
    pub(crate) fn from_slice(alloc: Global, numbers: &[i64]) -> Result<Self, AllocError>
        ensures { IfOk result (λ index. index ≡ numbers.now) }
    {
        Ok(Index {
            items: SmallVec::from_slice(alloc, numbers)?,
        })
    }

    /// Adds an index at the end.
    pub fn push(&mut self, item: i64) -> Result<(), AllocError>
        ensures ok { OnOk result (self.new ≡ self.old ++ item ∷ []) }
        ensures err { OnErr result (self.new ≡ self.old) }
    {
        self.items.push(item)?;
        Ok(())
    }

    /// The indices as a slice.
    pub fn as_slice(&self) -> &[i64]
        ensures items { result.now ≡ self.now }
    {
        self.items.as_slice()
    }
}

/// The outcomes of a stochastic variable as they are written: pairs of a value and its weight.
#[derive(Drop)]
pub struct Weighted {
    items: Vec<(i64, i64)>,
}

impl Model for Weighted {
    ghost use Rattle.std.specs.Prelude.{List, map};
    ghost use Rattle.sopl_ast.specs.Instances.{Outcome};
    ghost use Rattle.unfold_variables.specs.Pairs.{outcome_in};

    ghost Value = { List Outcome };

    ghost view = { λ weighted. map outcome_in weighted.items.items };
}

impl Weighted {
    /// No outcomes; it takes no memory.
    pub fn new(alloc: Global) -> Self
        ensures empty { result ≡ [] }
    {
        Weighted {
            items: Vec::new(alloc),
        }
    }

    /// Adds an outcome at the end.
    pub fn push(&mut self, item: (i64, i64)) -> Result<(), AllocError>
        ensures ok { OnOk result (self.new ≡ self.old ++ outcome_in item ∷ []) }
        ensures err { OnErr result (self.new ≡ self.old) }
    {
        self.items.push(item)?;
        Ok(())
    }

    /// The outcomes as a slice of pairs.
    pub fn as_slice(&self) -> &[(i64, i64)]
        ensures items { map outcome_in result.now ≡ self.now }
    {
        self.items.as_slice()
    }
}

/// A decision: its domain is all whole numbers from `lo` to `hi`.
#[derive(Drop)]
pub struct DecisionItem {
    pub name: Name,
    pub index: Index,
    pub lo: i64,
    pub hi: i64,
    pub stage: u32,
}

impl Model for DecisionItem {
    ghost use Rattle.sopl_ast.specs.Instances.{Decision};

    ghost Value = { Decision };

    ghost view = { λ d. record { name = d.name; index = d.index; lo = d.lo; hi = d.hi; stage = d.stage } };
}

/// A stochastic variable with its outcomes.
#[derive(Drop)]
pub struct StochItem {
    pub name: Name,
    pub index: Index,
    pub values: Weighted,
    pub stage: u32,
}

impl Model for StochItem {
    ghost use Rattle.sopl_ast.specs.Instances.{Stochastic, independent};

    ghost Value = { Stochastic };

    ghost view = { λ s. independent s.name s.index s.values s.stage };
}

impl StochItem {
    /// The outcomes as they are written, as a slice of pairs.
    pub fn distribution(&self) -> &[(i64, i64)]
        ensures items { map outcome_in result.now ≡ distribution self.now }
    {
        self.values.as_slice()
    }
}
