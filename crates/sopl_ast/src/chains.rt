//! Chains of operators of one level: sums and products.

ghost use Rattle.std.specs.Prelude.{◌≡◌, Bool, [], ◌∷◌, ◌++◌, OnOk, OnErr, IfOk};

use crate::expr::Expr;
use crate::operators::MulOp;
use std::alloc::{AllocError, Global};
use std::marker::Model;

/// The parts of a chain of `+` and `-` in order, each with whether it is subtracted.
#[cycle(expr)]
#[derive(Debug, Drop)]
pub struct Terms {
    items: Vec<(bool, Expr)>,
}

impl Model for Terms {
    ghost use Rattle.std.specs.Prelude.{List, Bool};
    ghost use Rattle.std.proofs.Common.{arith};
    ghost use Rattle.sopl_ast.specs.Tree.{Tree};
    ghost use Rattle.sopl_ast.specs.Codes.{coded_terms};
    ghost use Rattle.sopl_ast.specs.Weight.{weight_of_terms, most-terms};

    ghost Value = { List (Bool × Tree) };

    ghost coded = { coded_terms };

    ghost view = { λ a. a.items.items };

    ghost size = { weight_of_terms };

    ghost size_decreases = { λ a h. omega (arith, most-terms a.items.items) };
}

impl Terms {
    /// The empty list; it takes no memory.
    pub fn new(alloc: Global) -> Self
        ensures empty { result ≡ [] }
    {
        Terms {
            items: Vec::new(alloc),
        }
    }

    /// Adds a part at the end: whether it is subtracted, and the part.
    pub fn push(&mut self, item: (bool, Expr)) -> Result<(), AllocError>
        ensures ok { OnOk result (self.new ≡ self.old ++ item ∷ []) }
        ensures err { OnErr result (self.new ≡ self.old) }
    {
        self.items.push(item)?;
        Ok(())
    }

    /// The parts, in order.
    pub fn as_slice(&self) -> &[(bool, Expr)]
        ensures items { result.now ≡ self.now }
    {
        self.items.as_slice()
    }
}

/// The parts of a chain of `*`, `div` and `mod`: the first one, and then each operator with the
/// part behind it.
#[cycle(expr)]
#[derive(Debug, Drop)]
pub struct Factors {
    first: Box<Expr>,
    others: Vec<(MulOp, Expr)>,
}

impl Model for Factors {
    ghost use Rattle.std.proofs.Common.{arith};
    ghost use Rattle.sopl_ast.specs.Lists.{Product};
    ghost use Rattle.sopl_ast.specs.Codes.{coded_product};
    ghost use Rattle.sopl_ast.specs.Weight.{weight_of_product, most-factors};

    ghost Value = { Product };

    ghost coded = { coded_product };

    ghost view = { λ a. record { first = a.first.value; others = a.others.items } };

    ghost size = { weight_of_product };

    ghost size_decreases = { λ a h. omega (arith, most-factors a.others.items) };
}

impl Factors {
    /// The chain of one part.
    pub fn new(alloc: Global, first: Expr) -> Result<Self, AllocError>
        ensures one { IfOk result (λ factors. (factors.first ≡ first) × (factors.others ≡ [])) }
    {
        let first = Box::new(alloc, first)?;
        Ok(Factors {
            first,
            others: Vec::new(alloc),
        })
    }

    /// The first part.
    pub fn first(&self) -> &Expr
        ensures first { result.now ≡ self.now.first }
    {
        &self.first
    }

    /// Adds a part at the end: its operator, and the part.
    pub fn push(&mut self, item: (MulOp, Expr)) -> Result<(), AllocError>
        ensures ok { OnOk result (self.new ≡ record self.old { others = self.old.others ++ item ∷ [] }) }
        ensures err { OnErr result (self.new ≡ self.old) }
    {
        self.others.push(item)?;
        Ok(())
    }

    /// What follows the first part, in order.
    pub fn as_slice(&self) -> &[(MulOp, Expr)]
        ensures others { result.now ≡ self.now.others }
    {
        self.others.as_slice()
    }
}
