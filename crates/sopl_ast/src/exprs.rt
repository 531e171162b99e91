//! Lists of expressions.

ghost use Rattle.std.specs.Prelude.{◌≡◌, [], ◌∷◌, ◌++◌, OnOk, OnErr};

use crate::expr::Expr;
use std::alloc::{AllocError, Global};
use std::marker::Model;

/// Expressions in order.
#[cycle(expr)]
#[derive(Debug, Drop)]
pub struct Exprs {
    items: Vec<Expr>,
}

impl Model for Exprs {
    ghost use Rattle.std.specs.Prelude.{List};
    ghost use Rattle.std.proofs.Common.{arith};
    ghost use Rattle.sopl_ast.specs.Tree.{Tree};
    ghost use Rattle.sopl_ast.specs.Codes.{coded_trees};
    ghost use Rattle.sopl_ast.specs.Weight.{weight_of_trees, most-trees};

    ghost Value = { List Tree };

    ghost coded = { coded_trees };

    ghost view = { λ a. a.items.items };

    ghost size = { weight_of_trees };

    ghost size_decreases = { λ a h. omega (arith, most-trees a.items.items) };
}

impl Exprs {
    /// The empty list; it takes no memory.
    pub fn new(alloc: Global) -> Self
        ensures empty { result ≡ [] }
    {
        Exprs {
            items: Vec::new(alloc),
        }
    }

    /// Adds an expression at the end.
    pub fn push(&mut self, item: Expr) -> Result<(), AllocError>
        ensures ok { OnOk result (self.new ≡ self.old ++ item ∷ []) }
        ensures err { OnErr result (self.new ≡ self.old) }
    {
        self.items.push(item)?;
        Ok(())
    }

    /// The expressions, in order.
    pub fn as_slice(&self) -> &[Expr]
        ensures items { result.now ≡ self.now }
    {
        self.items.as_slice()
    }
}
