//! Initial values of a declaration.

ghost use Rattle.std.specs.Prelude.{◌≡◌, [], ◌∷◌, ◌++◌, map, OnOk, OnErr};
ghost use Rattle.sopl_ast.specs.Inits.{init_tree};

use crate::expr::Expr;
use std::alloc::{AllocError, Global};
use std::marker::Model;

/// The initial value of a declaration: one expression, or a bracketed list of such values, with the
/// offset of its bracket.
#[cycle(init)]
#[derive(Debug, Drop)]
pub enum Init {
    One(Expr),
    Many { at: usize, parts: Inits },
}

/// Initial values in order.
#[cycle(init)]
#[derive(Debug, Drop)]
pub struct Inits {
    items: Vec<Init>,
}

impl Model for Inits {
    ghost use Rattle.std.specs.Prelude.{List, map};
    ghost use Rattle.std.proofs.Common.{arith};
    ghost use Rattle.sopl_ast.specs.Whole.{InitTree};
    ghost use Rattle.sopl_ast.specs.WholeCodes.{coded_inits};
    ghost use Rattle.sopl_ast.specs.WholeWeight.{weight_of_inits};

    ghost Value = { List InitTree };

    ghost coded = { coded_inits };

    ghost use Rattle.sopl_ast.specs.Inits.{init_tree};

    ghost view = { λ a. map init_tree a.items.items };

    ghost size = { weight_of_inits };

    ghost use Rattle.sopl_ast.specs.InitsFall.{falls_inits};

    ghost size_decreases = { λ a h. omega (arith, falls_inits a.items.items) };
}

impl Inits {
    /// The empty list; it takes no memory.
    pub fn new(alloc: Global) -> Self
        ensures empty { result ≡ [] }
    {
        Inits {
            items: Vec::new(alloc),
        }
    }

    /// Adds an initial value at the end.
    pub fn push(&mut self, item: Init) -> Result<(), AllocError>
        ensures ok { OnOk result (self.new ≡ self.old ++ init_tree item ∷ []) }
        ensures err { OnErr result (self.new ≡ self.old) }
    {
        self.items.push(item)?;
        Ok(())
    }

    /// The initial values, in order.
    pub fn as_slice(&self) -> &[Init]
        ensures items { map init_tree result.now ≡ self.now }
    {
        self.items.as_slice()
    }
}
