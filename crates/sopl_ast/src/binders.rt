//! Ranges, and the binders that go over them.

ghost use Rattle.std.specs.Prelude.{◌≡◌, [], ◌∷◌, ◌++◌, OnOk, OnErr};

use crate::expr::Expr;
use crate::name::Name;
use std::alloc::{AllocError, Global};
use std::marker::Model;

/// A range, as the text gives it: by a name, or by its two ends.
#[cycle(expr)]
#[derive(Debug, Drop)]
pub enum RangeText {
    Named { name: Name, at: usize },
    Ends { lo: Expr, hi: Expr },
}

/// A name that goes over a range, and the offset of its first byte.
#[cycle(expr)]
#[derive(Debug, Drop)]
pub struct Binder {
    pub name: Name,
    pub at: usize,
    pub range: RangeText,
}

impl Model for Binder {
    ghost use Rattle.std.proofs.Common.{arith};
    ghost use Rattle.sopl_ast.specs.Lists.{BinderTree};
    ghost use Rattle.sopl_ast.specs.Codes.{coded_binder};
    ghost use Rattle.sopl_ast.specs.Weight.{weight_of_binder};

    ghost Value = { BinderTree };

    ghost coded = { coded_binder };

    ghost use Rattle.sopl_ast.specs.Ranges.{range_of};

    ghost view = { λ a. record { name = a.name; at = a.at; range = range_of a.range } };

    ghost size = { weight_of_binder };

    ghost use Rattle.sopl_ast.specs.Falls.{falls_range};

    ghost size_decreases = { λ a h. omega (arith, falls_range a.range) };
}

/// Binders in order.
#[cycle(expr)]
#[derive(Debug, Drop)]
pub struct Binders {
    items: Vec<Binder>,
}

impl Model for Binders {
    ghost use Rattle.std.specs.Prelude.{List};
    ghost use Rattle.std.proofs.Common.{arith};
    ghost use Rattle.sopl_ast.specs.Lists.{BinderTree};
    ghost use Rattle.sopl_ast.specs.Codes.{coded_binders};
    ghost use Rattle.sopl_ast.specs.Weight.{weight_of_binders, most-binders};

    ghost Value = { List BinderTree };

    ghost coded = { coded_binders };

    ghost view = { λ a. a.items.items };

    ghost size = { weight_of_binders };

    ghost size_decreases = { λ a h. omega (arith, most-binders a.items.items) };
}

impl Binders {
    /// The empty list; it takes no memory.
    pub fn new(alloc: Global) -> Self
        ensures empty { result ≡ [] }
    {
        Binders {
            items: Vec::new(alloc),
        }
    }

    /// Adds a binder at the end.
    pub fn push(&mut self, item: Binder) -> Result<(), AllocError>
        ensures ok { OnOk result (self.new ≡ self.old ++ item ∷ []) }
        ensures err { OnErr result (self.new ≡ self.old) }
    {
        self.items.push(item)?;
        Ok(())
    }

    /// The binders, in order.
    pub fn as_slice(&self) -> &[Binder]
        ensures items { result.now ≡ self.now }
    {
        self.items.as_slice()
    }
}
