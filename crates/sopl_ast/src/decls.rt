//! Declarations, with their dimensions and distributions.

ghost use Rattle.std.specs.Prelude.{◌≡◌, [], ◌∷◌, ◌++◌, map, OnOk, OnErr};
ghost use Rattle.sopl_ast.specs.Decls.{declaration};

use crate::binders::RangeText;
use crate::expr::Expr;
use crate::exprs::Exprs;
use crate::inits::Init;
use crate::name::Name;
use std::alloc::{AllocError, Global};
use std::marker::Model;

/// A dimension of a declaration: the name that goes over its range, if it has one, and the range.
/// Its place is that of the name, or of the range where it has no name.
#[derive(Debug, Drop)]
pub struct Dim {
    pub binder: Option<Name>,
    pub at: usize,
    pub range: RangeText,
}

impl Model for Dim {
    ghost use Rattle.sopl_ast.specs.Whole.{DimTree};
    ghost use Rattle.sopl_ast.specs.WholeCodes.{coded_dim};

    ghost Value = { DimTree };

    ghost coded = { coded_dim };

    ghost use Rattle.sopl_ast.specs.Ranges.{range_of};

    ghost view = { λ a. record { binder = a.binder; at = a.at; range = range_of a.range } };
}

/// Dimensions in order.
#[derive(Debug, Drop)]
pub struct Dims {
    items: Vec<Dim>,
}

impl Model for Dims {
    ghost use Rattle.std.specs.Prelude.{List};
    ghost use Rattle.sopl_ast.specs.Whole.{DimTree};
    ghost use Rattle.sopl_ast.specs.WholeCodes.{coded_dims};

    ghost Value = { List DimTree };

    ghost coded = { coded_dims };

    ghost view = { λ a. a.items.items };
}

impl Dims {
    /// The empty list; it takes no memory.
    pub fn new(alloc: Global) -> Self
        ensures empty { result ≡ [] }
    {
        Dims {
            items: Vec::new(alloc),
        }
    }

    /// Adds a dimension at the end.
    pub fn push(&mut self, item: Dim) -> Result<(), AllocError>
        ensures ok { OnOk result (self.new ≡ self.old ++ item ∷ []) }
        ensures err { OnErr result (self.new ≡ self.old) }
    {
        self.items.push(item)?;
        Ok(())
    }

    /// The dimensions, in order.
    pub fn as_slice(&self) -> &[Dim]
        ensures items { result.now ≡ self.now }
    {
        self.items.as_slice()
    }
}

/// The values of a random declaration in order, each with its weight.
#[derive(Debug, Drop)]
pub struct Dist {
    items: Vec<(Expr, Expr)>,
}

impl Model for Dist {
    ghost use Rattle.std.specs.Prelude.{List};
    ghost use Rattle.sopl_ast.specs.Tree.{Tree};
    ghost use Rattle.sopl_ast.specs.WholeCodes.{coded_dist};

    ghost Value = { List (Tree × Tree) };

    ghost coded = { coded_dist };

    ghost view = { λ a. a.items.items };
}

impl Dist {
    /// The empty list; it takes no memory.
    pub fn new(alloc: Global) -> Self
        ensures empty { result ≡ [] }
    {
        Dist {
            items: Vec::new(alloc),
        }
    }

    /// Adds a value and its weight at the end.
    pub fn push(&mut self, item: (Expr, Expr)) -> Result<(), AllocError>
        ensures ok { OnOk result (self.new ≡ self.old ++ item ∷ []) }
        ensures err { OnErr result (self.new ≡ self.old) }
    {
        self.items.push(item)?;
        Ok(())
    }

    /// The values with their weights, in order.
    pub fn as_slice(&self) -> &[(Expr, Expr)]
        ensures items { result.now ≡ self.now }
    {
        self.items.as_slice()
    }
}

/// A declaration; its place is that of the declared name.
#[derive(Debug, Drop)]
pub enum Decl {
    Int {
        name: Name,
        at: usize,
        dims: Dims,
        init: Init,
    },
    Range {
        name: Name,
        at: usize,
        lo: Expr,
        hi: Expr,
    },
    Set {
        name: Name,
        at: usize,
        elements: Exprs,
    },
    Dvar {
        name: Name,
        at: usize,
        dims: Dims,
        range: RangeText,
        stage: Option<Expr>,
    },
    Stoch {
        name: Name,
        at: usize,
        dims: Dims,
        dist: Dist,
        stage: Option<Expr>,
    },
}

/// Declarations in order.
#[derive(Debug, Drop)]
pub struct Decls {
    items: Vec<Decl>,
}

impl Model for Decls {
    ghost use Rattle.std.specs.Prelude.{List, map};
    ghost use Rattle.sopl_ast.specs.Whole.{Declaration};
    ghost use Rattle.sopl_ast.specs.WholeCodes.{coded_declarations};

    ghost Value = { List Declaration };

    ghost coded = { coded_declarations };

    ghost use Rattle.sopl_ast.specs.Decls.{declaration};

    ghost view = { λ a. map declaration a.items.items };
}

impl Decls {
    /// The empty list; it takes no memory.
    pub fn new(alloc: Global) -> Self
        ensures empty { result ≡ [] }
    {
        Decls {
            items: Vec::new(alloc),
        }
    }

    /// Adds a declaration at the end.
    pub fn push(&mut self, item: Decl) -> Result<(), AllocError>
        ensures ok { OnOk result (self.new ≡ self.old ++ declaration item ∷ []) }
        ensures err { OnErr result (self.new ≡ self.old) }
    {
        self.items.push(item)?;
        Ok(())
    }

    /// The declarations, in order.
    pub fn as_slice(&self) -> &[Decl]
        ensures items { map declaration result.now ≡ self.now }
    {
        self.items.as_slice()
    }
}
