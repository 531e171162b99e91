//! The lists of a tree that the parts of a chain are added to.

ghost use Rattle.std.specs.Prelude.{◌≡◌, [], ◌∷◌, ◌++◌, List, OnOk};

use sopl_ast::{
    Binder, Binders, Cons, ConsList, Decl, Decls, Dim, Dims, Dist, Expr, Exprs, Init, Inits, Terms,
};
use std::alloc::AllocError;

/// A list that the parts of a chain are added to.
pub trait Parts<T>: Drop {
    // What the grammar sees of a part.
    ghost Shown: { Type 0 };

    ghost shown: { T → Shown };

    // The parts in order, as the grammar sees them.
    ghost listed: { Self → List Shown };

    /// Adds a part at the end.
    fn add(&mut self, part: T) -> Result<(), AllocError>
        ensures added { OnOk result (listed self.new ≡ listed self.old ++ shown part ∷ []) };
}

impl Parts<Expr> for Exprs {
    ghost use Rattle.sopl_ast.specs.Tree.{Tree};

    ghost Shown = { Tree };

    ghost shown = { λ part. part };

    ghost listed = { λ parts. parts };

    fn add(&mut self, part: Expr) -> Result<(), AllocError> {
        self.push(part)
    }
}

impl Parts<(bool, Expr)> for Terms {
    ghost use Rattle.std.specs.Prelude.{Bool};
    ghost use Rattle.sopl_ast.specs.Tree.{Tree};

    ghost Shown = { Bool × Tree };

    ghost shown = { λ part. part };

    ghost listed = { λ parts. parts };

    fn add(&mut self, part: (bool, Expr)) -> Result<(), AllocError> {
        self.push(part)
    }
}

impl Parts<Binder> for Binders {
    ghost use Rattle.sopl_ast.specs.Lists.{BinderTree};

    ghost Shown = { BinderTree };

    ghost shown = { λ part. part };

    ghost listed = { λ parts. parts };

    fn add(&mut self, part: Binder) -> Result<(), AllocError> {
        self.push(part)
    }
}

impl Parts<Dim> for Dims {
    ghost use Rattle.sopl_ast.specs.Whole.{DimTree};

    ghost Shown = { DimTree };

    ghost shown = { λ part. part };

    ghost listed = { λ parts. parts };

    fn add(&mut self, part: Dim) -> Result<(), AllocError> {
        self.push(part)
    }
}

impl Parts<(Expr, Expr)> for Dist {
    ghost use Rattle.sopl_ast.specs.Tree.{Tree};

    ghost Shown = { Tree × Tree };

    ghost shown = { λ part. part };

    ghost listed = { λ parts. parts };

    fn add(&mut self, part: (Expr, Expr)) -> Result<(), AllocError> {
        self.push(part)
    }
}

impl Parts<Init> for Inits {
    ghost use Rattle.sopl_ast.specs.Whole.{InitTree};
    ghost use Rattle.sopl_ast.specs.Inits.{init_tree};

    ghost Shown = { InitTree };

    ghost shown = { init_tree };

    ghost listed = { λ parts. parts };

    fn add(&mut self, part: Init) -> Result<(), AllocError> {
        self.push(part)
    }
}

impl Parts<Decl> for Decls {
    ghost use Rattle.sopl_ast.specs.Whole.{Declaration};
    ghost use Rattle.sopl_ast.specs.Decls.{declaration};

    ghost Shown = { Declaration };

    ghost shown = { declaration };

    ghost listed = { λ parts. parts };

    fn add(&mut self, part: Decl) -> Result<(), AllocError> {
        self.push(part)
    }
}

impl Parts<Cons> for ConsList {
    ghost use Rattle.sopl_ast.specs.Whole.{ConsTree};
    ghost use Rattle.sopl_ast.specs.Constraints.{cons_tree, cons_trees};

    ghost Shown = { ConsTree };

    ghost shown = { cons_tree };

    ghost listed = { cons_trees };

    fn add(&mut self, part: Cons) -> Result<(), AllocError> {
        self.push(part)
    }
}
