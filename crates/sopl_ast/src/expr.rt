//! Expressions of the syntax tree.

ghost use Rattle.std.specs.Prelude.{◌≡◌, List, [], ◌∷◌, ◌++◌, OnOk, OnErr, IfOk};

use crate::binders::Binders;
use crate::chains::{Factors, Terms};
use crate::exprs::Exprs;
use crate::name::Name;
use crate::operators::Function;
use sopl_base::{CmpOp, Extreme};
use std::marker::Model;

/// An expression: the offset of its first byte in the text, and what it is.
#[cycle(expr)]
#[derive(Debug, Drop)]
pub struct Expr {
    pub at: usize,
    pub kind: Kind,
}

/// What an expression is. A chain of operators of one level is one node with a list.
#[cycle(expr)]
#[derive(Debug, Drop)]
pub enum Kind {
    Lit(i64),
    Name(Name),
    Index(Name, Exprs),
    Call(Function, Box<Expr>),
    Add(Terms),
    Mul(Factors),
    Cmp(CmpOp, Box<Expr>, Box<Expr>),
    Not(Box<Expr>),
    And(Exprs),
    Or(Exprs),
    Implies(Box<Expr>, Box<Expr>),
    Sum(Binders, Box<Expr>),
    Selected(Extreme, Exprs),
    AllDifferent(Binders, Box<Expr>),
    Cumulative(Binders, Box<Expr>, Box<Expr>, Box<Expr>, Box<Expr>),
}

impl Model for Expr {
    ghost use Rattle.std.proofs.Common.{arith};
    ghost use Rattle.sopl_ast.specs.Tree.{Tree};
    ghost use Rattle.sopl_ast.specs.Codes.{coded_tree};
    ghost use Rattle.sopl_ast.specs.Weight.{weight};

    ghost Value = { Tree };

    ghost coded = { coded_tree };

    ghost use Rattle.sopl_ast.specs.Sight.{tree_of};

    ghost view = { tree_of };

    ghost size = { weight };

    ghost use Rattle.sopl_ast.specs.Falls.{falls_kind};

    ghost size_decreases = { λ a h. omega (arith, falls_kind a.kind) };
}
