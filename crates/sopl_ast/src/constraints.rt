//! Constraints.

ghost use Rattle.std.specs.Prelude.{◌≡◌, [], ◌∷◌, ◌++◌, map, OnOk, OnErr};
ghost use Rattle.sopl_ast.specs.Constraints.{cons_tree, cons_trees};

use crate::binders::Binders;
use crate::expr::Expr;
use std::alloc::{AllocError, Global};

/// A constraint: one for each value of its binders, a block of constraints, a hard one, or a chance
/// constraint, which is to hold with the probability `p / q` at least.
#[cycle(constraint)]
#[derive(Debug, Drop)]
pub enum Cons {
    Forall(Binders, Box<Cons>),
    Block(ConsList),
    Hard(Expr),
    Chance { cond: Expr, p: Expr, q: Expr },
}

/// Constraints in order.
#[cycle(constraint)]
#[derive(Debug, Drop)]
pub struct ConsList {
    items: Vec<Cons>,
}

#[tactic(auto, using(crate::proofs::ConstraintTrees::constraints))]
impl ConsList {
    /// The empty list; it takes no memory.
    pub fn new(alloc: Global) -> Self
        ensures empty { cons_trees result ≡ [] }
    {
        ConsList {
            items: Vec::new(alloc),
        }
    }

    /// Adds a constraint at the end.
    pub fn push(&mut self, item: Cons) -> Result<(), AllocError>
        ensures ok { OnOk result (cons_trees self.new ≡ cons_trees self.old ++ cons_tree item ∷ []) }
        ensures err { OnErr result (cons_trees self.new ≡ cons_trees self.old) }
    {
        self.items.push(item)?;
        Ok(())
    }

    /// The constraints, in order.
    pub fn as_slice(&self) -> &[Cons]
        ensures items { map cons_tree result.now ≡ cons_trees self.now }
    {
        self.items.as_slice()
    }
}
