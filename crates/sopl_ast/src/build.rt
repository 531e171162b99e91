//! Ways to build expressions and constraints.

ghost use Rattle.std.specs.Prelude.{◌≡◌, IfOk};
ghost use Rattle.sopl_ast.specs.Tree.{Node, Lit, Name as NameTree, Index, Call, Add, Mul, Cmp, Not, And, Or, Implies, Sum, Selected, AllDifferent, Cumulative, place_of, shape_of};
ghost use Rattle.sopl_ast.specs.Lists.{trees, terms, factors, binders};
ghost use Rattle.sopl_ast.specs.Whole.{ForallTree, BlockTree, HardTree, ChanceTree, conses};
ghost use Rattle.sopl_ast.specs.Constraints.{cons_tree, cons_trees};

use crate::binders::Binders;
use crate::chains::{Factors, Terms};
use crate::constraints::{Cons, ConsList};
use crate::expr::{Expr, Kind};
use crate::exprs::Exprs;
use crate::name::Name;
use crate::operators::Function;
use sopl_base::{CmpOp, Extreme};
use std::alloc::{AllocError, Global};

/// A task of `cumulative`: when it starts, how long it lasts, and what it demands of the capacity.
#[derive(Debug, Drop)]
pub struct Task {
    pub start: Expr,
    pub duration: Expr,
    pub demand: Expr,
}

/// Both expressions, each in a box.
fn boxed(alloc: Global, a: Expr, b: Expr) -> Result<(Box<Expr>, Box<Expr>), AllocError>
    ensures { IfOk result (λ pair. (pair.0.value ≡ a) × (pair.1.value ≡ b)) }
{
    let a = Box::new(alloc, a)?;
    let b = Box::new(alloc, b)?;
    Ok((a, b))
}

impl Expr {
    /// The whole number `value`.
    pub fn literal(at: usize, value: i64) -> Expr
        ensures built { result ≡ Node at (Lit value) }
    {
        Expr {
            at,
            kind: Kind::Lit(value),
        }
    }

    /// The name `name`.
    pub fn name(at: usize, name: Name) -> Expr
        ensures built { result ≡ Node at (NameTree name) }
    {
        Expr {
            at,
            kind: Kind::Name(name),
        }
    }

    /// The element of `name` at these indices.
    pub fn element(at: usize, name: Name, indices: Exprs) -> Expr
        ensures built { result ≡ Node at (Index name (trees indices)) }
    {
        Expr {
            at,
            kind: Kind::Index(name, indices),
        }
    }

    /// A function of the operand.
    pub fn call(
        alloc: Global,
        at: usize,
        function: Function,
        operand: Expr,
    ) -> Result<Expr, AllocError>
        ensures built { IfOk result (λ e. e ≡ Node at (Call function operand)) }
    {
        let operand = Box::new(alloc, operand)?;
        Ok(Expr {
            at,
            kind: Kind::Call(function, operand),
        })
    }

    /// A chain of `+` and `-`.
    pub fn sum_of(at: usize, parts: Terms) -> Expr
        ensures built { result ≡ Node at (Add (terms parts)) }
    {
        Expr {
            at,
            kind: Kind::Add(parts),
        }
    }

    /// A chain of `*`, `div` and `mod`.
    pub fn product_of(at: usize, parts: Factors) -> Expr
        ensures built { result ≡ Node at (Mul parts.first (factors parts.others)) }
    {
        Expr {
            at,
            kind: Kind::Mul(parts),
        }
    }

    /// The comparison of `left` with `right`, at the place of `left`.
    pub fn compare(alloc: Global, op: CmpOp, left: Expr, right: Expr) -> Result<Expr, AllocError>
        ensures built { IfOk result (λ e. e ≡ Node (place_of left) (Cmp op left right)) }
    {
        let at = left.at;
        let left = Box::new(alloc, left)?;
        let right = Box::new(alloc, right)?;
        Ok(Expr {
            at,
            kind: Kind::Cmp(op, left, right),
        })
    }

    /// True where the operand is false.
    pub fn negation(alloc: Global, at: usize, operand: Expr) -> Result<Expr, AllocError>
        ensures built { IfOk result (λ e. e ≡ Node at (Not operand)) }
    {
        let operand = Box::new(alloc, operand)?;
        Ok(Expr {
            at,
            kind: Kind::Not(operand),
        })
    }

    /// True where all parts are.
    pub fn all_of(at: usize, parts: Exprs) -> Expr
        ensures built { result ≡ Node at (And (trees parts)) }
    {
        Expr {
            at,
            kind: Kind::And(parts),
        }
    }

    /// True where some part is.
    pub fn any_of(at: usize, parts: Exprs) -> Expr
        ensures built { result ≡ Node at (Or (trees parts)) }
    {
        Expr {
            at,
            kind: Kind::Or(parts),
        }
    }

    /// True where `premise` is false or `conclusion` is true, at the place of `premise`.
    pub fn implies(alloc: Global, premise: Expr, conclusion: Expr) -> Result<Expr, AllocError>
        ensures built { IfOk result (λ e. e ≡ Node (place_of premise) (Implies premise conclusion)) }
    {
        let at = premise.at;
        let premise = Box::new(alloc, premise)?;
        let conclusion = Box::new(alloc, conclusion)?;
        Ok(Expr {
            at,
            kind: Kind::Implies(premise, conclusion),
        })
    }

    /// The sum of the operand over all values of the binders.
    pub fn total(alloc: Global, at: usize, over: Binders, operand: Expr) -> Result<Expr, AllocError>
        ensures built { IfOk result (λ e. e ≡ Node at (Sum (binders over) operand)) }
    {
        let operand = Box::new(alloc, operand)?;
        Ok(Expr {
            at,
            kind: Kind::Sum(over, operand),
        })
    }

    /// The least or the greatest of the parts.
    pub fn selected(at: usize, which: Extreme, parts: Exprs) -> Expr
        ensures built { result ≡ Node at (Selected which (trees parts)) }
    {
        Expr {
            at,
            kind: Kind::Selected(which, parts),
        }
    }

    /// True where the operand differs for any two values of the binders.
    pub fn all_different(
        alloc: Global,
        at: usize,
        over: Binders,
        operand: Expr,
    ) -> Result<Expr, AllocError>
        ensures built { IfOk result (λ e. e ≡ Node at (AllDifferent (binders over) operand)) }
    {
        let operand = Box::new(alloc, operand)?;
        Ok(Expr {
            at,
            kind: Kind::AllDifferent(over, operand),
        })
    }

    /// True where the tasks, one for each value of the binders, never demand more than the capacity
    /// at one time.
    pub fn cumulative(
        alloc: Global,
        at: usize,
        over: Binders,
        task: Task,
        capacity: Expr,
    ) -> Result<Expr, AllocError>
        ensures built { IfOk result (λ e. e ≡ Node at (Cumulative (binders over) task.start task.duration task.demand capacity)) }
    {
        let Task {
            start,
            duration,
            demand,
        } = task;
        let (start, duration) = boxed(alloc, start, duration)?;
        let (demand, capacity) = boxed(alloc, demand, capacity)?;
        Ok(Expr {
            at,
            kind: Kind::Cumulative(over, start, duration, demand, capacity),
        })
    }

    /// This expression at another place, as within parentheses.
    pub fn moved(self, at: usize) -> Expr
        ensures built { result ≡ Node at (shape_of self) }
    {
        Expr { at, ..self }
    }
}

#[tactic(auto, using(crate::proofs::ConstraintTrees::constraints))]
impl Cons {
    /// The constraint for each value of the binders.
    pub fn forall(alloc: Global, over: Binders, inner: Cons) -> Result<Cons, AllocError>
        ensures built { IfOk result (λ c. cons_tree c ≡ ForallTree (binders over) (cons_tree inner)) }
    {
        let inner = Box::new(alloc, inner)?;
        Ok(Cons::Forall(over, inner))
    }

    /// All constraints of a list.
    pub fn block(parts: ConsList) -> Cons
        ensures built { cons_tree result ≡ BlockTree (conses (cons_trees parts)) }
    {
        Cons::Block(parts)
    }

    /// A condition that is to hold in each scenario.
    pub fn hard(cond: Expr) -> Cons
        ensures built { cons_tree result ≡ HardTree cond }
    {
        Cons::Hard(cond)
    }

    /// A condition that is to hold with the probability `p / q` at least.
    pub fn chance(cond: Expr, p: Expr, q: Expr) -> Cons
        ensures built { cons_tree result ≡ ChanceTree cond p q }
    {
        Cons::Chance { cond, p, q }
    }
}
