//! What may be added: a term or a condition, by the numbers of its operands.

ghost use Rattle.std.specs.Prelude.{◌≡◌, ◌≤◌, length, IfOk};
ghost use Rattle.term_nodes.specs.Built.{AllBelow};
ghost use Rattle.term_nodes.specs.Things.{a_cond, a_term};
ghost use Rattle.term_store.specs.Additions.{IsNodeFor, MayAddCond, MayAddTerm, cond_ids, extreme_at, new_cond, new_term, signed_of, task_ids, term_ids};
ghost use Rattle.term_store.specs.Stores.{IsSoundStore, all, root_of};

use crate::ids::{CondId, TableId, TermId};
use crate::store::TermStore;
use sopl_base::CmpOp;
use std::alloc::{AllocError, Global};
use term_math::{Extreme, Operation};
use term_nodes::{Comparison, Node, Signed, Task};

/// A term that may be added: the parts of a sum that come with `true` are subtracted, and the least or the greatest is that of at least one.
#[derive(Clone, Copy, Debug)]
pub enum NewTerm<'a> {
    Constant(i64),
    Cell(u32),
    Sum(&'a [(bool, TermId)]),
    Product(TermId, TermId),
    Operation(Operation, TermId),
    Extreme(Extreme, &'a [TermId]),
    Element(TableId, &'a [TermId]),
    Number(CondId),
}

/// A condition that may be added: a task is a start, a length and a demand, and behind all of them comes their capacity.
#[derive(Clone, Copy, Debug)]
pub enum NewCond<'a> {
    Compare(CmpOp, TermId, TermId),
    Not(CondId),
    All(&'a [CondId]),
    Any(&'a [CondId]),
    Implies(CondId, CondId),
    AllDifferent(&'a [TermId]),
    Cumulative(&'a [(TermId, TermId, TermId)], TermId),
}

/// The numbers of terms.
pub fn term_numbers(alloc: Global, terms: &[TermId]) -> Result<Vec<u32>, AllocError>
    ensures { IfOk result (λ list. list.items ≡ term_ids terms.now) }
{
    terms.iter().map(|term| term.0).collect(alloc)
}

/// The numbers of conditions.
pub fn cond_numbers(alloc: Global, conds: &[CondId]) -> Result<Vec<u32>, AllocError>
    ensures { IfOk result (λ list. list.items ≡ cond_ids conds.now) }
{
    conds.iter().map(|cond| cond.0).collect(alloc)
}

/// The parts of a sum, by their numbers.
fn signed(alloc: Global, parts: &[(bool, TermId)]) -> Result<Vec<Signed>, AllocError>
    ensures { IfOk result (λ list. list.items ≡ signed_of parts.now) }
{
    parts
        .iter()
        .map(|part| Signed {
            subtracted: part.0,
            term: part.1.0,
        })
        .collect(alloc)
}

/// The numbers of tasks.
fn tasks_of(alloc: Global, tasks: &[(TermId, TermId, TermId)]) -> Result<Vec<Task>, AllocError>
    ensures { IfOk result (λ list. list.items ≡ task_ids tasks.now) }
{
    tasks
        .iter()
        .map(|task| Task {
            start: task.0.0,
            duration: task.1.0,
            demand: task.2.0,
        })
        .collect(alloc)
}

#[tactic(auto, using(crate::proofs::Added::sum_node, crate::proofs::Added::extreme_node, crate::proofs::Added::element_node, crate::proofs::Added::all_node, crate::proofs::Added::any_node, crate::proofs::Added::different_node, crate::proofs::Added::cumulative_node))]
impl TermStore {
    /// The node of the least or the greatest of several terms.
    fn extreme_node(&self, extreme: Extreme, parts: &[TermId]) -> Result<Node, AllocError>
        requires first { 1 ≤ length parts.now }
        requires exist { AllBelow (length (all self.now)) (term_ids parts.now) }
        ensures node { IfOk result (IsNodeFor (root_of self.now) (all self.now) (a_term (extreme_at extreme (all self.now) parts.now))) }
    {
        let Some((first, later)) = parts.split_first() else {
            return Err(AllocError);
        };
        let list = term_numbers(self.alloc, later)?;
        Ok(Node::Extreme(extreme, first.0, list))
    }

    /// The node of a term.
    pub(crate) fn term_node(&self, new: &NewTerm<'_>) -> Result<Node, AllocError>
        requires may { MayAddTerm (length (all self.now)) new.now }
        ensures node { IfOk result (IsNodeFor (root_of self.now) (all self.now) (a_term (new_term (all self.now) new.now))) }
    {
        match new {
            NewTerm::Constant(value) => Ok(Node::Constant(*value)),
            NewTerm::Cell(cell) => Ok(Node::Cell(*cell)),
            NewTerm::Sum(parts) => {
                let list = signed(self.alloc, parts)?;
                Ok(Node::Sum(list))
            }
            NewTerm::Product(a, b) => Ok(Node::Product(a.0, b.0)),
            NewTerm::Operation(operation, a) => Ok(Node::Operation(*operation, a.0)),
            NewTerm::Extreme(extreme, parts) => self.extreme_node(*extreme, parts),
            NewTerm::Element(table, at) => {
                let list = term_numbers(self.alloc, at)?;
                Ok(Node::Element(table.0, list))
            }
            NewTerm::Number(c) => Ok(Node::Number(c.0)),
        }
    }

    /// The node of a condition; that of a comparison has the linear form of the difference.
    pub(crate) fn cond_node(&self, new: &NewCond<'_>) -> Result<Node, AllocError>
        requires sound { IsSoundStore self.now }
        requires may { MayAddCond (length (all self.now)) new.now }
        ensures node { IfOk result (IsNodeFor (root_of self.now) (all self.now) (a_cond (new_cond (all self.now) new.now))) }
    {
        match new {
            NewCond::Compare(op, a, b) => {
                let form = self.difference(a.0, b.0)?;
                Ok(Node::Compare(Comparison {
                    op: *op,
                    left: a.0,
                    right: b.0,
                    form,
                }))
            }
            NewCond::Not(c) => Ok(Node::Not(c.0)),
            NewCond::All(conds) => {
                let list = cond_numbers(self.alloc, conds)?;
                Ok(Node::All(list))
            }
            NewCond::Any(conds) => {
                let list = cond_numbers(self.alloc, conds)?;
                Ok(Node::Any(list))
            }
            NewCond::Implies(a, c) => Ok(Node::Implies(a.0, c.0)),
            NewCond::AllDifferent(terms) => {
                let list = term_numbers(self.alloc, terms)?;
                Ok(Node::AllDifferent(list))
            }
            NewCond::Cumulative(tasks, capacity) => {
                let list = tasks_of(self.alloc, tasks)?;
                Ok(Node::Cumulative(list, capacity.0))
            }
        }
    }
}
