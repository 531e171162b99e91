//! The numbers of conditions, in text order.

ghost use Rattle.std.specs.Prelude.{◌≡◌, ◌+◌, map, length, IfOk};
ghost use Rattle.sopl_ast.specs.Constraints.{cons_tree};
ghost use Rattle.sopl_ast.specs.Unfolding.{conditions_of, all_conditions};
ghost use Rattle.sopl_ast.specs.Whole.{conses};

use sopl_ast::Cons;
use std::alloc::AllocError;

/// The number behind those of a constraint's conditions, of which the first has this one.
#[tactic(auto, using(sopl_ast::proofs::ConstraintTrees::constraints, crate::proofs::Parts::parts))]
#[cycle(behind)]
pub fn behind(first: u32, constraint: &Cons) -> Result<u32, AllocError>
    ensures { IfOk result (λ next. next ≡ first + length (conditions_of (cons_tree constraint.now))) }
{
    match constraint {
        Cons::Forall(_, inner) => behind(first, inner),
        Cons::Block(parts) => behind_all(first, parts.as_slice()),
        Cons::Hard(_) | Cons::Chance { .. } => following(first),
    }
}

/// The number behind those of the conditions of constraints in order.
#[tactic(auto, using(sopl_ast::proofs::ConstraintTrees::constraints, crate::proofs::Parts::parts))]
#[cycle(behind)]
fn behind_all(first: u32, parts: &[Cons]) -> Result<u32, AllocError>
    ensures { IfOk result (λ next. next ≡ first + length (all_conditions (conses (map cons_tree parts.now)))) }
{
    let mut next = first;
    'parts: for part in parts {
        next = behind(next, part)?;
    }
    Ok(next)
}

/// The next number. Numbers are below 2^32: a text with more conditions has no place in memory.
fn following(number: u32) -> Result<u32, AllocError>
    ensures { IfOk result (λ next. next ≡ number + 1) }
{
    match number.checked_add(1) {
        Some(next) => Ok(next),
        None => Err(AllocError),
    }
}
