//! Where a constraint stands.

ghost use Rattle.std.specs.Prelude.{◌≡◌, IfOk};
ghost use Rattle.unfold_constants.specs.Here.{known_in, bindings_in};

use crate::items::Env;
use sopl_ast::{Cons, Name};
use std::alloc::{AllocError, Global};
use unfold_constants::ConstantScope;

/// Where a constraint stands: what is known there.
#[derive(Clone, Copy)]
pub struct Place<'a, 'b> {
    pub alloc: Global,
    pub known: &'b ConstantScope<'a>,
}

/// A constraint, and the number of its first condition among all conditions of the text.
#[derive(Clone, Copy)]
pub struct Part<'a> {
    pub first: u32,
    pub constraint: &'a Cons,
}

impl<'a, 'b> Place<'a, 'b> {
    /// What the binders around a constraint give.
    pub fn env(&self) -> Result<Env, AllocError>
        ensures { IfOk result (λ env. env ≡ (known_in self.now.known.now).bound) }
    {
        env_of(self.alloc, self.known.bindings())
    }
}

/// A copy of bound names with their values.
#[tactic(auto, using(crate::proofs::Copies::copies))]
fn env_of(alloc: Global, bound: &[(&Name, i64)]) -> Result<Env, AllocError>
    ensures { IfOk result (λ env. env ≡ bindings_in bound.now) }
{
    let mut env = Env::new(alloc);
    'bound: for binding in bound {
        env.push((binding.0.copy(alloc)?, binding.1))?;
    }
    Ok(env)
}
