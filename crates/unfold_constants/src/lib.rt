//! What is known at a constant place of a text, and what an expression there is worth.
//! Its tests stand in `compile_tests`.
#![tactic(auto)]

mod binder_walk;
mod constant_places;
mod constant_scope;
mod evaluate;
mod refusals;
mod scopes;
mod walk;

pub use binder_walk::BinderWalk;
pub use constant_scope::ConstantScope;
pub use evaluate::TaskText;
pub use refusals::unless;
