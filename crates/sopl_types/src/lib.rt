//! The types of a model: which names are known where, what they stand for, and the first mistake.
//! Its tests stand in `compile_tests`.
#![tactic(auto)]

mod bound;
mod check;
mod constraints;
mod declarations;
mod expressions;
mod inits;
mod mistakes;
mod names;

pub use check::{Typed, check_types};
