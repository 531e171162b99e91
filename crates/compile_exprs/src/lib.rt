//! An expression at a place in a scenario becomes the term or the condition that it is instantiated to there, or a number expression in it is too large.
//! Its tests stand in `search_tests`.
#![tactic(auto)]

mod adding;
mod chains;
mod elements;
mod expressions;
mod lists;
mod walk;

pub use expressions::{condition_of, term_of};
