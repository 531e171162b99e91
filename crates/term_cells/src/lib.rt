//! The cells that terms and conditions mention.
//! Its tests stand in `term_tests`.
#![tactic(auto)]

mod elements;
mod kept;
mod lists;
mod walk;

pub use walk::Nodes;
