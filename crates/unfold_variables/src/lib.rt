//! The decisions and the stochastic variables of declarations, one for each index of their array.
//! Its tests stand in `ground_tests`; whole texts are unfolded by those of `compile_tests`.
#![tactic(auto)]

mod arrays;
mod calls;
mod distributions;
mod domains;
mod elements;
mod equal_decisions;
mod items;
mod variables;

pub use items::{DecisionItem, Index, StochItem, Weighted};
pub use variables::{decisions, stochastics};
