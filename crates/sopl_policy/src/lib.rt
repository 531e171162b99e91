//! A policy as it is kept: the values of all cells, and where the cells of each decision begin.
//! The tests of `answer_eval` in `answer_tests` reach it: it keeps the policies that they read.
#![tactic(auto)]

mod first_cells;
mod policy;

pub use policy::{Policy, policy_of};
