//! A box of cells that is narrowed cell by cell, and set back to where it was marked.
//! Its tests stand in `branch_tests`.
#![tactic(auto)]

mod store;
mod trail;

pub use store::BoxStore;
