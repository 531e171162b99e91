//! A store of terms and conditions over the cells of a root box: one call adds a term and one a condition, and each of them is seen over a box.
//! Its tests stand in `term_tests`.
#![tactic(auto)]

mod additions;
mod comparisons;
mod constants;
mod elements;
mod extremes;
mod facts;
mod folded;
mod ids;
mod known;
mod operations;
mod over;
mod products;
mod store;
mod sums;
mod terms;
mod wide;

pub use additions::{NewCond, NewTerm, cond_numbers, term_numbers};
pub use ids::{CondId, TableId, TermId};
pub use store::TermStore;
