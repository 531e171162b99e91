//! The propagator of any hard constraint: it tests both ends of each cell that the condition mentions.
//! Its tests stand in `search_tests`.
#![tactic(auto)]

mod any_term;

pub use any_term::AnyTerm;
