//! The propagator of `cumulative`: both ends of each of its cells are tested by the intervals of its tasks, of which those alone are evaluated anew
//! that mention the cell.
//! The tests of `prop_set` in `search_tests` reach it by the texts that have a `cumulative`.
#![tactic(auto)]

mod cumul;
mod profile;

pub use cumul::Cumul;
