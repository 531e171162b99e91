//! The propagator of a linear comparison: it keeps the comparison's sum from one box to the next, and tests both ends of each of its cells
//! by that sum. The tests of `prop_chance` in `search_tests` reach it:
//! a cell of a comparison is raised there and set back.
#![tactic(auto)]

mod balances;
mod comparisons;
mod kept_sum;
mod linear_constraint;
mod maxima;
mod turns;

pub use comparisons::Linear;
