//! Points of the cells and policies are one to one, and what a search of the points says of the policies.
//! There are no must-fail edits, since no body here could be wrong: the laws are over definitions alone.
//! There is nothing to test.
#![tactic(auto)]

mod one_to_one;
mod policy_laws;
mod search_laws;
mod worked;

pub use one_to_one::{cell_value, points_are_policies, points_differ, policies_are_points};
pub use policy_laws::{history_shares, value_is_one};
pub use search_laws::{infeasible_from, optimal_from};
pub use worked::worked_values;
