//! The propagator of the objective: it tests both ends of each cell that its reasons mention.
//! It keeps what it has seen of the objective from one box to the next, and sees anew what mentions a cell that has changed: of an expected
//! objective the parts of its sum, and by how much the better end turns with a cell at its ends; of one of which the worst scenario counts
//! the term in each scenario. The tests of `prop_chance` in `search_tests` reach it:
//! a cell of an objective is raised there and set back.
#![tactic(auto)]

mod goal_cells;
mod goals;
mod kept_ends;
mod kept_goal;
mod kept_parts;
mod kept_worst;
mod scenario_terms;
mod worst_ends;

pub use goals::Goal;
