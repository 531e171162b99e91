//! The search for the best point of a problem by branch and bound, over any propagators, by one seat or several.
//! Its tests stand in `branch_tests`; those over the programs of texts in `search_tests` and `run_tests`.
#![tactic(auto)]

mod bounding;
mod close;
mod crew;
mod crew_laws;
mod ending;
mod fitting;
mod frontier;
mod listing;
mod nodes;
mod outcome;
mod posed;
mod schedule;
mod searching;
mod tree_laws;
mod values;
mod watchers;

pub use crew::Crew;
pub use crew_laws::{runs_are_logs, settled_outcomes_agree};
pub use frontier::Frontier;
pub use outcome::{Found, Outcome};
pub use posed::SearchProblem;
pub use schedule::Schedule;
pub use searching::search;
pub use sopl_base::SearchStop;
pub use tree_laws::{high_half_never_alone, sides_are_ordered};
pub use values::Values;
pub use watchers::Watchers;
