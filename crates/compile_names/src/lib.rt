//! The names of a problem in a scenario: which constants, stochastic variables and decisions have a name, where its array takes its items
//! from, the index sets of an array, and which element stands at each index.
//! Its tests stand in `ground_tests`, and those of arrays by their names in `compile_tests`.
#![tactic(auto)]

mod arrays;
mod first_places;
mod laws;
mod names;
mod origins;
mod plan;
mod plan_laws;
mod scalars;
mod sets;
mod setting;

pub use arrays::Array;
pub use laws::places_of_tree;
pub use names::Names;
pub use origins::{Origin, Source};
pub use plan::Plan;
pub use plan_laws::tables_are_planned;
pub use setting::Scenarios;
