//! The places that binders give and the numbers that stand as divisors, in a text whose unfolding nothing stops; and how many term nodes
//! such a text has, before any term is made.
//! Its tests stand in `ground_tests` and in `compile_tests`.
#![tactic(auto)]

mod bindings;
mod constants;
mod counts;
mod expressions;
mod instance_counts;
mod instances;
mod laws;
mod limit;

pub use bindings::all_places;
pub use constants::divisor;
pub use instances::{condition_at, known_at};
pub use laws::{bodies_pass, expressions_are_walked, ranges_pass};
pub use limit::node_excess;
