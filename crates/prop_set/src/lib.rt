//! All propagators of a program: one of any kind, those of its hard constraints, and the search for the best point of the program with
//! them.
//! Its tests stand in `search_tests`.
#![tactic(auto)]

mod any_prop;
mod members;
mod posing;
mod reasons;
mod searching;

pub use any_prop::AnyProp;
pub use members::hard_props;
pub use reasons::props_of;
pub use searching::search_program;
pub use sopl_search::{Found, Outcome, SearchStop, Values};
