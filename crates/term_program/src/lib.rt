//! A compiled problem: terms and conditions over cells, with no syntax, what they are over the box of a store, and that a search may go by
//! the problem over the points of a box that it states.
//! Its tests stand in `term_tests`.
#![tactic(auto)]

mod closing;
mod draft;
mod globals;
mod laws;
mod linear_terms;
mod mentions;
mod over;
mod program;
mod shapes;

pub use closing::{is_no_better, refuted, refuted_in};
pub use draft::{ChanceConditions, Conditions, Draft};
pub use globals::GlobalTerms;
pub use laws::{lawful_of, roots_are_near};
pub use linear_terms::OneCell;
pub use mentions::{Mentioned, Mentions};
pub use over::{Range, end_over, goal_ends, goal_ends_in, kleene, kleene_in, range_in, range_of};
pub use program::Program;
pub use shapes::Form;
pub use term_store::{CondId, TermId};
