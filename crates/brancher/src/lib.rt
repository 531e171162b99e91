//! What chooses where the box of a node is cut, and what is done with an answer that cuts nothing. A brancher is an object that whoever calls
//! a search hands in; it may answer what it likes.
//! Its tests stand in `branch_tests`; searches with branchers are tested in `run_tests`.
#![tactic(auto)]

mod asking;
mod branching;
mod choice;
mod failing;
mod finding;
mod listing;
mod lower;
mod widest;

pub use asking::{chosen, pick, tell};
pub use branching::Brancher;
pub use choice::{Choice, Event};
pub use failing::Failing;
pub use listing::known_branchers;
pub use lower::Lower;
pub use widest::Widest;
