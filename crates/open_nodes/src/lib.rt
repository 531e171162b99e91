//! The open nodes of a search that several seats share, and a box that goes from one of them to another. An open node keeps no box: it keeps the split of
//! which it is a side, and that split the one above it, so that nodes share their ways up to the root. Each seat has a list of open nodes.
//! Its tests stand in `branch_tests`; what they do not reach is reached by searches of one seat or several in `run_tests`.
#![tactic(auto)]

mod descending;
mod entering;
mod halving;
mod laws;
mod rising;
mod seats;
mod split;
mod walk;

pub use halving::Halving;
pub use laws::{
    gives_are_even, takes_are_even, ways_are_known, ways_are_rows, ways_descend, ways_go_on,
};
pub use seats::{OpenNode, Seat, Seats};
pub use split::{SplitNode, made, release};
pub use walk::BoxWalk;
