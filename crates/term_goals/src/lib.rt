//! The objective of a program over boxes: the interval of the value that is expected over all scenarios, or of the worst one.
//! Its tests stand in `interval_tests`; objectives of whole programs are tested in `term_tests`.
#![tactic(auto)]

mod goal;
mod listing;
mod sizes;
mod sums;
mod wide;

pub use goal::{Goal, Objective};
pub use sizes::whole_weight;
pub use sums::{Atom, Summed};
pub use wide::WideEnds;
