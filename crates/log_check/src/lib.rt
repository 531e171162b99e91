//! The verdict on a log: it is accepted exactly where each of its lines is right, or else its first wrong line is told. The search has no
//! part in it.
//! Its tests stand in `answer_tests`.
#![tactic(auto)]

mod changes;
mod checker;
mod ends;
mod footer;
mod judge;
mod laws;
mod rows;
mod seen_sum;
mod sides;
mod steps;
mod sum_parts;
mod sums;
mod tally;
mod verdict;
mod view;
mod walk;

pub use checker::Checker;
pub use laws::{smaller_logs_have_room, wrong_logs_are_rejected};
pub use verdict::Verdict;
