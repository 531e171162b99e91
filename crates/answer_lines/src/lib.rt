//! The lines of answers: one JSON object in compact form, and a line feed; that of the command `tree` has the scenarios of a text, with
//! their weights, and the numbers of their histories.
//! Its tests stand in `run_tests`.
#![tactic(auto)]

mod laws;
mod lines;
mod prefix;
mod scenes;
mod text;

pub use laws::lines_differ;
pub use lines::{
    bound_line, found_line, fraction_text, limit_line, line, optimal_line, refused_line,
    summary_line, unreadable_line, valued_summary_line, word_line,
};
pub use text::tree_text;
