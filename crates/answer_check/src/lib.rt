//! What `check` answers of a text and the bytes of a log: that the log is accepted, with what it claims; its first wrong line; or that it cannot be read as a
//! log. A text that is refused, or whose terms pass a limit, is told as `solve` tells it.
//! Its tests stand in `answer_tests`.
#![tactic(auto)]

mod answer;
mod laws;
mod lines;
mod logs;

pub use answer::{fault_reply, program_reply, program_to_check};
pub use laws::{accepted_logs_are_answered, checks_end_once, written_logs_are_accepted};
