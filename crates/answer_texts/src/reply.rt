//! A reply: how a run ends, and the line that it answers.

use crate::status::Status;

/// How a run ends where its answer is written, and the line of the answer: one JSON object in compact form, and a line feed. The line of a
/// text that is drawn is the text.
#[derive(Debug, Drop)]
pub struct Reply {
    pub status: Status,
    pub line: String,
}
