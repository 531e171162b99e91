//! What a log is answered.

/// A log is accepted, or one of its lines is the first that is not right: the line, and its node, which for the last line is the number
/// of nodes.
#[derive(Clone, Copy, Debug, PartialEq, Eq)]
pub enum Verdict {
    Accepted,
    Rejected { node: u64, line: u64 },
}
