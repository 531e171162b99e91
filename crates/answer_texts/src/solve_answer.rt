//! What is answered of a text.

/// The line that answers a text.
#[derive(Debug, Drop)]
pub enum Answer {
    /// An optimal policy with its value, or that none satisfies.
    Settled(String),
    /// A bound, and what was found, where the search ended before it was done.
    Cut(String),
}
