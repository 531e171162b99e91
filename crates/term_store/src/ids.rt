//! Numbers of terms, of conditions and of arrays.

/// The number of a term.
#[derive(Clone, Copy, Debug, PartialEq, Eq)]
pub struct TermId(pub u32);

/// The number of a condition.
#[derive(Clone, Copy, Debug, PartialEq, Eq)]
pub struct CondId(pub u32);

/// The number of an array.
#[derive(Clone, Copy, Debug, PartialEq, Eq)]
pub struct TableId(pub u32);
