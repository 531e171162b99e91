//! What a rule answers.

/// Whether an expression has a value: at no point of a box, at some or it is not known, or at all of them.
#[derive(Clone, Copy, Debug, PartialEq, Eq)]
pub enum Defined {
    Never,
    Maybe,
    Always,
}

/// Whether a condition holds: at no point of a box, not known, or at all of them.
#[derive(Clone, Copy, Debug, PartialEq, Eq)]
pub enum Truth {
    False,
    Unknown,
    True,
}
