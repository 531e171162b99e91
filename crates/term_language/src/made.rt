//! What is made of one number.

/// A number that others are divided by.
#[derive(Clone, Copy, Debug, PartialEq, Eq)]
pub struct Divisor {
    pub number: i64,
}

/// What is made of one number: its quotient or its remainder by a divisor, or its size.
#[derive(Clone, Copy, Debug, PartialEq, Eq)]
pub enum Operation {
    Quotient(Divisor),
    Remainder(Divisor),
    Size,
}
