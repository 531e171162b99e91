//! The numbers of ranges and sets.

/// The two ends of a range, which has no number where the first is greater.
#[derive(Clone, Copy, Debug)]
pub struct Ends {
    pub lo: i64,
    pub hi: i64,
}

/// The numbers of a range, by its two ends, or those of a set, in ascending order.
#[derive(Debug, Drop)]
pub enum NumberSet {
    Between(Ends),
    Listed(Vec<i64>),
}

/// The numbers of a range or of a set, as `NumberSet` has them, with the numbers of a set borrowed.
#[derive(Clone, Copy, Debug)]
pub enum Numbers<'a> {
    Between(Ends),
    Listed(&'a [i64]),
}
