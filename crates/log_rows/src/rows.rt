//! Nodes of a search as rows, and what a log claims.

use sopl_base::{Reason, Side, Steps};

/// The split that a node is a part of: the number of the split node, and the side of it, `Le` for the low one.
#[derive(Clone, Copy, Debug, PartialEq, Eq)]
pub struct Parent {
    pub node: u64,
    pub side: Side,
}

/// Where a node is split: the low side has the cell at most at `k`, the high side at least at `k + 1`.
#[derive(Clone, Copy, Debug, PartialEq, Eq)]
pub struct Cut {
    pub cell: u32,
    pub k: i64,
}

/// How a node ends: closed by a reason, split, a point that was found, or not finished.
#[derive(Clone, Copy, Debug, PartialEq, Eq)]
pub enum EndLine {
    Refuted(Reason),
    Split(Cut),
    Point,
    Unfinished,
}

/// A node of the search: the split that it is a part of, which the root has not, its steps, and its end. Its number is its
/// place among the rows.
#[derive(Drop)]
pub struct Row {
    pub parent: Option<Parent>,
    pub steps: Steps,
    pub end: EndLine,
}

/// What a log claims: this value is reached and none is better; no point satisfies; or the best value found, if any, and a
/// bound that no value passes.
#[derive(Clone, Copy, Debug, PartialEq, Eq)]
pub enum Footer {
    Optimal(i128),
    Infeasible,
    Bounded(Option<i128>, i128),
}
