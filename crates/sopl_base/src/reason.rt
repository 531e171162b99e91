//! The steps of a search, and why a box is closed.

/// Which end of an interval a step moves: `Le` the upper end, `Ge` the lower one.
#[derive(Clone, Copy, Debug, PartialEq, Eq)]
pub enum Side {
    Le,
    Ge,
}

/// What closes a box: a hard constraint in a scenario, a chance constraint, an objective that is
/// nowhere defined in a scenario, or the best value that was found.
#[derive(Clone, Copy, Debug, PartialEq, Eq)]
pub enum Reason {
    Hard { instance: u32, scenario: u32 },
    Chance { instance: u32 },
    Undefined { scenario: u32 },
    Bound,
}

/// One end of one cell moved to `k`, for a reason.
#[derive(Clone, Copy, Debug, PartialEq, Eq)]
pub struct Step {
    pub reason: Reason,
    pub cell: u32,
    pub side: Side,
    pub k: i64,
}
