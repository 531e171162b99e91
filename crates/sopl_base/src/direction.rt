//! The direction of an objective.

/// Which values of an objective are better: lesser ones, greater ones, or none where there is no
/// objective.
#[derive(Clone, Copy, Debug, PartialEq, Eq)]
pub enum Direction {
    Minimize,
    Maximize,
    Nothing,
}
