//! The small types that every layer shares, all codes and limits, and exact comparisons of whole numbers.
//! Its tests stand in `interval_tests`; what they do not reach is reached by those of the crates above.
#![tactic(auto)]

pub mod codes;
mod comparison;
mod direction;
mod extreme;
mod fault;
mod interval;
pub mod limits;
mod numbers;
mod reason;
mod span;
mod steps;
mod stop;
mod wide;

pub use comparison::CmpOp;
pub use direction::Direction;
pub use extreme::Extreme;
pub use fault::{Excess, Fault, Refusal};
pub use interval::Interval;
pub use numbers::{better, bits, midpoint, reaches};
pub use reason::{Reason, Side, Step};
pub use span::Span;
pub use steps::Steps;
pub use stop::SearchStop;
pub use wide::Wide;
