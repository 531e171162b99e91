//! Windows of numbers and the intervals that lie in them, tasks whose numbers lie in intervals, and what both global conditions say of
//! slices of such intervals: each as its definition says.
//! Its tests stand in `interval_tests`.
#![tactic(auto)]

mod crowds;
mod fits;
mod overlaps;
mod tasks;
mod windows;

pub use crowds::{always_differ, never_differ};
pub use fits::{always_fit, never_fit};
pub use overlaps::{Overlap, first_overlap};
pub use tasks::{Amount, TaskRange};
pub use windows::{Window, are_apart};
