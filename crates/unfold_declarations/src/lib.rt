//! What declarations state of constants, ranges and sets, and the dimensions of arrays.
//! The tests of `sopl_unfold` in `compile_tests` reach it: they unfold whole texts.
#![tactic(auto)]

mod arrays;
mod calls;
mod declare;
mod elements;
mod sets;

pub use arrays::{Dimension, IndexPrefix, IndexWalk, any_empty, dimensions};
pub use calls::{constant_at, count_one};
pub use declare::{declare_constant, declare_range, declare_set};
