//! The operands of a global condition: what each of them is over a box, and over a part of it in which one cell has another interval, for which
//! those operands alone are evaluated anew that mention the cell.
//! The tests of `prop_set` in `search_tests` reach it by the texts that have a global condition.
#![tactic(auto)]

mod operands;
mod places;
mod questions;

pub use operands::{Operand, Operands};
pub use questions::{Question, closes_box, step_among};
