//! A reader of tokens: it reads the expressions at the front of tokens, and their ranges and binders.
//! Its tests stand in `compile_tests`.
#![tactic(auto)]

mod arguments;
mod binders;
mod calls;
mod chains;
mod expressions;
mod knot;
mod level;
mod parts;
mod reader;
mod sums;

pub use chains::chain;
pub use parts::Parts;
pub use reader::{Next, ParseStop, Read, Reader, is_over, joined};
