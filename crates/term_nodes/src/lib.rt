//! Terms and conditions over cells as nodes of one vector, with what is known of each of them, and what they are over a box.
//! Its tests stand in `term_tests`.
#![tactic(auto)]

mod chains;
mod different;
mod evaluation;
mod fitting;
mod items;
mod nodes;
mod pushes;

pub use evaluation::Evaluator;
pub use items::{Facts, Item, form_at, item_at, table_at};
pub use nodes::{Comparison, Node, Signed, Task};
pub use pushes::push;
