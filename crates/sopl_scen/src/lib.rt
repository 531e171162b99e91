//! The scenarios of a ground problem, with their histories and the cells of its decisions.
//! Its tests stand in `ground_tests`; what they do not reach is reached by those of `search_tests` and `answer_tests`.
#![tactic(auto)]

mod cell_domains;
mod cells;
mod grounded;
mod levels;
mod limits;
mod nodes;
mod products;
mod scenes;
mod stages;
mod table;
mod tree;

pub use cell_domains::domains;
pub use grounded::scenarios;
pub use stages::seen_before;
pub use tree::Tree;
