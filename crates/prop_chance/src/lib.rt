//! The propagator of a chance constraint: it tests both ends of each cell that the conditions mention.
//! It keeps what it has seen from one box to the next, and sees a condition anew where a cell has changed that it mentions; and by how much
//! the weight turns with a cell at its ends. How several things are kept that mention cells serves the objective, too (`prop_goal`). Its
//! tests stand in `search_tests`.
#![tactic(auto)]

mod cell_sets;
mod chance_constraint;
mod chances;
mod kept_turns;
mod kept_weight;
mod number_lists;
mod outdated;

pub use cell_sets::{cells_listed, put_cells};
pub use chances::Chance;
pub use kept_turns::KeptTurns;
pub use number_lists::NumberList;
pub use outdated::Outdated;
