//! What the constraints of a text unfold to: the instances of hard constraints and of chance constraints, and the conditions that they stand for.
//! Its tests stand in `ground_tests`; whole texts are unfolded by those of `compile_tests`.
#![tactic(auto)]

mod calls;
mod items;
mod leaves;
mod listing;
mod numbering;
mod place;
mod thresholds;
mod walk;

pub use items::{ChanceItem, Env, HardItem, Instances};
pub use listing::{conditions, instances};
