//! From a typed model to the ground problem that it states: its decisions, its stochastic variables and the instances of its
//! constraints; or to the first refusal or limit that is met on the way.
//! Its tests stand in `compile_tests`.
#![tactic(auto)]

mod declared;
mod ground;
mod parts;
mod stages;
mod unfolding;

pub use ground::Ground;
pub use unfold_constraints::{ChanceItem, Env, HardItem};
pub use unfold_variables::{DecisionItem, Index, StochItem, Weighted};
pub use unfolding::unfold;
