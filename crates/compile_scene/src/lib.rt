//! What stands in a scenario for the names of a problem: a number or a cell for a name without an index, and an array for one with indices, which is made once
//! for all scenarios where it is the same in all.
//! Its tests stand in `search_tests`.
#![tactic(auto)]

mod roots;
mod scene;
mod tables;
mod work;

pub use roots::cell_domains;
pub use scene::NumberedScenario;
pub use work::Lowering;
