//! A whole problem in terms over cells, the rules over boxes that a search and a log go by, and which cells a reason mentions. All of it is
//! definitions, worked values and laws over them: the functions are empty and state what was proved, so that no body here could be wrong;
//! hence the crate has no must-fail edits.
//! There is nothing to test.
#![tactic(auto)]

mod laws;
mod reason_laws;
mod reason_vectors;
mod worked;

pub use laws::{goals_are_bounded, points_are_told, points_have_values, problems_are_lawful};
pub use reason_laws::reasons_agree;
pub use reason_vectors::worked_reason_mentions;
pub use worked::{worked_objectives, worked_points, worked_reasons};
