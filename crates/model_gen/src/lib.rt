//! Texts of models that are drawn by numbers: stages in which something is bought before it is known how much of it is asked for.
//! Its tests stand in `answer_tests`.
#![tactic(auto)]

mod drawn_stage;
mod generator;
mod text;
mod worked;

pub use text::{generate, generated};
pub use worked::worked_texts;
