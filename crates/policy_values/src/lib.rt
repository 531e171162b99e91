//! What an expression of a text is worth in a scenario under a policy, and whether a condition is true there: by the text itself, form by
//! form, as the definitions of meanings say it. Nothing here is shared with the terms of `solve`; with it the crate has the unfolded text in
//! common, its scenarios, and the values of its constant places.
//! Its tests stand in `answer_tests`.
#![tactic(auto)]

mod arithmetic;
mod numbering;
mod played;
mod variables;
mod walk;

pub use played::PlayedScenario;
pub use variables::Variables;
