//! A policy as nested JSON, an instance with its value as JSON, and the last stage of decisions.
//! Its tests stand in `answer_tests`.
#![tactic(auto)]

mod bytes;
mod decided;
mod entries;
mod last_stage;
mod laws;
mod point;
mod policy;
mod runs;
mod seen;
mod stages;

pub use bytes::print;
pub use entries::entry_value;
pub use last_stage::greatest_stage;
pub use laws::{held_throughout, no_float, texts_differ};
pub use policy::policy_value;
