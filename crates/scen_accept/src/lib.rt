//! From the bytes of a text to what it states, or to the first refusal or limit.
//! The tests of `sopl_types` and of `sopl_unfold` in `compile_tests` reach it: it reads their texts.
#![tactic(auto)]

mod accepted;
mod laws;
mod read;

pub use accepted::AcceptedProblem;
pub use laws::texts_end_once;
pub use read::{stated_in, typed_in};
