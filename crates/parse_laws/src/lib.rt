//! Why a text that is not read is refused at one place: each prefix of a model goes on to some model, and each text has at most one
//! refusal. The functions are empty and state what was proved of the definitions, so that no body here could be wrong; hence the crate
//! has no must-fail edits. There is nothing to test.
#![tactic(auto)]

mod prefix_laws;
mod refusal_laws;

pub use prefix_laws::prefixes_go_on;
pub use refusal_laws::{one_refusal, some_model_goes_on};
