//! What `eval` answers of a text and the bytes of a policy: that the policy satisfies, with its value and the weights of the chance
//! constraints; what fails first; or that the bytes cannot be read as a policy of the text. A text that passes a limit on its terms is
//! told as `solve` tells it.
//! Its tests stand in `answer_tests`.
#![tactic(auto)]

mod laws;
mod lines;
mod policy;
mod text;

pub use laws::{evals_end_once, satisfying_are_answered};
pub use policy::policy_reply;
pub use text::{text_to_eval, unsolved_reply};
