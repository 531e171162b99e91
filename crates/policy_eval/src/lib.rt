//! Whether a policy satisfies a text, by the text itself: its value and the sums of its chance constraints, or what fails first. `solve` and
//! this crate have no line of reckoning in common: what an expression is worth is said by `policy_values`, and no term is made.
//! The tests of `answer_eval` in `answer_tests` reach it: they tell what a policy is worth, and what fails first.
#![tactic(auto)]

mod evaluation;
mod laws;
mod report;
mod trial;

pub use evaluation::evaluate;
pub use laws::{reports_are_one, satisfying_are_told};
pub use report::Report;
