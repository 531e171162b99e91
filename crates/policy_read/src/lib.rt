//! A policy is read from JSON.
//! Its tests stand in `answer_tests`.
#![tactic(auto)]

mod domains;
mod entry;
mod form;
mod laws;
mod lists;
mod policy;
mod reader;

pub use laws::{accepted_are_read, printed_is_read, read_is_there};
pub use lists::data_in;
pub use reader::read;
