//! The program of an unfolded text: its cells with their domains, its scenarios with their weights, the condition of each constraint and the objective's term in each scenario; or the first limit that
//! the terms pass, their nodes before anything is made of them.
//! Its tests stand in `search_tests`.
#![tactic(auto)]

mod constraints;
mod objective;
mod repeats;
mod scenarios;
mod start;
mod whole;

pub use whole::compile;
