//! The propagator of `allDifferent`: windows with as many terms as numbers give its steps and tell where there are none, and the ends of the cells
//! for which they do not tell it are tested one by one.
//! The tests of `prop_set` in `search_tests` reach it by the texts that have an `allDifferent`.
#![tactic(auto)]

mod all_diff;
mod crowds;
mod long_steps;
mod shared;

pub use all_diff::AllDiff;
