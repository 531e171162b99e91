//! What follows for a text where nothing stops its unfolding, and that the names of what it states have the form of names. The functions
//! are empty and state what was proved of the definitions, so that no body here could be wrong; hence the crate has no must-fail edits.
//! There is nothing to test.
#![tactic(auto)]

mod laws;
mod name_laws;

pub use laws::{
    chances_are_met, constants_have_values, decisions_are_bounded, hards_are_met,
    instances_are_counted, objective_is_met, parts_pass, stochastics_are_bounded,
    stochastics_have_outcomes,
};
pub use name_laws::names_are_words;
