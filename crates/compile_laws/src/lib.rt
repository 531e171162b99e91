//! What an expression of a text is as a term over cells, and that this term is worth what the expression is; and so for whole problems:
//! which of their sizes are limited, where the box of all points lies and how many bits it has, and what a search of the points says of
//! the policies. The functions are empty and state what was proved of the definitions, so that no body here could be wrong; hence the
//! crate has no must-fail edits.
//! There is nothing to test.
#![tactic(auto)]

mod bound_laws;
mod laws;
mod root_laws;
mod size_laws;
mod size_vectors;
mod worked;

pub use bound_laws::{bounds_hold, reached_is_worth, unbeaten_is_best, unreached_is_none};
pub use laws::{
    arrays_stand, best_is_optimal, cells_are_numbered, instances_mean, instances_repeat,
    places_agree, points_of_box, problems_are_well_made, problems_mean, searches_find_policies,
    tables_are_sound,
};
pub use root_laws::{bits_are_the_same, digits_are_the_same, root_has_few_bits, root_is_near};
pub use size_laws::{objectives_are_measured, terms_are_measured};
pub use size_vectors::{worked_excesses, worked_order, worked_subterms};
pub use worked::worked_terms;
