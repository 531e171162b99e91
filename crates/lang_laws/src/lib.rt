//! Worked texts and laws of the definitions in `sopl_ast/specs`; no crate of the program uses them. The functions are empty and
//! state what was proved of the definitions, so that no body here could be wrong; hence the crate has no must-fail edits.
//! There is nothing to test.
#![tactic(auto)]

mod laws;
mod problems;
mod refusals;
mod values;
mod worked;

pub use laws::{
    fit_at_each_time, ranges_ascend, ranges_hold, satisfied_is_worth, scenarios_agree,
    scenarios_alive, scenarios_distinct, scenarios_split, sets_ascend, sets_hold, weights_sum,
};
pub use problems::{counted_sizes, stated_constants, stated_instances, stated_parts};
pub use refusals::{first_met, refused_constants, refused_constraints, refused_declarations};
pub use values::{defined_values, empty_sets, undefined_values, valued_policies};
pub use worked::{
    worked_conditions, worked_elements, worked_instances, worked_limits, worked_numbers,
    worked_policies, worked_refusals, worked_scenarios,
};
