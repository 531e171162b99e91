//! What holds of the scenarios, the histories and the limits of stochastic variables, and how scenarios lie in blocks, one for each
//! history of a stage. The functions are empty and state what was proved of the definitions, so that no body here could be wrong; hence
//! the crate has no must-fail edits.
//! There is nothing to test.
#![tactic(auto)]

mod block_laws;
mod laws;

pub use block_laws::{
    blocks_divide, blocks_fill, histories_are_blocks, histories_go_on, rows_split, values_of_stages,
};
pub use laws::{
    counts_multiply, histories_are_prefixes, histories_are_rows, prefixes_are_fewer, products_run,
    rows_are_numbered, rows_differ, scenarios_are_counted, scenarios_are_light, scenarios_extend,
    scenarios_split, stochastics_ascend, weights_multiply,
};
