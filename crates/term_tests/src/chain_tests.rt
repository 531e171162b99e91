//! Long chains of operations, and programs.

mod term_nodes_chains;
mod term_program_closings;
