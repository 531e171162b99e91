//! Tests of the programs of texts: their limits, what they tell of themselves, where their propagators come to rest, how often they are asked, and what
//! they find that keep what they have seen. Beside them stand tests of bytes that go in and out, and of logs.
#![tactic(auto)]

#[cfg(test)]
mod compile_exprs_limits;
#[cfg(test)]
mod compile_scene_texts;
#[cfg(test)]
mod log_rows_writing;
#[cfg(test)]
mod log_tree_reading;
#[cfg(test)]
mod prop_chance_keeping;
#[cfg(test)]
mod prop_core_asking;
#[cfg(test)]
mod prop_set_narrowing;
#[cfg(test)]
mod prop_term_conditions;
#[cfg(test)]
mod sopl_compile_programs;
#[cfg(test)]
mod sopl_io_transfers;
