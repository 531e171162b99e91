//! What holds of the rows of the grammar: one reader and one test of phrases, and each law is proved once for all rows that pass the
//! test. The rows and what they spell stand in `sopl_ast`; here they are tied to the functions of `parse_grammar`, by which the reader
//! reads. The functions are empty and state what was proved of the definitions, so that no body here could be wrong; hence the crate has
//! no must-fail edits. There is nothing to test.
#![tactic(auto)]

mod grammar_laws;
mod row_laws;

pub use grammar_laws::{one_model, rows_are_read_alike};
pub use row_laws::{
    read_rows_are_spelled, row_prefixes_are_closed, row_prefixes_go_on, rows_are_read_by_kinds,
    rows_have_one_value, rows_may_be_missing, rows_pass, rows_take_tokens, spelled_rows_are_read,
    tokens_end_in_rows, wrong_rows_fail,
};
