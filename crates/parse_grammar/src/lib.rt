//! What stands first in a list of tokens, and the reading of each phrase on lists of tokens, as functions, one for each that reads
//! tokens in the crates above.
//! The tests of `sopl_parse` in `compile_tests` reach it, text by text.
#![tactic(auto)]

mod marks;

pub use marks::{
    Mark, comparison_operator, extreme_function, factor_operator, goal_direction, goal_measure,
    has_mark, literal, named, number_function, peek, place, range_end, rest, term_operator,
};
