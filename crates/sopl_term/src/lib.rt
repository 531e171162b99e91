//! A compiled problem: terms and conditions over cells, with no syntax, and what they are over the box of a store. A program is built call by call.
//! Its tests stand in `term_tests`.
#![tactic(auto)]

mod builder;
mod cells;
mod conditions;
mod constraints;
mod finish;
mod indices;
mod tables;
mod terms;

pub use builder::Builder;
pub use indices::Indices;
pub use term_goals::Atom;
pub use term_language::{Defined, Truth};
pub use term_math::Coefficient;
pub use term_program::{
    Form, Program, Range, goal_ends, goal_ends_in, kleene, kleene_in, range_in, range_of, refuted,
    refuted_in,
};
pub use term_store::{CondId, NewCond, NewTerm, TableId, TermId};
