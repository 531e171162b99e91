//! What a search reads of a program.

ghost use Rattle.term_program.specs.Programs.{IsMade};

use crate::any_prop::AnyProp;
use box_store::BoxStore;
use sopl_base::{Direction, Interval};
use sopl_search::SearchProblem;
use std::alloc::{AllocError, Global};
use term_program::{Program, end_over};

impl SearchProblem for AnyProp {
    ghost valid = { IsMade };

    #[tactic(auto, using(term_program::proofs::Lawful::root_is))]
    fn roots(alloc: Global, program: &Program) -> Result<Vec<Interval>, AllocError> {
        program.roots(alloc)
    }

    #[tactic(auto, using(term_program::proofs::Lawful::direction_is))]
    fn direction(program: &Program) -> Direction {
        program.direction()
    }

    #[tactic(auto, using(term_program::proofs::Lawful::inside_root, term_program::proofs::Lawful::end_is))]
    fn end(program: &Program, store: &BoxStore) -> i128 {
        end_over(program, store).value
    }
}
