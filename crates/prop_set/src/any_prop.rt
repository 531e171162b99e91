//! A propagator of any kind.

ghost use Rattle.term_program.specs.Stated.{box_problem_of};
ghost use Rattle.prop_set.specs.Kinds.{Fits, IsInStep, reasons_of, watches_of};

use box_store::BoxStore;
use prop_alldiff::AllDiff;
use prop_chance::Chance;
use prop_core::{Finding, Propagator, Resting, Watching};
use prop_cumul::Cumul;
use prop_goal::Goal;
use prop_linear::Linear;
use prop_term::AnyTerm;
use term_program::Program;

/// A propagator of any kind: of a linear comparison, of `allDifferent`, of `cumulative`, of another hard constraint, of a chance
/// constraint, or of the objective. Where it has rested against the same best value, and no cell has changed since that one of its reasons
/// mentions, it is not asked anew.
#[derive(Drop)]
pub enum AnyProp {
    Linear(Linear),
    AllDiff(Resting<AllDiff>),
    Cumul(Resting<Cumul>),
    AnyTerm(Resting<AnyTerm>),
    Chance(Chance),
    Goal(Goal),
}

impl Propagator for AnyProp {
    type Program = Program;

    ghost problem = { box_problem_of };

    ghost reasons = { reasons_of };

    ghost fits = { Fits };

    ghost in_step = { IsInStep };

    ghost watches = { watches_of };

    fn revise(&mut self, program: &Program, store: &BoxStore, best: Option<i128>) -> Finding {
        match self {
            AnyProp::Linear(prop) => prop.revise(program, store, best),
            AnyProp::AllDiff(prop) => prop.revise(program, store, best),
            AnyProp::Cumul(prop) => prop.revise(program, store, best),
            AnyProp::AnyTerm(prop) => prop.revise(program, store, best),
            AnyProp::Chance(prop) => prop.revise(program, store, best),
            AnyProp::Goal(prop) => prop.revise(program, store, best),
        }
    }
}

impl Watching for AnyProp {
    ghost use Rattle.prop_set.specs.Agreeing.{looks_alike, steps_alike, watches_ascend};

    fn watched_cells(&self) -> &[u32] {
        match self {
            AnyProp::Linear(prop) => prop.watched_cells(),
            AnyProp::AllDiff(prop) => prop.watched_cells(),
            AnyProp::Cumul(prop) => prop.watched_cells(),
            AnyProp::AnyTerm(prop) => prop.watched_cells(),
            AnyProp::Chance(prop) => prop.watched_cells(),
            AnyProp::Goal(prop) => prop.watched_cells(),
        }
    }

    fn touched(&mut self, cell: u32) {
        match self {
            AnyProp::Linear(prop) => prop.touched(cell),
            AnyProp::AllDiff(prop) => prop.touched(cell),
            AnyProp::Cumul(prop) => prop.touched(cell),
            AnyProp::AnyTerm(prop) => prop.touched(cell),
            AnyProp::Chance(prop) => prop.touched(cell),
            AnyProp::Goal(prop) => prop.touched(cell),
        }
    }

    fn revise_kept(&mut self, program: &Program, store: &BoxStore, best: Option<i128>) -> Finding {
        match self {
            AnyProp::Linear(prop) => prop.revise_kept(program, store, best),
            AnyProp::AllDiff(prop) => prop.revise_kept(program, store, best),
            AnyProp::Cumul(prop) => prop.revise_kept(program, store, best),
            AnyProp::AnyTerm(prop) => prop.revise_kept(program, store, best),
            AnyProp::Chance(prop) => prop.revise_kept(program, store, best),
            AnyProp::Goal(prop) => prop.revise_kept(program, store, best),
        }
    }

    ghost cells_ascend = { λ m p fits. watches_ascend m p fits };

    ghost steps_agree = { λ m p b c fits b_in c_in agree step. steps_alike m p b c fits b_in c_in agree step };

    ghost reasons_agree = { λ m p fits. looks_alike m p fits };
}
