//! What a program tells of the box of a store: which reasons close it, and how good its objective may be.

ghost use Rattle.std.specs.Prelude.{◌≡◌, None};
ghost use Rattle.sopl_base.specs.declared.reason.Reason.TheVariants as reason;
ghost use Rattle.box_problem.specs.Box.{Inside};
ghost use Rattle.term_program.specs.Programs.{IsMade};
ghost use Rattle.term_program.specs.Stated.{box_problem_of};
ghost use Rattle.log_check.specs.KeptSums.{KeepsSums};

use crate::sums::Sums;
use box_store::BoxStore;
use prop_shave::is_too_little;
use sopl_base::{Direction, Reason, Wide};
use term_program::{Program, end_over, is_no_better, refuted};

/// Whether a reason closes the box of a store.
#[tactic(auto, using(term_program::proofs::Lawful::inside_root, crate::proofs::Judging::refutes_is))]
pub(crate) fn closes(
    program: &Program,
    reason: Reason,
    store: &BoxStore,
    best: Option<i128>,
) -> bool
    requires made { IsMade program.now }
    requires inside { Inside store.now.box (box_problem_of program.now).root }
    ensures closes { result ≡ (box_problem_of program.now).refutes reason store.now.box best }
{
    refuted(program, reason, store, best)
}

/// Whether a chance constraint closes the box of a store, by the weight that is left to it, where that is kept.
#[tactic(auto, using(term_program::proofs::Lawful::inside_root))]
pub(crate) fn chance_closes(
    program: &Program,
    instance: u32,
    store: &BoxStore,
    sums: &mut Sums,
) -> bool
    requires made { IsMade program.now }
    requires inside { Inside store.now.box (box_problem_of program.now).root }
    requires in_step { KeepsSums program.now store.now.box sums.old }
    ensures closes { result ≡ (box_problem_of program.now).refutes (reason.Chance instance) store.now.box None }
    ensures in_step { KeepsSums program.now store.now.box sums.new }
{
    if instance >= program.chances() {
        return closes(program, Reason::Chance { instance }, store, None);
    }
    match sums.left(program, instance, store) {
        Some(left) => is_too_little(program, instance, left),
        None => closes(program, Reason::Chance { instance }, store, None),
    }
}

/// The better end of the objective over the box of a store, by the sum of its parts, where that is kept.
#[tactic(auto, using(term_program::proofs::Lawful::inside_root, term_program::proofs::Lawful::end_is))]
pub(crate) fn better_end(program: &Program, store: &BoxStore, sums: &mut Sums) -> Wide
    requires made { IsMade program.now }
    requires inside { Inside store.now.box (box_problem_of program.now).root }
    requires in_step { KeepsSums program.now store.now.box sums.old }
    ensures end { result.value ≡ (box_problem_of program.now).end store.now.box }
    ensures in_step { KeepsSums program.now store.now.box sums.new }
{
    match sums.end(program, store) {
        Some(end) => end,
        None => end_over(program, store),
    }
}

/// Whether the better end of the objective over the box of a store is not better than a value, if there is one.
#[tactic(auto, using(crate::proofs::Judging::unbounded, crate::proofs::Judging::by_end))]
pub(crate) fn bound_closes(
    program: &Program,
    store: &BoxStore,
    best: Option<i128>,
    sums: &mut Sums,
) -> bool
    requires made { IsMade program.now }
    requires inside { Inside store.now.box (box_problem_of program.now).root }
    requires in_step { KeepsSums program.now store.now.box sums.old }
    ensures closes { result ≡ (box_problem_of program.now).refutes reason.Bound store.now.box best }
    ensures in_step { KeepsSums program.now store.now.box sums.new }
{
    let Some(value) = best else {
        return false;
    };
    let end = better_end(program, store, sums);
    is_no_better(program.direction(), end, Wide { value })
}

/// Whether a reason closes the box of a store, by what is kept of it.
#[tactic(auto, using(crate::proofs::Judging::against_any, crate::proofs::Judging::by_bound))]
pub(crate) fn closes_by_sums(
    program: &Program,
    reason: Reason,
    store: &BoxStore,
    best: Option<i128>,
    sums: &mut Sums,
) -> bool
    requires made { IsMade program.now }
    requires inside { Inside store.now.box (box_problem_of program.now).root }
    requires in_step { KeepsSums program.now store.now.box sums.old }
    ensures closes { result ≡ (box_problem_of program.now).refutes reason store.now.box best }
    ensures in_step { KeepsSums program.now store.now.box sums.new }
{
    match reason {
        Reason::Chance { instance } => chance_closes(program, instance, store, sums),
        Reason::Bound => bound_closes(program, store, best, sums),
        _ => closes(program, reason, store, best),
    }
}

/// Which values are better.
#[tactic(auto, using(term_program::proofs::Lawful::direction_is))]
pub(crate) fn direction_of(program: &Program) -> Direction
    ensures direction { result ≡ (box_problem_of program.now).direction }
{
    program.direction()
}
