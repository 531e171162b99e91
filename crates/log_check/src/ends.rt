//! The end of a row.

ghost use Rattle.std.specs.Prelude.{◌≡◌, ◌&&◌, length, is_some, IfSome, IfNone};
ghost use Rattle.std.specs.Bool.{Decides};
ghost use Rattle.sopl_base.specs.declared.reason.Side.TheVariants.{Le};
ghost use Rattle.box_problem.specs.Box.{Inside, IsPoint};
ghost use Rattle.log_rows.specs.Accepted.{RightOpen};
ghost use Rattle.term_program.specs.Programs.{IsMade, problem_in};
ghost use Rattle.term_program.specs.Stated.{box_problem_of};
ghost use Rattle.log_check.specs.Judged.{IsWithinClaim, cuts_at};
ghost use Rattle.log_check.specs.Closing.{ChancesOpen, DefinedOpen, HardOpen, HardsOpen, IsClosing, IsPointOf, IsWrongPoint, NoneCloses};
ghost use Rattle.log_check.specs.KeptSums.{KeepsSums};

use crate::judge::{better_end, bound_closes, chance_closes, closes};
use crate::sides::Sides;
use crate::sums::Sums;
use crate::tally::claimed;
use box_store::BoxStore;
use log_rows::{Cut, Footer};
use sopl_base::{Direction, Reason, Wide, better};
use term_program::Program;

/// Whether a cut's number cuts the interval of its cell.
fn cuts(cut: &Cut, store: &BoxStore) -> bool
    ensures cuts { result ≡ cuts_at store.now.box cut.now.cell Le cut.now.k }
{
    if cut.cell >= store.cells() {
        return false;
    }
    store.lo(cut.cell) <= cut.k && cut.k < store.hi(cut.cell)
}

/// Whether a cut cuts the box of a store and has both its sides.
pub(crate) fn splits(cut: &Cut, sides: &Sides, store: &BoxStore) -> bool
    ensures splits { result ≡ (cuts_at store.now.box cut.now.cell Le cut.now.k && (is_some sides.now.low && is_some sides.now.high)) }
{
    if !cuts(cut, store) {
        return false;
    }
    sides.low.is_some() && sides.high.is_some()
}

/// Whether each cell of the box of a store has one value.
#[tactic(auto, using(crate::proofs::Points::one_none, crate::proofs::Points::one_more, crate::proofs::Points::all_one, crate::proofs::Points::not_one))]
fn is_point(store: &BoxStore) -> bool
    ensures point { Decides result (IsPoint store.now.box) }
{
    'cells: for cell in 0..store.cells() {
        if store.lo(cell) != store.hi(cell) {
            return false;
        }
    }
    true
}

/// A reason by which a hard constraint closes the box of a store, if there is one.
#[tactic(auto, using(crate::proofs::Points::hards_none, crate::proofs::Points::hards_more, crate::proofs::Points::hards_all, crate::proofs::Points::is_closing))]
fn hard_closing(program: &Program, instance: u32, store: &BoxStore) -> Option<Reason>
    requires made { IsMade program.now }
    requires inside { Inside store.now.box (box_problem_of program.now).root }
    ensures closed { IfSome result (IsClosing (box_problem_of program.now) store.now.box) }
    ensures open { IfNone result (HardOpen (box_problem_of program.now) store.now.box instance (length (problem_in program.now).weights)) }
{
    'scenarios: for scenario in 0..program.scenarios() {
        let reason = Reason::Hard { instance, scenario };
        if closes(program, reason, store, None) {
            return Some(reason);
        }
    }
    None
}

/// A reason by which some hard constraint closes the box of a store, if there is one.
#[tactic(auto, using(crate::proofs::Points::instances_none, crate::proofs::Points::instances_more, crate::proofs::Points::instances_all))]
fn any_hard_closing(program: &Program, store: &BoxStore) -> Option<Reason>
    requires made { IsMade program.now }
    requires inside { Inside store.now.box (box_problem_of program.now).root }
    ensures closed { IfSome result (IsClosing (box_problem_of program.now) store.now.box) }
    ensures open { IfNone result (HardsOpen (box_problem_of program.now) store.now.box (length (problem_in program.now).hards) (length (problem_in program.now).weights)) }
{
    'instances: for instance in 0..program.hards() {
        if let Some(reason) = hard_closing(program, instance, store) {
            return Some(reason);
        }
    }
    None
}

/// A reason by which some chance constraint closes the box of a store, if there is one.
#[tactic(auto, using(crate::proofs::Points::chances_none, crate::proofs::Points::chances_more, crate::proofs::Points::chances_all, crate::proofs::Points::is_closing))]
fn any_chance_closing(program: &Program, store: &BoxStore, sums: &mut Sums) -> Option<Reason>
    requires made { IsMade program.now }
    requires inside { Inside store.now.box (box_problem_of program.now).root }
    requires in_step { KeepsSums program.now store.now.box sums.old }
    ensures closed { IfSome result (IsClosing (box_problem_of program.now) store.now.box) }
    ensures open { IfNone result (ChancesOpen (box_problem_of program.now) store.now.box (length (problem_in program.now).chances)) }
    ensures in_step { KeepsSums program.now store.now.box sums.new }
{
    'instances: for instance in 0..program.chances() {
        if chance_closes(program, instance, store, sums) {
            return Some(Reason::Chance { instance });
        }
    }
    None
}

/// A reason by which the objective closes the box of a store where it is not defined, if there is one.
#[tactic(auto, using(crate::proofs::Points::defined_none, crate::proofs::Points::defined_more, crate::proofs::Points::defined_all, crate::proofs::Points::is_closing))]
fn any_undefined_closing(program: &Program, store: &BoxStore) -> Option<Reason>
    requires made { IsMade program.now }
    requires inside { Inside store.now.box (box_problem_of program.now).root }
    ensures closed { IfSome result (IsClosing (box_problem_of program.now) store.now.box) }
    ensures open { IfNone result (DefinedOpen (box_problem_of program.now) store.now.box (length (problem_in program.now).weights)) }
{
    'scenarios: for scenario in 0..program.scenarios() {
        let reason = Reason::Undefined { scenario };
        if closes(program, reason, store, None) {
            return Some(reason);
        }
    }
    None
}

/// A reason that closes the box of a store against no value, if there is one.
#[tactic(auto, using(crate::proofs::Points::none_closes))]
fn any_closing(program: &Program, store: &BoxStore, sums: &mut Sums) -> Option<Reason>
    requires made { IsMade program.now }
    requires inside { Inside store.now.box (box_problem_of program.now).root }
    requires in_step { KeepsSums program.now store.now.box sums.old }
    ensures closed { IfSome result (IsClosing (box_problem_of program.now) store.now.box) }
    ensures open { IfNone result (NoneCloses (box_problem_of program.now) store.now.box) }
    ensures in_step { KeepsSums program.now store.now.box sums.new }
{
    if let Some(reason) = any_hard_closing(program, store) {
        return Some(reason);
    }
    if let Some(reason) = any_chance_closing(program, store, sums) {
        return Some(reason);
    }
    any_undefined_closing(program, store)
}

/// Whether a value is not better than the one that is claimed to be reached.
#[tactic(auto, using(crate::proofs::Points::claim_none, crate::proofs::Points::claim_some))]
fn is_claimed(direction: Direction, claim: Option<i128>, end: &Wide) -> bool
    ensures claimed { Decides result (IsWithinClaim direction end.now.value claim) }
{
    match claim {
        Some(value) => !better(direction, end.value, value),
        None => false,
    }
}

/// The value of a point that is rightly told.
#[tactic(auto, using(crate::proofs::Points::no_point, crate::proofs::Points::not_satisfying, crate::proofs::Points::not_claimed, crate::proofs::Points::right_point))]
pub(crate) fn point_value(
    program: &Program,
    footer: &Footer,
    store: &BoxStore,
    sums: &mut Sums,
) -> Option<Wide>
    requires made { IsMade program.now }
    requires inside { Inside store.now.box (box_problem_of program.now).root }
    requires in_step { KeepsSums program.now store.now.box sums.old }
    ensures in_step { KeepsSums program.now store.now.box sums.new }
    ensures wrong { IfNone result (IsWrongPoint (box_problem_of program.now) footer.now store.now.box) }
    ensures right { IfSome result (λ end. IsPointOf (box_problem_of program.now) footer.now store.now.box end.value) }
{
    if !is_point(store) {
        return None;
    }
    if let Some(_reason) = any_closing(program, store, sums) {
        return None;
    }
    let end = better_end(program, store, sums);
    if !is_claimed(program.direction(), claimed(footer), &end) {
        return None;
    }
    Some(end)
}

/// Whether a node that is not finished is rightly told.
pub(crate) fn is_right_open(
    program: &Program,
    footer: &Footer,
    store: &BoxStore,
    sums: &mut Sums,
) -> bool
    requires made { IsMade program.now }
    requires inside { Inside store.now.box (box_problem_of program.now).root }
    requires in_step { KeepsSums program.now store.now.box sums.old }
    ensures in_step { KeepsSums program.now store.now.box sums.new }
    ensures right { Decides result (RightOpen (box_problem_of program.now) footer.now store.now.box) }
{
    match footer {
        Footer::Optimal(value) => bound_closes(program, store, Some(*value), sums),
        Footer::Infeasible => false,
        Footer::Bounded(_, _) => true,
    }
}
