//! The steps of a row.

ghost use Rattle.std.specs.Prelude.{◌≡◌, ◌+◌, ◌<◌, ◌≤◌, length, IfSome, IfNone};
ghost use Rattle.std.specs.Bool.{Decides};
ghost use Rattle.sopl_base.specs.declared.reason.Side.TheVariants.{Ge, Le};
ghost use Rattle.box_problem.specs.Box.{Inside, low, high};
ghost use Rattle.box_problem.specs.Steps.{IsCut, after_step, after_steps, cut_away, removed};
ghost use Rattle.box_problem.specs.Rightness.{AllRight, IsRight};
ghost use Rattle.term_program.specs.Programs.{IsMade};
ghost use Rattle.term_program.specs.Stated.{box_problem_of};
ghost use Rattle.log_check.specs.Judged.{IsFirstBad, cuts_at, cuts_between};
ghost use Rattle.log_check.specs.KeptSums.{KeepsSums, SumsFollow};

use crate::judge::closes_by_sums;
use crate::sums::Sums;
use box_store::BoxStore;
use sopl_base::{Side, Step};
use term_program::Program;

/// Whether a step's number cuts the interval of its cell.
fn cuts(step: &Step, store: &BoxStore) -> bool
    requires exists { step.now.cell < length store.now.box.lows }
    ensures cuts { result ≡ cuts_between step.now.side (low store.now.box step.now.cell) step.now.k (high store.now.box step.now.cell) }
{
    let lo = store.lo(step.cell);
    let hi = store.hi(step.cell);
    match step.side {
        Side::Le => lo <= step.k && step.k < hi,
        Side::Ge => lo < step.k && step.k <= hi,
    }
}

/// Whether a step cuts the box of a store.
fn is_cut(step: &Step, store: &BoxStore) -> bool
    ensures cuts { result ≡ cuts_at store.now.box step.now.cell step.now.side step.now.k }
{
    if step.cell >= store.cells() {
        return false;
    }
    cuts(step, store)
}

/// Narrows the box of a store to what a step removes above its number.
#[tactic(auto, using(box_problem::proofs::Shared::high_cut))]
fn take_above(step: &Step, store: &mut BoxStore)
    requires room { 1 ≤ store.old.spare }
    requires cut { IsCut store.old.box step.now.cell Le step.now.k }
    ensures part { store.new.box ≡ cut_away store.old.box step.now.cell Le step.now.k }
    ensures marks { store.new.marks ≡ store.old.marks }
    ensures spare { store.new.spare + 1 ≡ store.old.spare }
{
    let _high = store.hi(step.cell);
    store.tighten(step.cell, Side::Ge, step.k + 1);
}

/// Narrows the box of a store to what a step removes below its number.
#[tactic(auto, using(crate::proofs::Judging::low_cut))]
fn take_below(step: &Step, store: &mut BoxStore)
    requires room { 1 ≤ store.old.spare }
    requires cut { IsCut store.old.box step.now.cell Ge step.now.k }
    ensures part { store.new.box ≡ cut_away store.old.box step.now.cell Ge step.now.k }
    ensures marks { store.new.marks ≡ store.old.marks }
    ensures spare { store.new.spare + 1 ≡ store.old.spare }
{
    let _low = store.lo(step.cell);
    store.tighten(step.cell, Side::Le, step.k - 1);
}

/// Narrows the box of a store to what a step removes.
#[tactic(auto, using(crate::proofs::Judging::same_cut, crate::proofs::Judging::removed_by))]
fn take_removed(step: &Step, store: &mut BoxStore)
    requires room { 1 ≤ store.old.spare }
    requires cut { IsCut store.old.box step.now.cell step.now.side step.now.k }
    ensures part { store.new.box ≡ removed store.old.box step.now }
    ensures marks { store.new.marks ≡ store.old.marks }
    ensures spare { store.new.spare + 1 ≡ store.old.spare }
{
    match step.side {
        Side::Le => take_above(step, store),
        Side::Ge => take_below(step, store),
    }
}

/// Whether a step's reason closes what the step removes of the box of a store, which is tried there: the box is narrowed to it, and set
/// back.
fn removes(
    program: &Program,
    step: &Step,
    store: &mut BoxStore,
    best: Option<i128>,
    sums: &mut Sums,
) -> bool
    requires made { IsMade program.now }
    requires inside { Inside store.old.box (box_problem_of program.now).root }
    requires cut { IsCut store.old.box step.now.cell step.now.side step.now.k }
    requires room { 2 ≤ store.old.spare }
    requires in_step { KeepsSums program.now store.old.box sums.old }
    ensures closes { result ≡ (box_problem_of program.now).refutes step.now.reason (removed store.old.box step.now) best }
    ensures same_box { store.new.box ≡ store.old.box }
    ensures marks { store.new.marks ≡ store.old.marks }
    ensures spare { store.old.spare ≤ store.new.spare }
    ensures in_step { KeepsSums program.now store.new.box sums.new }
{
    store.mark();
    take_removed(step, store);
    sums.tell(step.cell);
    let closed = closes_by_sums(program, step.reason, store, best, sums);
    store.undo();
    sums.tell(step.cell);
    closed
}

/// Whether a step is right.
#[tactic(auto, using(crate::proofs::Stepping::cut_tells, crate::proofs::Stepping::not_cut, crate::proofs::Stepping::right_where))]
fn is_right(
    program: &Program,
    step: &Step,
    store: &mut BoxStore,
    best: Option<i128>,
    sums: &mut Sums,
) -> bool
    requires made { IsMade program.now }
    requires inside { Inside store.old.box (box_problem_of program.now).root }
    requires room { 2 ≤ store.old.spare }
    requires in_step { KeepsSums program.now store.old.box sums.old }
    ensures right { Decides result (IsRight (box_problem_of program.now) best store.old.box step.now) }
    ensures same_box { store.new.box ≡ store.old.box }
    ensures marks { store.new.marks ≡ store.old.marks }
    ensures spare { store.old.spare ≤ store.new.spare }
    ensures in_step { KeepsSums program.now store.new.box sums.new }
{
    if !is_cut(step, store) {
        return false;
    }
    removes(program, step, store, best, sums)
}

/// Narrows the box of a store by a step.
fn apply(step: &Step, store: &mut BoxStore, sums: &mut Sums)
    requires room { 1 ≤ store.old.spare }
    requires cut { IsCut store.old.box step.now.cell step.now.side step.now.k }
    ensures narrowed { store.new.box ≡ after_step store.old.box step.now }
    ensures marks { store.new.marks ≡ store.old.marks }
    ensures spare { store.new.spare + 1 ≡ store.old.spare }
    ensures follow { SumsFollow store.old.box store.new.box sums.old sums.new }
{
    store.tighten(step.cell, step.side, step.k);
    sums.tell(step.cell);
}

/// Narrows the box of a store by steps, up to the first one that is not right; which one it is, if there is one.
#[tactic(auto, using(crate::proofs::Stepping::right_all, crate::proofs::Stepping::leads_all, crate::proofs::Stepping::first_bad_here))]
pub(crate) fn first_bad(
    program: &Program,
    steps: &[Step],
    store: &mut BoxStore,
    best: Option<i128>,
    sums: &mut Sums,
) -> Option<usize>
    requires made { IsMade program.now }
    requires inside { Inside store.old.box (box_problem_of program.now).root }
    requires room { 1 + length steps.now ≤ store.old.spare }
    requires in_step { KeepsSums program.now store.old.box sums.old }
    ensures right { IfNone result (AllRight (box_problem_of program.now) best store.old.box steps.now) }
    ensures leads { IfNone result (store.new.box ≡ after_steps store.old.box steps.now) }
    ensures inside { IfNone result (Inside store.new.box (box_problem_of program.now).root) }
    ensures wrong { IfSome result (IsFirstBad (box_problem_of program.now) best store.old.box steps.now) }
    ensures marks { store.new.marks ≡ store.old.marks }
    ensures room { store.old.spare ≤ store.new.spare + length steps.now }
    ensures in_step { KeepsSums program.now store.new.box sums.new }
{
    'steps: for at in 0..steps.len() {
        let step = &steps[at];
        if !is_right(program, step, store, best, sums) {
            return Some(at);
        }
        apply(step, store, sums);
    }
    None
}
