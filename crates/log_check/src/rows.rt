//! Whether a row is right.

ghost use Rattle.std.specs.Prelude.{◌≡◌, ◌+◌, ◌<◌, ◌≤◌, length, IfSome, IfNone};
ghost use Rattle.box_problem.specs.Box.{Inside};
ghost use Rattle.log_rows.specs.Rows.{row_at};
ghost use Rattle.log_rows.specs.declared.rows.EndLine.TheVariants.{Refuted, Split, Point, Unfinished};
ghost use Rattle.log_check.specs.Judged.{IsEndJudged, IsRightHere};
ghost use Rattle.log_check.specs.KeptSums.{KeepsSums};
ghost use Rattle.log_check.specs.Views.{IsLogView, checked_problem};
ghost use Rattle.log_check.specs.Walks.{IsWrongHere};

use crate::ends::{is_right_open, point_value, splits};
use crate::judge::{better_end, closes_by_sums, direction_of};
use crate::steps::first_bad;
use crate::sums::Sums;
use crate::tally::{Tally, claimed};
use crate::view::LogView;
use box_store::BoxStore;
use log_rows::{Cut, EndLine};
use sopl_base::Reason;

/// What is kept behind a node that a reason closes, where that is right.
#[tactic(auto, using(crate::proofs::Ending::refuted_right, crate::proofs::Ending::refuted_wrong))]
fn judge_refuted(
    view: &LogView<'_>,
    at: usize,
    reason: Reason,
    store: &BoxStore,
    tally: &Tally,
    sums: &mut Sums,
) -> Option<Tally>
    requires ready { IsLogView view.now }
    requires exists { at < length view.now.rows.now }
    requires end { (row_at view.now.rows.now at).end ≡ Refuted reason }
    requires inside { Inside store.now.box (checked_problem view.now).root }
    requires in_step { KeepsSums view.now.program.now store.now.box sums.old }
    ensures judged { IsEndJudged (checked_problem view.now) view.now.rows.now view.now.footer.now at store.now.box tally.now result }
    ensures in_step { KeepsSums view.now.program.now store.now.box sums.new }
{
    if closes_by_sums(view.program, reason, store, claimed(view.footer), sums) {
        Some(*tally)
    } else {
        None
    }
}

/// What is kept behind a node that is split, where that is right.
#[tactic(auto, using(crate::proofs::Ending::split_right, crate::proofs::Ending::split_wrong))]
fn judge_split(
    view: &LogView<'_>,
    at: usize,
    cut: &Cut,
    store: &BoxStore,
    tally: &Tally,
) -> Option<Tally>
    requires ready { IsLogView view.now }
    requires exists { at < length view.now.rows.now }
    requires end { (row_at view.now.rows.now at).end ≡ Split cut.now }
    ensures judged { IsEndJudged (checked_problem view.now) view.now.rows.now view.now.footer.now at store.now.box tally.now result }
{
    if splits(cut, &view.sides[at], store) {
        Some(*tally)
    } else {
        None
    }
}

/// What is kept behind a point, where it is right.
#[tactic(auto, using(crate::proofs::Ending::point_right, crate::proofs::Ending::point_wrong))]
fn judge_point(
    view: &LogView<'_>,
    at: usize,
    store: &BoxStore,
    tally: &Tally,
    sums: &mut Sums,
) -> Option<Tally>
    requires ready { IsLogView view.now }
    requires exists { at < length view.now.rows.now }
    requires end { (row_at view.now.rows.now at).end ≡ Point }
    requires inside { Inside store.now.box (checked_problem view.now).root }
    requires in_step { KeepsSums view.now.program.now store.now.box sums.old }
    ensures judged { IsEndJudged (checked_problem view.now) view.now.rows.now view.now.footer.now at store.now.box tally.now result }
    ensures in_step { KeepsSums view.now.program.now store.now.box sums.new }
{
    match point_value(view.program, view.footer, store, sums) {
        Some(value) => Some(tally.with_point(view.footer, &value)),
        None => None,
    }
}

/// What is kept behind a node that is not finished, where that is right.
#[tactic(auto, using(crate::proofs::Ending::open_right, crate::proofs::Ending::open_wrong))]
fn judge_open(
    view: &LogView<'_>,
    at: usize,
    store: &BoxStore,
    tally: &Tally,
    sums: &mut Sums,
) -> Option<Tally>
    requires ready { IsLogView view.now }
    requires exists { at < length view.now.rows.now }
    requires end { (row_at view.now.rows.now at).end ≡ Unfinished }
    requires inside { Inside store.now.box (checked_problem view.now).root }
    requires in_step { KeepsSums view.now.program.now store.now.box sums.old }
    ensures judged { IsEndJudged (checked_problem view.now) view.now.rows.now view.now.footer.now at store.now.box tally.now result }
    ensures in_step { KeepsSums view.now.program.now store.now.box sums.new }
{
    if !is_right_open(view.program, view.footer, store, sums) {
        return None;
    }
    let end = better_end(view.program, store, sums);
    Some(tally.with_open(view.footer, direction_of(view.program), &end))
}

/// What is kept behind a row's end, where it is right.
fn judge_end(
    view: &LogView<'_>,
    at: usize,
    store: &BoxStore,
    tally: &Tally,
    sums: &mut Sums,
) -> Option<Tally>
    requires ready { IsLogView view.now }
    requires exists { at < length view.now.rows.now }
    requires inside { Inside store.now.box (checked_problem view.now).root }
    requires in_step { KeepsSums view.now.program.now store.now.box sums.old }
    ensures judged { IsEndJudged (checked_problem view.now) view.now.rows.now view.now.footer.now at store.now.box tally.now result }
    ensures in_step { KeepsSums view.now.program.now store.now.box sums.new }
{
    match &view.rows[at].end {
        EndLine::Refuted(reason) => judge_refuted(view, at, *reason, store, tally, sums),
        EndLine::Split(cut) => judge_split(view, at, cut, store, tally),
        EndLine::Point => judge_point(view, at, store, tally, sums),
        EndLine::Unfinished => judge_open(view, at, store, tally, sums),
    }
}

/// Judges a row that begins with the box of a store, which then is the box behind its steps, where the row is right. Its first wrong line,
/// if it has one.
pub(crate) fn judge_row(
    view: &LogView<'_>,
    at: usize,
    store: &mut BoxStore,
    tally: &mut Tally,
    sums: &mut Sums,
) -> Option<u64>
    requires ready { IsLogView view.now }
    requires exists { at < length view.now.rows.now }
    requires inside { Inside store.old.box (checked_problem view.now).root }
    requires room { 1 + length (row_at view.now.rows.now at).steps ≤ store.old.spare }
    requires in_step { KeepsSums view.now.program.now store.old.box sums.old }
    ensures right { IfNone result (IsRightHere (checked_problem view.now) view.now.rows.now view.now.footer.now at store.old.box
        store.new.box tally.old tally.new) }
    ensures wrong { IfSome result (IsWrongHere (checked_problem view.now) view.now.rows.now view.now.footer.now at store.old.box) }
    ensures same_tally { IfSome result (λ line. tally.new ≡ tally.old) }
    ensures marks { store.new.marks ≡ store.old.marks }
    ensures room { store.old.spare ≤ store.new.spare + length (row_at view.now.rows.now at).steps }
    ensures in_step { KeepsSums view.now.program.now store.new.box sums.new }
{
    let row = &view.rows[at];
    let steps = row.steps.as_slice();
    let line = view.sides[at].line + 1;
    if let Some(bad) = first_bad(view.program, steps, store, claimed(view.footer), sums) {
        return Some(line + bad as u64);
    }
    match judge_end(view, at, store, tally, sums) {
        Some(kept) => {
            *tally = kept;
            None
        }
        None => Some(line + steps.len() as u64),
    }
}
