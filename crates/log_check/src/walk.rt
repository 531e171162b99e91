//! A walk along the rows of a log, depth first and low sides first, with the box of each row.

ghost use Rattle.std.specs.Prelude.{◌≡◌, ◌+◌, ◌<◌, ◌≤◌, ◌∷◌, [], None, Some, true, drop, length, reverse, vec_capacity};
ghost use Rattle.sopl_base.specs.declared.reason.Side.TheVariants.{Le};
ghost use Rattle.box_problem.specs.Box.{Inside};
ghost use Rattle.box_problem.specs.Steps.{IsCut, cut_away, narrowed};
ghost use Rattle.log_rows.specs.Accepted.{RightEnd};
ghost use Rattle.log_rows.specs.Rows.{row_at};
ghost use Rattle.box_store.specs.Store.{IsUndone};
ghost use Rattle.term_program.specs.declared.program.Program.{Program as Stated};
ghost use Rattle.log_check.specs.Judged.{no_tally};
ghost use Rattle.log_check.specs.KeptSums.{KeepsSums, SumsFollow};
ghost use Rattle.log_check.specs.Views.{IsLogView, checked_problem};
ghost use Rattle.log_check.specs.Walks as walks;
ghost use Rattle.log_check.specs.Walks.{lines_of};
ghost use Rattle.log_check.specs.Waiting as waits;

use crate::rows::judge_row;
use crate::sums::Sums;
use crate::tally::Tally;
use crate::view::LogView;
use box_store::BoxStore;
use log_rows::{Cut, EndLine, Row};
use sopl_base::Side;

/// A line that is not right, and its node.
#[derive(Clone, Copy)]
pub(crate) struct WrongLine {
    pub(crate) node: u64,
    pub(crate) line: u64,
}

/// The high side of a row, while it waits, and the cut of that row.
#[derive(Clone, Copy)]
pub(crate) struct WaitingSide {
    pub(crate) row: usize,
    pub(crate) cut: Cut,
}

/// The row at hand with its box and the sums over it, the high sides that wait, the first wrong line that was found, and what the rows add
/// to the last line. Each side that waits has a mark of the store at the box of the row that was split; below these marks is one at the box
/// of the root.
#[derive(Drop)]
pub(crate) struct Walk {
    pub(crate) store: BoxStore,
    pub(crate) sums: Sums,
    pub(crate) at: usize,
    pub(crate) later: Vec<WaitingSide>,
    pub(crate) least: Option<WrongLine>,
    pub(crate) tally: Tally,
}

/// The earlier one of a wrong line and the one that was found before, if any.
fn earlier_line(found: Option<WrongLine>, new: WrongLine) -> WrongLine
    ensures earlier_line { result ≡ walks.earlier_line found new }
{
    match found {
        Some(least) => { if new.line < least.line { new } else { least } }
        None => new,
    }
}

/// Where a row is split, if it is.
fn split_of(row: &Row) -> Option<Cut>
    ensures cut { result ≡ waits.cut_in row.now.end }
{
    match &row.end {
        EndLine::Split(cut) => Some(*cut),
        _ => None,
    }
}

/// Narrows the box of a store to the low side of a cut.
fn take_low(store: &mut BoxStore, cut: &Cut, sums: &mut Sums)
    requires room { 1 ≤ store.old.spare }
    requires cut { IsCut store.old.box cut.now.cell Le cut.now.k }
    ensures half { store.new.box ≡ narrowed store.old.box cut.now.cell Le cut.now.k }
    ensures same_marks { store.new.marks ≡ store.old.marks }
    ensures spare { store.new.spare + 1 ≡ store.old.spare }
    ensures follow { SumsFollow store.old.box store.new.box sums.old sums.new }
{
    store.tighten(cut.cell, Side::Le, cut.k);
    sums.tell(cut.cell);
}

/// Narrows the box of a store to the high side of a cut.
#[tactic(auto, using(box_problem::proofs::Shared::high_cut))]
fn take_high(store: &mut BoxStore, cut: &Cut, sums: &mut Sums)
    requires room { 1 ≤ store.old.spare }
    requires cut { IsCut store.old.box cut.now.cell Le cut.now.k }
    ensures half { store.new.box ≡ cut_away store.old.box cut.now.cell Le cut.now.k }
    ensures same_marks { store.new.marks ≡ store.old.marks }
    ensures spare { store.new.spare + 1 ≡ store.old.spare }
    ensures follow { SumsFollow store.old.box store.new.box sums.old sums.new }
{
    let _high = store.hi(cut.cell);
    store.tighten(cut.cell, Side::Ge, cut.k + 1);
    sums.tell(cut.cell);
}

/// Goes back to the box at the newest mark of a store.
fn go_back(store: &mut BoxStore, sums: &mut Sums)
    requires marked { 0 < length store.old.marks }
    ensures undone { IsUndone store.old.marks store.new }
    ensures follow { SumsFollow store.old.box store.new.box sums.old sums.new }
{
    sums.tell_all(store.changed());
    store.undo();
}

impl Walk {
    /// Takes the low side of a cut as the next row, and lets the high one wait.
    fn split(&mut self, low: usize, high: usize, cut: &Cut)
        requires cut { IsCut self.old.store.box cut.now.cell Le cut.now.k }
        requires room { 2 ≤ self.old.store.spare }
        requires place { length self.old.later.items < vec_capacity self.old.later }
        ensures at { self.new.at ≡ low }
        ensures later { reverse self.new.later.items ≡ (record { row = high; cut = cut.now }) ∷ reverse self.old.later.items }
        ensures capacity { vec_capacity self.new.later ≡ vec_capacity self.old.later }
        ensures half { self.new.store.box ≡ narrowed self.old.store.box cut.now.cell Le cut.now.k }
        ensures marks { self.new.store.marks ≡ (record { box = self.old.store.box; spare = self.old.store.spare }) ∷ self.old.store.marks }
        ensures spare { self.new.store.spare + 2 ≡ self.old.store.spare }
        ensures same_least { self.new.least ≡ self.old.least }
        ensures same_tally { self.new.tally ≡ self.old.tally }
        ensures follow { SumsFollow self.old.store.box self.new.store.box self.old.sums self.new.sums }
    {
        self.later.push_reserved(WaitingSide {
            row: high,
            cut: *cut,
        });
        self.store.mark();
        take_low(&mut self.store, cut, &mut self.sums);
        self.at = low;
    }

    /// Takes the newest of the sides that wait as the next row; whether there is one.
    #[tactic(auto, using(crate::proofs::Waiting::next_none, crate::proofs::Waiting::next_some, crate::proofs::Waiting::is_marked, crate::proofs::Waiting::undone_cut, crate::proofs::Waiting::undone_room))]
    fn next(&mut self) -> bool
        requires cuts { waits.AllCut (reverse self.old.later.items) self.old.store.marks }
        ensures next { waits.TakesNext (reverse self.old.later.items) self.old.store.marks result self.new }
        ensures capacity { vec_capacity self.new.later ≡ vec_capacity self.old.later }
        ensures same_least { self.new.least ≡ self.old.least }
        ensures same_tally { self.new.tally ≡ self.old.tally }
        ensures follow { SumsFollow self.old.store.box self.new.store.box self.old.sums self.new.sums }
    {
        let Some(side) = self.later.pop() else {
            return false;
        };
        go_back(&mut self.store, &mut self.sums);
        take_high(&mut self.store, &side.cut, &mut self.sums);
        self.at = side.row;
        true
    }

    /// Goes on behind a row that is right: to its low side, where it is split, or else to a side that waits; whether there is one.
    fn go_on(&mut self, view: &LogView<'_>) -> bool
        requires ready { IsLogView view.now }
        requires exists { self.old.at < length view.now.rows.now }
        requires right { RightEnd (checked_problem view.now) view.now.footer.now self.old.store.box view.now.rows.now self.old.at
            (row_at view.now.rows.now self.old.at).end }
        requires room { 2 + lines_of (drop (self.old.at + 1) view.now.rows.now) ≤ self.old.store.spare }
        requires place { length self.old.later.items ≤ self.old.at }
        requires waits { waits.WaitsWell view.now.rows.now self.old }
        ensures gone { waits.HasGone view.now.rows.now self.old result self.new }
        ensures follow { SumsFollow self.old.store.box self.new.store.box self.old.sums self.new.sums }
    {
        let Some(cut) = split_of(&view.rows[self.at]) else {
            return self.next();
        };
        let both = view.sides[self.at];
        let Some(low) = both.low else { unreachable!() };
        let Some(high) = both.high else {
            unreachable!()
        };
        self.split(low, high, &cut);
        true
    }

    /// Keeps a wrong line of the row at hand, and goes on to a side that waits; whether there is one.
    fn found(&mut self, line: u64) -> bool
        requires cuts { waits.AllCut (reverse self.old.later.items) self.old.store.marks }
        ensures next { waits.TakesNext (reverse self.old.later.items) self.old.store.marks result self.new }
        ensures capacity { vec_capacity self.new.later ≡ vec_capacity self.old.later }
        ensures least { self.new.least ≡ Some (walks.earlier_line self.old.least (record { node = self.old.at; line = line })) }
        ensures same_tally { self.new.tally ≡ self.old.tally }
        ensures follow { SumsFollow self.old.store.box self.new.store.box self.old.sums self.new.sums }
    {
        let new = WrongLine {
            node: self.at as u64,
            line,
        };
        self.least = Some(earlier_line(self.least, new));
        self.next()
    }

    /// Looks at the row at hand; whether there is another one.
    fn step(&mut self, view: &LogView<'_>) -> bool
        requires ready { IsLogView view.now }
        requires exists { self.old.at < length view.now.rows.now }
        requires inside { Inside self.old.store.box (checked_problem view.now).root }
        requires fits { waits.HasRoomHere view.now.rows.now self.old }
        requires waits { waits.WaitsWell view.now.rows.now self.old }
        requires in_step { KeepsSums view.now.program.now self.old.store.box self.old.sums }
        ensures stepped { waits.HasStepped view.now self.old result self.new }
        ensures in_step { KeepsSums view.now.program.now self.new.store.box self.new.sums }
    {
        let wrong = judge_row(
            view,
            self.at,
            &mut self.store,
            &mut self.tally,
            &mut self.sums,
        );
        match wrong {
            Some(line) => self.found(line),
            None => self.go_on(view),
        }
    }

    /// Looks at all rows, from the root on.
    pub(crate) fn walk_along(&mut self, view: &LogView<'_>)
        requires ready { IsLogView view.now }
        requires stands { walks.WalkStands (checked_problem view.now) view.now.rows.now view.now.footer.now (waits.before_it true self.old)
            self.old.least self.old.tally }
        requires fits { waits.HasRoomHere view.now.rows.now self.old }
        requires waits { waits.WaitsWell view.now.rows.now self.old }
        requires in_step { KeepsSums view.now.program.now self.old.store.box self.old.sums }
        ensures stands { walks.WalkStands (checked_problem view.now) view.now.rows.now view.now.footer.now [] self.new.least
            self.new.tally }
        ensures waits { waits.WaitsWell view.now.rows.now self.new }
        ensures none { self.new.later.items ≡ [] }
        ensures capacity { vec_capacity self.new.later ≡ vec_capacity self.old.later }
        ensures oldest { waits.oldest self.new.store.marks ≡ waits.oldest self.old.store.marks }
        ensures in_step { KeepsSums view.now.program.now self.new.store.box self.new.sums }
    {
        let mut more = true;
        'rows: while more {
            more = self.step(view);
        }
    }

    /// Begins with the root, at whose box it sets a mark; nothing is seen.
    pub(crate) fn begin(&mut self)
        requires room { 1 ≤ self.old.store.spare }
        requires cells { length self.old.sums.changes.last.items ≡ length self.old.store.box.lows }
        ensures at { self.new.at ≡ 0 }
        ensures same_store { self.new.store.box ≡ self.old.store.box }
        ensures marks { self.new.store.marks ≡ (record { box = self.old.store.box; spare = self.old.store.spare }) ∷ self.old.store.marks }
        ensures spare { self.new.store.spare + 1 ≡ self.old.store.spare }
        ensures same_later { self.new.later ≡ self.old.later }
        ensures least { self.new.least ≡ None }
        ensures tally { self.new.tally ≡ no_tally }
        ensures in_step { (program : Stated) → KeepsSums program self.new.store.box self.new.sums }
    {
        self.store.mark();
        self.sums.forget();
        self.at = 0;
        self.least = None;
        self.tally = Tally::none();
    }

    /// Goes back to the box at the newest mark.
    pub(crate) fn end(&mut self)
        requires marked { 0 < length self.old.store.marks }
        ensures undone { IsUndone self.old.store.marks self.new.store }
        ensures same_later { self.new.later ≡ self.old.later }
        ensures follow { SumsFollow self.old.store.box self.new.store.box self.old.sums self.new.sums }
    {
        go_back(&mut self.store, &mut self.sums);
    }
}
