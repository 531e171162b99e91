//! The last line of a log, and the verdict.

ghost use Rattle.std.specs.Prelude.{◌≡◌, ◌<◌, [], length};
ghost use Rattle.std.specs.Bool.{Decides};
ghost use Rattle.log_tree.specs.ReadingLaws.{NoneTooDeep};
ghost use Rattle.log_check.specs.Footers.{FooterHolds, HoldsBound, HoldsFound, HoldsNone};
ghost use Rattle.log_check.specs.Verdicts.{IsVerdict, first_line};
ghost use Rattle.log_check.specs.Views.{IsLogView, checked_problem};
ghost use Rattle.log_check.specs.Walks.{WalkStands};

use crate::judge::direction_of;
use crate::tally::Tally;
use crate::verdict::Verdict;
use crate::view::LogView;
use crate::walk::WrongLine;
use log_rows::Footer;
use sopl_base::{Direction, Wide, better};

/// Whether a bound is right where no value is claimed.
#[tactic(auto, using(crate::proofs::Footers::none_holds))]
fn bounds_none(tally: &Tally) -> bool
    ensures holds { Decides result (HoldsNone tally.now) }
{
    tally.touched & !tally.passed
}

/// Whether a value is not better than a bound, and whether it is the bound.
#[tactic(auto, using(crate::proofs::Footers::found_passed, crate::proofs::Footers::found_better, crate::proofs::Footers::found_unreached, crate::proofs::Footers::found_touched, crate::proofs::Footers::found_same))]
fn bounds_found(direction: Direction, found: &Wide, bound: &Wide, tally: &Tally) -> bool
    ensures holds { Decides result (HoldsFound direction found.now.value bound.now.value tally.now) }
{
    if tally.passed {
        return false;
    }
    if !tally.reached {
        return false;
    }
    if better(direction, found.value, bound.value) {
        return false;
    }
    if tally.touched {
        return true;
    }
    found.value == bound.value
}

/// Whether a bound is right.
fn is_right_bound(direction: Direction, found: &Option<i128>, bound: &Wide, tally: &Tally) -> bool
    ensures holds { Decides result (HoldsBound direction found.now bound.now.value tally.now) }
{
    match found {
        Some(value) => bounds_found(direction, &Wide { value: *value }, bound, tally),
        None => bounds_none(tally),
    }
}

/// Whether the last line is right, by what the rows add to it.
#[tactic(auto, using(crate::proofs::Footers::flag_holds, crate::proofs::Footers::nothing_holds))]
fn is_right_footer(direction: Direction, footer: &Footer, tally: &Tally) -> bool
    ensures holds { Decides result (FooterHolds direction footer.now tally.now) }
{
    match footer {
        Footer::Optimal(_) => tally.reached,
        Footer::Infeasible => true,
        Footer::Bounded(found, bound) => {
            is_right_bound(direction, found, &Wide { value: *bound }, tally)
        }
    }
}

/// The number of the last line.
fn footer_line(view: &LogView<'_>) -> u64
    requires ready { IsLogView view.now }
    requires at_least_one { 0 < length view.now.rows.now }
    ensures line { result ≡ first_line view.now.rows.now (length view.now.rows.now) }
{
    let last = view.rows.len() - 1;
    let steps = view.rows[last].steps.as_slice();
    view.sides[last].line + 2 + steps.len() as u64
}

/// The verdict behind all rows.
#[tactic(auto, using(crate::proofs::Footers::first_wrong_row, crate::proofs::Footers::is_accepted, crate::proofs::Footers::wrong_footer))]
pub(crate) fn verdict_of(view: &LogView<'_>, least: Option<WrongLine>, tally: &Tally) -> Verdict
    requires ready { IsLogView view.now }
    requires at_least_one { 0 < length view.now.rows.now }
    requires shallow { NoneTooDeep view.now.rows.now }
    requires stands { WalkStands (checked_problem view.now) view.now.rows.now view.now.footer.now [] least tally.now }
    ensures verdict { IsVerdict (checked_problem view.now) view.now.rows.now view.now.footer.now result }
{
    if let Some(wrong) = least {
        return Verdict::Rejected {
            node: wrong.node,
            line: wrong.line,
        };
    }
    if is_right_footer(direction_of(view.program), view.footer, tally) {
        return Verdict::Accepted;
    }
    Verdict::Rejected {
        node: view.rows.len() as u64,
        line: footer_line(view),
    }
}
