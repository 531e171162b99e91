//! That the numbers of what was read fit their types.

ghost use Rattle.std.specs.Prelude.{◌<◌, ◌^◌, FitsSigned};
ghost use Rattle.std.specs.Int.{w128};
ghost use Rattle.log_rows.specs.Ranges.{ReasonFits, StepFits, CutFits, EndFits, ParentFits, FoundFits, FooterFits};
ghost use Rattle.log_tree.specs.LineOf.{HeadingFits};

use crate::reading::Heading;
use log_rows::{Cut, EndLine, Footer, Parent};
use sopl_base::{Reason, Step};

/// A number of 32 bits is below 2^32.
fn number_fits(_number: u32)
    ensures { _number < 2 ^ 32 }
{}

/// A number of 128 bits with its sign has so many.
fn wide_fits(_number: i128)
    ensures { FitsSigned w128 _number }
{}

fn reason_fits(reason: &Reason)
    ensures { ReasonFits reason.now }
{
    match *reason {
        Reason::Hard { instance, scenario } => {
            number_fits(instance);
            number_fits(scenario);
        }
        Reason::Chance { instance } => number_fits(instance),
        Reason::Undefined { scenario } => number_fits(scenario),
        Reason::Bound => (),
    }
}

pub(crate) fn step_fits(step: &Step)
    ensures { StepFits step.now }
{
    reason_fits(&step.reason);
    let _cell = step.cell;
    let _k = step.k;
}

fn cut_fits(cut: &Cut)
    ensures { CutFits cut.now }
{
    let _cell = cut.cell;
    let _k = cut.k;
}

pub(crate) fn end_fits(end: &EndLine)
    ensures { EndFits end.now }
{
    match end {
        EndLine::Refuted(reason) => reason_fits(reason),
        EndLine::Split(cut) => cut_fits(cut),
        EndLine::Point => (),
        EndLine::Unfinished => (),
    }
}

fn split_fits(parent: &Parent)
    ensures { parent.now.node < 2 ^ 64 }
{
    let _node = parent.node;
}

pub(crate) fn parent_fits(parent: &Option<Parent>)
    ensures { ParentFits parent.now }
{
    match parent {
        None => (),
        Some(split) => split_fits(split),
    }
}

pub(crate) fn heading_fits(heading: &Heading)
    ensures { HeadingFits heading.now }
{
    parent_fits(&heading.parent);
    let _number = heading.number;
}

fn found_fits(found: &Option<i128>)
    ensures { FoundFits found.now }
{
    match *found {
        None => (),
        Some(value) => wide_fits(value),
    }
}

pub(crate) fn footer_fits(footer: &Footer)
    ensures { FooterFits footer.now }
{
    match footer {
        Footer::Optimal(value) => wide_fits(*value),
        Footer::Infeasible => (),
        Footer::Bounded(found, bound) => {
            found_fits(found);
            wide_fits(*bound);
        }
    }
}
