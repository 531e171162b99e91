//! The lines of a log: what each of them is the line of, if it is one.

ghost use Rattle.std.specs.Prelude.{◌≡◌, option_map};
ghost use Rattle.std.specs.Str.{bytes_eq};
ghost use Rattle.log_rows.specs.Lines.{step_line, end_line, footer_line};
ghost use Rattle.log_rows.specs.Ranges.{StepFits, EndFits, FooterFits};
ghost use Rattle.log_tree.specs.LineOf.{IsLineOf, HeadingFits, heading_line};

use crate::fitting::{end_fits, footer_fits, heading_fits, step_fits};
use crate::reading::{Heading, end_read, footer_read, heading_read, step_read};
use log_rows::{EndLine, Footer, Line, add_end, add_footer, add_parent, add_step};
use sopl_base::Step;

/// Whether this is the line of a step.
fn is_step(step: &Step, line: &[u8]) -> bool
    ensures { result ≡ bytes_eq (step_line step.now) line.now }
{
    let mut written = Line::new();
    add_step(&mut written, step);
    written.as_bytes() == line
}

/// The step of which this is the line, if it is one.
#[tactic(auto, using(crate::proofs::Told::step_told, crate::proofs::Told::step_other, crate::proofs::Told::step_none))]
pub(crate) fn step_in(line: &[u8]) -> Option<Step>
    ensures { IsLineOf StepFits step_line line.now result }
{
    let step = step_read(line)?;
    step_fits(&step);
    if is_step(&step, line) {
        Some(step)
    } else {
        None
    }
}

/// Whether this is the line of an end.
fn is_end(end: &EndLine, line: &[u8]) -> bool
    ensures { result ≡ bytes_eq (end_line end.now) line.now }
{
    let mut written = Line::new();
    add_end(&mut written, end);
    written.as_bytes() == line
}

/// The end of which this is the line, if it is one.
#[tactic(auto, using(crate::proofs::Told::end_told, crate::proofs::Told::end_other, crate::proofs::Told::end_none))]
pub(crate) fn end_in(line: &[u8]) -> Option<EndLine>
    ensures { IsLineOf EndFits end_line line.now result }
{
    let Some(end) = end_read(line) else {
        return None;
    };
    end_fits(&end);
    if is_end(&end, line) { Some(end) } else { None }
}

/// Whether this is the line of a node.
fn is_heading(heading: &Heading, line: &[u8]) -> bool
    ensures { result ≡ bytes_eq (heading_line heading.now) line.now }
{
    let mut written = Line::new();
    written.text("n ");
    written.number(heading.number);
    add_parent(&mut written, heading.parent);
    written.as_bytes() == line
}

/// The node of which this is the line, if it is one.
#[tactic(auto, using(crate::proofs::Told::heading_told, crate::proofs::Told::heading_other, crate::proofs::Told::heading_none))]
pub(crate) fn heading_in(line: &[u8]) -> Option<Heading>
    ensures { IsLineOf HeadingFits heading_line line.now result }
{
    let Some(heading) = heading_read(line) else {
        return None;
    };
    heading_fits(&heading);
    if is_heading(&heading, line) {
        Some(heading)
    } else {
        None
    }
}

/// Whether this is the line of a claim.
fn is_footer(footer: &Footer, line: &[u8]) -> bool
    ensures { result ≡ bytes_eq (footer_line footer.now) line.now }
{
    let mut written = Line::new();
    add_footer(&mut written, footer);
    written.as_bytes() == line
}

/// The claim of which this is the line, if it is one.
#[tactic(auto, using(crate::proofs::Told::footer_told, crate::proofs::Told::footer_other, crate::proofs::Told::footer_none))]
pub(crate) fn footer_in(line: &[u8]) -> Option<Footer>
    ensures { IsLineOf FooterFits footer_line line.now result }
{
    let Some(footer) = footer_read(line) else {
        return None;
    };
    footer_fits(&footer);
    if is_footer(&footer, line) {
        Some(footer)
    } else {
        None
    }
}
