//! What a line is read as.

ghost use Rattle.std.specs.Prelude.{◌≡◌, option_map};
ghost use Rattle.log_tree.specs.Reading as spec;

use crate::numbers::{node_number, number, signed_in, wide_in};
use crate::words::{letter, rest, word};
use log_rows::{Cut, EndLine, Footer, Parent};
use sopl_base::{Reason, Side, Step};

/// The reason of two numbers.
fn hard_at(text: &[u8]) -> Option<Reason>
    ensures { result ≡ spec.hard_at text.now }
{
    let instance = number(word(text))?;
    let scenario = number(word(rest(text)))?;
    Some(Reason::Hard { instance, scenario })
}

/// The reason at the front of a text, by its letter and what stands behind that.
fn reason_by(letter: u8, text: &[u8]) -> Option<Reason>
    ensures { result ≡ spec.reason_by letter text.now }
{
    match letter {
        b'h' => hard_at(text),
        b'c' => {
            let instance = number(word(text))?;
            Some(Reason::Chance { instance })
        }
        b'u' => {
            let scenario = number(word(text))?;
            Some(Reason::Undefined { scenario })
        }
        _ => Some(Reason::Bound),
    }
}

/// What stands behind a reason, by its letter and what stands behind that.
fn behind_by(letter: u8, text: &[u8]) -> &[u8]
    ensures { result.now ≡ spec.behind_by letter text.now }
{
    match letter {
        b'h' => rest(rest(text)),
        b'c' => rest(text),
        b'u' => rest(text),
        _ => text,
    }
}

/// A side by the first letter of its word.
fn side_by(letter: u8) -> Side
    ensures { result ≡ spec.side_by letter }
{
    match letter {
        b'l' => Side::Le,
        _ => Side::Ge,
    }
}

/// A step of this reason, by what stands behind that.
fn step_from(reason: &Reason, text: &[u8]) -> Option<Step>
    ensures { result ≡ spec.step_from reason.now text.now }
{
    let cell = number(word(text))?;
    let left = rest(text);
    let side = side_by(letter(left));
    let k = signed_in(word(rest(left)))?;
    Some(Step {
        reason: *reason,
        cell,
        side,
        k: k.value,
    })
}

/// The step that a line is read as.
pub(crate) fn step_read(line: &[u8]) -> Option<Step>
    ensures { result ≡ spec.step_read line.now }
{
    let text = rest(line);
    let reason = reason_at(text)?;
    step_from(&reason, behind_by(letter(text), rest(text)))
}

/// The reason at the front of a text.
fn reason_at(text: &[u8]) -> Option<Reason>
    ensures { result ≡ spec.reason_at text.now }
{
    reason_by(letter(text), rest(text))
}

/// A split, by what stands behind the first word of its line.
fn cut_from(text: &[u8]) -> Option<Cut>
    ensures { result ≡ spec.cut_from text.now }
{
    let cell = number(word(text))?;
    let k = signed_in(word(rest(text)))?;
    Some(Cut { cell, k: k.value })
}

/// An end, by the first letter of its line and what stands behind the first word.
fn end_by(letter: u8, text: &[u8]) -> Option<EndLine>
    ensures { result ≡ spec.end_by letter text.now }
{
    match letter {
        b'f' => Some(EndLine::Refuted(reason_at(text)?)),
        b'x' => Some(EndLine::Split(cut_from(text)?)),
        b'v' => Some(EndLine::Point),
        b'o' => Some(EndLine::Unfinished),
        _ => None,
    }
}

/// The end that a line is read as.
pub(crate) fn end_read(line: &[u8]) -> Option<EndLine>
    ensures { result ≡ spec.end_read line.now }
{
    end_by(letter(line), rest(line))
}

/// A node's number, and the split that it is a part of, which the root has not.
#[derive(Clone, Copy)]
pub(crate) struct Heading {
    pub number: u64,
    pub parent: Option<Parent>,
}

/// The split that a node is a part of.
fn parent_from(text: &[u8]) -> Option<Parent>
    ensures { result ≡ spec.parent_from text.now }
{
    let node = node_number(word(text))?;
    let side = side_by(letter(rest(text)));
    Some(Parent { node, side })
}

/// A node of this number, by what stands behind it.
fn heading_from(number: u64, text: &[u8]) -> Option<Heading>
    ensures { result ≡ spec.heading_from number text.now }
{
    if letter(text) == b'r' {
        return Some(Heading {
            number,
            parent: None,
        });
    }
    let parent = Some(parent_from(text)?);
    Some(Heading { number, parent })
}

/// The node that a line is read as.
pub(crate) fn heading_read(line: &[u8]) -> Option<Heading>
    ensures { result ≡ spec.heading_read line.now }
{
    let text = rest(line);
    let number = node_number(word(text))?;
    heading_from(number, rest(text))
}

/// The value that was found, if any.
fn found_value_at(text: &[u8]) -> Option<Option<i128>>
    ensures { result ≡ spec.found_value_at text.now }
{
    if letter(text) == b'n' {
        return Some(None);
    }
    Some(Some(wide_in(word(text))?.value))
}

/// A claim of a bound.
fn bounded_from(text: &[u8]) -> Option<Footer>
    ensures { result ≡ spec.bounded_from text.now }
{
    let found = found_value_at(text)?;
    let bound = wide_in(word(rest(text)))?;
    Some(Footer::Bounded(found, bound.value))
}

/// A claim, by the first letter of its word and what stands behind that.
fn footer_by(letter: u8, text: &[u8]) -> Option<Footer>
    ensures { result ≡ spec.footer_by letter text.now }
{
    match letter {
        b'o' => Some(Footer::Optimal(wide_in(word(text))?.value)),
        b'i' => Some(Footer::Infeasible),
        _ => bounded_from(text),
    }
}

/// The claim that a line is read as.
pub(crate) fn footer_read(line: &[u8]) -> Option<Footer>
    ensures { result ≡ spec.footer_read line.now }
{
    let text = rest(line);
    footer_by(letter(text), rest(text))
}
