//! A log, read from its text.

ghost use Rattle.std.specs.Prelude.{◌≡◌, ◌+◌, ◌<◌, ◌≤◌, ◌^◌, ◌∷◌, [], length, None, IfOk, IfErr};
ghost use Rattle.log_tree.specs.Cutting.{lines_in};
ghost use Rattle.log_tree.specs.Progress as spec;
ghost use Rattle.log_tree.specs.Reads.{IsNoStep, IsNoNode, ReadsFrom, IsReading, RefusedAs, read};
ghost use Rattle.log_tree.specs.Progress.{IsRowBody, RefusesBody, RefusesRows};

use crate::cutting::first_line;
use crate::growing::Growing;
use crate::lines::{end_in, footer_in, heading_in, step_in};
use crate::words::letter;
use log_rows::{EndLine, Footer, Row};
use sopl_base::{Fault, Steps, codes};
use std::alloc::Global;

/// The steps and the end of a row, and what stands behind them.
#[derive(Drop)]
pub(crate) struct RowBody<'a> {
    pub(crate) steps: Steps,
    pub(crate) end: EndLine,
    pub(crate) left: &'a [u8],
    pub(crate) number: usize,
}

/// The end of a row that has these steps.
#[tactic(auto, using(crate::proofs::Bodies::body_ended, crate::proofs::Bodies::body_stuck))]
fn ended<'a>(line: &[u8], steps: Steps, left: &'a [u8], number: usize) -> Result<RowBody<'a>, Fault>
    requires room { number + 1 < 2 ^ 64 }
    requires no_step { IsNoStep line.now }
    ensures ok { IfOk result (λ body. IsRowBody steps number (line.now ∷ lines_in left.now) body.steps body.end body.number (lines_in body.left.now)) }
    ensures err { IfErr result (RefusesBody steps number (line.now ∷ lines_in left.now)) }
    ensures number { IfOk result (λ body. body.number ≡ number + 1) }
    ensures left { IfOk result (λ body. length body.left.now ≡ length left.now) }
{
    let Some(end) = end_in(line) else {
        return Err(Fault::refused(codes::LOG_LINE, number));
    };
    Ok(RowBody {
        steps,
        end,
        left,
        number: number + 1,
    })
}

/// How many lines at the front begin as a step's line does: a row has no more steps.
fn steps_ahead(text: &[u8]) -> usize
    ensures { result ≡ spec.steps_ahead (lines_in text.now) }
{
    let mut left = text;
    let mut count = 0;
    'lines: while !left.is_empty() {
        let (line, behind) = first_line(left);
        if letter(line) != b's' {
            return count;
        }
        left = behind;
        count += 1;
    }
    count
}

/// The steps and the end of a row.
pub(crate) fn read_body<'a>(
    alloc: Global,
    text: &'a [u8],
    first: usize,
) -> Result<RowBody<'a>, Fault>
    requires room { first + length text.now < 2 ^ 64 }
    ensures ok { IfOk result (λ body. IsRowBody [] first (lines_in text.now) body.steps body.end body.number (lines_in body.left.now)) }
    ensures err { IfErr result (RefusesBody [] first (lines_in text.now)) }
    ensures room { IfOk result (λ body. body.number + length body.left.now ≤ first + length text.now) }
    ensures shorter { IfOk result (λ body. length body.left.now ≤ length text.now) }
{
    let mut steps = Steps::with_capacity(alloc, steps_ahead(text))?;
    let mut left = text;
    let mut number = first;
    'lines: while !left.is_empty() {
        let (line, behind) = first_line(left);
        let Some(step) = step_in(line) else {
            return ended(line, steps, behind, number);
        };
        steps.push(step)?;
        left = behind;
        number += 1;
    }
    Err(Fault::refused(codes::LOG_LINE, number))
}

/// What was read of a log.
#[derive(Drop)]
pub struct Log {
    pub rows: Vec<Row>,
    pub footer: Footer,
}

/// The log of these rows with the claim of a line, behind which nothing is left.
#[tactic(auto, using(crate::proofs::Claims::claim_read, crate::proofs::Claims::claim_long, crate::proofs::Claims::claim_none, crate::proofs::Claims::claim_early))]
fn claimed(growing: Growing, line: &[u8], left: &[u8], number: usize) -> Result<Log, Fault>
    requires room { number + 1 < 2 ^ 64 }
    requires no_node { IsNoNode line.now }
    ensures rows { IfOk result (λ log. log.rows ≡ growing.rows) }
    ensures ok { IfOk result (λ log. ReadsFrom growing.rows.items None number (line.now ∷ lines_in left.now) (read growing.rows.items log.footer)) }
    ensures err { IfErr result (RefusesRows growing.rows.items number (line.now ∷ lines_in left.now)) }
{
    if growing.rows.is_empty() {
        return Err(Fault::refused(codes::LOG_LINE, number));
    }
    let Some(footer) = footer_in(line) else {
        return Err(Fault::refused(codes::LOG_LINE, number));
    };
    if !left.is_empty() {
        return Err(Fault::refused(codes::LOG_LINE, number + 1));
    }
    Ok(Log {
        rows: growing.rows,
        footer,
    })
}

/// The rows and the claim of a text behind its first line.
fn read_rows(alloc: Global, text: &[u8]) -> Result<Log, Fault>
    requires room { 2 + length text.now < 2 ^ 64 }
    ensures ok { IfOk result (λ log. ReadsFrom [] None 2 (lines_in text.now) (read log.rows.items log.footer)) }
    ensures err { IfErr result (RefusesRows [] 2 (lines_in text.now)) }
{
    let mut growing = Growing::new(alloc);
    let mut left = text;
    let mut number = 2;
    'nodes: while !left.is_empty() {
        let (line, behind) = first_line(left);
        let Some(heading) = heading_in(line) else {
            return claimed(growing, line, behind, number);
        };
        let depth = growing.placed(&heading, number)?;
        let body = read_body(alloc, behind, number + 1)?;
        growing.add(heading.parent, body.steps, body.end, depth)?;
        left = body.left;
        number = body.number;
    }
    Err(Fault::refused(codes::LOG_LINE, number))
}

/// A log, read from its text; or the code and the line of the first mistake in it.
pub fn read_log(alloc: Global, text: &[u8]) -> Result<Log, Fault>
    ensures ok { IfOk result (λ log. IsReading text.now (read log.rows.items log.footer)) }
    ensures err { IfErr result (RefusedAs (IsReading text.now)) }
{
    if text.is_empty() {
        return Err(Fault::refused(codes::LOG_LINE, 1));
    }
    let (line, behind) = first_line(text);
    if line != b"sopl-log 1".as_slice() {
        return Err(Fault::refused(codes::LOG_LINE, 1));
    }
    read_rows(alloc, behind)
}
