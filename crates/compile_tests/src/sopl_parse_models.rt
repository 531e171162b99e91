//! What texts give, by the grammar: trees, and the places of refusals.
//!
//! Each expected tree and place was worked out from the productions, by hand and by a reader of
//! them that tries every derivation; none is an answer of the program. `printed` says how a tree is
//! shown. A text that is refused shows its code and its place: `104 at 19`.

use crate::parse_exprs_texts::{EXPRESSIONS, NO_EXPRESSIONS};
use crate::printed::printed;
use crate::rows::parts;
use crate::sopl_parse_nesting::{LONG, NESTS};
use crate::sopl_parse_texts::{CONSTRAINTS, DECLARATIONS, LINES, NO_DECLARATIONS, WHOLE};
use sopl_ast::{Model, Token};
use sopl_base::Fault;
use sopl_lex::lex;
use sopl_parse::parse;
use std::alloc::{AllocError, Global};
use std::process::Abort;
use std::test::Fail;

/// The model of a text.
fn model_of(alloc: Global, text: &[u8]) -> Result<Model, Fault> {
    let tokens = lex(alloc, text)?;
    parse(alloc, tokens.as_slice(), text.len())
}

/// What was read, by a word, or its refusal as its code and its place; any other fault is passed on.
fn outcome_of<T>(alloc: Global, word: &str, read: &Result<T, Fault>) -> Result<String, Fault> {
    match read {
        Ok(_) => Ok(String::from_str(alloc, word)?),
        Err(Fault::Text(refusal)) => {
            Ok(format!(in alloc; "{} at {}", refusal.code, refusal.at)?)
        }
        Err(other) => Err(*other),
    }
}

/// What was read as one line, or its refusal.
fn line_of(alloc: Global, read: &Result<Model, Fault>) -> Result<String, Fault> {
    match read {
        Ok(model) => Ok(printed(alloc, model)?),
        Err(_) => outcome_of(alloc, "", read),
    }
}

/// What a text gives: its model as one line, or its refusal.
fn answer(alloc: Global, text: &[u8]) -> Result<String, Fault> {
    let read = model_of(alloc, text);
    line_of(alloc, &read)
}

/// Whether a text is read: `read`, or its refusal.
fn outcome(alloc: Global, text: &[u8]) -> Result<String, Fault> {
    let read = model_of(alloc, text);
    outcome_of(alloc, "read", &read)
}

fn repeat(out: &mut String, piece: &str, times: usize) -> Result<(), AllocError> {
    for _ in 0..times {
        out.push_str(piece)?;
    }
    Ok(())
}

/// The parts of a nested text, and how often its two pieces stand.
#[derive(Drop)]
struct Nest<'a> {
    prefix: &'a str,
    piece: &'a str,
    middle: &'a str,
    behind: &'a str,
    end: &'a str,
    times: usize,
}

/// The parts that a row shows between `~`.
fn parts_of(row: &str) -> Option<Nest<'_>> {
    let (prefix, row) = row.split_once('~')?;
    let (piece, row) = row.split_once('~')?;
    let (middle, row) = row.split_once('~')?;
    let (behind, row) = row.split_once('~')?;
    let (end, times) = row.split_once('~')?;
    let times = times.parse().ok()?;
    Some(Nest {
        prefix,
        piece,
        middle,
        behind,
        end,
        times,
    })
}

/// Writes a nested text.
fn put_nested(out: &mut String, nest: &Nest<'_>) -> Result<(), AllocError> {
    out.push_str(nest.prefix)?;
    repeat(out, nest.piece, nest.times)?;
    out.push_str(nest.middle)?;
    repeat(out, nest.behind, nest.times)?;
    out.push_str(nest.end)
}

/// A text gives what stands beside it.
fn gives(alloc: Global, rt: &impl Abort, word: &str, text: &str, want: &str) -> Result<(), Fail> {
    let given = answer(alloc, text.as_bytes())?;
    assert_eq!(rt; given.as_str(), want, "{word}: {text}");
    Ok(())
}

/// A nested text is read, or refused, as its row says.
fn nests(alloc: Global, rt: &impl Abort, word: &str, shown: &str, want: &str) -> Result<(), Fail> {
    let Some(nest) = parts_of(shown) else {
        return Err(Fail::new(shown));
    };
    let mut text = String::new(alloc);
    put_nested(&mut text, &nest)?;
    let given = outcome(alloc, text.as_bytes())?;
    assert_eq!(rt; given.as_str(), want, "{word}: {shown}");
    Ok(())
}

/// Each text of a table gives what stands beside it.
fn each_gives(alloc: Global, rt: &impl Abort, table: &str) -> Result<(), Fail> {
    for row in table.lines() {
        let (word, text, want) = parts(row);
        gives(alloc, rt, word, text, want)?;
    }
    Ok(())
}

/// Each text of several lines gives what stands beside it.
fn each_of_lines_gives(
    alloc: Global,
    rt: &impl Abort,
    rows: &[(&str, &str, &str)],
) -> Result<(), Fail> {
    for (word, text, want) in rows {
        gives(alloc, rt, word, text, want)?;
    }
    Ok(())
}

/// Each nested text of a table is read, or refused, as it says.
fn each_nests(alloc: Global, rt: &impl Abort, table: &str) -> Result<(), Fail> {
    for row in table.lines() {
        let (word, shown, want) = parts(row);
        nests(alloc, rt, word, shown, want)?;
    }
    Ok(())
}

/// Each prefix of a text that ends behind a token is refused at its own length.
fn each_prefix_ends_early(
    alloc: Global,
    rt: &impl Abort,
    text: &[u8],
    tokens: &[Token],
) -> Result<(), Fail> {
    for token in tokens {
        let end = token.span.end;
        let prefix = text.get(..end).unwrap_or(text);
        if prefix.len() < text.len() {
            let given = outcome(alloc, prefix)?;
            let want = format!(in alloc; "104 at {end}")?;
            assert_eq!(rt; given.as_str(), want.as_str(), "an end at {end}");
        }
    }
    Ok(())
}

#[test]
fn expressions(rt: HostRuntime) -> Result<(), Fail> {
    each_gives(rt.alloc(), &rt, EXPRESSIONS)
}

#[test]
fn no_expressions(rt: HostRuntime) -> Result<(), Fail> {
    each_gives(rt.alloc(), &rt, NO_EXPRESSIONS)
}

#[test]
fn declarations(rt: HostRuntime) -> Result<(), Fail> {
    each_gives(rt.alloc(), &rt, DECLARATIONS)
}

#[test]
fn no_declarations(rt: HostRuntime) -> Result<(), Fail> {
    each_gives(rt.alloc(), &rt, NO_DECLARATIONS)
}

#[test]
fn constraints(rt: HostRuntime) -> Result<(), Fail> {
    each_gives(rt.alloc(), &rt, CONSTRAINTS)
}

#[test]
fn whole_texts(rt: HostRuntime) -> Result<(), Fail> {
    each_gives(rt.alloc(), &rt, WHOLE)?;
    each_of_lines_gives(rt.alloc(), &rt, LINES)
}

#[test]
fn nesting(rt: HostRuntime) -> Result<(), Fail> {
    each_nests(rt.alloc(), &rt, NESTS)
}

#[test]
fn early_ends(rt: HostRuntime) -> Result<(), Fail> {
    let alloc = rt.alloc();
    let text = LONG.as_bytes();
    assert_eq!(rt; outcome(alloc, text)?.as_str(), "read");
    let tokens = lex(alloc, text)?;
    each_prefix_ends_early(alloc, &rt, text, tokens.as_slice())
}
