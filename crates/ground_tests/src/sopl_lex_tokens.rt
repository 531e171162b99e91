//! The tokens and refusals of short texts, worked out by hand.

use sopl_ast::{Token, TokenKind};
use sopl_base::{Fault, limits};
use sopl_lex::lex;
use std::alloc::{AllocError, Global};
use std::process::Abort;
use std::test::Fail;

/// An answer in one line: kinds with their spans, or a code and an offset.
fn shown(alloc: Global, text: &[u8]) -> Result<String, AllocError> {
    match lex(alloc, text) {
        Ok(tokens) => tokens_shown(alloc, tokens.as_slice()),
        Err(Fault::Text(refusal)) => format!(in alloc; "{} at {}", refusal.code, refusal.at),
        Err(fault) => format!(in alloc; "{fault:?}"),
    }
}

fn tokens_shown(alloc: Global, tokens: &[Token]) -> Result<String, AllocError> {
    let mut line = String::new(alloc);
    for token in tokens {
        put_token(&mut line, alloc, token)?;
    }
    Ok(line)
}

/// Writes a token with its span, behind a comma where it is not the first one.
fn put_token(line: &mut String, alloc: Global, token: &Token) -> Result<(), AllocError> {
    if !line.is_empty() {
        line.push_str(", ")?;
    }
    let kind = kind_shown(alloc, &token.kind)?;
    let start = token.span.start;
    let end = token.span.end;
    write!(line, "{kind} {start}-{end}")?;
    Ok(())
}

fn kind_shown(alloc: Global, kind: &TokenKind) -> Result<String, AllocError> {
    match kind {
        TokenKind::Name(name) => match str::from_utf8(name.as_slice()) {
            Ok(name) => format!(in alloc; "Name({name})"),
            Err(_) => format!(in alloc; "no text"),
        },
        kind => format!(in alloc; "{kind:?}"),
    }
}

/// What a row is about, a text, and its tokens or its refusal.
type Row = (&'static str, &'static [u8], &'static str);

/// Spaces, and what they part.
const SPACES: &[Row] = &[
    ("the empty text", b"", ""),
    ("each kind of space", b" \t\n\r", ""),
    (
        "a declaration",
        b"int n = 7;",
        "Int 0-3, Name(n) 4-5, Assign 6-7, Lit(7) 8-9, Semi 9-10",
    ),
    (
        "each kind of space between names",
        b"a\tb\rc\nd",
        "Name(a) 0-1, Name(b) 2-3, Name(c) 4-5, Name(d) 6-7",
    ),
];

/// Comments, and slashes that begin none.
const COMMENTS: &[Row] = &[
    (
        "a comment to the end of the text, with nothing in it",
        b"//",
        "",
    ),
    ("a comment to the end of the text", b"// a", ""),
    (
        "a comment to the end of its line",
        b"// a\nb",
        "Name(b) 5-6",
    ),
    ("a carriage return within a comment", b"//a\rb", ""),
    (
        "a carriage return and a line feed behind a comment",
        b"//a\r\nb",
        "Name(b) 5-6",
    ),
    (
        "an opening star within a comment to the end of the text",
        b"a//b/*c",
        "Name(a) 0-1",
    ),
    ("an empty comment", b"/**/", ""),
    ("a comment of one star", b"/***/x", "Name(x) 5-6"),
    (
        "one star that is to open and to close a comment",
        b"/*/",
        "102 at 0",
    ),
    ("a comment of one slash", b"/*/*/x", "Name(x) 5-6"),
    (
        "stars and slashes within a comment",
        b"/* a * b / c */x",
        "Name(x) 15-16",
    ),
    (
        "comments do not nest",
        b"/* /* */ x */",
        "Name(x) 9-10, Star 11-12, Slash 12-13",
    ),
    ("two slashes within a comment", b"/*a//*/b", "Name(b) 7-8"),
    ("a comment over two lines", b"/*\n*/b", "Name(b) 5-6"),
    (
        "a comment that is not closed, behind a name",
        b"a /* b",
        "102 at 2",
    ),
    ("a comment that ends in a star", b"a /* b *", "102 at 2"),
    ("a comment that is opened alone", b"/*", "102 at 0"),
    (
        "a slash between names",
        b"a/b",
        "Name(a) 0-1, Slash 1-2, Name(b) 2-3",
    ),
    (
        "a slash and a star apart",
        b"a/ *b",
        "Name(a) 0-1, Slash 1-2, Star 3-4, Name(b) 4-5",
    ),
    ("two slashes apart", b"/ /", "Slash 0-1, Slash 2-3"),
    ("a slash alone", b"/", "Slash 0-1"),
];

/// Symbols, of which the longest one is read.
const SYMBOLS: &[Row] = &[
    (
        "two dots between literals",
        b"1..5",
        "Lit(1) 0-1, DotDot 1-3, Lit(5) 3-4",
    ),
    ("three dots", b"1...5", "102 at 3"),
    ("four dots", b"....", "DotDot 0-2, DotDot 2-4"),
    ("one dot", b".", "102 at 0"),
    ("one dot between literals", b"1.5", "102 at 1"),
    (
        "an arrow before an equals sign",
        b"=>=",
        "Arrow 0-2, Assign 2-3",
    ),
    (
        "at least before an equals sign",
        b">==",
        "GreaterEq 0-2, Assign 2-3",
    ),
    ("equal before an arrow", b"===>", "EqEq 0-2, Arrow 2-4"),
    ("at most before greater", b"<=>", "LessEq 0-2, Greater 2-3"),
    (
        "unequal before an equals sign",
        b"!==",
        "NotEq 0-2, Assign 2-3",
    ),
    (
        "symbols that begin longer ones",
        b"! = < > -",
        "Not 0-1, Assign 2-3, Less 4-5, Greater 6-7, Minus 8-9",
    ),
    (
        "and, and or",
        b"a&&b||c",
        "Name(a) 0-1, AndAnd 1-3, Name(b) 3-4, OrOr 4-6, Name(c) 6-7",
    ),
    ("three ampersands", b"&&&", "102 at 2"),
    ("one ampersand", b"&", "102 at 0"),
    ("three bars", b"|||", "102 at 2"),
    ("one bar", b"a|b", "102 at 1"),
    ("a minus before a literal", b"-5", "Minus 0-1, Lit(5) 1-2"),
    (
        "symbols that begin no longer one",
        b";,:()[]{}+-*/",
        "Semi 0-1, Comma 1-2, Colon 2-3, ParenOpen 3-4, ParenClose 4-5, BracketOpen 5-6, BracketClose 6-7, BraceOpen 7-8, BraceClose 8-9, Plus 9-10, Minus 10-11, Star 11-12, Slash 12-13",
    ),
];

/// Keywords and names.
const WORDS: &[Row] = &[
    (
        "names that begin as keywords do",
        b"interval inn in int",
        "Name(interval) 0-8, Name(inn) 9-12, Inside 13-15, Int 16-19",
    ),
    (
        "names like keywords",
        b"Int tom _in",
        "Name(Int) 0-3, Name(tom) 4-7, Name(_in) 8-11",
    ),
    (
        "names like `allDifferent` and `all`",
        b"allDifferent alldifferent all_ all",
        "AllDifferent 0-12, Name(alldifferent) 13-25, Name(all_) 26-30, All 31-34",
    ),
    (
        "underscores and digits in names",
        b"_ _1 a1_b 1a",
        "Name(_) 0-1, Name(_1) 2-4, Name(a1_b) 5-9, Lit(1) 10-11, Name(a) 11-12",
    ),
    (
        "keywords of declarations and constraints",
        b"range dvar stoch stage subject to forall sum prob",
        "Range 0-5, Dvar 6-10, Stoch 11-16, Stage 17-22, Subject 23-30, To 31-33, Forall 34-40, Sum 41-44, Prob 45-49",
    ),
    (
        "keywords of objectives and functions",
        b"expected worst minimize maximize cumulative div mod min max abs",
        "Expected 0-8, Worst 9-14, Minimize 15-23, Maximize 24-32, Cumulative 33-43, Div 44-47, Mod 48-51, Min 52-55, Max 56-59, Abs 60-63",
    ),
];

/// Literals.
const LITERALS: &[Row] = &[
    (
        "zeros before a literal",
        b"007 00",
        "Lit(7) 0-3, Lit(0) 4-6",
    ),
    (
        "the greatest literal",
        b"1099511627776",
        "Lit(1099511627776) 0-13",
    ),
    (
        "one more than the greatest literal",
        b"x 1099511627777",
        "116 at 2",
    ),
    (
        "zeros before the greatest literal",
        b"0001099511627776",
        "Lit(1099511627776) 0-16",
    ),
    (
        "forty digits",
        b"1000000000000000000000000000000000000000",
        "116 at 0",
    ),
    (
        "forty digits, of which all but the last are zeros",
        b"0000000000000000000000000000000000000005",
        "Lit(5) 0-40",
    ),
    (
        "a literal that is 1 in 64 bits",
        b"18446744073709551617",
        "116 at 0",
    ),
    (
        "a literal too large before a comment that is not closed",
        b"1099511627777 /*",
        "116 at 0",
    ),
    (
        "a literal too large in a comment that is not closed",
        b"/* 1099511627777",
        "102 at 0",
    ),
    (
        "a literal too large behind a byte that is no token",
        b"# 1099511627777",
        "102 at 0",
    ),
];

/// Bytes that no token has.
const BYTES: &[Row] = &[
    ("a letter of two bytes", b"\xc3\xa9", "102 at 0"),
    ("the greatest byte", b"a\xff", "102 at 1"),
    (
        "bytes beyond ASCII within comments",
        b"/*\xff\xc3*/a//\xfe",
        "Name(a) 6-7",
    ),
    ("a question mark", b"a ? b", "102 at 2"),
    ("the byte 0", b"a\x00", "102 at 1"),
    ("a vertical tab", b"a \x0b", "102 at 2"),
    ("a delete", b"a\x7f", "102 at 1"),
];

/// Each text of a table has its tokens, or its refusal.
fn each_gives(alloc: Global, rt: &impl Abort, rows: &[Row]) -> Result<(), Fail> {
    for (word, text, expected) in rows {
        let line = shown(alloc, text)?;
        assert_eq!(rt; line.as_str(), *expected, "{word}");
    }
    Ok(())
}

#[test]
fn spaces_part_tokens(rt: HostRuntime) -> Result<(), Fail> {
    each_gives(rt.alloc(), &rt, SPACES)
}

#[test]
fn comments_are_passed_over(rt: HostRuntime) -> Result<(), Fail> {
    each_gives(rt.alloc(), &rt, COMMENTS)
}

#[test]
fn symbols_are_the_longest_ones(rt: HostRuntime) -> Result<(), Fail> {
    each_gives(rt.alloc(), &rt, SYMBOLS)
}

#[test]
fn words_are_keywords_or_names(rt: HostRuntime) -> Result<(), Fail> {
    each_gives(rt.alloc(), &rt, WORDS)
}

#[test]
fn literals_are_limited(rt: HostRuntime) -> Result<(), Fail> {
    each_gives(rt.alloc(), &rt, LITERALS)
}

#[test]
fn other_bytes_are_refused(rt: HostRuntime) -> Result<(), Fail> {
    each_gives(rt.alloc(), &rt, BYTES)
}

/// Whether a text has this line.
fn gives(alloc: Global, text: &[u8], want: &str) -> Result<bool, AllocError> {
    let line = shown(alloc, text)?;
    Ok(line.as_str() == want)
}

#[test]
fn lengths(rt: HostRuntime) -> Result<(), Fail> {
    let mut text = vec![in rt.alloc(); b' '; limits::TEXT_BYTES]?;
    assert!(rt;
        gives(rt.alloc(), text.as_slice(), "")?,
        "as long as can be"
    );
    text.push(b'#')?;
    let refused = gives(rt.alloc(), text.as_slice(), "101 at 1048576")?;
    assert!(rt; refused, "one byte more");
    Ok(())
}
