//! The piece at the front of a text.

ghost use Rattle.std.specs.Prelude.{◌≡◌, ◌<◌, length};
ghost use Rattle.sopl_lex.specs.TextAnswers.{Answers};
ghost use Rattle.sopl_lex.specs.Front.{block_comment, double, front, line_comment, literal, symbol, word};
ghost use Rattle.sopl_lex.specs.Shown.{shown};

use crate::runs::{
    before_close, begins_with, digits, is_letter, is_space, line_len, name_len, skipped, taken,
};
use crate::tables;
use sopl_ast::{Name, TokenKind};
use sopl_base::{Fault, codes, limits};
use std::alloc::Global;

/// A piece at the front of a text: its length, and its token's kind unless it is a space or a comment.
#[derive(Drop)]
pub struct Piece {
    pub len: usize,
    pub kind: Option<TokenKind>,
}

/// The piece with which the text begins; the text stands at an offset.
#[tactic(auto, unfolding(crate::specs::Front::front))]
pub fn front(alloc: Global, text: &[u8], at: usize) -> Result<Piece, Fault>
    requires { 0 < length text.now }
    ensures { Answers shown result (λ answer. answer ≡ front at text.now) }
{
    let first = text[0];
    if is_space(first) {
        Ok(Piece { len: 1, kind: None })
    } else if first.is_ascii_digit() {
        literal(text, at)
    } else if is_letter(first) {
        word(alloc, text)
    } else if begins_with(text, b'/', b'/') {
        Ok(line_comment(text))
    } else if begins_with(text, b'/', b'*') {
        block_comment(text, at)
    } else {
        symbol(text, at)
    }
}

#[tactic(auto, unfolding(crate::specs::Front::literal))]
fn literal(text: &[u8], at: usize) -> Result<Piece, Fault>
    ensures { Answers shown result (λ answer. answer ≡ literal at text.now) }
{
    let digits = digits(text);
    if digits.value > limits::LITERAL {
        return Err(Fault::refused(codes::LITERAL, at));
    }
    Ok(Piece {
        len: digits.len,
        kind: Some(TokenKind::Lit(digits.value as i64)),
    })
}

#[tactic(auto, unfolding(crate::specs::Front::word))]
fn word(alloc: Global, text: &[u8]) -> Result<Piece, Fault>
    ensures { Answers shown result (λ answer. answer ≡ word text.now) }
{
    let len = name_len(text);
    let bytes = taken(text, len);
    let kind = match tables::keyword(bytes) {
        Some(keyword) => keyword,
        None => TokenKind::Name(Name::from_bytes(alloc, bytes)?),
    };
    Ok(Piece {
        len,
        kind: Some(kind),
    })
}

#[tactic(auto, unfolding(crate::specs::Front::line_comment))]
fn line_comment(text: &[u8]) -> Piece
    ensures { Ok (shown result) ≡ line_comment text.now }
{
    Piece {
        len: line_len(text),
        kind: None,
    }
}

#[tactic(auto, unfolding(crate::specs::Front::block_comment))]
fn block_comment(text: &[u8], at: usize) -> Result<Piece, Fault>
    requires { 1 < length text.now }
    ensures { Answers shown result (λ answer. answer ≡ block_comment at text.now) }
{
    let len = before_close(skipped(text, 2)) + 4;
    if len > text.len() {
        return Err(Fault::refused(codes::TOKEN, at));
    }
    Ok(Piece { len, kind: None })
}

#[tactic(auto, unfolding(crate::specs::Front::symbol))]
fn symbol(text: &[u8], at: usize) -> Result<Piece, Fault>
    requires { 0 < length text.now }
    ensures { Answers shown result (λ answer. answer ≡ symbol at text.now) }
{
    if let Some(kind) = double(text) {
        return Ok(Piece {
            len: 2,
            kind: Some(kind),
        });
    }
    match tables::single(text[0]) {
        Some(kind) => Ok(Piece {
            len: 1,
            kind: Some(kind),
        }),
        None => Err(Fault::refused(codes::TOKEN, at)),
    }
}

#[tactic(auto, unfolding(crate::specs::Front::double))]
fn double(text: &[u8]) -> Option<TokenKind>
    ensures { result ≡ double text.now }
{
    if text.len() > 1 {
        tables::double(text[0], text[1])
    } else {
        None
    }
}
