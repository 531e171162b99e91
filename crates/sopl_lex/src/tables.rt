//! The tables of keywords and symbols.

ghost use Rattle.std.specs.Prelude.{◌≡◌, [], ◌∷◌};
ghost use Rattle.sopl_ast.specs.Pieces.{declaration_keywords, expression_keywords, keywords, kind_in, statement_keywords, symbols};

use sopl_ast::TokenKind;

/// The keyword that these bytes are.
#[tactic(auto, using(crate::proofs::TableLemmas::kind_in_either))]
pub fn keyword(bytes: &[u8]) -> Option<TokenKind>
    ensures { result ≡ kind_in bytes.now keywords }
{
    if let Some(kind) = declaration_keyword(bytes) {
        return Some(kind);
    }
    if let Some(kind) = statement_keyword(bytes) {
        return Some(kind);
    }
    expression_keyword(bytes)
}

/// The keyword of declarations that these bytes are.
fn declaration_keyword(bytes: &[u8]) -> Option<TokenKind>
    ensures { result ≡ kind_in bytes.now declaration_keywords }
{
    if bytes == b"int".as_slice() {
        Some(TokenKind::Int)
    } else if bytes == b"range".as_slice() {
        Some(TokenKind::Range)
    } else if bytes == b"dvar".as_slice() {
        Some(TokenKind::Dvar)
    } else if bytes == b"stoch".as_slice() {
        Some(TokenKind::Stoch)
    } else if bytes == b"stage".as_slice() {
        Some(TokenKind::Stage)
    } else if bytes == b"in".as_slice() {
        Some(TokenKind::Inside)
    } else {
        None
    }
}

/// The keyword of objectives and constraints that these bytes are.
fn statement_keyword(bytes: &[u8]) -> Option<TokenKind>
    ensures { result ≡ kind_in bytes.now statement_keywords }
{
    if bytes == b"subject".as_slice() {
        Some(TokenKind::Subject)
    } else if bytes == b"to".as_slice() {
        Some(TokenKind::To)
    } else if bytes == b"forall".as_slice() {
        Some(TokenKind::Forall)
    } else if bytes == b"prob".as_slice() {
        Some(TokenKind::Prob)
    } else if bytes == b"expected".as_slice() {
        Some(TokenKind::Expected)
    } else if bytes == b"worst".as_slice() {
        Some(TokenKind::Worst)
    } else if bytes == b"minimize".as_slice() {
        Some(TokenKind::Minimize)
    } else if bytes == b"maximize".as_slice() {
        Some(TokenKind::Maximize)
    } else {
        None
    }
}

/// The keyword of expressions that these bytes are.
fn expression_keyword(bytes: &[u8]) -> Option<TokenKind>
    ensures { result ≡ kind_in bytes.now expression_keywords }
{
    if bytes == b"sum".as_slice() {
        Some(TokenKind::Sum)
    } else if bytes == b"all".as_slice() {
        Some(TokenKind::All)
    } else if bytes == b"allDifferent".as_slice() {
        Some(TokenKind::AllDifferent)
    } else if bytes == b"cumulative".as_slice() {
        Some(TokenKind::Cumulative)
    } else if bytes == b"div".as_slice() {
        Some(TokenKind::Div)
    } else if bytes == b"mod".as_slice() {
        Some(TokenKind::Mod)
    } else if bytes == b"min".as_slice() {
        Some(TokenKind::Min)
    } else if bytes == b"max".as_slice() {
        Some(TokenKind::Max)
    } else if bytes == b"abs".as_slice() {
        Some(TokenKind::Abs)
    } else {
        None
    }
}

/// The symbol of two bytes.
pub fn double(first: u8, second: u8) -> Option<TokenKind>
    ensures { result ≡ kind_in (first ∷ second ∷ []) symbols }
{
    match (first, second) {
        (b'.', b'.') => Some(TokenKind::DotDot),
        (b'=', b'=') => Some(TokenKind::EqEq),
        (b'!', b'=') => Some(TokenKind::NotEq),
        (b'<', b'=') => Some(TokenKind::LessEq),
        (b'>', b'=') => Some(TokenKind::GreaterEq),
        (b'=', b'>') => Some(TokenKind::Arrow),
        (b'&', b'&') => Some(TokenKind::AndAnd),
        (b'|', b'|') => Some(TokenKind::OrOr),
        _ => None,
    }
}

/// The symbol of one byte.
pub fn single(byte: u8) -> Option<TokenKind>
    ensures { result ≡ kind_in (byte ∷ []) symbols }
{
    match byte {
        b';' => Some(TokenKind::Semi),
        b',' => Some(TokenKind::Comma),
        b':' => Some(TokenKind::Colon),
        b'(' => Some(TokenKind::ParenOpen),
        b')' => Some(TokenKind::ParenClose),
        b'[' => Some(TokenKind::BracketOpen),
        b']' => Some(TokenKind::BracketClose),
        b'{' => Some(TokenKind::BraceOpen),
        b'}' => Some(TokenKind::BraceClose),
        b'=' => Some(TokenKind::Assign),
        b'<' => Some(TokenKind::Less),
        b'>' => Some(TokenKind::Greater),
        b'!' => Some(TokenKind::Not),
        b'+' => Some(TokenKind::Plus),
        b'-' => Some(TokenKind::Minus),
        b'*' => Some(TokenKind::Star),
        b'/' => Some(TokenKind::Slash),
        _ => None,
    }
}
