//! Tokens of a model text.

use crate::name::Name;
use sopl_base::Span;

/// A token and where it stands in the text.
#[derive(Debug, Drop)]
pub struct Token {
    pub kind: TokenKind,
    pub span: Span,
}

/// What a token is: a name, a literal, a keyword or a symbol.
#[derive(Debug, Drop)]
pub enum TokenKind {
    Name(Name),
    Lit(i64),
    Int,
    Range,
    Dvar,
    Stoch,
    Stage,
    /// The keyword `in`.
    Inside,
    Subject,
    To,
    Forall,
    Sum,
    All,
    Prob,
    Expected,
    Worst,
    Minimize,
    Maximize,
    AllDifferent,
    Cumulative,
    Div,
    Mod,
    Min,
    Max,
    Abs,
    Semi,
    Comma,
    Colon,
    ParenOpen,
    ParenClose,
    BracketOpen,
    BracketClose,
    BraceOpen,
    BraceClose,
    DotDot,
    Assign,
    EqEq,
    NotEq,
    LessEq,
    GreaterEq,
    Less,
    Greater,
    Arrow,
    AndAnd,
    OrOr,
    Not,
    Plus,
    Minus,
    Star,
    Slash,
}
