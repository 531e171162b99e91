//! What stands first in a list of tokens, and what a token is to the reader.

ghost use Rattle.std.specs.Prelude.{◌≡◌, option_copied};
ghost use Rattle.parse_grammar.specs.Heads.{head, rest as rest_of, place as place_of, is_mark, literal as literal_of, named as named_of};
ghost use Rattle.parse_grammar.specs.Heads.{factor_operator as factor_operator_of, term_operator as term_operator_of};
ghost use Rattle.parse_grammar.specs.Heads.{comparison_operator as comparison_operator_of, extreme_function as extreme_function_of};
ghost use Rattle.parse_grammar.specs.Heads.{number_function as number_function_of, goal_direction as goal_direction_of};
ghost use Rattle.parse_grammar.specs.Heads.{goal_measure as goal_measure_of, range_end as range_end_of};

use sopl_ast::{Function, MulOp, Name, Token, TokenKind};
use sopl_base::{CmpOp, Direction, Extreme};

/// A keyword or a symbol that the reader asks for by itself.
#[derive(Clone, Copy, Debug)]
pub enum Mark {
    Int,
    Assign,
    Semi,
    Comma,
    Colon,
    DotDot,
    Inside,
    Stage,
    Subject,
    To,
    Forall,
    Sum,
    All,
    Prob,
    AllDifferent,
    Cumulative,
    Dvar,
    Stoch,
    Range,
    ParenOpen,
    ParenClose,
    BracketOpen,
    BracketClose,
    BraceOpen,
    BraceClose,
    Minus,
    Not,
    AndAnd,
    OrOr,
    Arrow,
    GreaterEq,
    Slash,
}

/// The kind of the first token.
pub fn peek(tokens: &[Token]) -> Option<&TokenKind>
    ensures { option_copied result ≡ head tokens.now }
{
    match tokens {
        [first, ..] => Some(&first.kind),
        [] => None,
    }
}

/// The tokens behind the first one.
pub fn rest(tokens: &[Token]) -> &[Token]
    ensures { result.now ≡ rest_of tokens.now }
{
    match tokens {
        [_, left @ ..] => left,
        [] => tokens,
    }
}

/// Where the first token stands, or 0 where there is none.
pub fn place(tokens: &[Token]) -> usize
    ensures { result ≡ place_of tokens.now }
{
    match tokens {
        [first, ..] => first.span.start,
        [] => 0,
    }
}

/// Whether the first token is the one that the mark stands for.
#[tactic(auto, unfolding(crate::specs::Heads::is_mark))]
pub fn has_mark(mark: Mark, tokens: &[Token]) -> bool
    ensures { result ≡ is_mark mark (head tokens.now) }
{
    let Some(kind) = peek(tokens) else {
        return false;
    };
    match mark {
        Mark::Int => matches!(kind, TokenKind::Int),
        Mark::Assign => matches!(kind, TokenKind::Assign),
        Mark::Semi => matches!(kind, TokenKind::Semi),
        Mark::Comma => matches!(kind, TokenKind::Comma),
        Mark::Colon => matches!(kind, TokenKind::Colon),
        Mark::DotDot => matches!(kind, TokenKind::DotDot),
        Mark::Inside => matches!(kind, TokenKind::Inside),
        Mark::Stage => matches!(kind, TokenKind::Stage),
        Mark::Subject => matches!(kind, TokenKind::Subject),
        Mark::To => matches!(kind, TokenKind::To),
        Mark::Forall => matches!(kind, TokenKind::Forall),
        Mark::Sum => matches!(kind, TokenKind::Sum),
        Mark::All => matches!(kind, TokenKind::All),
        Mark::Prob => matches!(kind, TokenKind::Prob),
        Mark::AllDifferent => matches!(kind, TokenKind::AllDifferent),
        Mark::Cumulative => matches!(kind, TokenKind::Cumulative),
        Mark::Dvar => matches!(kind, TokenKind::Dvar),
        Mark::Stoch => matches!(kind, TokenKind::Stoch),
        Mark::Range => matches!(kind, TokenKind::Range),
        Mark::ParenOpen => matches!(kind, TokenKind::ParenOpen),
        Mark::ParenClose => matches!(kind, TokenKind::ParenClose),
        Mark::BracketOpen => matches!(kind, TokenKind::BracketOpen),
        Mark::BracketClose => matches!(kind, TokenKind::BracketClose),
        Mark::BraceOpen => matches!(kind, TokenKind::BraceOpen),
        Mark::BraceClose => matches!(kind, TokenKind::BraceClose),
        Mark::Minus => matches!(kind, TokenKind::Minus),
        Mark::Not => matches!(kind, TokenKind::Not),
        Mark::AndAnd => matches!(kind, TokenKind::AndAnd),
        Mark::OrOr => matches!(kind, TokenKind::OrOr),
        Mark::Arrow => matches!(kind, TokenKind::Arrow),
        Mark::GreaterEq => matches!(kind, TokenKind::GreaterEq),
        Mark::Slash => matches!(kind, TokenKind::Slash),
    }
}

/// The number of a literal.
#[tactic(auto, unfolding(crate::specs::Heads::literal))]
pub fn literal(tokens: &[Token]) -> Option<i64>
    ensures { result ≡ literal_of (head tokens.now) }
{
    match peek(tokens)? {
        TokenKind::Lit(value) => Some(*value),
        _ => None,
    }
}

/// A name.
#[tactic(auto, unfolding(crate::specs::Heads::named))]
pub fn named(tokens: &[Token]) -> Option<&Name>
    ensures { option_copied result ≡ named_of (head tokens.now) }
{
    match peek(tokens)? {
        TokenKind::Name(name) => Some(name),
        _ => None,
    }
}

/// The operator of a chain of products.
#[tactic(auto, unfolding(crate::specs::Heads::factor_operator))]
pub fn factor_operator(tokens: &[Token]) -> Option<MulOp>
    ensures { result ≡ factor_operator_of (head tokens.now) }
{
    match peek(tokens)? {
        TokenKind::Star => Some(MulOp::Times),
        TokenKind::Div => Some(MulOp::Div),
        TokenKind::Mod => Some(MulOp::Mod),
        _ => None,
    }
}

/// The operator of a chain of sums: whether the next part is subtracted.
#[tactic(auto, unfolding(crate::specs::Heads::term_operator))]
pub fn term_operator(tokens: &[Token]) -> Option<bool>
    ensures { result ≡ term_operator_of (head tokens.now) }
{
    match peek(tokens)? {
        TokenKind::Plus => Some(false),
        TokenKind::Minus => Some(true),
        _ => None,
    }
}

/// The operator of a comparison.
#[tactic(auto, unfolding(crate::specs::Heads::comparison_operator))]
pub fn comparison_operator(tokens: &[Token]) -> Option<CmpOp>
    ensures { result ≡ comparison_operator_of (head tokens.now) }
{
    match peek(tokens)? {
        TokenKind::EqEq => Some(CmpOp::Eq),
        TokenKind::NotEq => Some(CmpOp::Ne),
        TokenKind::Less => Some(CmpOp::Lt),
        TokenKind::LessEq => Some(CmpOp::Le),
        TokenKind::Greater => Some(CmpOp::Gt),
        TokenKind::GreaterEq => Some(CmpOp::Ge),
        _ => None,
    }
}

/// A function of one number.
#[tactic(auto, unfolding(crate::specs::Heads::number_function))]
pub fn number_function(tokens: &[Token]) -> Option<Function>
    ensures { result ≡ number_function_of (head tokens.now) }
{
    match peek(tokens)? {
        TokenKind::Abs => Some(Function::Size),
        _ => None,
    }
}

/// `min` or `max`.
#[tactic(auto, unfolding(crate::specs::Heads::extreme_function))]
pub fn extreme_function(tokens: &[Token]) -> Option<Extreme>
    ensures { result ≡ extreme_function_of (head tokens.now) }
{
    match peek(tokens)? {
        TokenKind::Min => Some(Extreme::Least),
        TokenKind::Max => Some(Extreme::Greatest),
        _ => None,
    }
}

/// The direction of an objective.
#[tactic(auto, unfolding(crate::specs::Heads::goal_direction))]
pub fn goal_direction(tokens: &[Token]) -> Option<Direction>
    ensures { result ≡ goal_direction_of (head tokens.now) }
{
    match peek(tokens)? {
        TokenKind::Minimize => Some(Direction::Minimize),
        TokenKind::Maximize => Some(Direction::Maximize),
        _ => None,
    }
}

/// Whether the worst scenario counts, or the expected value.
#[tactic(auto, unfolding(crate::specs::Heads::goal_measure))]
pub fn goal_measure(tokens: &[Token]) -> Option<bool>
    ensures { result ≡ goal_measure_of (head tokens.now) }
{
    match peek(tokens)? {
        TokenKind::Expected => Some(false),
        TokenKind::Worst => Some(true),
        _ => None,
    }
}

/// Whether a range by its name ends before the first token.
#[tactic(auto, unfolding(crate::specs::Heads::range_end))]
pub fn range_end(tokens: &[Token]) -> Option<bool>
    ensures { result ≡ range_end_of (head tokens.now) }
{
    match peek(tokens)? {
        TokenKind::Comma
        | TokenKind::ParenClose
        | TokenKind::BracketClose
        | TokenKind::Semi
        | TokenKind::Stage => Some(true),
        _ => None,
    }
}
