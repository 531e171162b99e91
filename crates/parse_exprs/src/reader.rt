//! A reader of tokens: each of its methods reads a phrase at the front of tokens.

ghost use Rattle.std.specs.Prelude.{◌≡◌, ◌<◌, Ok, Some, false, OnOk, IfOk};
ghost use Rattle.parse_grammar.specs.Phrases.{way, inner_of, is_over as over};
ghost use Rattle.parse_grammar.specs.Reading.{past as past_of, name as name_of, opening as opening_of};
ghost use Rattle.parse_exprs.specs.ReaderAnswers.{Answers, with_first};

use parse_grammar::{Mark, has_mark, named, place, rest};
use sopl_ast::{Name, Token};
use std::alloc::{AllocError, Global};

/// Why reading stops: no phrase goes on with these tokens, the first of them opens one bracket or
/// prefix operator too many, or no memory is left.
#[derive(Debug, Drop)]
pub enum ParseStop<'a> {
    Syntax(&'a [Token]),
    Depth(&'a [Token]),
    NoMemory,
}

impl<'a> From<AllocError> for ParseStop<'a> {
    ghost use Rattle.std.specs.Prelude.{◌≡◌};
    ghost use Rattle.parse_exprs.specs.declared.reader.ParseStop.{ParseStop};
    ghost use Rattle.parse_exprs.specs.declared.reader.ParseStop.TheVariants.{NoMemory};

    ghost from_gives = { λ _ halt. halt ≡ NoMemory };

    fn from(_error: AllocError) -> ParseStop<'a> {
        ParseStop::NoMemory
    }
}

/// What was read, and the tokens that are left.
pub type Read<'a, T> = Result<(T, &'a [Token]), ParseStop<'a>>;

/// What was read at the front of the tokens, if it stands there, and the tokens that are left.
pub type Next<'a, T> = Result<(Option<T>, &'a [Token]), ParseStop<'a>>;

/// Which phrase is read at a level below.
#[derive(Clone, Copy)]
pub(crate) enum Ask {
    Expression,
    Negation,
    Sum,
    Product,
    Operand,
}

/// A reader of tokens: where its trees are made, and how many more brackets and prefix operators
/// may be opened.
#[derive(Clone, Copy)]
pub struct Reader {
    pub alloc: Global,
    pub depth: usize,
}

/// Whether a list in brackets or braces ends before the tokens: at its closing mark, and where no
/// token is left.
pub fn is_over(closes: bool, tokens: &[Token]) -> bool
    ensures { result ≡ over closes tokens.now }
{
    match tokens {
        [] => true,
        [..] => closes,
    }
}

/// What was read before and what is read now, as one. What was read is handed in, so that the caller
/// has nothing to drop where reading stops.
pub fn joined<'a, A: Drop, B: Drop>(first: A, read: Read<'a, B>) -> Read<'a, (A, B)>
    ensures { result ≡ with_first first read.entry }
{
    let (second, left) = read?;
    Ok(((first, second), left))
}

impl Reader {
    /// The reader inside a bracket or behind a prefix operator, which stands at the front of the tokens.
    #[tactic(auto, using(crate::proofs::Ways::ways))]
    pub fn inside<'a>(&self, tokens: &'a [Token]) -> Result<Reader, ParseStop<'a>>
        ensures inner { Answers (λ reader. inner_of (way false reader.depth)) result
            ((way false self.now.depth).inside tokens.now) }
        ensures less { IfOk result (λ reader. reader.depth < self.now.depth) }
    {
        if self.depth == 0 {
            return Err(ParseStop::Depth(tokens));
        }
        let inner = Reader {
            alloc: self.alloc,
            depth: self.depth - 1,
        };
        Ok(inner)
    }

    /// The tokens behind a mark.
    #[tactic(auto, unfolding(parse_grammar::specs::Reading::past))]
    pub fn past<'a>(&self, mark: Mark, tokens: &'a [Token]) -> Result<&'a [Token], ParseStop<'a>>
        ensures { Answers (λ left. left.now) result (past_of (way false self.now.depth) mark tokens.now) }
    {
        if has_mark(mark, tokens) {
            Ok(rest(tokens))
        } else {
            Err(ParseStop::Syntax(tokens))
        }
    }

    /// What was read, where a mark follows it, and the tokens behind the mark. What was read is handed
    /// in, so that the caller has nothing to drop where the mark is missing.
    pub fn closed<'a, T: Drop>(&self, mark: Mark, read: (T, &'a [Token])) -> Read<'a, T>
        ensures past { Answers (λ x. x.1.now) result (past_of (way false self.now.depth) mark read.entry.1.now) }
        ensures kept { IfOk result (λ x. x.0 ≡ read.entry.0) }
    {
        let (value, left) = read;
        let left = self.past(mark, left)?;
        Ok((value, left))
    }

    /// The reader inside a bracket, and the tokens behind the bracket.
    #[tactic(auto, unfolding(parse_grammar::specs::Reading::opening))]
    pub fn enter<'a>(
        &self,
        mark: Mark,
        tokens: &'a [Token],
    ) -> Result<(Reader, &'a [Token]), ParseStop<'a>>
        ensures inner { Answers (λ x. Some (inner_of (way false x.0.depth), x.1.now)) result
            (opening_of (way false self.now.depth) mark tokens.now) }
        ensures less { IfOk result (λ x. x.0.depth < self.now.depth) }
    {
        if !has_mark(mark, tokens) {
            return Err(ParseStop::Syntax(tokens));
        }
        let inner = self.inside(tokens)?;
        Ok((inner, rest(tokens)))
    }

    /// A name, and its place.
    #[tactic(auto, unfolding(parse_grammar::specs::Reading::name))]
    pub fn name<'a>(&self, tokens: &'a [Token]) -> Read<'a, (Name, usize)>
        ensures { Answers (λ x. (x.0, x.1.now)) result (name_of (way false self.now.depth) tokens.now) }
    {
        let Some(name) = named(tokens) else {
            return Err(ParseStop::Syntax(tokens));
        };
        let name = name.copy(self.alloc)?;
        Ok(((name, place(tokens)), rest(tokens)))
    }
}
