//! A level of nesting, and those below it: each phrase of a level takes the reading of the levels below as a
//! function value, so that it is proved by itself.

ghost use Rattle.std.specs.Prelude.{◌≡◌, ◌+◌, ◌<◌, Ok, Some, false, OnOk, IfOk};
ghost use Rattle.parse_grammar.specs.Expressions as phrase;
ghost use Rattle.parse_grammar.specs.Phrases.{way, inner_of};
ghost use Rattle.parse_grammar.specs.Reading.{opening as opening_of};
ghost use Rattle.parse_exprs.specs.ReaderAnswers.{Answers};
ghost use Rattle.parse_exprs.specs.Nests.{Nests};

use crate::reader::{Ask, ParseStop, Read, Reader};
use parse_grammar::Mark;
use sopl_ast::{Expr, Token};
use std::alloc::Global;

/// A reader, and what reads expressions at the levels below its own.
#[derive(Clone, Copy)]
pub(crate) struct Level<F> {
    pub here: Reader,
    pub read: F,
}

/// A reader of a level below, and what reads expressions at that level and below it.
#[derive(Clone, Copy)]
pub(crate) struct Below<F> {
    pub here: Reader,
    pub read: F,
}

impl<F: Fn(Global, usize, Ask, &[Token]) -> Read<'_, Expr> + Copy> Level<F> {
    /// The reader inside a bracket or behind a prefix operator, which stands at the front of the tokens.
    #[tactic(auto, using(crate::proofs::Nesting::nesting))]
    pub(crate) fn inside<'a>(&self, tokens: &'a [Token]) -> Result<Below<F>, ParseStop<'a>>
        requires { Nests self.now.here.depth (F.pre self.now.read) (F.post self.now.read) }
        ensures inner { Answers (λ inner. inner_of (way false inner.here.depth)) result
            ((way false self.now.here.depth).inside tokens.now) }
        ensures nests { IfOk result (λ inner. Nests (inner.here.depth + 1) (F.pre inner.read) (F.post inner.read)) }
    {
        let here = self.here.inside(tokens)?;
        let read = self.read;
        Ok(Below { here, read })
    }

    /// The reader inside a bracket, and the tokens behind the bracket.
    #[tactic(auto, using(crate::proofs::Nesting::nesting))]
    pub(crate) fn enter<'a>(
        &self,
        mark: Mark,
        tokens: &'a [Token],
    ) -> Result<(Below<F>, &'a [Token]), ParseStop<'a>>
        requires { Nests self.now.here.depth (F.pre self.now.read) (F.post self.now.read) }
        ensures inner { Answers (λ x. Some (inner_of (way false x.0.here.depth), x.1.now)) result
            (opening_of (way false self.now.here.depth) mark tokens.now) }
        ensures nests { IfOk result (λ x. Nests (x.0.here.depth + 1) (F.pre x.0.read) (F.post x.0.read)) }
    {
        let (here, left) = self.here.enter(mark, tokens)?;
        let read = self.read;
        Ok((Below { here, read }, left))
    }
}

impl<F: Fn(Global, usize, Ask, &[Token]) -> Read<'_, Expr> + Copy> Below<F> {
    /// The reader inside a bracket, and the tokens behind the bracket.
    #[tactic(auto, using(crate::proofs::Nesting::nesting))]
    pub(crate) fn enter<'a>(
        &self,
        mark: Mark,
        tokens: &'a [Token],
    ) -> Result<(Below<F>, &'a [Token]), ParseStop<'a>>
        requires { Nests (self.now.here.depth + 1) (F.pre self.now.read) (F.post self.now.read) }
        ensures inner { Answers (λ x. Some (inner_of (way false x.0.here.depth), x.1.now)) result
            (opening_of (way false self.now.here.depth) mark tokens.now) }
        ensures nests { IfOk result (λ x. Nests (x.0.here.depth + 1) (F.pre x.0.read) (F.post x.0.read)) }
    {
        let (here, left) = self.here.enter(mark, tokens)?;
        let read = self.read;
        Ok((Below { here, read }, left))
    }

    /// An expression.
    #[tactic(auto, using(crate::proofs::Nesting::nesting))]
    pub(crate) fn expression<'a>(&self, tokens: &'a [Token]) -> Read<'a, Expr>
        requires { Nests (self.now.here.depth + 1) (F.pre self.now.read) (F.post self.now.read) }
        ensures { Answers (λ x. (x.0, x.1.now)) result
            (phrase.expression (way false self.now.here.depth) tokens.now) }
    {
        (self.read)(self.here.alloc, self.here.depth, Ask::Expression, tokens)
    }

    /// A comparison, or the negation of one.
    #[tactic(auto, using(crate::proofs::Nesting::nesting))]
    pub(crate) fn negation<'a>(&self, tokens: &'a [Token]) -> Read<'a, Expr>
        requires { Nests (self.now.here.depth + 1) (F.pre self.now.read) (F.post self.now.read) }
        ensures { Answers (λ x. (x.0, x.1.now)) result
            (phrase.negation (way false self.now.here.depth) tokens.now) }
    {
        (self.read)(self.here.alloc, self.here.depth, Ask::Negation, tokens)
    }

    /// One product, or a chain of sums.
    #[tactic(auto, using(crate::proofs::Nesting::nesting))]
    pub(crate) fn sum<'a>(&self, tokens: &'a [Token]) -> Read<'a, Expr>
        requires { Nests (self.now.here.depth + 1) (F.pre self.now.read) (F.post self.now.read) }
        ensures { Answers (λ x. (x.0, x.1.now)) result
            (phrase.sum (way false self.now.here.depth) tokens.now) }
    {
        (self.read)(self.here.alloc, self.here.depth, Ask::Sum, tokens)
    }

    /// One operand, or a chain of products.
    #[tactic(auto, using(crate::proofs::Nesting::nesting))]
    pub(crate) fn product<'a>(&self, tokens: &'a [Token]) -> Read<'a, Expr>
        requires { Nests (self.now.here.depth + 1) (F.pre self.now.read) (F.post self.now.read) }
        ensures { Answers (λ x. (x.0, x.1.now)) result
            (phrase.product (way false self.now.here.depth) tokens.now) }
    {
        (self.read)(self.here.alloc, self.here.depth, Ask::Product, tokens)
    }

    /// An operand of a product.
    #[tactic(auto, using(crate::proofs::Nesting::nesting))]
    pub(crate) fn operand<'a>(&self, tokens: &'a [Token]) -> Read<'a, Expr>
        requires { Nests (self.now.here.depth + 1) (F.pre self.now.read) (F.post self.now.read) }
        ensures { Answers (λ x. (x.0, x.1.now)) result
            (phrase.operand (way false self.now.here.depth) tokens.now) }
    {
        (self.read)(self.here.alloc, self.here.depth, Ask::Operand, tokens)
    }
}
