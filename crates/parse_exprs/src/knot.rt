//! The readings of expressions at each level, each by those of the levels below it.

ghost use Rattle.std.specs.Prelude.{◌≡◌, false};
ghost use Rattle.sopl_ast.specs.Ranges.{range_of};
ghost use Rattle.parse_grammar.specs.Expressions as phrase;
ghost use Rattle.parse_grammar.specs.Phrases.{way};
ghost use Rattle.parse_exprs.specs.ReaderAnswers.{Answers};
ghost use Rattle.parse_exprs.specs.Nests.{asked};

use crate::level::{Below, Level};
use crate::reader::{Ask, Read, Reader};
use sopl_ast::{Binders, Expr, RangeText, Token};
use std::alloc::Global;

/// What is asked for, at a level.
fn read(alloc: Global, depth: usize, ask: Ask, tokens: &[Token]) -> Read<'_, Expr>
    ensures { Answers (λ x. (x.0, x.1.now)) result (asked ask (way false depth) tokens.now) }
{
    let here = Reader { alloc, depth };
    let level = Level { here, read };
    match ask {
        Ask::Expression => level.expression(tokens),
        Ask::Negation => level.negation(tokens),
        Ask::Sum => level.sum(tokens),
        Ask::Product => level.product(tokens),
        Ask::Operand => level.operand(tokens),
    }
}

impl Reader {
    /// An expression: one disjunction, or an implication.
    pub fn expression<'a>(&self, tokens: &'a [Token]) -> Read<'a, Expr>
        ensures { Answers (λ x. (x.0, x.1.now)) result
            (phrase.expression (way false self.now.depth) tokens.now) }
    {
        read(self.alloc, self.depth, Ask::Expression, tokens)
    }

    /// One product, or a chain of sums.
    pub fn sum<'a>(&self, tokens: &'a [Token]) -> Read<'a, Expr>
        ensures { Answers (λ x. (x.0, x.1.now)) result
            (phrase.sum (way false self.now.depth) tokens.now) }
    {
        read(self.alloc, self.depth, Ask::Sum, tokens)
    }

    /// A range by its name, or by its two ends.
    pub fn range<'a>(&self, tokens: &'a [Token]) -> Read<'a, RangeText>
        ensures { Answers (λ x. (range_of x.0, x.1.now)) result
            (phrase.range (way false self.now.depth) tokens.now) }
    {
        let below = Below { here: *self, read };
        below.range(tokens)
    }

    /// Binders in parentheses.
    pub fn bindings<'a>(&self, tokens: &'a [Token]) -> Read<'a, Binders>
        ensures { Answers (λ x. (x.0, x.1.now)) result
            (phrase.bindings (way false self.now.depth) tokens.now) }
    {
        let below = Below { here: *self, read };
        below.bindings(tokens)
    }
}
