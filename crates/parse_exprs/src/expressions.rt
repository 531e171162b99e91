//! Comparisons, conditions and whole expressions.

ghost use Rattle.std.specs.Prelude.{◌≡◌, false, [], ◌∷◌, length, option_map};
ghost use Rattle.parse_grammar.specs.Reading.{chain as chain_of};
ghost use Rattle.parse_grammar.specs.Expressions as phrase;
ghost use Rattle.parse_grammar.specs.Phrases.{way};
ghost use Rattle.parse_exprs.specs.ReaderAnswers.{Answers};
ghost use Rattle.parse_exprs.specs.Nests.{Nests};

use crate::chains::chain;
use crate::level::Level;
use crate::reader::{Ask, Next, Read, joined};
use parse_grammar::{Mark, comparison_operator, has_mark, place, rest};
use sopl_ast::{Expr, Exprs, Token};
use std::alloc::Global;

impl<F: Fn(Global, usize, Ask, &[Token]) -> Read<'_, Expr> + Copy> Level<F> {
    /// One sum, or one comparison of two.
    #[tactic(auto, unfolding(parse_grammar::specs::Expressions::comparison))]
    fn comparison<'a>(&self, tokens: &'a [Token]) -> Read<'a, Expr>
        requires { Nests self.now.here.depth (F.pre self.now.read) (F.post self.now.read) }
        ensures { Answers (λ x. (x.0, x.1.now)) result
            (phrase.comparison (way false self.now.here.depth) tokens.now) }
    {
        let (first, left) = self.sum(tokens)?;
        let Some(op) = comparison_operator(left) else {
            return Ok((first, left));
        };
        let ((first, second), left) = joined(first, self.sum(rest(left)))?;
        Ok((Expr::compare(self.here.alloc, op, first, second)?, left))
    }

    /// The negation behind its mark.
    #[tactic(auto, unfolding(parse_grammar::specs::Expressions::negated, parse_grammar::specs::Phrases::inner_of))]
    fn negated<'a>(&self, tokens: &'a [Token]) -> Read<'a, Expr>
        requires { Nests self.now.here.depth (F.pre self.now.read) (F.post self.now.read) }
        ensures { Answers (λ x. (x.0, x.1.now)) result
            (phrase.negated (way false self.now.here.depth) tokens.now) }
    {
        let inner = self.inside(tokens)?;
        let (e, left) = inner.negation(rest(tokens))?;
        Ok((Expr::negation(self.here.alloc, place(tokens), e)?, left))
    }

    /// A comparison, or the negation of one.
    #[tactic(auto, unfolding(parse_grammar::specs::Expressions::negation))]
    pub(crate) fn negation<'a>(&self, tokens: &'a [Token]) -> Read<'a, Expr>
        requires { Nests self.now.here.depth (F.pre self.now.read) (F.post self.now.read) }
        ensures { Answers (λ x. (x.0, x.1.now)) result
            (phrase.negation (way false self.now.here.depth) tokens.now) }
    {
        if has_mark(Mark::Not, tokens) {
            return self.negated(tokens);
        }
        self.comparison(tokens)
    }

    /// `&&` and its operand, if there are any.
    #[tactic(auto, unfolding(parse_grammar::specs::Expressions::next_conjunct))]
    fn next_conjunct<'a>(&self, tokens: &'a [Token]) -> Next<'a, Expr>
        requires { Nests self.now.here.depth (F.pre self.now.read) (F.post self.now.read) }
        ensures { Answers (λ x. (x.0, x.1.now)) result
            (phrase.next_conjunct (way false self.now.here.depth) tokens.now) }
    {
        if !has_mark(Mark::AndAnd, tokens) {
            return Ok((None, tokens));
        }
        let (e, left) = self.negation(rest(tokens))?;
        Ok((Some(e), left))
    }

    /// The parts of a chain of `&&`.
    fn conjuncts<'a>(&self, first: Expr, second: Expr, tokens: &'a [Token]) -> Read<'a, Exprs>
        requires { Nests self.now.here.depth (F.pre self.now.read) (F.post self.now.read) }
        ensures { Answers (λ x. (x.0, x.1.now)) result
            (chain_of (phrase.next_conjunct (way false self.now.here.depth)) (length tokens.now) (first ∷ second ∷ []) tokens.now) }
    {
        let mut parts = Exprs::new(self.here.alloc);
        parts.push(first)?;
        parts.push(second)?;
        chain(parts, tokens, |left| self.next_conjunct(left))
    }

    /// A chain of `&&`, behind its second part.
    #[tactic(auto, unfolding(parse_grammar::specs::Expressions::more_conjuncts))]
    fn more_conjuncts<'a>(&self, first: Expr, second: Expr, tokens: &'a [Token]) -> Read<'a, Expr>
        requires { Nests self.now.here.depth (F.pre self.now.read) (F.post self.now.read) }
        ensures { Answers (λ x. (x.0, x.1.now)) result
            (phrase.more_conjuncts (way false self.now.here.depth) first second tokens.now) }
    {
        let at = first.at;
        let (parts, left) = self.conjuncts(first, second, tokens)?;
        Ok((Expr::all_of(at, parts), left))
    }

    /// One negation, or a chain of `&&`.
    #[tactic(auto, unfolding(parse_grammar::specs::Expressions::conjunction))]
    pub(crate) fn conjunction<'a>(&self, tokens: &'a [Token]) -> Read<'a, Expr>
        requires { Nests self.now.here.depth (F.pre self.now.read) (F.post self.now.read) }
        ensures { Answers (λ x. (x.0, x.1.now)) result
            (phrase.conjunction (way false self.now.here.depth) tokens.now) }
    {
        let (first, left) = self.negation(tokens)?;
        let ((first, second), left) = joined(first, self.next_conjunct(left))?;
        match second {
            None => Ok((first, left)),
            Some(second) => self.more_conjuncts(first, second, left),
        }
    }

    /// `||` and its operand, if there are any.
    #[tactic(auto, unfolding(parse_grammar::specs::Expressions::next_disjunct))]
    fn next_disjunct<'a>(&self, tokens: &'a [Token]) -> Next<'a, Expr>
        requires { Nests self.now.here.depth (F.pre self.now.read) (F.post self.now.read) }
        ensures { Answers (λ x. (x.0, x.1.now)) result
            (phrase.next_disjunct (way false self.now.here.depth) tokens.now) }
    {
        if !has_mark(Mark::OrOr, tokens) {
            return Ok((None, tokens));
        }
        let (e, left) = self.conjunction(rest(tokens))?;
        Ok((Some(e), left))
    }

    /// The parts of a chain of `||`.
    fn disjuncts<'a>(&self, first: Expr, second: Expr, tokens: &'a [Token]) -> Read<'a, Exprs>
        requires { Nests self.now.here.depth (F.pre self.now.read) (F.post self.now.read) }
        ensures { Answers (λ x. (x.0, x.1.now)) result
            (chain_of (phrase.next_disjunct (way false self.now.here.depth)) (length tokens.now) (first ∷ second ∷ []) tokens.now) }
    {
        let mut parts = Exprs::new(self.here.alloc);
        parts.push(first)?;
        parts.push(second)?;
        chain(parts, tokens, |left| self.next_disjunct(left))
    }

    /// A chain of `||`, behind its second part.
    #[tactic(auto, unfolding(parse_grammar::specs::Expressions::more_disjuncts))]
    fn more_disjuncts<'a>(&self, first: Expr, second: Expr, tokens: &'a [Token]) -> Read<'a, Expr>
        requires { Nests self.now.here.depth (F.pre self.now.read) (F.post self.now.read) }
        ensures { Answers (λ x. (x.0, x.1.now)) result
            (phrase.more_disjuncts (way false self.now.here.depth) first second tokens.now) }
    {
        let at = first.at;
        let (parts, left) = self.disjuncts(first, second, tokens)?;
        Ok((Expr::any_of(at, parts), left))
    }

    /// One conjunction, or a chain of `||`.
    #[tactic(auto, unfolding(parse_grammar::specs::Expressions::disjunction))]
    pub(crate) fn disjunction<'a>(&self, tokens: &'a [Token]) -> Read<'a, Expr>
        requires { Nests self.now.here.depth (F.pre self.now.read) (F.post self.now.read) }
        ensures { Answers (λ x. (x.0, x.1.now)) result
            (phrase.disjunction (way false self.now.here.depth) tokens.now) }
    {
        let (first, left) = self.conjunction(tokens)?;
        let ((first, second), left) = joined(first, self.next_disjunct(left))?;
        match second {
            None => Ok((first, left)),
            Some(second) => self.more_disjuncts(first, second, left),
        }
    }

    /// An expression: one disjunction, or an implication.
    #[tactic(auto, unfolding(parse_grammar::specs::Expressions::expression, parse_grammar::specs::Phrases::inner_of))]
    pub(crate) fn expression<'a>(&self, tokens: &'a [Token]) -> Read<'a, Expr>
        requires { Nests self.now.here.depth (F.pre self.now.read) (F.post self.now.read) }
        ensures { Answers (λ x. (x.0, x.1.now)) result
            (phrase.expression (way false self.now.here.depth) tokens.now) }
    {
        let (first, left) = self.disjunction(tokens)?;
        if !has_mark(Mark::Arrow, left) {
            return Ok((first, left));
        }
        let inner = self.inside(left)?;
        let (second, left) = inner.expression(rest(left))?;
        Ok((Expr::implies(self.here.alloc, first, second)?, left))
    }
}
