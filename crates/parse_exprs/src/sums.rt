//! Products and sums.

ghost use Rattle.std.specs.Prelude.{◌≡◌, false, [], ◌∷◌, length, option_map};
ghost use Rattle.parse_grammar.specs.Reading.{chain as chain_of};
ghost use Rattle.parse_grammar.specs.Expressions as phrase;
ghost use Rattle.parse_grammar.specs.Phrases.{way};
ghost use Rattle.parse_exprs.specs.ReaderAnswers.{Answers};
ghost use Rattle.parse_exprs.specs.Nests.{Nests};

use crate::chains::chain;
use crate::level::Level;
use crate::reader::{Ask, Next, Read, joined};
use parse_grammar::{Mark, factor_operator, has_mark, place, rest, term_operator};
use sopl_ast::{Expr, Factors, Function, MulOp, Terms, Token};
use std::alloc::Global;

impl<F: Fn(Global, usize, Ask, &[Token]) -> Read<'_, Expr> + Copy> Level<F> {
    /// A negative operand.
    #[tactic(auto, unfolding(parse_grammar::specs::Expressions::negative, parse_grammar::specs::Phrases::inner_of))]
    fn negative<'a>(&self, tokens: &'a [Token]) -> Read<'a, Expr>
        requires { Nests self.now.here.depth (F.pre self.now.read) (F.post self.now.read) }
        ensures { Answers (λ x. (x.0, x.1.now)) result
            (phrase.negative (way false self.now.here.depth) tokens.now) }
    {
        let inner = self.inside(tokens)?;
        let (e, left) = inner.operand(rest(tokens))?;
        Ok((
            Expr::call(self.here.alloc, place(tokens), Function::Negative, e)?,
            left,
        ))
    }

    /// A sum over binders.
    #[tactic(auto, unfolding(parse_grammar::specs::Expressions::total, parse_grammar::specs::Phrases::inner_of))]
    fn total<'a>(&self, tokens: &'a [Token]) -> Read<'a, Expr>
        requires { Nests self.now.here.depth (F.pre self.now.read) (F.post self.now.read) }
        ensures { Answers (λ x. (x.0, x.1.now)) result
            (phrase.total (way false self.now.here.depth) tokens.now) }
    {
        let inner = self.inside(tokens)?;
        let ((over, e), left) = inner.summed(rest(tokens))?;
        Ok((Expr::total(self.here.alloc, place(tokens), over, e)?, left))
    }

    /// An operand of a product.
    #[tactic(auto, unfolding(parse_grammar::specs::Expressions::operand))]
    pub(crate) fn operand<'a>(&self, tokens: &'a [Token]) -> Read<'a, Expr>
        requires { Nests self.now.here.depth (F.pre self.now.read) (F.post self.now.read) }
        ensures { Answers (λ x. (x.0, x.1.now)) result
            (phrase.operand (way false self.now.here.depth) tokens.now) }
    {
        if has_mark(Mark::Minus, tokens) {
            return self.negative(tokens);
        }
        if has_mark(Mark::Sum, tokens) {
            return self.total(tokens);
        }
        self.primary(tokens)
    }

    /// An operator of a product and its operand, if there are any.
    #[tactic(auto, unfolding(parse_grammar::specs::Expressions::next_factor))]
    fn next_factor<'a>(&self, tokens: &'a [Token]) -> Next<'a, (MulOp, Expr)>
        requires { Nests self.now.here.depth (F.pre self.now.read) (F.post self.now.read) }
        ensures { Answers (λ x. (x.0, x.1.now)) result
            (phrase.next_factor (way false self.now.here.depth) tokens.now) }
    {
        let Some(op) = factor_operator(tokens) else {
            return Ok((None, tokens));
        };
        let (e, left) = self.operand(rest(tokens))?;
        Ok((Some((op, e)), left))
    }

    /// A chain of products, behind its second part.
    #[tactic(auto, unfolding(parse_grammar::specs::Expressions::more_factors))]
    fn more_factors<'a>(
        &self,
        first: Expr,
        second: (MulOp, Expr),
        tokens: &'a [Token],
    ) -> Read<'a, Expr>
        requires { Nests self.now.here.depth (F.pre self.now.read) (F.post self.now.read) }
        ensures { Answers (λ x. (x.0, x.1.now)) result
            (phrase.more_factors (way false self.now.here.depth) first second tokens.now) }
    {
        let at = first.at;
        let mut parts = Factors::new(self.here.alloc, first)?;
        parts.push(second)?;
        let mut left = tokens;
        'parts: for _turn in 0..tokens.len() {
            let (part, behind) = self.next_factor(left)?;
            left = behind;
            let Some(part) = part else {
                break;
            };
            parts.push(part)?;
        }
        Ok((Expr::product_of(at, parts), left))
    }

    /// One operand, or a chain of products.
    #[tactic(auto, unfolding(parse_grammar::specs::Expressions::product))]
    pub(crate) fn product<'a>(&self, tokens: &'a [Token]) -> Read<'a, Expr>
        requires { Nests self.now.here.depth (F.pre self.now.read) (F.post self.now.read) }
        ensures { Answers (λ x. (x.0, x.1.now)) result
            (phrase.product (way false self.now.here.depth) tokens.now) }
    {
        let (first, left) = self.operand(tokens)?;
        let ((first, second), left) = joined(first, self.next_factor(left))?;
        match second {
            None => Ok((first, left)),
            Some(second) => self.more_factors(first, second, left),
        }
    }

    /// An operator of a sum and its part, if there are any.
    #[tactic(auto, unfolding(parse_grammar::specs::Expressions::next_term))]
    fn next_term<'a>(&self, tokens: &'a [Token]) -> Next<'a, (bool, Expr)>
        requires { Nests self.now.here.depth (F.pre self.now.read) (F.post self.now.read) }
        ensures { Answers (λ x. (x.0, x.1.now)) result
            (phrase.next_term (way false self.now.here.depth) tokens.now) }
    {
        let Some(minus) = term_operator(tokens) else {
            return Ok((None, tokens));
        };
        let (e, left) = self.product(rest(tokens))?;
        Ok((Some((minus, e)), left))
    }

    /// The parts of a chain of sums.
    fn terms<'a>(&self, first: Expr, second: (bool, Expr), tokens: &'a [Token]) -> Read<'a, Terms>
        requires { Nests self.now.here.depth (F.pre self.now.read) (F.post self.now.read) }
        ensures { Answers (λ x. (x.0, x.1.now)) result
            (chain_of (phrase.next_term (way false self.now.here.depth)) (length tokens.now) ((false, first) ∷ second ∷ []) tokens.now) }
    {
        let mut parts = Terms::new(self.here.alloc);
        parts.push((false, first))?;
        parts.push(second)?;
        chain(parts, tokens, |left| self.next_term(left))
    }

    /// A chain of sums, behind its second part.
    #[tactic(auto, unfolding(parse_grammar::specs::Expressions::more_terms))]
    fn more_terms<'a>(
        &self,
        first: Expr,
        second: (bool, Expr),
        tokens: &'a [Token],
    ) -> Read<'a, Expr>
        requires { Nests self.now.here.depth (F.pre self.now.read) (F.post self.now.read) }
        ensures { Answers (λ x. (x.0, x.1.now)) result
            (phrase.more_terms (way false self.now.here.depth) first second tokens.now) }
    {
        let at = first.at;
        let (parts, left) = self.terms(first, second, tokens)?;
        Ok((Expr::sum_of(at, parts), left))
    }

    /// One product, or a chain of sums.
    #[tactic(auto, unfolding(parse_grammar::specs::Expressions::sum))]
    pub(crate) fn sum<'a>(&self, tokens: &'a [Token]) -> Read<'a, Expr>
        requires { Nests self.now.here.depth (F.pre self.now.read) (F.post self.now.read) }
        ensures { Answers (λ x. (x.0, x.1.now)) result
            (phrase.sum (way false self.now.here.depth) tokens.now) }
    {
        let (first, left) = self.product(tokens)?;
        let ((first, second), left) = joined(first, self.next_term(left))?;
        match second {
            None => Ok((first, left)),
            Some(second) => self.more_terms(first, second, left),
        }
    }
}
