//! Ranges, and the binders that go over them.

ghost use Rattle.std.specs.Prelude.{◌≡◌, ◌+◌, false, [], ◌∷◌, length, option_map, option_copied};
ghost use Rattle.sopl_ast.specs.Ranges.{range_of};
ghost use Rattle.parse_grammar.specs.Reading.{chain as chain_of};
ghost use Rattle.parse_grammar.specs.Expressions as phrase;
ghost use Rattle.parse_grammar.specs.Phrases.{way};
ghost use Rattle.parse_exprs.specs.ReaderAnswers.{Answers};
ghost use Rattle.parse_exprs.specs.Nests.{Nests};

use crate::chains::chain;
use crate::level::Below;
use crate::reader::{Ask, Next, Read, joined};
use parse_grammar::{Mark, has_mark, named, place, range_end, rest};
use sopl_ast::{Binder, Binders, Expr, Name, RangeText, Token};
use std::alloc::Global;

/// The name of a range that is one name, by two tokens.
#[tactic(auto, unfolding(parse_grammar::specs::Expressions::range_name))]
fn range_name(tokens: &[Token]) -> Option<&Name>
    ensures { option_copied result ≡ phrase.range_name tokens.now }
{
    let name = named(tokens)?;
    range_end(rest(tokens))?;
    Some(name)
}

impl<F: Fn(Global, usize, Ask, &[Token]) -> Read<'_, Expr> + Copy> Below<F> {
    /// A range by its two ends.
    #[tactic(auto, unfolding(parse_grammar::specs::Expressions::ends))]
    fn ends<'a>(&self, tokens: &'a [Token]) -> Read<'a, RangeText>
        requires { Nests (self.now.here.depth + 1) (F.pre self.now.read) (F.post self.now.read) }
        ensures { Answers (λ x. (range_of x.0, x.1.now)) result
            (phrase.ends (way false self.now.here.depth) tokens.now) }
    {
        let read = self.sum(tokens)?;
        let (lo, left) = self.here.closed(Mark::DotDot, read)?;
        let ((lo, hi), left) = joined(lo, self.sum(left))?;
        Ok((RangeText::Ends { lo, hi }, left))
    }

    /// A range by its name, or by its two ends.
    #[tactic(auto, unfolding(parse_grammar::specs::Expressions::range))]
    pub(crate) fn range<'a>(&self, tokens: &'a [Token]) -> Read<'a, RangeText>
        requires { Nests (self.now.here.depth + 1) (F.pre self.now.read) (F.post self.now.read) }
        ensures { Answers (λ x. (range_of x.0, x.1.now)) result
            (phrase.range (way false self.now.here.depth) tokens.now) }
    {
        let Some(name) = range_name(tokens) else {
            return self.ends(tokens);
        };
        let range = RangeText::Named {
            name: name.copy(self.here.alloc)?,
            at: place(tokens),
        };
        Ok((range, rest(tokens)))
    }

    /// A name that goes over a range.
    #[tactic(auto, unfolding(parse_grammar::specs::Expressions::binder))]
    fn binder<'a>(&self, tokens: &'a [Token]) -> Read<'a, Binder>
        requires { Nests (self.now.here.depth + 1) (F.pre self.now.read) (F.post self.now.read) }
        ensures { Answers (λ x. (x.0, x.1.now)) result
            (phrase.binder (way false self.now.here.depth) tokens.now) }
    {
        let read = self.here.name(tokens)?;
        let ((name, at), left) = self.here.closed(Mark::Inside, read)?;
        let ((name, range), left) = joined(name, self.range(left))?;
        Ok((Binder { name, at, range }, left))
    }

    /// A comma and a binder, if there are any.
    #[tactic(auto, unfolding(parse_grammar::specs::Expressions::next_binder))]
    fn next_binder<'a>(&self, tokens: &'a [Token]) -> Next<'a, Binder>
        requires { Nests (self.now.here.depth + 1) (F.pre self.now.read) (F.post self.now.read) }
        ensures { Answers (λ x. (x.0, x.1.now)) result
            (phrase.next_binder (way false self.now.here.depth) tokens.now) }
    {
        if !has_mark(Mark::Comma, tokens) {
            return Ok((None, tokens));
        }
        let (binder, left) = self.binder(rest(tokens))?;
        Ok((Some(binder), left))
    }

    /// Binders behind the first one.
    #[tactic(auto, unfolding(parse_grammar::specs::Expressions::more_binders))]
    fn more_binders<'a>(&self, first: Binder, tokens: &'a [Token]) -> Read<'a, Binders>
        requires { Nests (self.now.here.depth + 1) (F.pre self.now.read) (F.post self.now.read) }
        ensures { Answers (λ x. (x.0, x.1.now)) result
            (phrase.more_binders (way false self.now.here.depth) first tokens.now) }
    {
        let mut parts = Binders::new(self.here.alloc);
        parts.push(first)?;
        chain(parts, tokens, |left| self.next_binder(left))
    }

    /// Binders, inside their parentheses.
    #[tactic(auto, unfolding(parse_grammar::specs::Expressions::bound))]
    fn bound<'a>(&self, tokens: &'a [Token]) -> Read<'a, Binders>
        requires { Nests (self.now.here.depth + 1) (F.pre self.now.read) (F.post self.now.read) }
        ensures { Answers (λ x. (x.0, x.1.now)) result
            (phrase.bound (way false self.now.here.depth) tokens.now) }
    {
        let (first, left) = self.binder(tokens)?;
        self.more_binders(first, left)
    }

    /// Binders in parentheses.
    #[tactic(auto, unfolding(parse_grammar::specs::Expressions::bindings, parse_grammar::specs::Phrases::inner_of))]
    pub(crate) fn bindings<'a>(&self, tokens: &'a [Token]) -> Read<'a, Binders>
        requires { Nests (self.now.here.depth + 1) (F.pre self.now.read) (F.post self.now.read) }
        ensures { Answers (λ x. (x.0, x.1.now)) result
            (phrase.bindings (way false self.now.here.depth) tokens.now) }
    {
        let (inner, left) = self.enter(Mark::ParenOpen, tokens)?;
        let read = inner.bound(left)?;
        self.here.closed(Mark::ParenClose, read)
    }

    /// What stands behind `sum`.
    #[tactic(auto, unfolding(parse_grammar::specs::Expressions::summed))]
    pub(crate) fn summed<'a>(&self, tokens: &'a [Token]) -> Read<'a, (Binders, Expr)>
        requires { Nests (self.now.here.depth + 1) (F.pre self.now.read) (F.post self.now.read) }
        ensures { Answers (λ x. (x.0, x.1.now)) result
            (phrase.summed (way false self.now.here.depth) tokens.now) }
    {
        let (over, left) = self.bindings(tokens)?;
        joined(over, self.product(left))
    }
}
