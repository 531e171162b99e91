//! Literals, names, parentheses and functions of expressions.

ghost use Rattle.std.specs.Prelude.{◌≡◌, false, [], ◌∷◌, length, option_map};
ghost use Rattle.parse_grammar.specs.Reading.{chain as chain_of};
ghost use Rattle.parse_grammar.specs.Expressions as phrase;
ghost use Rattle.parse_grammar.specs.Phrases.{way};
ghost use Rattle.parse_exprs.specs.ReaderAnswers.{Answers};
ghost use Rattle.parse_exprs.specs.Nests.{Nests};

use crate::chains::chain;
use crate::level::Level;
use crate::reader::{Ask, Next, ParseStop, Read};
use parse_grammar::{
    Mark, extreme_function, has_mark, literal, named, number_function, place, rest,
};
use sopl_ast::{Expr, Exprs, Function, Name, Token};
use sopl_base::Extreme;
use std::alloc::Global;

impl<F: Fn(Global, usize, Ask, &[Token]) -> Read<'_, Expr> + Copy> Level<F> {
    /// An index in brackets, if there is one.
    #[tactic(auto, unfolding(parse_grammar::specs::Expressions::next_index, parse_grammar::specs::Phrases::inner_of))]
    fn next_index<'a>(&self, tokens: &'a [Token]) -> Next<'a, Expr>
        requires { Nests self.now.here.depth (F.pre self.now.read) (F.post self.now.read) }
        ensures { Answers (λ x. (x.0, x.1.now)) result
            (phrase.next_index (way false self.now.here.depth) tokens.now) }
    {
        if !has_mark(Mark::BracketOpen, tokens) {
            return Ok((None, tokens));
        }
        let inner = self.inside(tokens)?;
        let read = inner.expression(rest(tokens))?;
        let (e, left) = self.here.closed(Mark::BracketClose, read)?;
        Ok((Some(e), left))
    }

    /// Indices one behind the other.
    #[tactic(auto, unfolding(parse_grammar::specs::Expressions::indices))]
    fn indices<'a>(&self, tokens: &'a [Token]) -> Read<'a, Exprs>
        requires { Nests self.now.here.depth (F.pre self.now.read) (F.post self.now.read) }
        ensures { Answers (λ x. (x.0, x.1.now)) result
            (phrase.indices (way false self.now.here.depth) tokens.now) }
    {
        let parts = Exprs::new(self.here.alloc);
        chain(parts, tokens, |left| self.next_index(left))
    }

    /// A name with its indices.
    #[tactic(auto, unfolding(parse_grammar::specs::Expressions::element))]
    fn element<'a>(&self, name: Name, tokens: &'a [Token]) -> Read<'a, Expr>
        requires { Nests self.now.here.depth (F.pre self.now.read) (F.post self.now.read) }
        ensures { Answers (λ x. (x.0, x.1.now)) result
            (phrase.element (way false self.now.here.depth) name tokens.now) }
    {
        let (found, left) = self.indices(rest(tokens))?;
        if found.as_slice().is_empty() {
            return Ok((Expr::name(place(tokens), name), left));
        }
        Ok((Expr::element(place(tokens), name, found), left))
    }

    /// An expression in parentheses.
    #[tactic(auto, unfolding(parse_grammar::specs::Expressions::parentheses, parse_grammar::specs::Phrases::inner_of))]
    fn parentheses<'a>(&self, tokens: &'a [Token]) -> Read<'a, Expr>
        requires { Nests self.now.here.depth (F.pre self.now.read) (F.post self.now.read) }
        ensures { Answers (λ x. (x.0, x.1.now)) result
            (phrase.parentheses (way false self.now.here.depth) tokens.now) }
    {
        let inner = self.inside(tokens)?;
        let read = inner.expression(rest(tokens))?;
        let (e, left) = self.here.closed(Mark::ParenClose, read)?;
        Ok((e.moved(place(tokens)), left))
    }

    /// A function of one expression.
    #[tactic(auto, unfolding(parse_grammar::specs::Expressions::function_call, parse_grammar::specs::Phrases::inner_of))]
    fn function_call<'a>(&self, function: Function, tokens: &'a [Token]) -> Read<'a, Expr>
        requires { Nests self.now.here.depth (F.pre self.now.read) (F.post self.now.read) }
        ensures { Answers (λ x. (x.0, x.1.now)) result
            (phrase.function_call (way false self.now.here.depth) function tokens.now) }
    {
        let (inner, left) = self.enter(Mark::ParenOpen, rest(tokens))?;
        let read = inner.expression(left)?;
        let (e, left) = self.here.closed(Mark::ParenClose, read)?;
        Ok((
            Expr::call(self.here.alloc, place(tokens), function, e)?,
            left,
        ))
    }

    /// The least or the greatest of some expressions.
    #[tactic(auto, unfolding(parse_grammar::specs::Expressions::extreme, parse_grammar::specs::Phrases::inner_of))]
    fn extreme<'a>(&self, which: Extreme, tokens: &'a [Token]) -> Read<'a, Expr>
        requires { Nests self.now.here.depth (F.pre self.now.read) (F.post self.now.read) }
        ensures { Answers (λ x. (x.0, x.1.now)) result
            (phrase.extreme (way false self.now.here.depth) which tokens.now) }
    {
        let (inner, left) = self.enter(Mark::ParenOpen, rest(tokens))?;
        let read = inner.arguments(left)?;
        let (parts, left) = self.here.closed(Mark::ParenClose, read)?;
        Ok((Expr::selected(place(tokens), which, parts), left))
    }

    /// Terms that all differ.
    #[tactic(auto, unfolding(parse_grammar::specs::Expressions::all_different, parse_grammar::specs::Phrases::inner_of))]
    fn all_different<'a>(&self, tokens: &'a [Token]) -> Read<'a, Expr>
        requires { Nests self.now.here.depth (F.pre self.now.read) (F.post self.now.read) }
        ensures { Answers (λ x. (x.0, x.1.now)) result
            (phrase.all_different (way false self.now.here.depth) tokens.now) }
    {
        let (inner, left) = self.enter(Mark::ParenOpen, rest(tokens))?;
        let read = inner.compared(left)?;
        let ((over, e), left) = self.here.closed(Mark::ParenClose, read)?;
        Ok((
            Expr::all_different(self.here.alloc, place(tokens), over, e)?,
            left,
        ))
    }

    /// Tasks below a capacity.
    #[tactic(auto, unfolding(parse_grammar::specs::Expressions::cumulative, parse_grammar::specs::Phrases::inner_of))]
    fn cumulative<'a>(&self, tokens: &'a [Token]) -> Read<'a, Expr>
        requires { Nests self.now.here.depth (F.pre self.now.read) (F.post self.now.read) }
        ensures { Answers (λ x. (x.0, x.1.now)) result
            (phrase.cumulative (way false self.now.here.depth) tokens.now) }
    {
        let (inner, left) = self.enter(Mark::ParenOpen, rest(tokens))?;
        let read = inner.tasks(left)?;
        let ((over, (task, capacity)), left) = self.here.closed(Mark::ParenClose, read)?;
        Ok((
            Expr::cumulative(self.here.alloc, place(tokens), over, task, capacity)?,
            left,
        ))
    }

    /// A function of expressions, or one in parentheses.
    #[tactic(auto, unfolding(parse_grammar::specs::Expressions::call))]
    fn call<'a>(&self, tokens: &'a [Token]) -> Read<'a, Expr>
        requires { Nests self.now.here.depth (F.pre self.now.read) (F.post self.now.read) }
        ensures { Answers (λ x. (x.0, x.1.now)) result
            (phrase.call (way false self.now.here.depth) tokens.now) }
    {
        if has_mark(Mark::ParenOpen, tokens) {
            return self.parentheses(tokens);
        }
        if let Some(function) = number_function(tokens) {
            return self.function_call(function, tokens);
        }
        if let Some(which) = extreme_function(tokens) {
            return self.extreme(which, tokens);
        }
        if has_mark(Mark::AllDifferent, tokens) {
            return self.all_different(tokens);
        }
        if has_mark(Mark::Cumulative, tokens) {
            return self.cumulative(tokens);
        }
        Err(ParseStop::Syntax(tokens))
    }

    /// A literal, a name with its indices, an expression in parentheses, or a function of
    /// expressions.
    #[tactic(auto, unfolding(parse_grammar::specs::Expressions::primary))]
    pub(crate) fn primary<'a>(&self, tokens: &'a [Token]) -> Read<'a, Expr>
        requires { Nests self.now.here.depth (F.pre self.now.read) (F.post self.now.read) }
        ensures { Answers (λ x. (x.0, x.1.now)) result
            (phrase.primary (way false self.now.here.depth) tokens.now) }
    {
        if let Some(value) = literal(tokens) {
            return Ok((Expr::literal(place(tokens), value), rest(tokens)));
        }
        if let Some(name) = named(tokens) {
            return self.element(name.copy(self.here.alloc)?, tokens);
        }
        self.call(tokens)
    }
}
