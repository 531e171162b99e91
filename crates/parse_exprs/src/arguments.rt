//! What stands inside the functions of expressions.

ghost use Rattle.std.specs.Prelude.{◌≡◌, ◌+◌, false, [], ◌∷◌, length, option_map};
ghost use Rattle.parse_grammar.specs.Reading.{chain as chain_of};
ghost use Rattle.parse_grammar.specs.Expressions as phrase;
ghost use Rattle.parse_grammar.specs.Phrases.{way};
ghost use Rattle.parse_exprs.specs.ReaderAnswers.{Answers};
ghost use Rattle.parse_exprs.specs.Tasks as piece;
ghost use Rattle.parse_exprs.specs.Tasks.{task_in};
ghost use Rattle.parse_exprs.specs.Nests.{Nests};

use crate::chains::chain;
use crate::level::Below;
use crate::reader::{Ask, Next, Read, joined};
use parse_grammar::{Mark, has_mark, rest};
use sopl_ast::{Binders, Expr, Exprs, Task, Token};
use std::alloc::Global;

impl<F: Fn(Global, usize, Ask, &[Token]) -> Read<'_, Expr> + Copy> Below<F> {
    /// A comma and an argument, if there are any.
    #[tactic(auto, unfolding(parse_grammar::specs::Expressions::next_argument))]
    fn next_argument<'a>(&self, tokens: &'a [Token]) -> Next<'a, Expr>
        requires { Nests (self.now.here.depth + 1) (F.pre self.now.read) (F.post self.now.read) }
        ensures { Answers (λ x. (x.0, x.1.now)) result
            (phrase.next_argument (way false self.now.here.depth) tokens.now) }
    {
        if !has_mark(Mark::Comma, tokens) {
            return Ok((None, tokens));
        }
        let (e, left) = self.expression(rest(tokens))?;
        Ok((Some(e), left))
    }

    /// Arguments behind the second one.
    #[tactic(auto, unfolding(parse_grammar::specs::Expressions::more_arguments))]
    fn more_arguments<'a>(&self, first: Expr, second: Expr, tokens: &'a [Token]) -> Read<'a, Exprs>
        requires { Nests (self.now.here.depth + 1) (F.pre self.now.read) (F.post self.now.read) }
        ensures { Answers (λ x. (x.0, x.1.now)) result
            (phrase.more_arguments (way false self.now.here.depth) first second tokens.now) }
    {
        let mut parts = Exprs::new(self.here.alloc);
        parts.push(first)?;
        parts.push(second)?;
        chain(parts, tokens, |left| self.next_argument(left))
    }

    /// Two arguments or more.
    #[tactic(auto, unfolding(parse_grammar::specs::Expressions::arguments))]
    pub(crate) fn arguments<'a>(&self, tokens: &'a [Token]) -> Read<'a, Exprs>
        requires { Nests (self.now.here.depth + 1) (F.pre self.now.read) (F.post self.now.read) }
        ensures { Answers (λ x. (x.0, x.1.now)) result
            (phrase.arguments (way false self.now.here.depth) tokens.now) }
    {
        let read = self.expression(tokens)?;
        let (first, left) = self.here.closed(Mark::Comma, read)?;
        let ((first, second), left) = joined(first, self.expression(left))?;
        self.more_arguments(first, second, left)
    }

    /// `all` with its binders.
    #[tactic(auto, unfolding(parse_grammar::specs::Expressions::all))]
    fn all<'a>(&self, tokens: &'a [Token]) -> Read<'a, Binders>
        requires { Nests (self.now.here.depth + 1) (F.pre self.now.read) (F.post self.now.read) }
        ensures { Answers (λ x. (x.0, x.1.now)) result
            (phrase.all (way false self.now.here.depth) tokens.now) }
    {
        let left = self.here.past(Mark::All, tokens)?;
        self.bindings(left)
    }

    /// What stands inside `allDifferent`.
    #[tactic(auto, unfolding(parse_grammar::specs::Expressions::compared))]
    pub(crate) fn compared<'a>(&self, tokens: &'a [Token]) -> Read<'a, (Binders, Expr)>
        requires { Nests (self.now.here.depth + 1) (F.pre self.now.read) (F.post self.now.read) }
        ensures { Answers (λ x. (x.0, x.1.now)) result
            (phrase.compared (way false self.now.here.depth) tokens.now) }
    {
        let (over, left) = self.all(tokens)?;
        joined(over, self.expression(left))
    }

    /// The start, the length and the demand of a task.
    #[tactic(auto, unfolding(parse_grammar::specs::Expressions::task))]
    pub(crate) fn task<'a>(&self, tokens: &'a [Token]) -> Read<'a, Task>
        requires { Nests (self.now.here.depth + 1) (F.pre self.now.read) (F.post self.now.read) }
        ensures { Answers (λ x. (task_in x.0, x.1.now)) result
            (phrase.task (way false self.now.here.depth) tokens.now) }
    {
        let read = self.expression(tokens)?;
        let (start, left) = self.here.closed(Mark::Comma, read)?;
        let read = joined(start, self.expression(left))?;
        let (first, left) = self.here.closed(Mark::Comma, read)?;
        let (((start, duration), demand), left) = joined(first, self.expression(left))?;
        Ok((
            Task {
                start,
                duration,
                demand,
            },
            left,
        ))
    }

    /// A task in parentheses.
    #[tactic(auto, unfolding(crate::specs::Tasks::enclosed_task, parse_grammar::specs::Phrases::inner_of))]
    fn enclosed_task<'a>(&self, tokens: &'a [Token]) -> Read<'a, Task>
        requires { Nests (self.now.here.depth + 1) (F.pre self.now.read) (F.post self.now.read) }
        ensures { Answers (λ x. (task_in x.0, x.1.now)) result
            (piece.enclosed_task (way false self.now.here.depth) tokens.now) }
    {
        let (inner, left) = self.enter(Mark::ParenOpen, tokens)?;
        let read = inner.task(left)?;
        self.here.closed(Mark::ParenClose, read)
    }

    /// A task in parentheses, and the capacity.
    #[tactic(auto, unfolding(crate::specs::Tasks::limited_task))]
    fn limited_task<'a>(&self, tokens: &'a [Token]) -> Read<'a, (Task, Expr)>
        requires { Nests (self.now.here.depth + 1) (F.pre self.now.read) (F.post self.now.read) }
        ensures { Answers (λ x. ((task_in x.0.0, x.0.1), x.1.now)) result
            (piece.limited_task (way false self.now.here.depth) tokens.now) }
    {
        let read = self.enclosed_task(tokens)?;
        let (task, left) = self.here.closed(Mark::Comma, read)?;
        joined(task, self.expression(left))
    }

    /// What stands inside `cumulative`: the binders, the task and the capacity.
    #[tactic(auto, using(crate::proofs::Grouped::tasks_parts))]
    pub(crate) fn tasks<'a>(&self, tokens: &'a [Token]) -> Read<'a, (Binders, (Task, Expr))>
        requires { Nests (self.now.here.depth + 1) (F.pre self.now.read) (F.post self.now.read) }
        ensures { Answers (λ x. ((x.0.0, (task_in x.0.1.0, x.0.1.1)), x.1.now)) result
            (phrase.tasks (way false self.now.here.depth) tokens.now) }
    {
        let (over, left) = self.all(tokens)?;
        joined(over, self.limited_task(left))
    }
}
