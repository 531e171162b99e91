//! Expressions of constraints and objectives: what is met in their constant places, which are divisors and the ranges of binders.

ghost use Rattle.std.specs.Prelude.{◌≤◌, map, OnOk};
ghost use Rattle.sopl_ast.specs.Lists.{trees, terms, factors, binders};
ghost use Rattle.sopl_ast.specs.References.{now_of};
ghost use Rattle.sopl_ast.specs.Tree as t;
ghost use Rattle.unfold_constants.specs.Choosing.{Leads, entered, give_name, leave_name, open_in, remaining};
ghost use Rattle.unfold_constants.specs.CountedAnswers.{Answers};
ghost use Rattle.unfold_constants.specs.Here.{known_in};
ghost use Rattle.unfold_constants.specs.Traversal as spec;

use crate::binder_walk::BinderWalk;
use crate::constant_scope::ConstantScope;
use crate::evaluate::TaskText;
use sopl_ast::{Binder, Binders, Expr, Factors, Kind, MulOp};
use sopl_base::{Fault, codes};
use unfold_tables::Count;

#[tactic(auto, using(sopl_ast::proofs::Lighter::lighter, crate::proofs::Body::parts, crate::proofs::Growing::growing))]
impl<'a> ConstantScope<'a> {
    /// Walks through an expression.
    #[cycle(walk)]
    pub(crate) fn walk(&self, count: &mut Count, e: &'a Expr) -> Result<(), Fault>
        ensures { Answers (λ u. u) count.new.counted result (spec.walk (known_in self.now) e.now count.old.counted) }
    {
        match &e.kind {
            Kind::Lit(_) | Kind::Name(_) => Ok(()),
            Kind::Index(_, parts) | Kind::And(parts) | Kind::Or(parts) | Kind::Selected(_, parts) =>
                self.walk_all(count, parts.as_slice()),
            Kind::Call(_, part) | Kind::Not(part) => self.walk(count, part),
            Kind::Add(parts) => self.walk_terms(count, parts.as_slice()),
            Kind::Mul(parts) => self.walk_product(count, parts),
            Kind::Cmp(_, a, b) | Kind::Implies(a, b) => {
                self.walk(count, a)?;
                self.walk(count, b)
            }
            Kind::Sum(over, part) | Kind::AllDifferent(over, part) => {
                self.walk_each(count, over, part)
            }
            Kind::Cumulative(over, start, duration, demand, capacity) => {
                let task = TaskText {
                    start,
                    duration,
                    demand,
                };
                self.walk_cumulative(count, over, &task, capacity)
            }
        }
    }

    /// Walks through expressions in order.
    #[cycle(walk)]
    fn walk_all(&self, count: &mut Count, parts: &'a [Expr]) -> Result<(), Fault>
        ensures { Answers (λ u. u) count.new.counted result (spec.walk_all (known_in self.now) (trees parts.now) count.old.counted) }
    {
        'parts: for part in parts {
            self.walk(count, part)?;
        }
        Ok(())
    }

    /// Walks through a chain of `+` and `-`.
    #[cycle(walk)]
    fn walk_terms(&self, count: &mut Count, parts: &'a [(bool, Expr)]) -> Result<(), Fault>
        ensures { Answers (λ u. u) count.new.counted result (spec.walk_terms (known_in self.now) (terms parts.now) count.old.counted) }
    {
        'parts: for part in parts {
            self.walk(count, &part.1)?;
        }
        Ok(())
    }

    /// Walks through a chain of `*`, `div` and `mod`.
    #[cycle(walk)]
    fn walk_product(&self, count: &mut Count, parts: &'a Factors) -> Result<(), Fault>
        ensures { Answers (λ u. u) count.new.counted result
            (spec.walk_product (known_in self.now) parts.now.first (factors parts.now.others) count.old.counted) }
    {
        self.walk(count, parts.first())?;
        'parts: for part in parts.as_slice() {
            self.walk_factor(count, part)?;
        }
        Ok(())
    }

    /// Walks through a factor, or evaluates a divisor.
    #[cycle(walk)]
    fn walk_factor(&self, count: &mut Count, part: &'a (MulOp, Expr)) -> Result<(), Fault>
        ensures { Answers (λ u. u) count.new.counted result (spec.walk_factor (known_in self.now) part.now.0 part.now.1 count.old.counted) }
    {
        match part.0 {
            MulOp::Times => self.walk(count, &part.1),
            MulOp::Div | MulOp::Mod => self.divisor(count, &part.1),
        }
    }

    /// Walks through an expression for each way in which binders take their values.
    #[cycle(walk)]
    fn walk_each(&self, count: &mut Count, over: &'a Binders, part: &'a Expr) -> Result<(), Fault>
        ensures { Answers (λ u. u) count.new.counted result (spec.walk_shape (known_in self.now) (t.Sum (binders over.now) part.now) count.old.counted) }
    {
        self.walk_over(count, over.as_slice(), &[part])
    }

    /// Walks through tasks and their capacity.
    #[cycle(walk)]
    fn walk_cumulative(
        &self,
        count: &mut Count,
        over: &'a Binders,
        task: &TaskText<'a>,
        capacity: &'a Expr,
    ) -> Result<(), Fault>
        ensures { Answers (λ u. u) count.new.counted result
            (spec.walk_shape (known_in self.now) (t.Cumulative (binders over.now) task.now.start.now task.now.duration.now task.now.demand.now capacity.now) count.old.counted) }
    {
        self.walk_tasks(count, over, task)?;
        self.walk(count, capacity)
    }

    /// Walks through the start, the length and the demand of tasks for each way in which binders take their values.
    #[cycle(walk)]
    fn walk_tasks(
        &self,
        count: &mut Count,
        over: &'a Binders,
        task: &TaskText<'a>,
    ) -> Result<(), Fault>
        ensures { Answers (λ u. u) count.new.counted result
            (spec.walk_tasks (known_in self.now) (binders over.now) task.now.start.now task.now.duration.now task.now.demand.now count.old.counted) }
    {
        let body = [task.start, task.duration, task.demand];
        self.walk_over(count, over.as_slice(), &body)
    }

    /// Walks through the expressions of `body` for each way in which binders take their values.
    #[cycle(walk)]
    fn walk_over(
        &self,
        count: &mut Count,
        over: &'a [Binder],
        body: &[&'a Expr],
    ) -> Result<(), Fault>
        ensures { Answers (λ u. u) count.new.counted result
            (spec.over (known_in self.now) (binders over.now) (spec.walk_body (map now_of body.now)) count.old.counted) }
    {
        let mut choices = BinderWalk::new(self, over.len())?;
        ConstantScope::walk_inside(&mut choices, count, over, body)?;
        'choices: while choices.advance()? {
            count.add()?;
            ConstantScope::walk_inside(&mut choices, count, over, body)?;
        }
        Ok(())
    }

    /// Walks through the expressions of `body` where all binders have values; else opens the name of the next one, whose range is evaluated.
    #[cycle(walk)]
    fn walk_inside(
        choices: &mut BinderWalk<'a>,
        count: &mut Count,
        over: &'a [Binder],
        body: &[&'a Expr],
    ) -> Result<(), Fault>
        ensures leads { Leads
            (entered give_name leave_name (spec.inside over.now (spec.walk_body (map now_of body.now))) (known_in choices.old.here) (open_in choices.old) tt count.old.counted)
            (remaining give_name leave_name (spec.inside over.now (spec.walk_body (map now_of body.now))) (known_in choices.new.here) (open_in choices.new) tt count.new.counted)
            result }
        ensures grows { OnOk result (count.old.counted ≤ count.new.counted) }
    {
        let Some(binder) = over.get(choices.depth()) else {
            choices.here.walk_body(count, body)?;
            choices.leave();
            return Ok(());
        };
        let numbers = choices.here.range_numbers(count, None, &binder.range)?;
        choices.open(&binder.name, &numbers)?;
        Ok(())
    }

    /// Walks through the expressions of a body.
    #[cycle(walk)]
    fn walk_body(&self, count: &mut Count, body: &[&'a Expr]) -> Result<(), Fault>
        ensures { Answers (λ u. u) count.new.counted result (spec.walk_all (known_in self.now) (trees (map now_of body.now)) count.old.counted) }
    {
        'body: for part in body {
            self.walk(count, part)?;
        }
        Ok(())
    }

    /// Evaluates a divisor, which is not 0.
    fn divisor(&self, count: &mut Count, e: &'a Expr) -> Result<(), Fault>
        ensures { Answers (λ u. u) count.new.counted result (spec.divisor (known_in self.now) e.now count.old.counted) }
    {
        let divisor = self.number(count, e.at, e)?;
        if divisor == 0 {
            return Err(Fault::refused(codes::UNDEFINED, e.at));
        }
        Ok(())
    }
}
