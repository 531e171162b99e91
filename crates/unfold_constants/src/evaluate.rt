//! The value of an expression in a constant place.

ghost use Rattle.std.specs.Prelude.{◌≡◌, ◌≤◌, [], map, IfOk, IfSome, OnOk, Some, pos, ℕ, option_and_then};
ghost use Rattle.std.specs.Int.RustNames.{unsigned_abs};
ghost use Rattle.sopl_base.specs.declared.limits.TheConstants as largest;
ghost use Rattle.sopl_ast.specs.Lists.{trees, terms, factors, binders};
ghost use Rattle.sopl_ast.specs.Ranges.{range_of};
ghost use Rattle.sopl_ast.specs.Sight.{shape_of_kind};
ghost use Rattle.sopl_ast.specs.Tree as t;
ghost use Rattle.sopl_ast.specs.Tree.{place_of};
ghost use Rattle.unfold_constants.specs.Choosing.{Leads, entered, give_name, leave_name, open_in, remaining};
ghost use Rattle.unfold_constants.specs.CountedAnswers.{Answers};
ghost use Rattle.unfold_tables.specs.Tables.{items, shown, ends_in};
ghost use Rattle.unfold_constants.specs.Here.{known_in};
ghost use Rattle.sopl_ast.specs.Constants.{within};
ghost use Rattle.sopl_ast.specs.Numbers.{one_or_zero as truth_number};
ghost use Rattle.sopl_ast.specs.References.{now_of};
ghost use Rattle.unfold_constants.specs.Evaluation as spec;
ghost use Rattle.unfold_constants.specs.Evaluation.{each_of, inside};

use crate::binder_walk::BinderWalk;
use crate::constant_scope::ConstantScope;
use sopl_ast::{Binder, Binders, Expr, Exprs, Factors, Kind, MulOp, Name, RangeText};
use sopl_base::{CmpOp, Extreme, Fault, Wide, codes};
use unfold_tables::{
    Count, Ends, Numbers, add, all_distinct, all_true, applied, are_within, checked_between,
    compares, extreme, is_true, one_or_zero, some_true, total, with_number,
    within as number_within,
};

/// Expressions that are evaluated together, inside the constant expression that begins at `whole`.
#[derive(Clone, Copy)]
struct Body<'a, 'b> {
    whole: usize,
    parts: &'b [&'a Expr],
}

/// The start, the length and the demand of tasks, as the text gives them.
#[derive(Clone, Copy)]
pub struct TaskText<'a> {
    pub start: &'a Expr,
    pub duration: &'a Expr,
    pub demand: &'a Expr,
}

/// A value that is there; else the constant expression that begins at `whole` is refused.
fn given(whole: usize, value: Option<i64>) -> Result<i64, Fault>
    ensures given { (count : ℕ) → Answers (λ x. x) count result (spec.given whole value count) }
    ensures kept { IfOk result (λ x. value ≡ Some x) }
{
    match value {
        Some(value) => Ok(value),
        None => Err(Fault::refused(codes::UNDEFINED, whole)),
    }
}

/// A value that is there, in more bits.
fn wide(value: Option<i64>) -> Option<i128>
    ensures { result ≡ value }
{
    match value {
        None => None,
        Some(value) => Some(i128::from(value)),
    }
}

/// What a condition is worth.
fn condition(holds: bool) -> Option<i128>
    ensures { result ≡ Some (truth_number holds) }
{
    Some(i128::from(one_or_zero(holds)))
}

/// What an expression is worth, if its size is that of a constant.
fn sized(worth: Option<i128>) -> Option<i64>
    ensures sized { result ≡ option_and_then within worth }
    ensures small { IfSome result (λ x. unsigned_abs x ≤ largest.CONSTANT_SIZE) }
{
    match worth {
        None => None,
        Some(worth) => number_within(worth),
    }
}

#[tactic(auto, using(sopl_ast::proofs::Lighter::lighter, crate::proofs::Body::parts, crate::proofs::Growing::growing))]
impl<'a> ConstantScope<'a> {
    /// The value of an expression, inside the one that begins at `whole`.
    #[cycle(evaluate)]
    pub(crate) fn number(&self, count: &mut Count, whole: usize, e: &'a Expr) -> Result<i64, Fault>
        ensures value { Answers (λ x. x) count.new.counted result (spec.number (known_in self.now) whole e.now count.old.counted) }
        ensures small { IfOk result (λ x. unsigned_abs x ≤ largest.CONSTANT_SIZE) }
    {
        let untested = self.untested(count, whole, &e.kind)?;
        given(whole, sized(untested))
    }

    /// The value of an expression that is a constant place of its own.
    pub(crate) fn own(&self, count: &mut Count, e: &'a Expr) -> Result<i64, Fault>
        ensures value { Answers (λ x. x) count.new.counted result (spec.number (known_in self.now) (place_of e.now) e.now count.old.counted) }
        ensures small { IfOk result (λ x. unsigned_abs x ≤ largest.CONSTANT_SIZE) }
    {
        self.number(count, e.at, e)
    }

    /// What an expression is worth, of any size.
    #[cycle(evaluate)]
    fn untested(
        &self,
        count: &mut Count,
        whole: usize,
        kind: &'a Kind,
    ) -> Result<Option<i128>, Fault>
        ensures { Answers (λ x. x) count.new.counted result (spec.untested (known_in self.now) whole (shape_of_kind kind.now) count.old.counted) }
    {
        match kind {
            Kind::Lit(value) => Ok(Some(i128::from(*value))),
            Kind::Name(name) => Ok(wide(self.value(name, &[]))),
            Kind::Index(name, indices) => self.element(count, whole, name, indices),
            Kind::Call(function, e) => Ok(Some(function.of(self.number(count, whole, e)?))),
            Kind::Add(parts) => Ok(Some(self.sum(count, whole, parts.as_slice())?.value)),
            Kind::Mul(parts) => Ok(Some(i128::from(self.product(count, whole, parts)?))),
            Kind::Cmp(op, a, b) => self.compared(count, whole, *op, a, b),
            Kind::Not(e) => Ok(condition(!is_true(self.number(count, whole, e)?))),
            Kind::And(parts) => self.all(count, whole, parts),
            Kind::Or(parts) => self.some(count, whole, parts),
            Kind::Implies(a, b) => self.implied(count, whole, a, b),
            Kind::Sum(over, e) => self.summed(count, whole, over, e),
            Kind::Selected(which, parts) => self.selected(count, whole, *which, parts),
            Kind::AllDifferent(over, e) => self.differ(count, whole, over, e),
            Kind::Cumulative(over, start, duration, demand, capacity) => {
                let task = TaskText {
                    start,
                    duration,
                    demand,
                };
                self.fit(count, whole, over, &task, capacity)
            }
        }
    }

    /// What an element of a constant is worth.
    #[cycle(evaluate)]
    fn element(
        &self,
        count: &mut Count,
        whole: usize,
        name: &'a Name,
        parts: &'a Exprs,
    ) -> Result<Option<i128>, Fault>
        ensures { Answers (λ x. x) count.new.counted result (spec.untested (known_in self.now) whole (t.Index name.now (trees parts.now)) count.old.counted) }
    {
        let index = self.numbers(count, whole, parts.as_slice())?;
        Ok(wide(self.value(name, index.as_slice())))
    }

    /// Whether a comparison holds, as a number.
    #[cycle(evaluate)]
    fn compared(
        &self,
        count: &mut Count,
        whole: usize,
        op: CmpOp,
        a: &'a Expr,
        b: &'a Expr,
    ) -> Result<Option<i128>, Fault>
        ensures { Answers (λ x. x) count.new.counted result (spec.untested (known_in self.now) whole (t.Cmp op a.now b.now) count.old.counted) }
    {
        let x = self.number(count, whole, a)?;
        let y = self.number(count, whole, b)?;
        Ok(condition(compares(op, x, y)))
    }

    /// Whether each of some conditions holds, as a number.
    #[cycle(evaluate)]
    fn all(&self, count: &mut Count, whole: usize, parts: &'a Exprs) -> Result<Option<i128>, Fault>
        ensures { Answers (λ x. x) count.new.counted result (spec.untested (known_in self.now) whole (t.And (trees parts.now)) count.old.counted) }
    {
        let xs = self.numbers(count, whole, parts.as_slice())?;
        Ok(condition(all_true(xs.as_slice())))
    }

    /// Whether one of some conditions holds, as a number.
    #[cycle(evaluate)]
    fn some(&self, count: &mut Count, whole: usize, parts: &'a Exprs) -> Result<Option<i128>, Fault>
        ensures { Answers (λ x. x) count.new.counted result (spec.untested (known_in self.now) whole (t.Or (trees parts.now)) count.old.counted) }
    {
        let xs = self.numbers(count, whole, parts.as_slice())?;
        Ok(condition(some_true(xs.as_slice())))
    }

    /// Whether one condition implies another, as a number.
    #[cycle(evaluate)]
    fn implied(
        &self,
        count: &mut Count,
        whole: usize,
        a: &'a Expr,
        b: &'a Expr,
    ) -> Result<Option<i128>, Fault>
        ensures { Answers (λ x. x) count.new.counted result (spec.untested (known_in self.now) whole (t.Implies a.now b.now) count.old.counted) }
    {
        let x = self.number(count, whole, a)?;
        let y = self.number(count, whole, b)?;
        Ok(condition(!is_true(x) || is_true(y)))
    }

    /// The least or the greatest of the values of some expressions.
    #[cycle(evaluate)]
    fn selected(
        &self,
        count: &mut Count,
        whole: usize,
        which: Extreme,
        parts: &'a Exprs,
    ) -> Result<Option<i128>, Fault>
        ensures { Answers (λ x. x) count.new.counted result (spec.untested (known_in self.now) whole (t.Selected which (trees parts.now)) count.old.counted) }
    {
        let xs = self.numbers(count, whole, parts.as_slice())?;
        Ok(wide(extreme(which, xs.as_slice())))
    }

    /// The sum of the values that an expression takes.
    #[cycle(evaluate)]
    fn summed(
        &self,
        count: &mut Count,
        whole: usize,
        over: &'a Binders,
        e: &'a Expr,
    ) -> Result<Option<i128>, Fault>
        ensures { Answers (λ x. x) count.new.counted result (spec.untested (known_in self.now) whole (t.Sum (binders over.now) e.now) count.old.counted) }
    {
        let mut xs = Vec::new(self.alloc);
        self.over(
            count,
            over.as_slice(),
            &Body { whole, parts: &[e] },
            &mut xs,
        )?;
        Ok(Some(total(xs.as_slice()).value))
    }

    /// Whether the values that an expression takes are all different, as a number.
    #[cycle(evaluate)]
    fn differ(
        &self,
        count: &mut Count,
        whole: usize,
        over: &'a Binders,
        e: &'a Expr,
    ) -> Result<Option<i128>, Fault>
        ensures { Answers (λ x. x) count.new.counted result (spec.untested (known_in self.now) whole (t.AllDifferent (binders over.now) e.now) count.old.counted) }
    {
        let mut xs = Vec::new(self.alloc);
        self.over(
            count,
            over.as_slice(),
            &Body { whole, parts: &[e] },
            &mut xs,
        )?;
        Ok(condition(all_distinct(self.alloc, xs.as_slice())?))
    }

    /// The values of expressions, in order.
    #[cycle(evaluate)]
    fn numbers(&self, count: &mut Count, whole: usize, parts: &'a [Expr]) -> Result<Vec<i64>, Fault>
        ensures { Answers items count.new.counted result (spec.numbers (known_in self.now) whole [] (trees parts.now) count.old.counted) }
    {
        let mut found = Vec::new(self.alloc);
        'parts: for part in parts {
            let number = self.number(count, whole, part)?;
            add(&mut found, number)?;
        }
        Ok(found)
    }

    /// The value of a chain of `*`, `div` and `mod`.
    #[cycle(evaluate)]
    fn product(&self, count: &mut Count, whole: usize, parts: &'a Factors) -> Result<i64, Fault>
        ensures { Answers (λ x. x) count.new.counted result
            (spec.whole_product (known_in self.now) whole parts.now.first (factors parts.now.others) count.old.counted) }
    {
        let mut product = self.number(count, whole, parts.first())?;
        'parts: for part in parts.as_slice() {
            product = self.multiplied(count, whole, product, part)?;
        }
        Ok(product)
    }

    /// A product with one factor more.
    #[cycle(evaluate)]
    fn multiplied(
        &self,
        count: &mut Count,
        whole: usize,
        before: i64,
        part: &'a (MulOp, Expr),
    ) -> Result<i64, Fault>
        ensures { Answers (λ x. x) count.new.counted result (spec.multiplied (known_in self.now) whole before part.now.0 part.now.1 count.old.counted) }
    {
        let factor = self.number(count, whole, &part.1)?;
        given(whole, applied(part.0, before, factor))
    }

    /// The sum of a chain of `+` and `-`.
    #[cycle(evaluate)]
    fn sum(&self, count: &mut Count, whole: usize, parts: &'a [(bool, Expr)]) -> Result<Wide, Fault>
        ensures { Answers (λ x. x.value) count.new.counted result (spec.sum (known_in self.now) whole (pos 0) (terms parts.now) count.old.counted) }
    {
        let mut total = Wide::of(0);
        'parts: for part in parts {
            let number = self.number(count, whole, &part.1)?;
            total = with_number(total, part.0, number);
        }
        Ok(total)
    }

    /// Whether tasks keep within a capacity, as a number.
    #[cycle(evaluate)]
    fn fit(
        &self,
        count: &mut Count,
        whole: usize,
        over: &'a Binders,
        task: &TaskText<'a>,
        capacity: &'a Expr,
    ) -> Result<Option<i128>, Fault>
        ensures { Answers (λ x. x) count.new.counted result
            (spec.untested (known_in self.now) whole (t.Cumulative (binders over.now) task.now.start.now task.now.duration.now task.now.demand.now capacity.now) count.old.counted) }
    {
        let xs = self.task_numbers(count, whole, over, task)?;
        let most = self.number(count, whole, capacity)?;
        Ok(condition(are_within(self.alloc, most, xs.as_slice())?))
    }

    /// The starts, lengths and demands of tasks, three numbers for each way in which binders take their values.
    #[cycle(evaluate)]
    fn task_numbers(
        &self,
        count: &mut Count,
        whole: usize,
        over: &'a Binders,
        task: &TaskText<'a>,
    ) -> Result<Vec<i64>, Fault>
        ensures { Answers items count.new.counted result
            (spec.task_numbers (known_in self.now) whole (binders over.now) task.now.start.now task.now.duration.now task.now.demand.now count.old.counted) }
    {
        let mut xs = Vec::new(self.alloc);
        let body = Body {
            whole,
            parts: &[task.start, task.duration, task.demand],
        };
        self.over(count, over.as_slice(), &body, &mut xs)?;
        Ok(xs)
    }

    /// Adds to `found` what a body is worth for each way in which binders take their values.
    #[cycle(evaluate)]
    fn over(
        &self,
        count: &mut Count,
        over: &'a [Binder],
        body: &Body<'a, '_>,
        found: &mut Vec<i64>,
    ) -> Result<(), Fault>
        ensures { Answers (λ u. found.new.items) count.new.counted result
            (spec.over (known_in self.now) body.now.whole (binders over.now) (each_of body.now.whole (map now_of body.now.parts.now)) found.old.items count.old.counted) }
    {
        let mut choices = BinderWalk::new(self, over.len())?;
        ConstantScope::enter(&mut choices, count, over, body, found)?;
        'choices: while choices.advance()? {
            count.add()?;
            ConstantScope::enter(&mut choices, count, over, body, found)?;
        }
        Ok(())
    }

    /// Adds to `found` what a body is worth where all binders have values; else opens the name of the next one, whose range is evaluated.
    #[cycle(evaluate)]
    fn enter(
        choices: &mut BinderWalk<'a>,
        count: &mut Count,
        over: &'a [Binder],
        body: &Body<'a, '_>,
        found: &mut Vec<i64>,
    ) -> Result<(), Fault>
        ensures leads { Leads
            (entered give_name leave_name (inside body.now.whole over.now (each_of body.now.whole (map now_of body.now.parts.now))) (known_in choices.old.here) (open_in choices.old)
            found.old.items count.old.counted)
            (remaining give_name leave_name (inside body.now.whole over.now (each_of body.now.whole (map now_of body.now.parts.now))) (known_in choices.new.here) (open_in choices.new)
            found.new.items count.new.counted)
            result }
        ensures grows { OnOk result (count.old.counted ≤ count.new.counted) }
    {
        let Some(binder) = over.get(choices.depth()) else {
            choices.here.each_of(count, body, found)?;
            choices.leave();
            return Ok(());
        };
        let numbers = choices
            .here
            .range_numbers(count, Some(body.whole), &binder.range)?;
        choices.open(&binder.name, &numbers)?;
        Ok(())
    }

    /// Adds to `found` what each part of a body is worth.
    #[cycle(evaluate)]
    fn each_of(
        &self,
        count: &mut Count,
        body: &Body<'a, '_>,
        found: &mut Vec<i64>,
    ) -> Result<(), Fault>
        ensures { Answers (λ u. found.new.items) count.new.counted result
            (spec.numbers (known_in self.now) body.now.whole found.old.items (trees (map now_of body.now.parts.now)) count.old.counted) }
    {
        'body: for part in body.parts {
            let number = self.number(count, body.whole, part)?;
            add(found, number)?;
        }
        Ok(())
    }

    /// The numbers of a range or a set. Its ends belong to the constant expression that begins at `whole`, if there is one; else each is a constant expression of its own.
    #[cycle(evaluate)]
    pub(crate) fn range_numbers(
        &self,
        count: &mut Count,
        whole: Option<usize>,
        range: &'a RangeText,
    ) -> Result<Numbers<'a>, Fault>
        ensures { Answers shown count.new.counted result (spec.range_numbers (known_in self.now) whole (range_of range.now) count.old.counted) }
    {
        match range {
            RangeText::Named { name, .. } => Ok(self.numbers_named(name)),
            RangeText::Ends { lo, hi } => Ok(Numbers::Between(self.ends(count, whole, lo, hi)?)),
        }
    }

    /// The ends of a range.
    #[cycle(evaluate)]
    pub(crate) fn ends(
        &self,
        count: &mut Count,
        whole: Option<usize>,
        lo: &'a Expr,
        hi: &'a Expr,
    ) -> Result<Ends, Fault>
        ensures { Answers ends_in count.new.counted result (spec.range_ends (known_in self.now) whole lo.now hi.now count.old.counted) }
    {
        let least = self.number(count, whole.unwrap_or(lo.at), lo)?;
        let greatest = self.number(count, whole.unwrap_or(hi.at), hi)?;
        let ends = Ends {
            lo: least,
            hi: greatest,
        };
        checked_ends(&ends)
    }
}

/// Gives these ends back, unless there are too many numbers between them.
fn checked_ends(ends: &Ends) -> Result<Ends, Fault>
    ensures { (count : ℕ) → Answers ends_in count result (spec.checked_between ends.now.lo ends.now.hi count) }
{
    match checked_between(codes::NUMBERS, ends) {
        Ok(()) => Ok(*ends),
        Err(fault) => Err(fault),
    }
}
