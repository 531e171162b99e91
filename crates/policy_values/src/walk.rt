//! The walk over an expression.

ghost use Rattle.std.specs.Prelude.{◌≡◌, ◌∷◌, ◌++◌, [], None, map, IfOk, OnOk, option_and_then, option_map};
ghost use Rattle.std.specs.List.{AllByRecursion};
ghost use Rattle.sopl_base.specs.Extremes.{chosen_by};
ghost use Rattle.sopl_ast.specs.Constants.{value};
ghost use Rattle.sopl_ast.specs.Known as place;
ghost use Rattle.sopl_ast.specs.Lists.{binders, factors, terms, trees};
ghost use Rattle.sopl_ast.specs.Meanings as meant;
ghost use Rattle.sopl_ast.specs.Meanings.{all_true, defined_values, meaning, places, product_value, shape_meaning, some_true, sum_value};
ghost use Rattle.sopl_ast.specs.Numbers.{all_of, task_of};
ghost use Rattle.sopl_ast.specs.Numbers as spec;
ghost use Rattle.sopl_ast.specs.Tree as t;
ghost use Rattle.sopl_ast.specs.UnfoldEvents.{divisor_events};
ghost use Rattle.sopl_ast.specs.declared.operators.MulOp.TheVariants.{Times};
ghost use Rattle.unfold_laws.specs.Passing.{NothingFails};
ghost use Rattle.unfold_constants.specs.Here.{known_in};
ghost use Rattle.unfold_tables.specs.Tables.{items, task_in};
ghost use Rattle.policy_values.specs.Listing.{task_numbers};
ghost use Rattle.policy_values.specs.Played.{IsPlayed, place_of};
ghost use Rattle.policy_values.specs.Safe.{AreSafe, AreTestable, FactorsAreSafe, HasConstantSize, IsSafe, IsTestable, OverIsSafe, ShapeIsSafe, TasksAreSafe};

use crate::arithmetic::{
    are_different, called, compared, divided, extreme_of, fit, product, summed, total_of, truth,
};
use crate::played::PlayedScenario;
use compile_counts::{all_places, divisor};
use sopl_ast::{Binders, Expr, Factors, Function, Kind, MulOp, Name};
use sopl_base::{CmpOp, Extreme, Wide};
use std::alloc::AllocError;
use unfold_constants::{ConstantScope, TaskText};
use unfold_tables::{TaskNumbers, add, with_number};

/// A task of three numbers that are there.
fn task_from(start: Option<i64>, duration: Option<i64>, demand: Option<i64>) -> Option<TaskNumbers>
    ensures task { option_map task_in result ≡ task_of start duration demand }
{
    let start = start?;
    let duration = duration?;
    let demand = demand?;
    Some(TaskNumbers {
        start,
        duration,
        demand,
    })
}

/// Adds the three numbers of a task.
fn add_task(found: &mut Vec<i64>, task: &TaskNumbers) -> Result<(), AllocError>
    ensures added { OnOk result (found.new.items ≡ found.old.items ++ task.now.start ∷ task.now.duration ∷ task.now.demand ∷ []) }
{
    found.push(task.start)?;
    found.push(task.duration)?;
    found.push(task.demand)?;
    Ok(())
}

/// The quotient or the remainder of a number by a divisor.
fn quotient<'a>(
    known: &ConstantScope<'a>,
    op: MulOp,
    before: Option<i64>,
    e: &'a Expr,
) -> Result<Option<i64>, AllocError>
    requires passes { NothingFails (divisor_events (known_in known.now) e.now) }
    requires small { HasConstantSize (meant.divided op before (value (known_in known.now) e.now)) }
    ensures value { IfOk result (λ x. x ≡ meant.divided op before (value (known_in known.now) e.now)) }
{
    let by = divisor(known, e)?;
    Ok(divided(op, before, by))
}

#[tactic(auto, using(sopl_ast::proofs::Lighter::lighter, crate::proofs::Loops::testing))]
impl PlayedScenario<'_, '_> {
    /// The value of an expression, if it is defined; a condition is worth 1 or 0.
    #[cycle(walk)]
    pub fn number<'a>(
        &self,
        known: &ConstantScope<'a>,
        e: &'a Expr,
    ) -> Result<Option<i64>, AllocError>
        requires played { IsPlayed self.now }
        requires safe { IsSafe (place_of self.now (known_in known.now)) e.now }
        ensures value { IfOk result (λ x. x ≡ (meaning (place_of self.now (known_in known.now)) e.now).value) }
    {
        match &e.kind {
            Kind::Lit(value) => Ok(Some(*value)),
            Kind::Name(name) => Ok(self.named(known, name, &[])),
            Kind::Index(name, parts) => self.element(known, name, parts.as_slice()),
            Kind::Call(function, part) => self.called(known, *function, part),
            Kind::Add(parts) => self.sum(known, parts.as_slice()),
            Kind::Mul(parts) => self.product(known, parts),
            Kind::Sum(over, part) => self.total(known, over, part),
            Kind::Selected(which, parts) => self.extreme(known, *which, parts.as_slice()),
            Kind::Cmp(_, _, _)
            | Kind::Not(_)
            | Kind::And(_)
            | Kind::Or(_)
            | Kind::Implies(_, _)
            | Kind::AllDifferent(_, _)
            | Kind::Cumulative(_, _, _, _, _) => self.truth(known, e),
        }
    }

    /// Whether an expression is a condition that is true.
    #[cycle(walk)]
    pub fn condition<'a>(&self, known: &ConstantScope<'a>, e: &'a Expr) -> Result<bool, AllocError>
        requires played { IsPlayed self.now }
        requires safe { IsTestable (place_of self.now (known_in known.now)) e.now }
        ensures truth { IfOk result (λ holds. holds ≡ (meaning (place_of self.now (known_in known.now)) e.now).truth) }
    {
        match &e.kind {
            Kind::Cmp(op, a, b) => self.comparison(known, *op, a, b),
            Kind::Not(part) => self.negation(known, part),
            Kind::And(parts) => self.all(known, parts.as_slice()),
            Kind::Or(parts) => self.some(known, parts.as_slice()),
            Kind::Implies(a, b) => self.implication(known, a, b),
            Kind::AllDifferent(over, part) => self.different(known, over, part),
            Kind::Cumulative(over, start, duration, demand, capacity) => {
                let task = TaskText {
                    start,
                    duration,
                    demand,
                };
                self.cumulative(known, over, &task, capacity)
            }
            Kind::Lit(_)
            | Kind::Name(_)
            | Kind::Index(_, _)
            | Kind::Call(_, _)
            | Kind::Add(_)
            | Kind::Mul(_)
            | Kind::Sum(_, _)
            | Kind::Selected(_, _) => Ok(false),
        }
    }

    /// What a condition is worth.
    #[cycle(walk)]
    fn truth<'a>(&self, known: &ConstantScope<'a>, e: &'a Expr) -> Result<Option<i64>, AllocError>
        requires played { IsPlayed self.now }
        requires safe { IsTestable (place_of self.now (known_in known.now)) e.now }
        ensures value { IfOk result (λ x. x ≡ (meant.condition (meaning (place_of self.now (known_in known.now)) e.now).truth).value) }
    {
        let holds = self.condition(known, e)?;
        Ok(truth(holds))
    }

    /// What a function makes of an expression's value.
    #[cycle(walk)]
    fn called<'a>(
        &self,
        known: &ConstantScope<'a>,
        function: Function,
        e: &'a Expr,
    ) -> Result<Option<i64>, AllocError>
        requires played { IsPlayed self.now }
        requires safe { ShapeIsSafe (place_of self.now (known_in known.now)) (t.Call function e.now) }
        ensures value { IfOk result (λ x. x ≡ (shape_meaning (place_of self.now (known_in known.now)) (t.Call function e.now)).value) }
    {
        let x = self.number(known, e)?;
        Ok(called(function, x))
    }

    /// The element of a name at indices.
    #[cycle(walk)]
    fn element<'a>(
        &self,
        known: &ConstantScope<'a>,
        name: &Name,
        at: &'a [Expr],
    ) -> Result<Option<i64>, AllocError>
        requires played { IsPlayed self.now }
        requires safe { AreSafe (place_of self.now (known_in known.now)) (trees at.now) }
        ensures value { IfOk result (λ x. x ≡ (shape_meaning (place_of self.now (known_in known.now)) (t.Index name.now (trees at.now))).value) }
    {
        match self.values(known, at)? {
            Some(index) => Ok(self.named(known, name, index.as_slice())),
            None => Ok(None),
        }
    }

    /// The least or the greatest value of expressions.
    #[cycle(walk)]
    fn extreme<'a>(
        &self,
        known: &ConstantScope<'a>,
        which: Extreme,
        parts: &'a [Expr],
    ) -> Result<Option<i64>, AllocError>
        requires played { IsPlayed self.now }
        requires safe { AreSafe (place_of self.now (known_in known.now)) (trees parts.now) }
        ensures value { IfOk result (λ x. x ≡ option_and_then (spec.extreme (chosen_by which))
            (defined_values (place_of self.now (known_in known.now)) (trees parts.now))) }
    {
        let numbers = self.values(known, parts)?;
        Ok(extreme_of(which, numbers))
    }

    /// The values of expressions in order, where each is defined.
    #[cycle(walk)]
    fn values<'a>(
        &self,
        known: &ConstantScope<'a>,
        parts: &'a [Expr],
    ) -> Result<Option<Vec<i64>>, AllocError>
        requires played { IsPlayed self.now }
        requires safe { AreSafe (place_of self.now (known_in known.now)) (trees parts.now) }
        ensures values { IfOk result (λ xs. option_map items xs ≡ defined_values (place_of self.now (known_in known.now)) (trees parts.now)) }
    {
        let mut found = Vec::new(self.alloc);
        'parts: for part in parts {
            let Some(x) = self.number(known, part)? else {
                return Ok(None);
            };
            add(&mut found, x)?;
        }
        Ok(Some(found))
    }

    /// The value of a chain of `+` and `-`.
    #[cycle(walk)]
    fn sum<'a>(
        &self,
        known: &ConstantScope<'a>,
        parts: &'a [(bool, Expr)],
    ) -> Result<Option<i64>, AllocError>
        requires played { IsPlayed self.now }
        requires safe { ShapeIsSafe (place_of self.now (known_in known.now)) (t.Add (terms parts.now)) }
        ensures value { IfOk result (λ x. x ≡ sum_value (place_of self.now (known_in known.now)) (terms parts.now)) }
    {
        let mut sum = Wide::of(0);
        'parts: for part in parts {
            let Some(x) = self.number(known, &part.1)? else {
                return Ok(None);
            };
            sum = with_number(sum, part.0, x);
        }
        Ok(summed(&sum))
    }

    /// The value of a product.
    #[cycle(walk)]
    fn product<'a>(
        &self,
        known: &ConstantScope<'a>,
        parts: &'a Factors,
    ) -> Result<Option<i64>, AllocError>
        requires played { IsPlayed self.now }
        requires safe { ShapeIsSafe (place_of self.now (known_in known.now)) (t.Mul parts.now.first (factors parts.now.others)) }
        ensures value { IfOk result (λ x. x ≡ (shape_meaning (place_of self.now (known_in known.now)) (t.Mul parts.now.first (factors parts.now.others))).value) }
    {
        let first = self.number(known, parts.first())?;
        self.multiplied(known, first, parts.as_slice())
    }

    /// The product of a number and the factors behind it.
    #[cycle(walk)]
    fn multiplied<'a>(
        &self,
        known: &ConstantScope<'a>,
        first: Option<i64>,
        parts: &'a [(MulOp, Expr)],
    ) -> Result<Option<i64>, AllocError>
        requires played { IsPlayed self.now }
        requires safe { FactorsAreSafe (place_of self.now (known_in known.now)) first (factors parts.now) }
        ensures value { IfOk result (λ x. x ≡ product_value (place_of self.now (known_in known.now)) first (factors parts.now)) }
    {
        let mut before = first;
        'parts: for part in parts {
            before = self.factor(known, before, part)?;
        }
        Ok(before)
    }

    /// The product of a number and a factor, or its quotient or remainder by a divisor.
    #[cycle(walk)]
    fn factor<'a>(
        &self,
        known: &ConstantScope<'a>,
        before: Option<i64>,
        part: &'a (MulOp, Expr),
    ) -> Result<Option<i64>, AllocError>
        requires played { IsPlayed self.now }
        requires safe { FactorsAreSafe (place_of self.now (known_in known.now)) before (t.factor part.now.0 part.now.1 t.no_factor) }
        ensures value { IfOk result (λ x. x ≡ product_value (place_of self.now (known_in known.now)) before (t.factor part.now.0 part.now.1 t.no_factor)) }
    {
        match part.0 {
            MulOp::Times => self.times(known, before, &part.1),
            MulOp::Div => quotient(known, MulOp::Div, before, &part.1),
            MulOp::Mod => quotient(known, MulOp::Mod, before, &part.1),
        }
    }

    /// The product of a number and the value of an expression.
    #[cycle(walk)]
    fn times<'a>(
        &self,
        known: &ConstantScope<'a>,
        before: Option<i64>,
        e: &'a Expr,
    ) -> Result<Option<i64>, AllocError>
        requires played { IsPlayed self.now }
        requires safe { FactorsAreSafe (place_of self.now (known_in known.now)) before (t.factor Times e.now t.no_factor) }
        ensures value { IfOk result (λ x. x ≡ product_value (place_of self.now (known_in known.now)) before (t.factor Times e.now t.no_factor)) }
    {
        let x = self.number(known, e)?;
        Ok(product(before, x))
    }

    /// The sum of an expression over the values of binders.
    #[cycle(walk)]
    fn total<'a>(
        &self,
        known: &ConstantScope<'a>,
        over: &'a Binders,
        e: &'a Expr,
    ) -> Result<Option<i64>, AllocError>
        requires played { IsPlayed self.now }
        requires safe { ShapeIsSafe (place_of self.now (known_in known.now)) (t.Sum (binders over.now) e.now) }
        ensures value { IfOk result (λ x. x ≡ (shape_meaning (place_of self.now (known_in known.now)) (t.Sum (binders over.now) e.now)).value) }
    {
        let numbers = self.behind(known, over, e)?;
        Ok(total_of(numbers))
    }

    /// Whether an expression differs for any two values of binders.
    #[cycle(walk)]
    fn different<'a>(
        &self,
        known: &ConstantScope<'a>,
        over: &'a Binders,
        e: &'a Expr,
    ) -> Result<bool, AllocError>
        requires played { IsPlayed self.now }
        requires safe { OverIsSafe (place_of self.now (known_in known.now)) (binders over.now) e.now }
        ensures truth { IfOk result (λ holds. holds ≡ (shape_meaning (place_of self.now (known_in known.now)) (t.AllDifferent (binders over.now) e.now)).truth) }
    {
        let numbers = self.behind(known, over, e)?;
        are_different(self.alloc, numbers)
    }

    /// The values of an expression for each way in which binders take their values, where each is defined.
    #[cycle(walk)]
    fn behind<'a>(
        &self,
        known: &ConstantScope<'a>,
        over: &'a Binders,
        e: &'a Expr,
    ) -> Result<Option<Vec<i64>>, AllocError>
        requires played { IsPlayed self.now }
        requires safe { OverIsSafe (place_of self.now (known_in known.now)) (binders over.now) e.now }
        ensures values { IfOk result (λ xs. option_map items xs ≡ all_of (λ here. (meaning here e.now).value) (places (place_of self.now (known_in known.now)) (binders over.now))) }
    {
        let here = all_places(self.alloc, known, None, over.as_slice())?;
        self.values_at(here.as_slice(), e)
    }

    /// The values of an expression at each of some places, where each is defined.
    #[cycle(walk)]
    fn values_at<'a>(
        &self,
        here: &[ConstantScope<'a>],
        e: &'a Expr,
    ) -> Result<Option<Vec<i64>>, AllocError>
        requires played { IsPlayed self.now }
        requires safe { AllByRecursion (λ (known : place.Known). IsSafe (place_of self.now known) e.now) (map known_in here.now) }
        ensures values { IfOk result (λ xs. option_map items xs ≡ all_of (λ (known : place.Known). (meaning (place_of self.now known) e.now).value) (map known_in here.now)) }
    {
        let mut found = Vec::new(self.alloc);
        'here: for known in here {
            let Some(x) = self.number(known, e)? else {
                return Ok(None);
            };
            add(&mut found, x)?;
        }
        Ok(Some(found))
    }

    /// Whether a comparison holds.
    #[cycle(walk)]
    fn comparison<'a>(
        &self,
        known: &ConstantScope<'a>,
        op: CmpOp,
        a: &'a Expr,
        b: &'a Expr,
    ) -> Result<bool, AllocError>
        requires played { IsPlayed self.now }
        requires left { IsSafe (place_of self.now (known_in known.now)) a.now }
        requires right { IsSafe (place_of self.now (known_in known.now)) b.now }
        ensures truth { IfOk result (λ holds. holds ≡ (shape_meaning (place_of self.now (known_in known.now)) (t.Cmp op a.now b.now)).truth) }
    {
        let x = self.number(known, a)?;
        let y = self.number(known, b)?;
        Ok(compared(op, x, y))
    }

    /// Whether a condition is not true.
    #[cycle(walk)]
    fn negation<'a>(&self, known: &ConstantScope<'a>, e: &'a Expr) -> Result<bool, AllocError>
        requires played { IsPlayed self.now }
        requires safe { IsTestable (place_of self.now (known_in known.now)) e.now }
        ensures truth { IfOk result (λ holds. holds ≡ (shape_meaning (place_of self.now (known_in known.now)) (t.Not e.now)).truth) }
    {
        let holds = self.condition(known, e)?;
        Ok(!holds)
    }

    /// Whether a condition is not true or another one is.
    #[cycle(walk)]
    fn implication<'a>(
        &self,
        known: &ConstantScope<'a>,
        a: &'a Expr,
        b: &'a Expr,
    ) -> Result<bool, AllocError>
        requires played { IsPlayed self.now }
        requires left { IsTestable (place_of self.now (known_in known.now)) a.now }
        requires right { IsTestable (place_of self.now (known_in known.now)) b.now }
        ensures truth { IfOk result (λ holds. holds ≡ (shape_meaning (place_of self.now (known_in known.now)) (t.Implies a.now b.now)).truth) }
    {
        if !self.condition(known, a)? {
            return Ok(true);
        }
        self.condition(known, b)
    }

    /// Whether all conditions are true.
    #[cycle(walk)]
    fn all<'a>(&self, known: &ConstantScope<'a>, parts: &'a [Expr]) -> Result<bool, AllocError>
        requires played { IsPlayed self.now }
        requires safe { AreTestable (place_of self.now (known_in known.now)) (trees parts.now) }
        ensures truth { IfOk result (λ holds. holds ≡ all_true (place_of self.now (known_in known.now)) (trees parts.now)) }
    {
        'parts: for part in parts {
            if !self.condition(known, part)? {
                return Ok(false);
            }
        }
        Ok(true)
    }

    /// Whether some condition is true.
    #[cycle(walk)]
    fn some<'a>(&self, known: &ConstantScope<'a>, parts: &'a [Expr]) -> Result<bool, AllocError>
        requires played { IsPlayed self.now }
        requires safe { AreTestable (place_of self.now (known_in known.now)) (trees parts.now) }
        ensures truth { IfOk result (λ holds. holds ≡ some_true (place_of self.now (known_in known.now)) (trees parts.now)) }
    {
        'parts: for part in parts {
            if self.condition(known, part)? {
                return Ok(true);
            }
        }
        Ok(false)
    }

    /// Whether tasks keep within a capacity.
    #[cycle(walk)]
    fn cumulative<'a>(
        &self,
        known: &ConstantScope<'a>,
        over: &'a Binders,
        task: &TaskText<'a>,
        capacity: &'a Expr,
    ) -> Result<bool, AllocError>
        requires played { IsPlayed self.now }
        requires safe { TasksAreSafe (place_of self.now (known_in known.now)) (binders over.now) task.now.start.now task.now.duration.now task.now.demand.now }
        requires most { IsSafe (place_of self.now (known_in known.now)) capacity.now }
        ensures truth { IfOk result (λ holds. holds ≡ (shape_meaning (place_of self.now (known_in known.now))
            (t.Cumulative (binders over.now) task.now.start.now task.now.duration.now task.now.demand.now capacity.now)).truth) }
    {
        let most = self.number(known, capacity)?;
        let tasks = self.tasks(known, over, task)?;
        fit(self.alloc, tasks, most)
    }

    /// The numbers of tasks, three for each way in which binders take their values, where each is defined.
    #[cycle(walk)]
    fn tasks<'a>(
        &self,
        known: &ConstantScope<'a>,
        over: &'a Binders,
        task: &TaskText<'a>,
    ) -> Result<Option<Vec<i64>>, AllocError>
        requires played { IsPlayed self.now }
        requires safe { TasksAreSafe (place_of self.now (known_in known.now)) (binders over.now) task.now.start.now task.now.duration.now task.now.demand.now }
        ensures tasks { IfOk result (λ xs. option_map items xs ≡ option_map task_numbers
            (all_of (λ here. task_of (meaning here task.now.start.now).value (meaning here task.now.duration.now).value (meaning here task.now.demand.now).value)
            (places (place_of self.now (known_in known.now)) (binders over.now)))) }
    {
        let here = all_places(self.alloc, known, None, over.as_slice())?;
        self.tasks_at(here.as_slice(), task)
    }

    /// The numbers of tasks at each of some places, where each is defined.
    #[cycle(walk)]
    fn tasks_at<'a>(
        &self,
        here: &[ConstantScope<'a>],
        task: &TaskText<'a>,
    ) -> Result<Option<Vec<i64>>, AllocError>
        requires played { IsPlayed self.now }
        requires safe { AllByRecursion (λ (known : place.Known). IsSafe (place_of self.now known) task.now.start.now × IsSafe (place_of self.now known) task.now.duration.now
            × IsSafe (place_of self.now known) task.now.demand.now) (map known_in here.now) }
        ensures tasks { IfOk result (λ xs. option_map items xs ≡ option_map task_numbers
            (all_of (λ (known : place.Known). task_of (meaning (place_of self.now known) task.now.start.now).value (meaning (place_of self.now known) task.now.duration.now).value
            (meaning (place_of self.now known) task.now.demand.now).value) (map known_in here.now))) }
    {
        let mut found = Vec::new(self.alloc);
        'here: for known in here {
            let Some(next) = self.task(known, task)? else {
                return Ok(None);
            };
            add_task(&mut found, &next)?;
        }
        Ok(Some(found))
    }

    /// The numbers of a task at a place, where each is defined.
    #[cycle(walk)]
    fn task<'a>(
        &self,
        known: &ConstantScope<'a>,
        task: &TaskText<'a>,
    ) -> Result<Option<TaskNumbers>, AllocError>
        requires played { IsPlayed self.now }
        requires start { IsSafe (place_of self.now (known_in known.now)) task.now.start.now }
        requires duration { IsSafe (place_of self.now (known_in known.now)) task.now.duration.now }
        requires demand { IsSafe (place_of self.now (known_in known.now)) task.now.demand.now }
        ensures task { IfOk result (λ found. option_map task_in found ≡ task_of (meaning (place_of self.now (known_in known.now)) task.now.start.now).value
            (meaning (place_of self.now (known_in known.now)) task.now.duration.now).value (meaning (place_of self.now (known_in known.now)) task.now.demand.now).value) }
    {
        let start = self.number(known, task.start)?;
        let duration = self.number(known, task.duration)?;
        let demand = self.number(known, task.demand)?;
        Ok(task_from(start, duration, demand))
    }
}
