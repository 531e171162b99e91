//! The mistakes of expressions, binders and ranges.

ghost use Rattle.std.specs.Prelude.{◌≡◌, ◌++◌, ◌||◌, true, IfOk};
ghost use Rattle.sopl_ast.specs.Lists.{trees, terms, factors, binders};
ghost use Rattle.sopl_ast.specs.Mistakes as spec;
ghost use Rattle.sopl_ast.specs.Mistakes.{entity_of, known_name, of_number, of_numbers, of_conditions, of_condition, of_terms, of_factors, of_binders, of_range};
ghost use Rattle.sopl_ast.specs.Ranges.{range_of};
ghost use Rattle.sopl_types.specs.Earliest.{earliest};
ghost use Rattle.sopl_types.specs.Known.{known_in};

use crate::mistakes::{earlier, known, misused, misused_range, not_condition};
use crate::names::Names;
use sopl_ast::{Binder, Expr, Kind, MulOp, RangeText};
use sopl_base::Refusal;
use std::alloc::AllocError;

/// The names that are known behind binders or dimensions, and the first mistake of these.
#[derive(Drop)]
pub struct KindChecker<'a> {
    pub names: Names<'a>,
    pub first: Option<Refusal>,
}

/// Whether an operator asks for a constant behind it.
fn asks_constant(op: MulOp) -> bool
    ensures { result ≡ spec.asks_constant op }
{
    match op {
        MulOp::Times => false,
        MulOp::Div | MulOp::Mod => true,
    }
}

#[tactic(auto, using(sopl_ast::proofs::Lighter::lighter, crate::proofs::Walks::walks))]
impl<'a> Names<'a> {
    /// The first mistake of an expression in the place of a number; `constant` says whether it is to
    /// be a constant.
    #[cycle(walk)]
    pub fn number(&self, constant: bool, e: &'a Expr) -> Result<Option<Refusal>, AllocError>
        ensures { IfOk result (λ first. first ≡ earliest (of_number (known_in self.now) constant e.now)) }
    {
        match &e.kind {
            Kind::Lit(_) => Ok(None),
            Kind::Name(name) => Ok(misused(constant, self.entity(name), 0, e.at)),
            Kind::Index(name, indices) => {
                let indices = indices.as_slice();
                let own = misused(constant, self.entity(name), indices.len(), e.at);
                Ok(earlier(own, self.numbers(constant, indices)?))
            }
            Kind::Call(_, a) => self.number(constant, a),
            Kind::Add(parts) => self.terms(constant, parts.as_slice()),
            Kind::Mul(parts) => {
                let first = self.number(constant, parts.first())?;
                Ok(earlier(first, self.factors(constant, parts.as_slice())?))
            }
            Kind::Cmp(_, a, b) => {
                let first = self.number(constant, a)?;
                Ok(earlier(first, self.number(constant, b)?))
            }
            Kind::Not(a) => self.condition(constant, a),
            Kind::And(parts) | Kind::Or(parts) => self.conditions(constant, parts.as_slice()),
            Kind::Implies(a, b) => {
                let first = self.condition(constant, a)?;
                Ok(earlier(first, self.condition(constant, b)?))
            }
            Kind::Sum(over, a) | Kind::AllDifferent(over, a) => {
                (&*self).under(constant, over.as_slice(), a)
            }
            Kind::Selected(_, parts) => self.numbers(constant, parts.as_slice()),
            Kind::Cumulative(over, start, length, demand, capacity) => {
                let within = (&*self).bind(over.as_slice())?;
                let first = within.names.triple(constant, start, length, demand)?;
                let first = earlier(within.first, first);
                Ok(earlier(first, self.number(constant, capacity)?))
            }
        }
    }

    /// The first mistake of an expression in the place of a condition.
    #[cycle(walk)]
    pub fn condition(&self, constant: bool, e: &'a Expr) -> Result<Option<Refusal>, AllocError>
        ensures { IfOk result (λ first. first ≡ earliest (of_condition (known_in self.now) constant e.now)) }
    {
        let first = not_condition(e);
        Ok(earlier(first, self.number(constant, e)?))
    }

    /// The first mistake of three expressions in the place of numbers.
    #[cycle(walk)]
    fn triple(
        &self,
        constant: bool,
        a: &'a Expr,
        b: &'a Expr,
        c: &'a Expr,
    ) -> Result<Option<Refusal>, AllocError>
        ensures { IfOk result (λ first. first ≡ earliest (of_number (known_in self.now) constant a.now
            ++ (of_number (known_in self.now) constant b.now ++ of_number (known_in self.now) constant c.now))) }
    {
        let first = self.number(constant, a)?;
        let first = earlier(first, self.number(constant, b)?);
        Ok(earlier(first, self.number(constant, c)?))
    }

    /// The first mistake of binders, and of an expression behind them in the place of a number.
    #[cycle(walk)]
    fn under(
        &'a self,
        constant: bool,
        over: &'a [Binder],
        e: &'a Expr,
    ) -> Result<Option<Refusal>, AllocError>
        ensures { IfOk result (λ first. first ≡ earliest (of_binders (known_in self.now) (binders over.now)
            ++ of_number (spec.bind (binders over.now) (known_in self.now)) constant e.now)) }
    {
        let within = self.bind(over)?;
        let first = within.names.number(constant, e)?;
        Ok(earlier(within.first, first))
    }

    /// The first mistake of expressions in the place of numbers.
    #[cycle(walk)]
    pub fn numbers(&self, constant: bool, parts: &'a [Expr]) -> Result<Option<Refusal>, AllocError>
        ensures { IfOk result (λ first. first ≡ earliest (of_numbers (known_in self.now) constant (trees parts.now))) }
    {
        let mut first = None;
        'parts: for part in parts {
            first = earlier(first, self.number(constant, part)?);
        }
        Ok(first)
    }

    #[cycle(walk)]
    fn conditions(&self, constant: bool, parts: &'a [Expr]) -> Result<Option<Refusal>, AllocError>
        ensures { IfOk result (λ first. first ≡ earliest (of_conditions (known_in self.now) constant (trees parts.now))) }
    {
        let mut first = None;
        'parts: for part in parts {
            first = earlier(first, self.condition(constant, part)?);
        }
        Ok(first)
    }

    #[cycle(walk)]
    fn terms(
        &self,
        constant: bool,
        parts: &'a [(bool, Expr)],
    ) -> Result<Option<Refusal>, AllocError>
        ensures { IfOk result (λ first. first ≡ earliest (of_terms (known_in self.now) constant (terms parts.now))) }
    {
        let mut first = None;
        'parts: for part in parts {
            first = earlier(first, self.number(constant, &part.1)?);
        }
        Ok(first)
    }

    #[cycle(walk)]
    fn factors(
        &self,
        constant: bool,
        parts: &'a [(MulOp, Expr)],
    ) -> Result<Option<Refusal>, AllocError>
        ensures { IfOk result (λ first. first ≡ earliest (of_factors (known_in self.now) constant (factors parts.now))) }
    {
        let mut first = None;
        'parts: for part in parts {
            first = earlier(first, self.factor(constant, part)?);
        }
        Ok(first)
    }

    /// The first mistake of a part of a product; a divisor is to be a constant.
    #[cycle(walk)]
    fn factor(&self, constant: bool, part: &'a (MulOp, Expr)) -> Result<Option<Refusal>, AllocError>
        ensures { IfOk result (λ first. first ≡ earliest (of_number (known_in self.now) (constant || spec.asks_constant part.now.0) part.now.1)) }
    {
        if asks_constant(part.0) {
            return self.number(true, &part.1);
        }
        self.number(constant, &part.1)
    }

    /// The names behind binders, and the first mistake of the binders.
    #[cycle(walk)]
    pub fn bind(&'a self, over: &'a [Binder]) -> Result<KindChecker<'a>, AllocError>
        ensures names { IfOk result (λ within. known_in within.names ≡ spec.bind (binders over.now) (known_in self.now)) }
        ensures first { IfOk result (λ within. within.first ≡ earliest (of_binders (known_in self.now) (binders over.now))) }
    {
        let mut names = Names::inside(self);
        let mut first = None;
        'over: for binder in over {
            first = earlier(first, names.binder(binder)?);
            names.add(&binder.name)?;
        }
        Ok(KindChecker { names, first })
    }

    /// The first mistake of a binder: its name is known already, or one in its range.
    #[cycle(walk)]
    fn binder(&self, binder: &'a Binder) -> Result<Option<Refusal>, AllocError>
        ensures { IfOk result (λ first. first ≡ earliest (known_name (entity_of (known_in self.now) binder.now.name) binder.now.at
            ++ of_range (known_in self.now) true binder.now.range)) }
    {
        let first = known(self.entity(&binder.name), binder.at);
        Ok(earlier(first, self.range(true, &binder.range)?))
    }

    /// The first mistake of a range; `sets` says whether the name of a set will do.
    #[cycle(walk)]
    pub fn range(&self, sets: bool, range: &'a RangeText) -> Result<Option<Refusal>, AllocError>
        ensures { IfOk result (λ first. first ≡ earliest (of_range (known_in self.now) sets (range_of range.now))) }
    {
        match range {
            RangeText::Named { name, at } => Ok(misused_range(sets, self.entity(name), *at)),
            RangeText::Ends { lo, hi } => {
                let first = self.number(true, lo)?;
                Ok(earlier(first, self.number(true, hi)?))
            }
        }
    }
}
