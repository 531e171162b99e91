//! Which names stand in an expression.

ghost use Rattle.std.specs.Prelude.{◌≡◌, ◌||◌};
ghost use Rattle.std.specs.Str.{bytes_eq};
ghost use Rattle.sopl_ast.specs.Lists.{trees, terms, factors, binders};
ghost use Rattle.sopl_ast.specs.Ranges.{range_of};
ghost use Rattle.sopl_ast.specs.Mentions.{mentions, some_mentions, some_term_mentions, some_factor_mentions, some_binder_mentions, range_mentions};

use crate::binders::{Binder, RangeText};
use crate::expr::{Expr, Kind};
use crate::name::Name;
use crate::operators::MulOp;

/// Whether both names have the same bytes.
fn same(a: &Name, b: &Name) -> bool
    ensures { result ≡ bytes_eq a.now b.now }
{
    a.as_slice() == b.as_slice()
}

impl Expr {
    /// Whether the name stands in the expression: alone, before indices, as a binder or as a range.
    #[cycle(mentions)]
    #[tactic(auto, using(crate::proofs::Lighter::lighter))]
    pub fn mentions(&self, name: &Name) -> bool
        ensures exact { result ≡ mentions name.now self.now }
    {
        match &self.kind {
            Kind::Lit(_) => false,
            Kind::Name(own) => same(own, name),
            Kind::Index(own, parts) => same(own, name) || in_some(parts.as_slice(), name),
            Kind::Call(_, a) | Kind::Not(a) => a.mentions(name),
            Kind::Add(parts) => in_some_term(parts.as_slice(), name),
            Kind::Mul(parts) => {
                parts.first().mentions(name) || in_some_factor(parts.as_slice(), name)
            }
            Kind::Cmp(_, a, b) | Kind::Implies(a, b) => a.mentions(name) || b.mentions(name),
            Kind::And(parts) | Kind::Or(parts) | Kind::Selected(_, parts) => {
                in_some(parts.as_slice(), name)
            }
            Kind::Sum(over, a) | Kind::AllDifferent(over, a) => {
                in_some_binder(over.as_slice(), name) || a.mentions(name)
            }
            Kind::Cumulative(over, a, b, c, d) => {
                in_some_binder(over.as_slice(), name)
                    || a.mentions(name)
                    || b.mentions(name)
                    || c.mentions(name)
                    || d.mentions(name)
            }
        }
    }
}

#[cycle(mentions)]
#[tactic(auto, using(crate::proofs::Lighter::lighter))]
fn in_some(parts: &[Expr], name: &Name) -> bool
    ensures { result ≡ some_mentions name.now (trees parts.now) }
{
    'parts: for part in parts {
        if part.mentions(name) {
            return true;
        }
    }
    false
}

#[cycle(mentions)]
#[tactic(auto, using(crate::proofs::Lighter::lighter))]
fn in_some_term(parts: &[(bool, Expr)], name: &Name) -> bool
    ensures { result ≡ some_term_mentions name.now (terms parts.now) }
{
    'parts: for part in parts {
        if part.1.mentions(name) {
            return true;
        }
    }
    false
}

#[cycle(mentions)]
#[tactic(auto, using(crate::proofs::Lighter::lighter))]
fn in_some_factor(parts: &[(MulOp, Expr)], name: &Name) -> bool
    ensures { result ≡ some_factor_mentions name.now (factors parts.now) }
{
    'parts: for part in parts {
        if part.1.mentions(name) {
            return true;
        }
    }
    false
}

#[cycle(mentions)]
#[tactic(auto, using(crate::proofs::Lighter::lighter))]
fn in_some_binder(over: &[Binder], name: &Name) -> bool
    ensures { result ≡ some_binder_mentions name.now (binders over.now) }
{
    'over: for binder in over {
        if in_binder(binder, name) {
            return true;
        }
    }
    false
}

#[cycle(mentions)]
#[tactic(auto, using(crate::proofs::Lighter::lighter))]
fn in_binder(binder: &Binder, name: &Name) -> bool
    ensures { result ≡ bytes_eq binder.now.name name.now || range_mentions name.now binder.now.range }
{
    same(&binder.name, name) || in_range(&binder.range, name)
}

#[cycle(mentions)]
#[tactic(auto, using(crate::proofs::Lighter::lighter))]
fn in_range(range: &RangeText, name: &Name) -> bool
    ensures { result ≡ range_mentions name.now (range_of range.now) }
{
    match range {
        RangeText::Named { name: own, .. } => same(own, name),
        RangeText::Ends { lo, hi } => lo.mentions(name) || hi.mentions(name),
    }
}
