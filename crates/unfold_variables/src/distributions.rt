//! The outcomes of stochastic variables.

ghost use Rattle.std.specs.Prelude.{◌≡◌, [], ◌∷◌, ◌++◌, not, OnOk};
ghost use Rattle.std.specs.BTreeSet.{insert_key};
ghost use Rattle.std.specs.List.{list_any};
ghost use Rattle.std.specs.Ordering.{int_cmp, int_eq};
ghost use Rattle.unfold_constants.specs.CountedAnswers.{Answers};
ghost use Rattle.unfold_constants.specs.Here.{known_in};
ghost use Rattle.unfold_variables.specs.Listing as spec;
ghost use Rattle.unfold_variables.specs.Pairs.{outcome_in};

use crate::items::Weighted;
use sopl_ast::Expr;
use sopl_base::{Fault, codes};
use std::alloc::{AllocError, Global};
use std::collections::BTreeSet;
use unfold_constants::{ConstantScope, unless};
use unfold_declarations::constant_at;
use unfold_tables::Count;

/// The outcomes of a distribution.
pub fn outcomes<'a>(
    alloc: Global,
    known: &ConstantScope<'a>,
    count: &mut Count,
    dist: &'a [(Expr, Expr)],
) -> Result<Weighted, Fault>
    ensures { Answers (λ found. found) count.new.counted result (spec.outcomes (known_in known.now) [] [] dist.now count.old.counted) }
{
    let mut earlier = BTreeSet::new(alloc);
    let mut found = Weighted::new(alloc);
    'dist: for pair in dist {
        let outcome = outcome(known, count, &earlier, pair)?;
        add(&mut earlier, &mut found, outcome)?;
    }
    Ok(found)
}

/// A value with its weight; the value is none of those before it.
fn outcome<'a>(
    known: &ConstantScope<'a>,
    count: &mut Count,
    earlier: &BTreeSet<i64>,
    pair: &'a (Expr, Expr),
) -> Result<(i64, i64), Fault>
    ensures { Answers outcome_in count.new.counted result (spec.outcome (known_in known.now) earlier.now.keys pair.now count.old.counted) }
{
    let value = new_value(known, count, earlier, &pair.0)?;
    let weight = weight(known, count, &pair.1)?;
    Ok((value, weight))
}

/// A value that is none of those before it.
fn new_value<'a>(
    known: &ConstantScope<'a>,
    count: &mut Count,
    earlier: &BTreeSet<i64>,
    e: &'a Expr,
) -> Result<i64, Fault>
    ensures { Answers (λ x. x) count.new.counted result (spec.new_value (known_in known.now) earlier.now.keys e.now count.old.counted) }
{
    let value = constant_at(known, count, e)?;
    unless(is_new(earlier, value), codes::OUTCOME, e.at)?;
    Ok(value)
}

/// Whether a number is not in a set.
fn is_new(set: &BTreeSet<i64>, number: i64) -> bool
    ensures { result ≡ not (list_any (int_eq number) set.now.keys) }
{
    !set.contains(&number)
}

/// A weight, which is 1 at least.
fn weight<'a>(known: &ConstantScope<'a>, count: &mut Count, e: &'a Expr) -> Result<i64, Fault>
    ensures { Answers (λ x. x) count.new.counted result (spec.weight (known_in known.now) e.now count.old.counted) }
{
    let weight = constant_at(known, count, e)?;
    unless(weight >= 1, codes::OUTCOME, e.at)?;
    Ok(weight)
}

/// Adds an outcome.
fn add(
    earlier: &mut BTreeSet<i64>,
    found: &mut Weighted,
    outcome: (i64, i64),
) -> Result<(), AllocError>
    ensures earlier { OnOk result (earlier.new.keys ≡ insert_key int_cmp earlier.old.keys outcome.0) }
    ensures found { OnOk result (found.new ≡ found.old ++ outcome_in outcome ∷ []) }
{
    earlier.insert(outcome.0)?;
    found.push(outcome)?;
    Ok(())
}
