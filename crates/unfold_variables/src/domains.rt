//! Domains and stages.

ghost use Rattle.std.specs.Prelude.{◌≡◌, ℕ, option_map};
ghost use Rattle.sopl_ast.specs.Known.{ends_of, set_named};
ghost use Rattle.sopl_ast.specs.Ranges.{range_of};
ghost use Rattle.unfold_constants.specs.CountedAnswers.{Answers};
ghost use Rattle.unfold_constants.specs.Here.{known_in};
ghost use Rattle.unfold_tables.specs.Tables.{ends_in};
ghost use Rattle.unfold_variables.specs.Listing as spec;

use crate::calls::checked_values;
use sopl_ast::{Expr, Name, RangeText};
use sopl_base::{Fault, codes, limits};
use unfold_constants::{ConstantScope, unless};
use unfold_declarations::constant_at;
use unfold_tables::{Count, Ends, NumberSet};

/// A stage; it is 1 where none is written.
pub fn stage<'a>(
    known: &ConstantScope<'a>,
    count: &mut Count,
    e: Option<&'a Expr>,
) -> Result<u32, Fault>
    ensures { Answers (λ k. k) count.new.counted result (spec.stage (known_in known.now) (option_map (λ x. x.now) e.entry) count.old.counted) }
{
    let Some(e) = e else {
        return Ok(1);
    };
    let number = constant_at(known, count, e)?;
    if number < 1 || number > i64::from(limits::STAGE) {
        return Err(Fault::refused(codes::STAGE, e.at));
    }
    Ok(number as u32)
}

/// The domain of a decision, by its least and its greatest value.
pub fn domain<'a>(
    known: &ConstantScope<'a>,
    count: &mut Count,
    range: &'a RangeText,
) -> Result<Ends, Fault>
    ensures { Answers ends_in count.new.counted result (spec.domain (known_in known.now) (range_of range.now) count.old.counted) }
{
    match range {
        RangeText::Named { name, at } => not_empty(*at, &named(known, name)),
        RangeText::Ends { lo, hi } => {
            let ends = between(known, count, lo, hi)?;
            checked_domain(lo.at, &ends)
        }
    }
}

/// The ends of a range by its name.
fn named(known: &ConstantScope<'_>, name: &Name) -> Ends
    ensures { ends_in result ≡ ends_of (set_named name.now (known_in known.now).sets) }
{
    match known.named(name) {
        Some(NumberSet::Between(ends)) => *ends,
        Some(NumberSet::Listed(_)) => Ends { lo: 1, hi: 0 },
        None => Ends { lo: 1, hi: 0 },
    }
}

/// The values of two ends.
fn between<'a>(
    known: &ConstantScope<'a>,
    count: &mut Count,
    lo: &'a Expr,
    hi: &'a Expr,
) -> Result<Ends, Fault>
    ensures { Answers ends_in count.new.counted result (spec.between (known_in known.now) lo.now hi.now count.old.counted) }
{
    let lo = constant_at(known, count, lo)?;
    let hi = constant_at(known, count, hi)?;
    Ok(Ends { lo, hi })
}

/// Gives back a domain that stands at this place, unless it is empty.
fn not_empty(at: usize, ends: &Ends) -> Result<Ends, Fault>
    ensures { (count : ℕ) → Answers ends_in count result (spec.not_empty at (ends_in ends.now) count) }
{
    unless(ends.lo <= ends.hi, codes::EMPTY_DOMAIN, at)?;
    Ok(*ends)
}

/// Gives back a domain whose lower end stands at this place, unless it is empty or too large.
fn checked_domain(at: usize, ends: &Ends) -> Result<Ends, Fault>
    ensures { (count : ℕ) → Answers ends_in count result (spec.checked_domain at (ends_in ends.now) count) }
{
    unless(ends.lo <= ends.hi, codes::EMPTY_DOMAIN, at)?;
    checked_values(ends)?;
    Ok(*ends)
}
