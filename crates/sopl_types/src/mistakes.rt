//! The mistakes of one name or one expression, and the first of several.

ghost use Rattle.std.specs.Prelude.{◌≡◌, ◌++◌};
ghost use Rattle.std.specs.Option.{option_map};
ghost use Rattle.sopl_ast.specs.Mistakes as spec;
ghost use Rattle.sopl_ast.specs.Mistakes.{mistake_unless, unknown_name, known_name, no_range, no_condition, of_use};
ghost use Rattle.sopl_ast.specs.Sight.{shape_of_kind};
ghost use Rattle.sopl_types.specs.Earliest.{sooner, earlier_of, earliest};
ghost use Rattle.sopl_types.specs.Entered.{seen};

use crate::names::NameKind;
use sopl_ast::{Expr, Kind};
use sopl_base::{Refusal, codes};

/// The earlier of two mistakes, if there are any; at one place the one with the lower code.
pub fn earlier(a: Option<Refusal>, b: Option<Refusal>) -> Option<Refusal>
    ensures { result ≡ earlier_of a b }
{
    match a {
        None => b,
        Some(one) => match b {
            None => Some(one),
            Some(other) => Some(sooner_of(one, other)),
        },
    }
}

fn sooner_of(a: Refusal, b: Refusal) -> Refusal
    ensures { result ≡ sooner a b }
{
    if a.at < b.at || (a.at == b.at && a.code <= b.code) {
        a
    } else {
        b
    }
}

/// A mistake, where a test fails.
pub fn unless(holds: bool, code: u16, at: usize) -> Option<Refusal>
    ensures { result ≡ earliest (mistake_unless holds code at) }
{
    if holds {
        None
    } else {
        Some(Refusal { code, at })
    }
}

/// A name that is declared or bound, and known already.
pub fn known(entity: Option<NameKind>, at: usize) -> Option<Refusal>
    ensures { result ≡ earliest (known_name (option_map seen entity) at) }
{
    unless(entity.is_none(), codes::TWICE, at)
}

/// A name with so many indices, used as a number, where `constant` asks for a constant.
pub fn misused(
    constant: bool,
    entity: Option<NameKind>,
    indices: usize,
    at: usize,
) -> Option<Refusal>
    ensures { result ≡ earliest (of_use constant (option_map seen entity) indices at) }
{
    match entity {
        None => unless(false, codes::UNKNOWN, at),
        Some(NameKind::Constant(dims)) => unless(dims == indices, codes::DIMENSIONS, at),
        Some(NameKind::Variable(dims)) => {
            earlier(
                unless(dims == indices, codes::DIMENSIONS, at),
                unless(!constant, codes::NOT_CONSTANT, at),
            )
        }
        Some(NameKind::RangeName) => unless(false, codes::KIND, at),
        Some(NameKind::SetName) => unless(false, codes::KIND, at),
    }
}

/// A name that is used as a range; `sets` says whether the name of a set will do.
pub fn misused_range(sets: bool, entity: Option<NameKind>, at: usize) -> Option<Refusal>
    ensures { result ≡ earliest (unknown_name (option_map seen entity) at ++ no_range sets (option_map seen entity) at) }
{
    match entity {
        None => unless(false, codes::UNKNOWN, at),
        Some(NameKind::RangeName) => None,
        Some(NameKind::SetName) => unless(sets, codes::KIND, at),
        Some(NameKind::Constant(_)) => unless(false, codes::KIND, at),
        Some(NameKind::Variable(_)) => unless(false, codes::KIND, at),
    }
}

/// A number, where a condition is asked for.
pub fn not_condition(e: &Expr) -> Option<Refusal>
    ensures { result ≡ earliest (no_condition e.now) }
{
    unless(is_condition(&e.kind), codes::KIND, e.at)
}

fn is_condition(kind: &Kind) -> bool
    ensures { result ≡ spec.is_condition (shape_of_kind kind.now) }
{
    match kind {
        Kind::Cmp(..) | Kind::Not(_) | Kind::And(_) | Kind::Or(_) | Kind::Implies(..) => true,
        Kind::AllDifferent(..) | Kind::Cumulative(..) => true,
        _ => false,
    }
}
