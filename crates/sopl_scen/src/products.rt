//! Products that are held against a limit.

ghost use Rattle.std.specs.Prelude.{◌≡◌, ◌≤◌, ◌-◌, ◌^◌, ◌+ℤ◌, ◌*ℤ◌, ◌≤ℤ◌, ◌<ℤ◌, pos, int_le, unsigned_abs, length, true, false, map, IfOk, IfErr};
ghost use Rattle.std.specs.Int.{int_min};
ghost use Rattle.std.specs.List.{AllByRecursion};
ghost use Rattle.sopl_ast.specs.UnfoldEvents.{excess};
ghost use Rattle.sopl_ast.specs.Scenarios.{total_of};
ghost use Rattle.unfold_laws.specs.Bounds.{IsBoundedOutcome};
ghost use Rattle.unfold_variables.specs.Pairs.{outcome_in};

use sopl_base::{Excess, Wide};

/// A number, or the limit that it passes.
pub(crate) fn within(number: Wide, code: u16, limit: i128) -> Result<Wide, Excess>
    ensures ok { IfOk result (λ n. (n.value ≡ number.value) × (number.value ≤ℤ limit)) }
    ensures err { IfErr result (λ e. (limit <ℤ number.value) × (e ≡ excess code number.value limit)) }
{
    if number.value > limit {
        return Err(Excess {
            code,
            counted: number.value,
            limit,
        });
    }
    Ok(number)
}

/// A product, or the limit that it passes; past the greatest number it is given as that.
pub(crate) fn product_within(
    number: Wide,
    factor: Wide,
    code: u16,
    limit: i128,
) -> Result<Wide, Excess>
    requires one { pos 0 ≤ℤ number.value }
    requires two { pos 0 ≤ℤ factor.value }
    requires most { limit <ℤ pos (2 ^ 127 - 1) }
    ensures ok { IfOk result (λ n. (n.value ≡ number.value *ℤ factor.value) × (n.value ≤ℤ limit)) }
    ensures err { IfErr result (λ e. (limit <ℤ (number.value *ℤ factor.value))
        × (e ≡ excess code (int_min (number.value *ℤ factor.value) (pos (2 ^ 127 - 1))) limit)) }
{
    let Some(product) = number.checked_times(factor) else {
        return Err(Excess {
            code,
            counted: i128::MAX,
            limit,
        });
    };
    within(product, code, limit)
}

/// A total with the weight of one more outcome.
fn with_weight(total: Wide, outcome: &(i64, i64)) -> Wide
    requires { unsigned_abs total.value ≤ 2 ^ 126 }
    ensures { result.value ≡ total.value +ℤ outcome.now.1 }
{
    total.plus(Wide::of(outcome.1))
}

/// The total of a distribution's weights.
pub(crate) fn total_of_outcomes(outcomes: &[(i64, i64)]) -> Wide
    requires { AllByRecursion IsBoundedOutcome (map outcome_in outcomes.now) }
    ensures { result.value ≡ total_of (map outcome_in outcomes.now) }
{
    let mut total = Wide::of(0);
    'outcomes: for outcome in outcomes {
        total = with_weight(total, outcome);
    }
    total
}

/// How many outcomes a distribution has.
pub(crate) fn number_of_outcomes(outcomes: &[(i64, i64)]) -> Wide
    ensures { result.value ≡ pos (length outcomes.now) }
{
    Wide {
        value: outcomes.len() as i128,
    }
}
