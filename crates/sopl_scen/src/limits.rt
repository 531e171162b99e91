//! The limits on the scenarios of stochastic variables, before anything is built.

ghost use Rattle.std.specs.Prelude.{◌≡◌, ◌≤◌, ◌*◌, ◌+◌, ◌≤ℤ◌, pos, ◌*ℤ◌, length, [], ◌∷◌, Some, None, IfOk, IfErr};
ghost use Rattle.std.specs.List.{AllByRecursion};
ghost use Rattle.sopl_base.specs.declared.codes.TheConstants as codes;
ghost use Rattle.sopl_base.specs.declared.limits.TheConstants as largest;
ghost use Rattle.sopl_ast.specs.Limits.{first_above, usual_limits};
ghost use Rattle.sopl_ast.specs.Scenarios.{scenarios, total_weight};
ghost use Rattle.scen_laws.specs.Laws.{HasOutcome, count_factor, first_passed, product_of, weight_factor};
ghost use Rattle.unfold_laws.specs.Bounds.{IsBoundedStochastic};
ghost use Rattle.sopl_scen.specs.Sizes.{early_excess};

use crate::products::{number_of_outcomes, product_within, total_of_outcomes};
use sopl_base::{Excess, Wide, codes, limits};
use unfold_variables::StochItem;

/// The total of a variable's weights.
fn weight_of(stoch: &StochItem) -> Wide
    requires has_outcomes { HasOutcome stoch.now }
    requires bounded { IsBoundedStochastic stoch.now }
    ensures value { result.value ≡ weight_factor stoch.now }
    ensures least { pos 1 ≤ℤ result.value }
{
    total_of_outcomes(stoch.distribution())
}

/// How many outcomes a variable has.
fn count_of(stoch: &StochItem) -> Wide
    requires has_outcomes { HasOutcome stoch.now }
    ensures value { result.value ≡ count_factor stoch.now }
    ensures least { pos 1 ≤ℤ result.value }
{
    number_of_outcomes(stoch.distribution())
}

/// The weight of all scenarios, or the first running product of totals that passes its limit.
pub(crate) fn weight_of_all(stochs: &[StochItem]) -> Result<Wide, Excess>
    requires has_outcomes { AllByRecursion HasOutcome stochs.now }
    requires bounded { AllByRecursion IsBoundedStochastic stochs.now }
    ensures ok { IfOk result (λ total. first_passed codes.WEIGHT usual_limits.weight weight_factor (pos 1) stochs.now ≡ None) }
    ensures total { IfOk result (λ total. total.value ≡ product_of weight_factor stochs.now) }
    ensures few { IfOk result (λ total. total.value ≤ℤ largest.WEIGHT) }
    ensures err { IfErr result (λ e. first_passed codes.WEIGHT usual_limits.weight weight_factor (pos 1) stochs.now ≡ Some e) }
{
    let mut product = Wide::of(1);
    'stochs: for stoch in stochs {
        let total = weight_of(stoch);
        product = product_within(product, total, codes::WEIGHT, limits::WEIGHT)?;
    }
    Ok(product)
}

/// How many scenarios there are, or the first running product of numbers of outcomes that passes its limit.
pub(crate) fn count_of_all(stochs: &[StochItem]) -> Result<Wide, Excess>
    requires has_outcomes { AllByRecursion HasOutcome stochs.now }
    ensures ok { IfOk result (λ count. first_passed codes.SCENARIOS usual_limits.scenarios count_factor (pos 1) stochs.now ≡ None) }
    ensures count { IfOk result (λ count. count.value ≡ product_of count_factor stochs.now) }
    ensures few { IfOk result (λ count. count.value ≤ℤ pos usual_limits.scenarios) }
    ensures err { IfErr result (λ e. first_passed codes.SCENARIOS usual_limits.scenarios count_factor (pos 1) stochs.now ≡ Some e) }
{
    let mut product = Wide::of(1);
    'stochs: for stoch in stochs {
        let outcomes = count_of(stoch);
        product = product_within(product, outcomes, codes::SCENARIOS, limits::SCENARIOS)?;
    }
    Ok(product)
}

/// Instances times scenarios, or the limit that they pass.
pub(crate) fn copies(instances: usize, scenarios: Wide) -> Result<Wide, Excess>
    requires some { pos 0 ≤ℤ scenarios.value }
    ensures ok { IfOk result (λ n. first_above codes.COPIES usual_limits.copies ((pos instances *ℤ scenarios.value) ∷ []) ≡ None) }
    ensures few { IfOk result (λ n. (pos instances *ℤ scenarios.value) ≤ℤ pos usual_limits.copies) }
    ensures err { IfErr result (λ e. first_above codes.COPIES usual_limits.copies ((pos instances *ℤ scenarios.value) ∷ []) ≡ Some e) }
{
    let instances = Wide {
        value: instances as i128,
    };
    product_within(instances, scenarios, codes::COPIES, limits::COPIES)
}

/// What was measured before anything is built.
#[derive(Clone, Copy)]
pub(crate) struct Sizes {
    pub total: Wide,
    pub count: Wide,
}

impl Sizes {
    /// The weight of all scenarios and their number; or the first limit that they pass, or that so many instances pass with them.
    pub(crate) fn of(instances: usize, stochs: &[StochItem]) -> Result<Self, Excess>
        requires has_outcomes { AllByRecursion HasOutcome stochs.now }
        requires bounded { AllByRecursion IsBoundedStochastic stochs.now }
        ensures ok { IfOk result (λ sizes. early_excess instances stochs.now ≡ None) }
        ensures total { IfOk result (λ sizes. sizes.total.value ≡ total_weight stochs.now) }
        ensures light { IfOk result (λ sizes. sizes.total.value ≤ℤ largest.WEIGHT) }
        ensures count { IfOk result (λ sizes. sizes.count.value ≡ pos (length (scenarios stochs.now))) }
        ensures few { IfOk result (λ sizes. length (scenarios stochs.now) ≤ usual_limits.scenarios) }
        ensures copies { IfOk result (λ sizes. instances * length (scenarios stochs.now) ≤ usual_limits.copies) }
        ensures err { IfErr result (λ e. early_excess instances stochs.now ≡ Some e) }
    {
        let total = weight_of_all(stochs)?;
        let count = count_of_all(stochs)?;
        copies(instances, count)?;
        Ok(Sizes { total, count })
    }
}
