//! How large an objective is.

ghost use Rattle.std.specs.Prelude.{◌≡◌, ◌+◌, ◌<◌, ◌^◌, ◌*ℤ◌, pos, length, slice_index_or, unsigned_abs, IfOk, false};
ghost use Rattle.term_language.specs.Globals.{total};
ghost use Rattle.term_language.specs.Sizes.{atoms_weight, size};
ghost use Rattle.term_problem.specs.Objective.{greatest_size};
ghost use Rattle.term_math.specs.Shown.{box_in};
ghost use Rattle.term_nodes.specs.Built.{AllBelow};
ghost use Rattle.term_nodes.specs.Seen.{IsReady};
ghost use Rattle.term_nodes.specs.Things.{term_at, things};
ghost use Rattle.term_goals.specs.Goals.{AreWeights, IsMeasured, goal_size, terms_of};

use sopl_base::{Excess, Fault, Wide, codes, limits};
use std::alloc::{AllocError, Global};
use term_nodes::{Evaluator, form_at};

/// The weight of a scenario.
pub(crate) fn scenario_weight(weights: &[i128], scenario: usize) -> Wide
    requires exists { scenario < length weights.now }
    ensures { result.value ≡ slice_index_or weights.now scenario (pos 0) }
{
    Wide {
        value: weights[scenario],
    }
}

/// The weight of all scenarios.
#[tactic(auto, using(crate::proofs::Weights::next_total, crate::proofs::Weights::no_total))]
pub fn whole_weight(weights: &[i128]) -> Wide
    requires weights { AreWeights weights.now }
    ensures { result.value ≡ total weights.now }
{
    let mut sum = Wide::of(0);
    for i in (0..weights.len()).rev() {
        let weight = scenario_weight(weights, i);
        sum = weight.plus(sum);
    }
    sum
}

/// The weight of the non-linear part of a term.
#[tactic(auto, using(term_nodes::proofs::Reading::weight_is))]
fn weight_at(here: &Evaluator, id: u32) -> u64
    requires ready { IsReady here.now }
    requires exists { id < length here.now.items.now }
    ensures { result ≡ atoms_weight (box_in here.now.root) (term_at (things here.now.items.now) id) }
{
    here.items[id as usize].facts.weight
}

/// The size of a term.
fn size_at(alloc: Global, here: &Evaluator, id: u32) -> Result<u128, AllocError>
    requires ready { IsReady here.now }
    requires exists { id < length here.now.items.now }
    ensures { IfOk result (λ found. found ≡ size (box_in here.now.root) (term_at (things here.now.items.now) id)) }
{
    let wide = form_at(here.items, id).widened(alloc)?;
    Ok(wide.weight(&here.root) + u128::from(weight_at(here, id)))
}

/// The greatest size of several terms.
#[tactic(auto, using(crate::proofs::Weights::next_greatest, crate::proofs::Weights::no_greatest))]
fn greatest_size(alloc: Global, here: &Evaluator, terms: &[u32]) -> Result<u128, AllocError>
    requires ready { IsReady here.now }
    requires exist { AllBelow (length here.now.items.now) terms.now }
    ensures { IfOk result (λ most. most ≡ greatest_size (box_in here.now.root) (terms_of (things here.now.items.now) terms.now)) }
{
    let mut most = 0;
    for i in (0..terms.len()).rev() {
        let size = size_at(alloc, here, terms[i])?;
        most = size.max(most);
    }
    Ok(most)
}

/// A size and one more.
fn one_more(size: u128) -> Wide
    requires room { size < 2 ^ 126 }
    ensures { result.value ≡ pos (size + 1) }
{
    Wide {
        value: size as i128 + 1,
    }
}

/// Refuses a product above 2^126.
#[tactic(auto, using(crate::proofs::Weights::product_refused, crate::proofs::Weights::product_passes))]
fn measured_product(a: &Wide, b: &Wide) -> Result<(), Fault>
    ensures { IsMeasured false (a.now.value *ℤ b.now.value) result }
{
    let size = a.value.saturating_mul(b.value);
    if size > limits::GOAL_SIZE {
        return Err(Fault::Limit(Excess {
            code: codes::TERM_SIZE,
            counted: size,
            limit: limits::GOAL_SIZE,
        }));
    }
    Ok(())
}

/// Refuses an expected objective whose size passes 2^126.
pub(crate) fn measured(
    alloc: Global,
    here: &Evaluator,
    weights: &[i128],
    terms: &[u32],
) -> Result<(), Fault>
    requires ready { IsReady here.now }
    requires weights { AreWeights weights.now }
    requires exist { AllBelow (length here.now.items.now) terms.now }
    ensures { IsMeasured false (goal_size (box_in here.now.root) weights.now (terms_of (things here.now.items.now) terms.now)) result }
{
    let most = greatest_size(alloc, here, terms)?;
    measured_product(&whole_weight(weights), &one_more(most))
}
