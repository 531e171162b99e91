//! Weights of scenarios, and when there are too few.

ghost use Rattle.std.specs.Prelude.{◌≡◌, ◌≤ℤ◌, ◌<◌, ◌^◌, ◌*ℤ◌, ◌+ℤ◌, int_lt, length, pos, false, true, slice_get, option_map, None, Some};
ghost use Rattle.std.specs.Option.{option_map_or};
ghost use Rattle.sopl_base.specs.declared.reason.Reason.TheVariants.{Chance};
ghost use Rattle.sopl_base.specs.declared.limits.TheConstants as largest;
ghost use Rattle.box_problem.specs.Box.{Box};
ghost use Rattle.term_problem.specs.Refuted.{is_false, refutes};
ghost use Rattle.term_program.specs.Programs.{IsMade, kept, problem_in, root_in};
ghost use Rattle.prop_shave.specs.ChanceSums.{at_risk, left_over, weight_at};

use sopl_base::{Wide, reaches};
use term_language::Truth;
use term_program::Program;

/// The fraction of all scenarios that a chance constraint asks for.
#[derive(Clone, Copy)]
struct Threshold {
    p: i64,
    q: i64,
}

/// The weight of a scenario.
#[tactic(auto, using(crate::proofs::Fractions::weight_is))]
fn weight_of(program: &Program, scenario: u32) -> Wide
    requires exists { scenario < length (problem_in program.now).weights }
    ensures { result.value ≡ weight_at (problem_in program.now) scenario }
{
    Wide {
        value: program.weight(scenario),
    }
}

/// The weight of a scenario, unless a condition is False.
pub fn weight_unless_false(program: &Program, scenario: u32, truth: Truth) -> Wide
    requires exists { scenario < length (problem_in program.now).weights }
    ensures { result.value ≡ kept (is_false truth) (weight_at (problem_in program.now) scenario) }
{
    match truth {
        Truth::False => Wide { value: 0 },
        Truth::Unknown => weight_of(program, scenario),
        Truth::True => weight_of(program, scenario),
    }
}

/// The weight of a scenario, if a condition is Unknown there.
pub(crate) fn weight_if_unknown(program: &Program, scenario: u32, truth: Truth) -> Wide
    requires exists { scenario < length (problem_in program.now).weights }
    ensures { result.value ≡ at_risk truth (weight_at (problem_in program.now) scenario) }
{
    match truth {
        Truth::False => Wide { value: 0 },
        Truth::Unknown => weight_of(program, scenario),
        Truth::True => Wide { value: 0 },
    }
}

/// The threshold of a chance constraint.
fn threshold_of(program: &Program, instance: u32) -> Threshold
    requires exists { instance < length (problem_in program.now).chances }
    ensures p { option_map (λ chance. chance.p) (slice_get (problem_in program.now).chances instance) ≡ Some result.p }
    ensures q { option_map (λ chance. chance.q) (slice_get (problem_in program.now).chances instance) ≡ Some result.q }
{
    let (p, q) = program.threshold(instance);
    Threshold { p, q }
}

/// The weight of all scenarios.
fn whole_of(program: &Program) -> Wide
    ensures { result.value ≡ (problem_in program.now).whole }
{
    Wide {
        value: program.total(),
    }
}

/// Whether a weight is less than such a fraction of the whole.
#[tactic(auto, using(term_program::proofs::Reasons::unreached))]
fn is_less(left: Wide, whole: Wide, threshold: &Threshold) -> bool
    requires low { pos 0 ≤ℤ left.value }
    requires high { left.value ≤ℤ whole.value }
    requires light { whole.value ≤ℤ largest.WEIGHT }
    requires from_zero { pos 0 ≤ℤ threshold.now.p }
    requires to_whole { threshold.now.p ≤ℤ threshold.now.q }
    requires positive { pos 1 ≤ℤ threshold.now.q }
    requires small { threshold.now.q ≤ℤ pos (2 ^ 20) }
    ensures { result ≡ int_lt (threshold.now.q *ℤ left.value) (threshold.now.p *ℤ whole.value) }
{
    !reaches(left.value, whole.value, threshold.p, threshold.q)
}

/// Whether a weight is too little for a chance constraint.
#[tactic(auto, using(crate::proofs::Fractions::too_little))]
pub fn is_too_little(program: &Program, instance: u32, left: Wide) -> bool
    requires made { IsMade program.now }
    requires exists { instance < length (problem_in program.now).chances }
    requires low { pos 0 ≤ℤ left.value }
    requires high { left.value ≤ℤ (problem_in program.now).whole }
    ensures { result ≡ option_map_or (λ chance. int_lt (chance.q *ℤ left.value) (chance.p *ℤ (problem_in program.now).whole)) (slice_get (problem_in program.now).chances instance) false }
{
    let threshold = threshold_of(program, instance);
    is_less(left, whole_of(program), &threshold)
}

/// Whether enough weight is left to a chance constraint where what is left turns by so much.
pub(crate) fn is_enough_with(program: &Program, instance: u32, left: Wide, turn: Wide) -> bool
    requires made { IsMade program.now }
    requires exists { instance < length (problem_in program.now).chances }
    requires turned { (b : Box) × ((left.value +ℤ turn.value) ≡ left_over (root_in program.now) (problem_in program.now) instance b) }
    ensures { (b : Box) → (left.value +ℤ turn.value) ≡ left_over (root_in program.now) (problem_in program.now) instance b → result ≡ true
        → refutes (root_in program.now) (problem_in program.now) (Chance instance) b None ≡ false }
{
    match left.checked_plus(turn) {
        Some(sum) => !is_too_little(program, instance, sum),
        None => false,
    }
}
