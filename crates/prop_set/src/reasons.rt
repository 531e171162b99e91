//! The propagators for all reasons of a program.

ghost use Rattle.std.specs.Prelude.{◌≡◌, ◌<◌, ◌∷◌, ◌++◌, [], length, map, IfOk, OnOk};
ghost use Rattle.sopl_base.specs.declared.reason.Reason.TheVariants as reason;
ghost use Rattle.term_program.specs.Stated.{box_problem_of};
ghost use Rattle.box_problem.specs.Box.{Box};
ghost use Rattle.prop_core.specs.Members.{AllFit, together};
ghost use Rattle.prop_core.specs.Watches.{AllInStep};
ghost use Rattle.term_program.specs.Programs.{IsMade, problem_in};
ghost use Rattle.prop_set.specs.Kinds.{Fits, IsInStep, chance_reasons, goal_reasons, reasons_of};

use crate::any_prop::AnyProp;
use crate::members::hard_props;
use prop_chance::Chance;
use prop_goal::Goal;
use std::alloc::{AllocError, Global};
use term_program::Program;

/// The propagator of a chance constraint.
fn chance_prop(alloc: Global, program: &Program, instance: u32) -> Result<AnyProp, AllocError>
    requires made { IsMade program.now }
    requires instance { instance < length (problem_in program.now).chances }
    ensures reasons { IfOk result (λ made. reasons_of made ≡ reason.Chance instance ∷ []) }
    ensures fits { IfOk result (λ made. Fits made program.now) }
    ensures in_step { IfOk result (λ made. (b : Box) → IsInStep made program.now b) }
{
    let member = Chance::new(alloc, program, instance)?;
    Ok(AnyProp::Chance(member))
}

/// The propagator of the objective.
fn goal_prop(alloc: Global, program: &Program) -> Result<AnyProp, AllocError>
    requires made { IsMade program.now }
    ensures reasons { IfOk result (λ made. reasons_of made ≡ goal_reasons (problem_in program.now)) }
    ensures fits { IfOk result (λ made. Fits made program.now) }
    ensures in_step { IfOk result (λ made. (b : Box) → IsInStep made program.now b) }
{
    let member = Goal::new(alloc, program)?;
    Ok(AnyProp::Goal(member))
}

/// Adds the propagators of all chance constraints.
#[tactic(auto, using(crate::proofs::Together::fit_more, crate::proofs::Together::reasons_more, crate::proofs::Together::none_yet))]
fn add_chances(alloc: Global, program: &Program, list: &mut Vec<AnyProp>) -> Result<(), AllocError>
    requires made { IsMade program.now }
    requires fit { AllFit Fits program.now list.old.items }
    requires in_step { (b : Box) → AllInStep IsInStep program.now b list.old.items }
    ensures fit { OnOk result (AllFit Fits program.now list.new.items) }
    ensures in_step { OnOk result ((b : Box) → AllInStep IsInStep program.now b list.new.items) }
    ensures reasons { OnOk result (together (map reasons_of list.new.items) ≡ together (map reasons_of list.old.items) ++ chance_reasons (problem_in program.now)) }
{
    'instances: for instance in 0..program.chances() {
        list.push(chance_prop(alloc, program, instance)?)?;
    }
    Ok(())
}

/// Adds the propagator of the objective.
#[tactic(auto, using(crate::proofs::Together::goal_more))]
fn add_goal(alloc: Global, program: &Program, list: &mut Vec<AnyProp>) -> Result<(), AllocError>
    requires made { IsMade program.now }
    requires fit { AllFit Fits program.now list.old.items }
    requires in_step { (b : Box) → AllInStep IsInStep program.now b list.old.items }
    ensures fit { OnOk result (AllFit Fits program.now list.new.items) }
    ensures in_step { OnOk result ((b : Box) → AllInStep IsInStep program.now b list.new.items) }
    ensures reasons { OnOk result (together (map reasons_of list.new.items) ≡ together (map reasons_of list.old.items) ++ goal_reasons (problem_in program.now)) }
{
    list.push(goal_prop(alloc, program)?)?;
    Ok(())
}

/// The propagators of a program. Their reasons are all reasons of its problem, in the same order: each hard constraint in each scenario,
/// the chance constraints, and the objective.
#[tactic(auto, using(crate::proofs::Together::all_reasons))]
pub fn props_of(alloc: Global, program: &Program) -> Result<Vec<AnyProp>, AllocError>
    requires made { IsMade program.now }
    ensures fit { IfOk result (λ list. AllFit Fits program.now list.items) }
    ensures in_step { IfOk result (λ list. (b : Box) → AllInStep IsInStep program.now b list.items) }
    ensures reasons { IfOk result (λ list. together (map reasons_of list.items) ≡ (box_problem_of program.now).reasons) }
{
    let mut list = hard_props(alloc, program)?;
    add_chances(alloc, program, &mut list)?;
    add_goal(alloc, program, &mut list)?;
    Ok(list)
}
