//! The propagators of all hard constraints of a program.

ghost use Rattle.std.specs.Prelude.{◌≡◌, ◌<◌, ◌∷◌, ◌++◌, [], length, map, IfOk, OnOk};
ghost use Rattle.std.specs.List.Sorted.{IsStrictlyIncreasing};
ghost use Rattle.sopl_base.specs.declared.reason.Reason.TheVariants.{Hard};
ghost use Rattle.box_problem.specs.Box.{Box};
ghost use Rattle.prop_core.specs.Members.{AllFit, together};
ghost use Rattle.prop_core.specs.Watches.{AllInStep, LooksAt};
ghost use Rattle.term_program.specs.Programs.{IsMade, problem_in};
ghost use Rattle.term_program.specs.Stated.{box_problem_of};
ghost use Rattle.prop_set.specs.Kinds.{Fits, IsInStep, hard_reasons, instance_reasons, reasons_of};

use crate::any_prop::AnyProp;
use prop_alldiff::AllDiff;
use prop_core::Resting;
use prop_cumul::Cumul;
use prop_linear::Linear;
use prop_term::AnyTerm;
use std::alloc::{AllocError, Global};
use term_program::{Form, Program};

/// The cells that the condition of a hard constraint mentions in a scenario, in ascending order.
fn hard_cells(
    alloc: Global,
    program: &Program,
    instance: u32,
    scenario: u32,
) -> Result<Vec<u32>, AllocError>
    requires made { IsMade program.now }
    requires instance { instance < length (problem_in program.now).hards }
    requires scenario { scenario < length (problem_in program.now).weights }
    ensures decide { IfOk result (λ cells. LooksAt (box_problem_of program.now) (Hard instance scenario ∷ []) cells.items) }
    ensures ascend { IfOk result (λ cells. IsStrictlyIncreasing cells.items) }
{
    let cells = Vec::from_slice(alloc, program.cells_of(program.hard(instance, scenario)))?;
    Ok(cells)
}

/// The propagator of a hard constraint in a scenario that is no linear comparison, for which another one is quicker; it watches these cells, which
/// ascend.
#[tactic(auto, using(crate::proofs::Together::different_there, crate::proofs::Together::cumulative_there))]
fn prop_with(
    alloc: Global,
    program: &Program,
    instance: u32,
    scenario: u32,
    cells: Vec<u32>,
) -> Result<AnyProp, AllocError>
    requires made { IsMade program.now }
    requires instance { instance < length (problem_in program.now).hards }
    requires scenario { scenario < length (problem_in program.now).weights }
    requires decide { LooksAt (box_problem_of program.now) (Hard instance scenario ∷ []) cells.items }
    requires ascend { IsStrictlyIncreasing cells.items }
    ensures reasons { IfOk result (λ made. reasons_of made ≡ Hard instance scenario ∷ []) }
    ensures fits { IfOk result (λ made. Fits made program.now) }
    ensures in_step { IfOk result (λ made. (b : Box) → IsInStep made program.now b) }
{
    match program.form(program.hard(instance, scenario)) {
        Form::AllDifferent => Ok(AnyProp::AllDiff(Resting::new(
            AllDiff::new(alloc, program, instance, scenario)?,
            cells,
        ))),
        Form::Cumulative => Ok(AnyProp::Cumul(Resting::new(
            Cumul::new(alloc, program, instance, scenario)?,
            cells,
        ))),
        _ => Ok(AnyProp::AnyTerm(Resting::new(AnyTerm::new(program, instance, scenario)?, cells))),
    }
}

/// The propagator of a hard constraint in a scenario.
#[tactic(auto, using(crate::proofs::Together::linear_there))]
fn prop_of(
    alloc: Global,
    program: &Program,
    instance: u32,
    scenario: u32,
) -> Result<AnyProp, AllocError>
    requires made { IsMade program.now }
    requires instance { instance < length (problem_in program.now).hards }
    requires scenario { scenario < length (problem_in program.now).weights }
    ensures reasons { IfOk result (λ made. reasons_of made ≡ Hard instance scenario ∷ []) }
    ensures fits { IfOk result (λ made. Fits made program.now) }
    ensures in_step { IfOk result (λ made. (b : Box) → IsInStep made program.now b) }
{
    match program.form(program.hard(instance, scenario)) {
        Form::Linear => {
            let prop = Linear::new(alloc, program, instance, scenario)?;
            Ok(AnyProp::Linear(prop))
        }
        _ => {
            let cells = hard_cells(alloc, program, instance, scenario)?;
            prop_with(alloc, program, instance, scenario, cells)
        }
    }
}

/// Adds the propagators of a hard constraint in all scenarios.
#[tactic(auto, using(crate::proofs::Together::fit_more, crate::proofs::Together::reasons_more, crate::proofs::Together::none_yet))]
fn add_instance(
    alloc: Global,
    program: &Program,
    instance: u32,
    list: &mut Vec<AnyProp>,
) -> Result<(), AllocError>
    requires made { IsMade program.now }
    requires instance { instance < length (problem_in program.now).hards }
    requires fit { AllFit Fits program.now list.old.items }
    requires in_step { (b : Box) → AllInStep IsInStep program.now b list.old.items }
    ensures fit { OnOk result (AllFit Fits program.now list.new.items) }
    ensures in_step { OnOk result ((b : Box) → AllInStep IsInStep program.now b list.new.items) }
    ensures reasons { OnOk result (together (map reasons_of list.new.items) ≡ together (map reasons_of list.old.items) ++ instance_reasons (problem_in program.now) instance) }
{
    'scenarios: for scenario in 0..program.scenarios() {
        list.push(prop_of(alloc, program, instance, scenario)?)?;
    }
    Ok(())
}

/// A propagator for each hard constraint in each scenario.
#[tactic(auto, using(crate::proofs::Together::instances_more, sopl_base::proofs::Lists::all_none))]
pub fn hard_props(alloc: Global, program: &Program) -> Result<Vec<AnyProp>, AllocError>
    requires made { IsMade program.now }
    ensures fit { IfOk result (λ list. AllFit Fits program.now list.items) }
    ensures in_step { IfOk result (λ list. (b : Box) → AllInStep IsInStep program.now b list.items) }
    ensures reasons { IfOk result (λ list. together (map reasons_of list.items) ≡ hard_reasons (problem_in program.now)) }
{
    let mut list = Vec::new(alloc);
    'instances: for instance in 0..program.hards() {
        add_instance(alloc, program, instance, &mut list)?;
    }
    Ok(list)
}
