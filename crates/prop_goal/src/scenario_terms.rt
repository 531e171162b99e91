//! The objective's term in each scenario, as a part of the objective.

ghost use Rattle.std.specs.Prelude.{◌≡◌, ◌+◌, ◌<◌, length, true, IfOk, OnOk};
ghost use Rattle.term_program.specs.Programs.{IsMade, problem_in};
ghost use Rattle.prop_goal.specs.Cells.{is_worst};
ghost use Rattle.prop_goal.specs.KeptWorst.{AreScenarioTerms};

use std::alloc::{AllocError, Global};
use term_goals::Atom;
use term_program::Program;

/// Adds the term in one scenario more.
#[tactic(auto, using(crate::proofs::Worst::no_term_lacks))]
fn put_term(atoms: &mut Vec<Atom>, program: &Program, scenario: u32) -> Result<(), AllocError>
    requires made { IsMade program.now }
    requires worst { is_worst (problem_in program.now) ≡ true }
    requires scenario { scenario < length (problem_in program.now).weights }
    requires terms { AreScenarioTerms program.now scenario atoms.old.items }
    ensures { OnOk result (AreScenarioTerms program.now (scenario + 1) atoms.new.items) }
{
    match program.goal(scenario) {
        Some(term) => {
            atoms.push(Atom { k: 1, term: term.0 })?;
            Ok(())
        }
        None => Ok(()),
    }
}

/// The term in each scenario, once, of an objective of which the worst scenario counts.
#[tactic(auto, using(crate::proofs::Worst::no_terms))]
pub(crate) fn scenario_terms(alloc: Global, program: &Program) -> Result<Vec<Atom>, AllocError>
    requires made { IsMade program.now }
    requires worst { is_worst (problem_in program.now) ≡ true }
    ensures { IfOk result (λ atoms. AreScenarioTerms program.now (length (problem_in program.now).weights) atoms.items) }
{
    let mut atoms = Vec::new(alloc);
    'scenarios: for scenario in 0..program.scenarios() {
        put_term(&mut atoms, program, scenario)?;
    }
    Ok(atoms)
}
