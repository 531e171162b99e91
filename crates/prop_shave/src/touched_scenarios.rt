//! The scenarios in which a chance constraint's condition mentions a cell.

ghost use Rattle.std.specs.Prelude.{◌≡◌, ◌<◌, length, IfOk};
ghost use Rattle.term_program.specs.Programs.{IsMade, problem_in, root_in};
ghost use Rattle.prop_shave.specs.ChanceSums.{is_touched, touched_by};

use crate::lists::{has, put_if};
use std::alloc::{AllocError, Global};
use term_program::Program;

/// The numbers of several scenarios.
#[derive(Drop)]
pub struct TouchedScenarios {
    pub numbers: Vec<u32>,
}

/// Whether a chance constraint's condition mentions a cell in a scenario.
fn touches(program: &Program, instance: u32, scenario: u32, cell: u32) -> bool
    requires made { IsMade program.now }
    requires instance { instance < length (problem_in program.now).chances }
    requires scenario { scenario < length (problem_in program.now).weights }
    ensures { result ≡ is_touched (root_in program.now) (problem_in program.now) instance cell scenario }
{
    has(program.cells_of(program.chance(instance, scenario)), cell)
}

/// The scenarios in which a chance constraint's condition mentions a cell.
#[tactic(auto, using(crate::proofs::ChanceMentioned::touched_more))]
pub fn scenarios_touching(
    alloc: Global,
    program: &Program,
    instance: u32,
    cell: u32,
) -> Result<TouchedScenarios, AllocError>
    requires made { IsMade program.now }
    requires instance { instance < length (problem_in program.now).chances }
    ensures touched { IfOk result (λ list. list.numbers.items ≡ touched_by (root_in program.now) (problem_in program.now) instance cell) }
{
    let mut numbers = Vec::new(alloc);
    'scenarios: for scenario in 0..program.scenarios() {
        let wanted = touches(program, instance, scenario, cell);
        put_if(&mut numbers, scenario, wanted)?;
    }
    Ok(TouchedScenarios { numbers })
}
