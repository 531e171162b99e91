//! A program is begun: its cells with their domains, its scenarios with their weights, and what the objective is to be.

ghost use Rattle.std.specs.Prelude.{◌≡◌, IfOk, None};
ghost use Rattle.compile_scene.specs.Scenes.{IsLaid};
ghost use Rattle.compile_scene.specs.Works.{IsReady};
ghost use Rattle.sopl_ast.specs.Limits.{size_excess, usual_limits};
ghost use Rattle.sopl_ast.specs.Unfolding.{problem_of};
ghost use Rattle.sopl_ast.specs.WholeModel.{whole};
ghost use Rattle.sopl_compile.specs.Begun.{bare_terms, direction_of, worst_of};
ghost use Rattle.sopl_compile.specs.Posed.{IsSettingOf};
ghost use Rattle.sopl_unfold.specs.GroundProblem.{ground_problem};
ghost use Rattle.sopl_term.specs.Built.{asked_direction, asked_worst, problem_built};

use compile_names::Scenarios;
use compile_scene::{Lowering, cell_domains};
use sopl_ast::Model;
use sopl_base::Direction;
use sopl_scen::Tree;
use sopl_term::Builder;
use sopl_unfold::Ground;
use std::alloc::{AllocError, Global};

/// The weights of the scenarios.
fn weights_of(alloc: Global, tree: &Tree) -> Result<Vec<i128>, AllocError>
    ensures weights { IfOk result (λ list. list.items ≡ tree.now.weights) }
{
    let mut list = Vec::new(alloc);
    'scenarios: for scenario in 0..tree.count() {
        list.push(tree.weight(scenario))?;
    }
    Ok(list)
}

/// Which values of the objective are better.
fn direction_of(model: &Model) -> Direction
    ensures direction { result ≡ direction_of (problem_of (whole model.now)) }
{
    match &model.goal {
        None => Direction::Nothing,
        Some(goal) => goal.direction,
    }
}

/// Whether the worst scenario counts, and not the expected value.
fn worst_of(model: &Model) -> bool
    ensures worst { result ≡ worst_of (problem_of (whole model.now)) }
{
    match &model.goal {
        None => false,
        Some(goal) => goal.worst,
    }
}

/// The work on a program over the cells and the scenarios of a problem, with no constraint yet.
pub(crate) fn begun(
    alloc: Global,
    ground: &Ground,
    setting: &Scenarios<'_>,
) -> Result<Lowering, AllocError>
    requires laid_out { IsLaid setting.now }
    requires setting { IsSettingOf (ground_problem ground.now) setting.now }
    requires within { size_excess usual_limits (ground_problem ground.now) ≡ None }
    ensures ready { IfOk result (IsReady setting.now) }
    ensures problem { IfOk result (λ work. problem_built work.builder ≡ bare_terms (ground_problem ground.now)) }
    ensures direction { IfOk result (λ work. asked_direction work.builder ≡ direction_of (ground_problem ground.now)) }
    ensures worst { IfOk result (λ work. asked_worst work.builder ≡ worst_of (ground_problem ground.now)) }
{
    let model = ground.typed().model();
    let domains = cell_domains(alloc, setting)?;
    let weights = weights_of(alloc, setting.tree)?;
    let builder = Builder::new(
        alloc,
        domains.as_slice(),
        weights.as_slice(),
        direction_of(model),
        worst_of(model),
    )?;
    Ok(Lowering::new(alloc, builder))
}
