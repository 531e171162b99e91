//! A policy is evaluated.

ghost use Rattle.std.specs.Prelude.{◌≡◌, All, None, IfOk};
ghost use Rattle.compile_laws.specs.Texts.{program_excess};
ghost use Rattle.sopl_ast.specs.Limits.{size_excess, usual_limits};
ghost use Rattle.sopl_policy.specs.Kept.{IsPolicyFor, policy_map};
ghost use Rattle.sopl_scen.specs.Layout.{IsTreeOf};
ghost use Rattle.policy_eval.specs.Reports.{IsHeld, IsReport};
ghost use Rattle.policy_eval.specs.Shown.{report_shown};
ghost use Rattle.policy_eval.specs.Tried.{IsTrial, policy_of, posed};
ghost use Rattle.sopl_unfold.specs.GroundProblem.{ground_problem};

use crate::report::Report;
use crate::trial::Trial;
use policy_values::Variables;
use sopl_policy::Policy;
use sopl_scen::Tree;
use sopl_unfold::Ground;
use std::alloc::{AllocError, Global};

/// What is told of a policy: that it satisfies, with its value and the sums of the chance constraints; or what fails first, hard constraints before chance constraints, and these before the objective. The text passes
/// no limit on its terms (206, 207), so no number in it passes the sizes that are reckoned with.
pub fn evaluate(
    alloc: Global,
    policy: &Policy,
    ground: &Ground,
    tree: &Tree,
) -> Result<Report, AllocError>
    requires laid_out { IsTreeOf (ground_problem ground.now).decisions (ground_problem ground.now).stochastics tree.now }
    requires within { size_excess usual_limits (ground_problem ground.now) ≡ None }
    requires allowed { program_excess (ground_problem ground.now) ≡ None }
    requires policy { IsPolicyFor (ground_problem ground.now) policy.now }
    ensures report { IfOk result (λ report. IsReport (ground_problem ground.now) (policy_map (ground_problem ground.now) policy.now)
        (report_shown report)) }
{
    let variables = Variables::of(alloc, ground.stochs(), ground.decisions())?;
    let conditions = ground.conditions(alloc)?;
    let trial = Trial {
        alloc,
        table: ground.table(),
        conditions: conditions.as_slice(),
        hards: ground.hards(),
        chances: ground.chances(),
        goal: &ground.typed().model().goal,
        variables: &variables,
        tree,
        policy: policy.values(),
    };
    report_of(&trial)
}

/// What is told behind all trials.
fn report_of(trial: &Trial<'_, '_>) -> Result<Report, AllocError>
    requires tried { IsTrial trial.now }
    ensures told { IfOk result (λ report. IsReport (posed trial.now) (policy_of trial.now) (report_shown report)) }
{
    match trial.hards()? {
        Some(report) => Ok(report),
        None => chances_told(trial),
    }
}

/// What is told where no hard constraint fails.
fn chances_told(trial: &Trial<'_, '_>) -> Result<Report, AllocError>
    requires tried { IsTrial trial.now }
    requires held { All (IsHeld (posed trial.now) (policy_of trial.now)) trial.now.hards.now }
    ensures told { IfOk result (λ report. IsReport (posed trial.now) (policy_of trial.now) (report_shown report)) }
{
    match trial.chances()? {
        Ok(sums) => trial.objective(sums),
        Err(report) => Ok(report),
    }
}
