//! That the numbers of reasons and steps fit their types.

ghost use Rattle.std.specs.Prelude.{◌<◌, ◌^◌, All};
ghost use Rattle.log_rows.specs.Ranges.{ReasonFits, StepFits};

use sopl_base::{Reason, Step};

/// A number of 32 bits is below 2^32.
fn number_fits(_number: u32)
    ensures { _number < 2 ^ 32 }
{}

/// The numbers of a reason that is read fit their types.
pub(crate) fn reason_fits(reason: &Reason)
    ensures { ReasonFits reason.now }
{
    match *reason {
        Reason::Hard { instance, scenario } => {
            number_fits(instance);
            number_fits(scenario);
        }
        Reason::Chance { instance } => number_fits(instance),
        Reason::Undefined { scenario } => number_fits(scenario),
        Reason::Bound => (),
    }
}

/// The numbers of a step that is read fit their types.
fn step_fits(step: &Step)
    ensures { StepFits step.now }
{
    reason_fits(&step.reason);
    let _cell = step.cell;
    let _k = step.k;
}

/// The numbers of steps that are read fit their types.
#[tactic(auto, using(crate::proofs::Known::one_more_fits, crate::proofs::Known::all_fit))]
pub(crate) fn steps_fit(steps: &[Step])
    ensures { All StepFits steps.now }
{
    'steps: for step in steps {
        step_fits(step);
    }
}
