//! The best value against which a propagator has rested.

ghost use Rattle.std.specs.Prelude.{◌≡◌, true, Some, List};
ghost use Rattle.sopl_base.specs.declared.reason.Reason.{Reason};
ghost use Rattle.box_problem.specs.Box.{Box};
ghost use Rattle.box_problem.specs.BoxProblem.{BoxProblem};
ghost use Rattle.prop_core.specs.Findings.{Finds};
ghost use Rattle.prop_core.specs.Watches.{HasRested};

use crate::finding::Finding;

/// Whether what has rested against the one value has rested against the other.
#[tactic(auto, using(crate::proofs::Rested::same_rested))]
pub fn rests_at(rested: Option<Option<i128>>, best: Option<i128>) -> bool
    ensures { result ≡ true → rested ≡ Some best }
{
    rested == Some(best)
}

/// The value against which it rests after a finding, if it does.
#[tactic(auto, using(crate::proofs::Rested::rests_quiet))]
pub fn rested_by(finding: &Finding, best: Option<i128>) -> Option<Option<i128>>
    ensures { (problem : BoxProblem) (reasons : List Reason) (b : Box) → Finds problem reasons best b finding.now
        → HasRested problem reasons result b }
{
    match finding {
        Finding::Quiet => Some(best),
        _ => None,
    }
}
