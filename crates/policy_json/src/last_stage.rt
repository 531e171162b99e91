//! The last stage of decisions.

ghost use Rattle.std.specs.Prelude.{◌≡◌, ◌≤◌};
ghost use Rattle.policy_json.specs.LastStage.{last_stage};

use unfold_variables::DecisionItem;

/// The greatest stage of a decision; 1 where there is none.
pub fn greatest_stage(decisions: &[DecisionItem]) -> u32
    ensures stage { result ≡ last_stage decisions.now }
    ensures from { 1 ≤ result }
{
    let mut last: u32 = 1;
    'decisions: for decision in decisions {
        last = last.max(decision.stage);
    }
    last
}
