//! The scenarios that share a history.

ghost use Rattle.std.specs.Prelude.{◌≤◌, ◌<◌};
ghost use Rattle.sopl_scen.specs.Layout.{count_in};
ghost use Rattle.policy_json.specs.Steps.{IsRunOf};

use sopl_scen::Tree;

/// The first scenario behind a scenario that has another history of a stage than it; or how many scenarios there are, where none has.
pub(crate) fn run_end(tree: &Tree, stage: u32, scenario: u32) -> u32
    requires from { 1 ≤ stage }
    requires to { stage ≤ 24 }
    requires exists { scenario < count_in tree.now }
    ensures run { IsRunOf tree.now stage scenario result }
{
    let count = tree.count();
    let number = tree.history(stage, scenario);
    'scenarios: for later in scenario + 1..count {
        if tree.history(stage, later) != number {
            return later;
        }
    }
    count
}
