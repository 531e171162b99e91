//! What is true of reports. The functions are empty and state what was proved of the definitions.

ghost use Rattle.policy_eval.specs.Reports.{ReportsAreOne, SatisfyingAreTold};

/// Of a policy one thing alone is told. It does nothing when it runs.
pub fn reports_are_one()
    ensures law { ReportsAreOne }
{}

/// It is told that a policy satisfies exactly where it does. It does nothing when it runs.
pub fn satisfying_are_told()
    ensures law { SatisfyingAreTold }
{}
