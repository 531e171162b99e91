//! Counting faults.
ghost use Rattle.std.specs.Prelude.{◌≡◌, ◌≤◌};
ghost use Rattle.sopl_io.specs.Causes.{one_more};

use crate::Failed;

/// Counts a fault, which a call then answers.
pub fn fault(faults: &mut u64) -> Failed
    ensures counted { faults.new ≡ one_more faults.old }
    ensures faults_grow { faults.old ≤ faults.new }
{
    *faults = faults.saturating_add(1);
    Failed
}
