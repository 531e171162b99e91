//! The calls of a source or a sink in memory, by number, and which of them fail.
ghost use Rattle.std.specs.Prelude.{◌≡◌, ◌↔◌, ◌≤◌, IsTrue, Contains};
ghost use Rattle.sopl_io.specs.Causes.{one_more};

use crate::Failed;
use crate::fault::fault;

#[derive(Drop)]
pub struct FaultPlan {
    pub failing: Vec<u64>,
    pub calls: u64,
    pub faults: u64,
}

impl FaultPlan {
    pub fn new(failing: Vec<u64>) -> FaultPlan
        ensures failing { result.failing.items ≡ failing.items }
        ensures calls { result.calls ≡ 0 }
        ensures faults { result.faults ≡ 0 }
    {
        FaultPlan {
            failing,
            calls: 0,
            faults: 0,
        }
    }

    /// Counts a call, and answers whether its number is listed.
    pub fn is_next_listed(&mut self) -> bool
        ensures listed { IsTrue result ↔ Contains self.old.failing.items self.old.calls }
        ensures failing { self.new.failing.items ≡ self.old.failing.items }
        ensures calls { self.new.calls ≡ one_more self.old.calls }
        ensures faults { self.new.faults ≡ self.old.faults }
    {
        let is_listed = self.failing.contains(&self.calls);
        self.calls = self.calls.saturating_add(1);
        is_listed
    }

    /// Counts a fault.
    pub fn fail(&mut self) -> Failed
        ensures failing { self.new.failing.items ≡ self.old.failing.items }
        ensures calls { self.new.calls ≡ self.old.calls }
        ensures faults { self.new.faults ≡ one_more self.old.faults }
        ensures faults_grow { self.old.faults ≤ self.new.faults }
    {
        fault(&mut self.faults)
    }
}
