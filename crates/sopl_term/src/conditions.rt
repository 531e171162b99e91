//! Conditions are added.

ghost use Rattle.term_store.specs.declared.additions.NewCond.TheVariants as new;
ghost use Rattle.sopl_term.specs.Built.{CanAddCond, HasAddedCond};

use crate::builder::Builder;
use sopl_base::CmpOp;
use std::alloc::AllocError;
use term_store::{CondId, NewCond, TermId};

impl Builder {
    /// A condition: what was added before is as it was, and the number stands for the condition.
    pub fn add_cond(&mut self, new: &NewCond<'_>) -> Result<CondId, AllocError>
        requires can { CanAddCond self.old new.now }
        ensures added { HasAddedCond self.old self.new new.now result }
    {
        self.draft.store.add_cond(new)
    }

    /// A comparison.
    pub fn compare(&mut self, op: CmpOp, a: TermId, b: TermId) -> Result<CondId, AllocError>
        requires can { CanAddCond self.old (new.Compare op a b) }
        ensures added { HasAddedCond self.old self.new (new.Compare op a b) result }
    {
        self.add_cond(&NewCond::Compare(op, a, b))
    }

    /// `!`.
    pub fn not(&mut self, a: CondId) -> Result<CondId, AllocError>
        requires can { CanAddCond self.old (new.Not a) }
        ensures added { HasAddedCond self.old self.new (new.Not a) result }
    {
        self.add_cond(&NewCond::Not(a))
    }

    /// `&&` of all.
    pub fn all(&mut self, parts: &[CondId]) -> Result<CondId, AllocError>
        requires can { CanAddCond self.old (new.All parts) }
        ensures added { HasAddedCond self.old self.new (new.All parts.entry) result }
    {
        self.add_cond(&NewCond::All(parts))
    }

    /// `||` of all.
    pub fn any(&mut self, parts: &[CondId]) -> Result<CondId, AllocError>
        requires can { CanAddCond self.old (new.Any parts) }
        ensures added { HasAddedCond self.old self.new (new.Any parts.entry) result }
    {
        self.add_cond(&NewCond::Any(parts))
    }

    /// `=>`.
    pub fn implies(&mut self, a: CondId, b: CondId) -> Result<CondId, AllocError>
        requires can { CanAddCond self.old (new.Implies a b) }
        ensures added { HasAddedCond self.old self.new (new.Implies a b) result }
    {
        self.add_cond(&NewCond::Implies(a, b))
    }

    /// `allDifferent` of terms.
    pub fn all_different(&mut self, parts: &[TermId]) -> Result<CondId, AllocError>
        requires can { CanAddCond self.old (new.AllDifferent parts) }
        ensures added { HasAddedCond self.old self.new (new.AllDifferent parts.entry) result }
    {
        self.add_cond(&NewCond::AllDifferent(parts))
    }

    /// `cumulative` of tasks, each by its start, its length and its demand, under a capacity.
    pub fn cumulative(
        &mut self,
        tasks: &[(TermId, TermId, TermId)],
        capacity: TermId,
    ) -> Result<CondId, AllocError>
        requires can { CanAddCond self.old (new.Cumulative tasks capacity) }
        ensures added { HasAddedCond self.old self.new (new.Cumulative tasks.entry capacity) result }
    {
        self.add_cond(&NewCond::Cumulative(tasks, capacity))
    }
}
