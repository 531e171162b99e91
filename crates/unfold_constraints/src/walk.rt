//! The walk through constraints, which adds the instances that it meets.

ghost use Rattle.std.specs.Prelude.{◌≤◌, map, OnOk};
ghost use Rattle.sopl_ast.specs.Constraints.{cons_tree};
ghost use Rattle.sopl_ast.specs.Lists.{binders};
ghost use Rattle.sopl_ast.specs.Whole.{ForallTree, conses};
ghost use Rattle.unfold_constants.specs.Choosing.{Leads, entered, give_name, leave_name, open_in, remaining};
ghost use Rattle.unfold_constants.specs.CountedAnswers.{Answers};
ghost use Rattle.unfold_constants.specs.Here.{known_in};
ghost use Rattle.unfold_constraints.specs.Shown.{found_in};
ghost use Rattle.unfold_constraints.specs.Stepping as spec;

use crate::calls::numbers_at;
use crate::items::Instances;
use crate::numbering::behind;
use crate::place::{Part, Place};
use sopl_ast::{Binder, Binders, Cons};
use sopl_base::Fault;
use std::alloc::Global;
use unfold_constants::BinderWalk;
use unfold_tables::Count;

#[tactic(auto, using(sopl_ast::proofs::ConstraintTrees::constraints, crate::proofs::Parts::parts, crate::proofs::Entering::growing, unfold_constants::proofs::Growing::growing))]
impl<'a, 'b> Place<'a, 'b> {
    /// Adds the instances of a constraint, of which the first condition has this number.
    #[cycle(constraint)]
    fn constraint(
        &self,
        count: &mut Count,
        first: u32,
        constraint: &'a Cons,
        found: &mut Instances,
    ) -> Result<(), Fault>
        ensures { Answers (λ u. found_in found.new) count.new.counted result
            (spec.constraint (known_in self.now.known.now) first (cons_tree constraint.now) (found_in found.old) count.old.counted) }
    {
        match constraint {
            Cons::Forall(over, inner) => self.forall(count, first, over, inner, found),
            Cons::Block(parts) => self.constraints(count, first, parts.as_slice(), found),
            Cons::Hard(e) => self.hard(count, first, e, found),
            Cons::Chance { cond, p, q } => self.chance(count, first, cond, p, q, found),
        }
    }

    /// Adds the instances of constraints, one behind the other.
    #[cycle(constraint)]
    pub fn constraints(
        &self,
        count: &mut Count,
        first: u32,
        parts: &'a [Cons],
        found: &mut Instances,
    ) -> Result<(), Fault>
        ensures { Answers (λ u. found_in found.new) count.new.counted result
            (spec.constraints (known_in self.now.known.now) first (conses (map cons_tree parts.now)) (found_in found.old) count.old.counted) }
    {
        let mut next = first;
        'parts: for part in parts {
            self.constraint(count, next, part, found)?;
            next = behind(next, part)?;
        }
        Ok(())
    }

    /// Adds the instances of a constraint behind binders.
    #[cycle(constraint)]
    fn forall(
        &self,
        count: &mut Count,
        first: u32,
        over: &'a Binders,
        constraint: &'a Cons,
        found: &mut Instances,
    ) -> Result<(), Fault>
        ensures { Answers (λ u. found_in found.new) count.new.counted result
            (spec.constraint (known_in self.now.known.now) first (ForallTree (binders over.now) (cons_tree constraint.now)) (found_in found.old) count.old.counted) }
    {
        let part = Part { first, constraint };
        self.over(count, over.as_slice(), &part, found)
    }

    /// Adds the instances of a part for each way in which binders take their values, the last one fastest.
    #[cycle(constraint)]
    fn over(
        &self,
        count: &mut Count,
        over: &'a [Binder],
        part: &Part<'a>,
        found: &mut Instances,
    ) -> Result<(), Fault>
        ensures { Answers (λ u. found_in found.new) count.new.counted result
            (spec.over (known_in self.now.known.now) (binders over.now) (spec.part part.now.first (cons_tree part.now.constraint.now)) (found_in found.old) count.old.counted) }
    {
        let mut choices = BinderWalk::new(self.known, over.len())?;
        Place::enter(self.alloc, &mut choices, count, over, part, found)?;
        'choices: while choices.advance()? {
            count.add()?;
            Place::enter(self.alloc, &mut choices, count, over, part, found)?;
        }
        Ok(())
    }

    /// Adds the instances of a part where all binders have values; else opens the name of the next one, whose range is evaluated.
    #[cycle(constraint)]
    fn enter(
        alloc: Global,
        choices: &mut BinderWalk<'a>,
        count: &mut Count,
        over: &'a [Binder],
        part: &Part<'a>,
        found: &mut Instances,
    ) -> Result<(), Fault>
        ensures leads { Leads
            (entered give_name leave_name (spec.inside over.now (spec.part part.now.first (cons_tree part.now.constraint.now))) (known_in choices.old.here) (open_in choices.old)
            (found_in found.old) count.old.counted)
            (remaining give_name leave_name (spec.inside over.now (spec.part part.now.first (cons_tree part.now.constraint.now))) (known_in choices.new.here) (open_in choices.new)
            (found_in found.new) count.new.counted)
            result }
        ensures grows { OnOk result (count.old.counted ≤ count.new.counted) }
    {
        let Some(binder) = over.get(choices.depth()) else {
            let place = Place {
                alloc,
                known: &choices.here,
            };
            place.constraint(count, part.first, part.constraint, found)?;
            choices.leave();
            return Ok(());
        };
        let numbers = numbers_at(&choices.here, count, &binder.range)?;
        choices.open(&binder.name, &numbers)?;
        Ok(())
    }
}
