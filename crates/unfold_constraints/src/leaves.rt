//! Hard constraints and chance constraints, and the instances that they add.

ghost use Rattle.std.specs.Prelude.{◌≡◌, OnOk};
ghost use Rattle.unfold_constants.specs.CountedAnswers.{Answers};
ghost use Rattle.unfold_constants.specs.Here.{known_in};
ghost use Rattle.unfold_constraints.specs.Shown.{found_in};
ghost use Rattle.unfold_constraints.specs.Stepping as spec;

use crate::calls::{count_one, expression_at};
use crate::items::{ChanceItem, Env, HardItem, Instances};
use crate::place::Place;
use crate::thresholds::Threshold;
use sopl_ast::Expr;
use sopl_base::Fault;
use std::alloc::{AllocError, Global};
use unfold_tables::Count;

impl Instances {
    /// No instances; it takes no memory.
    pub(crate) fn new(alloc: Global) -> Instances
        ensures { found_in result ≡ spec.nothing_found }
    {
        Instances {
            hards: Vec::new(alloc),
            chances: Vec::new(alloc),
        }
    }

    /// Adds an instance of a hard constraint at the end.
    fn add_hard(&mut self, text: u32, env: Env) -> Result<(), AllocError>
        ensures { OnOk result (found_in self.new ≡ spec.with_hard (found_in self.old) text env) }
    {
        self.hards.push(HardItem { text, env })?;
        Ok(())
    }

    /// Adds an instance of a chance constraint at the end.
    fn add_chance(&mut self, text: u32, env: Env, threshold: &Threshold) -> Result<(), AllocError>
        ensures { OnOk result (found_in self.new ≡ spec.with_chance (found_in self.old) text env threshold.now.p threshold.now.q) }
    {
        let Threshold { p, q } = *threshold;
        self.chances.push(ChanceItem { text, env, p, q })?;
        Ok(())
    }
}

impl<'a, 'b> Place<'a, 'b> {
    /// Counts an instance, and walks through its condition.
    fn condition(&self, count: &mut Count, e: &'a Expr) -> Result<(), Fault>
        ensures { Answers (λ u. u) count.new.counted result (spec.condition (known_in self.now.known.now) e.now count.old.counted) }
    {
        count_one(count)?;
        expression_at(self.known, count, e)
    }

    /// Adds the instance of a hard constraint, of which the condition has this number.
    pub fn hard(
        &self,
        count: &mut Count,
        text: u32,
        e: &'a Expr,
        found: &mut Instances,
    ) -> Result<(), Fault>
        ensures { Answers (λ u. found_in found.new) count.new.counted result
            (spec.hard (known_in self.now.known.now) text e.now (found_in found.old) count.old.counted) }
    {
        self.condition(count, e)?;
        found.add_hard(text, self.env()?)?;
        Ok(())
    }

    /// Adds the instance of a chance constraint, of which the condition has this number.
    pub fn chance(
        &self,
        count: &mut Count,
        text: u32,
        cond: &'a Expr,
        p: &'a Expr,
        q: &'a Expr,
        found: &mut Instances,
    ) -> Result<(), Fault>
        ensures { Answers (λ u. found_in found.new) count.new.counted result
            (spec.chance (known_in self.now.known.now) text cond.now p.now q.now (found_in found.old) count.old.counted) }
    {
        self.condition(count, cond)?;
        let threshold = self.threshold(count, p, q)?;
        found.add_chance(text, self.env()?, &threshold)?;
        Ok(())
    }
}
