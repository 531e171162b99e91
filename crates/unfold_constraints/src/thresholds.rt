//! The thresholds of chance constraints.

ghost use Rattle.std.specs.Prelude.{◌≡◌};
ghost use Rattle.sopl_ast.specs.Unfolding.{is_threshold};
ghost use Rattle.unfold_constants.specs.CountedAnswers.{Answers};
ghost use Rattle.unfold_constants.specs.Here.{known_in};
ghost use Rattle.unfold_constraints.specs.Shown.{threshold_in};
ghost use Rattle.unfold_constraints.specs.Stepping as spec;

use crate::calls::constant_at;
use crate::place::Place;
use sopl_ast::Expr;
use sopl_base::{Fault, codes, limits};
use unfold_constants::unless;
use unfold_tables::Count;

/// A threshold, `p / q`.
#[derive(Clone, Copy)]
pub struct Threshold {
    pub p: i64,
    pub q: i64,
}

impl Threshold {
    /// Whether it is a fraction from 0 to 1, and its denominator is not too great.
    fn is_right(&self) -> bool
        ensures { result ≡ is_threshold self.now.p self.now.q }
    {
        0 <= self.p && self.p <= self.q && 1 <= self.q && self.q <= limits::DENOMINATOR
    }
}

impl<'a, 'b> Place<'a, 'b> {
    /// The threshold of a chance constraint; both of its parts are constant places, and are evaluated before it is judged.
    pub fn threshold(
        &self,
        count: &mut Count,
        part: &'a Expr,
        whole: &'a Expr,
    ) -> Result<Threshold, Fault>
        ensures { Answers threshold_in count.new.counted result
            (spec.threshold (known_in self.now.known.now) part.now whole.now count.old.counted) }
    {
        let p = constant_at(self.known, count, part)?;
        let q = constant_at(self.known, count, whole)?;
        let threshold = Threshold { p, q };
        unless(threshold.is_right(), codes::THRESHOLD, part.at)?;
        Ok(threshold)
    }
}
