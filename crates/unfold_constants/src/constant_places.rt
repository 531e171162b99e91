//! What is asked at the places of a text: the value of a constant expression, the numbers of a range, and a walk through an expression of a constraint.

ghost use Rattle.std.specs.Prelude.{◌≡◌, ◌≤◌, IfOk, Some, None};
ghost use Rattle.std.specs.Int.RustNames.{unsigned_abs};
ghost use Rattle.sopl_base.specs.declared.limits.TheConstants as largest;
ghost use Rattle.sopl_ast.specs.Constants.{value, numbers_of};
ghost use Rattle.sopl_ast.specs.UnfoldEvents.{constant_place, range_events, expression_events};
ghost use Rattle.sopl_ast.specs.Ranges.{range_of};
ghost use Rattle.sopl_ast.specs.Tree.{Ends};
ghost use Rattle.unfold_tables.specs.Tables.{shown};
ghost use Rattle.unfold_constants.specs.Here.{known_in};
ghost use Rattle.unfold_tables.specs.Walks.{Walks};

use crate::constant_scope::ConstantScope;
use sopl_ast::{Expr, RangeText};
use sopl_base::Fault;
use unfold_tables::{Count, Ends as RangeEnds, Numbers};

impl<'a> ConstantScope<'a> {
    /// The value of an expression that is a constant place of its own.
    pub fn constant(&self, count: &mut Count, e: &'a Expr) -> Result<i64, Fault>
        ensures met { Walks count.old.counted count.new.counted (constant_place (known_in self.now) e.now) result }
        ensures value { IfOk result (λ x. value (known_in self.now) e.now ≡ Some x) }
        ensures small { IfOk result (λ x. unsigned_abs x ≤ largest.CONSTANT_SIZE) }
    {
        self.own(count, e)
    }

    /// The numbers of a range or a set in ascending order; its ends are constant places of their own.
    pub fn range(&self, count: &mut Count, range: &'a RangeText) -> Result<Numbers<'a>, Fault>
        ensures met { Walks count.old.counted count.new.counted (range_events (known_in self.now) None (range_of range.now)) result }
        ensures numbers { IfOk result (λ numbers. numbers_of (known_in self.now) (range_of range.now) ≡ Some (shown numbers)) }
    {
        self.range_inside(count, None, range)
    }

    /// The numbers of a range or a set inside the constant expression that begins at `whole`, to which the ends belong; with none, each of them is a
    /// constant place of its own.
    pub fn range_inside(
        &self,
        count: &mut Count,
        whole: Option<usize>,
        range: &'a RangeText,
    ) -> Result<Numbers<'a>, Fault>
        ensures met { Walks count.old.counted count.new.counted (range_events (known_in self.now) whole (range_of range.now)) result }
        ensures numbers { IfOk result (λ numbers. numbers_of (known_in self.now) (range_of range.now) ≡ Some (shown numbers)) }
    {
        self.range_numbers(count, whole, range)
    }

    /// The ends of a range, of which each is a constant place of its own.
    pub fn between(&self, count: &mut Count, lo: &'a Expr, hi: &'a Expr) -> Result<RangeEnds, Fault>
        ensures met { Walks count.old.counted count.new.counted (range_events (known_in self.now) None (Ends lo.now hi.now)) result }
        ensures lower { IfOk result (λ ends. value (known_in self.now) lo.now ≡ Some ends.lo) }
        ensures upper { IfOk result (λ ends. value (known_in self.now) hi.now ≡ Some ends.hi) }
    {
        self.ends(count, None, lo, hi)
    }

    /// Walks through an expression of a constraint or an objective, whose divisors and ranges are constant places.
    pub fn expression(&self, count: &mut Count, e: &'a Expr) -> Result<(), Fault>
        ensures met { Walks count.old.counted count.new.counted (expression_events (known_in self.now) e.now) result }
    {
        self.walk(count, e)
    }
}
