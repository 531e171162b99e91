//! What is asked at the places of a constraint, as steps.

ghost use Rattle.std.specs.Prelude.{ℕ, None};
ghost use Rattle.sopl_ast.specs.Ranges.{range_of};
ghost use Rattle.sopl_ast.specs.Tree.{place_of};
ghost use Rattle.unfold_constants.specs.CountedAnswers.{Answers};
ghost use Rattle.unfold_constants.specs.Evaluation as evaluation;
ghost use Rattle.unfold_constants.specs.Here.{known_in};
ghost use Rattle.unfold_constants.specs.Traversal as traversal;
ghost use Rattle.unfold_tables.specs.Tables.{shown};

use sopl_ast::{Expr, RangeText};
use sopl_base::Fault;
use unfold_constants::ConstantScope;
use unfold_tables::{Count, Numbers};

/// Counts one thing more.
pub fn count_one(count: &mut Count) -> Result<(), Fault>
    ensures { Answers (λ u. u) count.new.counted result (evaluation.count_one count.old.counted) }
{
    count.add()
}

/// The value of an expression that is a constant place of its own.
pub fn constant_at<'a>(
    known: &ConstantScope<'a>,
    count: &mut Count,
    e: &'a Expr,
) -> Result<i64, Fault>
    ensures { Answers (λ x. x) count.new.counted result (evaluation.number (known_in known.now) (place_of e.now) e.now count.old.counted) }
{
    known.constant(count, e)
}

/// The numbers of a range or a set.
pub fn numbers_at<'a>(
    known: &ConstantScope<'a>,
    count: &mut Count,
    range: &'a RangeText,
) -> Result<Numbers<'a>, Fault>
    ensures { Answers shown count.new.counted result
        (evaluation.range_numbers (known_in known.now) None (range_of range.now) count.old.counted) }
{
    known.range(count, range)
}

/// Walks through the expression of a condition.
pub fn expression_at<'a>(
    known: &ConstantScope<'a>,
    count: &mut Count,
    e: &'a Expr,
) -> Result<(), Fault>
    ensures { Answers (λ u. u) count.new.counted result (traversal.walk (known_in known.now) e.now count.old.counted) }
{
    known.expression(count, e)
}
