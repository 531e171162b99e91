//! What is asked of constant places, as steps.

ghost use Rattle.std.specs.Prelude.{◌≡◌, ℕ};
ghost use Rattle.sopl_ast.specs.Arrays.{dimension_events, dimensions_of};
ghost use Rattle.unfold_constants.specs.CountedAnswers.{Answers};
ghost use Rattle.unfold_constants.specs.Here.{known_in};
ghost use Rattle.unfold_declarations.specs.Declaring as declaring;
ghost use Rattle.unfold_declarations.specs.Shown.{dimensions_in};
ghost use Rattle.unfold_variables.specs.Listing as spec;

use sopl_ast::Dim;
use sopl_base::{Fault, codes};
use std::alloc::Global;
use unfold_constants::ConstantScope;
use unfold_declarations::{Dimension, dimensions};
use unfold_tables::{Count, Ends, checked_between};

/// The dimensions of an array.
pub fn dimensions_at<'a>(
    alloc: Global,
    known: &ConstantScope<'a>,
    count: &mut Count,
    dims: &'a [Dim],
) -> Result<Vec<Dimension<'a>>, Fault>
    ensures { Answers (λ found. dimensions_in found.items) count.new.counted result
        (declaring.reached (dimension_events (known_in known.now) dims.now) (dimensions_of (known_in known.now) dims.now) count.old.counted) }
{
    dimensions(alloc, known, count, dims)
}

/// Passes the limit where a domain has too many values.
pub fn checked_values(ends: &Ends) -> Result<(), Fault>
    ensures { (count : ℕ) → Answers (λ u. u) count result (spec.checked_values ends.now.lo ends.now.hi count) }
{
    checked_between(codes::DOMAIN, ends)
}
