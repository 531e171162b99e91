//! What passes where a way through binders or an expression passes. The functions are empty and state what was proved of the definitions.

ghost use Rattle.compile_counts.specs.Walked.{RangesPass, BodiesPass, ExpressionsAreWalked};

/// The ranges of binders that a way passes.
pub fn ranges_pass()
    ensures law { RangesPass }
{}

/// What stands behind binders, at each place that they give.
pub fn bodies_pass()
    ensures law { BodiesPass }
{}

/// The binders and divisors inside an expression that a way passes.
pub fn expressions_are_walked()
    ensures law { ExpressionsAreWalked }
{}
