//! What holds of problems in terms.

ghost use Rattle.term_problem.specs.Laws.{GoalsAreBounded, PointsAreTold, PointsHaveValues, ProblemsAreLawful};

/// The test of a point tells exactly whether it satisfies.
pub fn points_are_told()
    ensures law { PointsAreTold }
{}

/// A point that satisfies a problem that is well made is worth something.
pub fn points_have_values()
    ensures law { PointsHaveValues }
{}

/// A problem in terms that is well made is lawful over each root box: what closes a box is right, and at one point exact.
pub fn problems_are_lawful()
    ensures law { ProblemsAreLawful }
{}

/// Over each box inside the root no number of the objective's interval is greater than the greatest size of its terms, times
/// the denominator of values.
pub fn goals_are_bounded()
    ensures law { GoalsAreBounded }
{}
