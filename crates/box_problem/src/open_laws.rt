ghost use Rattle.box_problem.specs.OpenLaws.{BestAtLast, NoneAtLast, OpenAfterPoint, OpenAfterRefuted, OpenAfterSplit, OpenAfterSteps, OpenAtFirst, OpenInAnyOrder, PointIsReached};

/// A search begins with the root alone.
pub fn open_at_first()
    ensures law { OpenAtFirst }
{}

/// The order of the open boxes is free.
pub fn open_in_any_order()
    ensures law { OpenInAnyOrder }
{}

/// Right steps may be taken in an open box.
pub fn open_after_steps()
    ensures law { OpenAfterSteps }
{}

/// A box that a reason closes is one node more.
pub fn open_after_refuted()
    ensures law { OpenAfterRefuted }
{}

/// A box of one point that beats the best value is one node more, and its value takes that one's place.
pub fn open_after_point()
    ensures law { OpenAfterPoint }
{}

/// A box that is cut is one node more, and its two parts take its place.
pub fn open_after_split()
    ensures law { OpenAfterSplit }
{}

/// The box of one point that beats the best value has a point that satisfies.
pub fn point_is_reached()
    ensures law { PointIsReached }
{}

/// With no box open and nothing found, no point satisfies.
pub fn none_at_last()
    ensures law { NoneAtLast }
{}

/// With no box open, no point is better than what was found.
pub fn best_at_last()
    ensures law { BestAtLast }
{}
