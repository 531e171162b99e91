ghost use Rattle.box_problem.specs.OpenLaws.{BestWithinBound, BoundAtLast, BoundGrows, BoundHolds, BoundIsHopeful, UnsettledWithin};

/// No point that satisfies is better than the bound.
pub fn bound_holds()
    ensures law { BoundHolds }
{}

/// The bound grows box by box.
pub fn bound_grows()
    ensures law { BoundGrows }
{}

/// A value is its own bound.
pub fn bound_at_last()
    ensures law { BoundAtLast }
{}

/// Where the bound is not better than what was found, no point is.
pub fn best_within_bound()
    ensures law { BestWithinBound }
{}

/// Where it is better, the better end over an open box is.
pub fn bound_is_hopeful()
    ensures law { BoundIsHopeful }
{}

/// What is unsettled was given fewer nodes than the points of the root allow.
pub fn unsettled_within()
    ensures law { UnsettledWithin }
{}
