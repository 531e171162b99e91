//! What a search knows of the points of a text is so of its policies: what is reached, and a bound.

ghost use Rattle.compile_laws.specs.BoundLaws.{BoundsHold, ReachedIsWorth, UnbeatenIsBest, UnreachedIsNone};

/// The policy of a point that satisfies does so too, and has its value.
pub fn reached_is_worth()
    ensures law { ReachedIsWorth }
{}

/// No policy that satisfies is better than a value that no point which satisfies is better than.
pub fn bounds_hold()
    ensures law { BoundsHold }
{}

/// So the policy of a point that is reached and not beaten is optimal.
pub fn unbeaten_is_best()
    ensures law { UnbeatenIsBest }
{}

/// And where no point satisfies, no policy does.
pub fn unreached_is_none()
    ensures law { UnreachedIsNone }
{}
