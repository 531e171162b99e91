ghost use Rattle.box_problem.specs.SearchLaws.{BeatsEarlier, ConsistentPoint, CountsAfterEnd, CountsAfterSplit, CountsAfterSteps, CountsAtFirst, CountsInAnyOrder, CountsLeave};
ghost use Rattle.box_problem.specs.SearchLaws.{CoversAfterPoint, CoversAfterRefuted, CoversAfterSplit, CoversAfterSteps, CoversAtFirst, CoversAtLast, CoversBound};
ghost use Rattle.box_problem.specs.SearchLaws.{CoversInAnyOrder, StepsKeep, StepsLeadInside, StepsNarrow};

/// A right step leads to a part of the box that is less wide.
pub fn steps_narrow()
    ensures law { StepsNarrow }
{}

/// Right steps lead to a part of the box.
pub fn steps_lead_inside()
    ensures law { StepsLeadInside }
{}

/// Right steps lose no point that beats the value against which they are right.
pub fn steps_keep()
    ensures law { StepsKeep }
{}

/// A point that beats a value beats each value that this one is as good as.
pub fn beats_earlier()
    ensures law { BeatsEarlier }
{}

/// A consistent box of one point is a point that satisfies, and beats the value against which it is consistent.
pub fn consistent_point()
    ensures law { ConsistentPoint }
{}

/// A search begins with the root alone.
pub fn covers_at_first()
    ensures law { CoversAtFirst }
{}

/// The order of the open boxes is free.
pub fn covers_in_any_order()
    ensures law { CoversInAnyOrder }
{}

/// Right steps may be taken in an open box.
pub fn covers_after_steps()
    ensures law { CoversAfterSteps }
{}

/// A box that a reason closes may be left out.
pub fn covers_after_refuted()
    ensures law { CoversAfterRefuted }
{}

/// A box of one point may be left out where its value takes the place of the best one.
pub fn covers_after_point()
    ensures law { CoversAfterPoint }
{}

/// The two parts of a cut may take the place of a box.
pub fn covers_after_split()
    ensures law { CoversAfterSplit }
{}

/// With no box open, no point of the root beats the best value.
pub fn covers_at_last()
    ensures law { CoversAtLast }
{}

/// Where neither the best value nor the better end of an open box is better than a value, no point that satisfies is.
pub fn covers_bound()
    ensures law { CoversBound }
{}

/// At first no node is finished.
pub fn counts_at_first()
    ensures law { CountsAtFirst }
{}

/// The order of the open boxes is free for the count, too.
pub fn counts_in_any_order()
    ensures law { CountsInAnyOrder }
{}

/// Right steps leave no more points.
pub fn counts_after_steps()
    ensures law { CountsAfterSteps }
{}

/// A box that is closed, or is one point, is one node more.
pub fn counts_after_end()
    ensures law { CountsAfterEnd }
{}

/// A box that is split is one node more, and its parts have their own.
pub fn counts_after_split()
    ensures law { CountsAfterSplit }
{}

/// While a box is open, fewer nodes are finished than the points of the root allow.
pub fn counts_leave()
    ensures law { CountsLeave }
{}
