//! What is true of all trees of searches.

ghost use Rattle.sopl_search.specs.TreeLaws.{HighHalfNeverAlone, SidesAreOrdered};

/// Of two nodes that are the sides of one split the low one comes first, where one seat searches the low half first. It does nothing when it
/// runs.
pub fn sides_are_ordered()
    ensures law { SidesAreOrdered }
{}

/// No such search finishes the high half of a cut and leaves the low one open. It does nothing when it runs.
pub fn high_half_never_alone()
    ensures law { HighHalfNeverAlone }
{}
