ghost use Rattle.box_problem.specs.BoxLaws.{CutsCount, CutsCover, CutsMakeParts, CutsNarrow, CutsSeparate, IntervalsMakeABox, OnePoint, PartOfItself, PartsOfParts, PointsAreCounted, PointsOfParts};

/// Intervals make a box.
pub fn intervals_make_a_box()
    ensures law { IntervalsMakeABox }
{}

/// A box is a part of itself.
pub fn part_of_itself()
    ensures law { PartOfItself }
{}

/// A part of a part is a part.
pub fn parts_of_parts()
    ensures law { PartsOfParts }
{}

/// A point of a part is a point of the whole.
pub fn points_of_parts()
    ensures law { PointsOfParts }
{}

/// A box whose intervals are one number each has that one point.
pub fn one_point()
    ensures law { OnePoint }
{}

/// A cut makes two parts of the box.
pub fn cuts_make_parts()
    ensures law { CutsMakeParts }
{}

/// A point lies in one of the two parts of a cut exactly where it lies in the box.
pub fn cuts_cover()
    ensures law { CutsCover }
{}

/// No point lies in both parts of a cut.
pub fn cuts_separate()
    ensures law { CutsSeparate }
{}

/// The two parts of a cut have the points of the box between them.
pub fn cuts_count()
    ensures law { CutsCount }
{}

/// Both parts of a cut are less wide than the box.
pub fn cuts_narrow()
    ensures law { CutsNarrow }
{}

/// The points of a box stand in a list, each once, whose length is `points`.
pub fn points_are_counted()
    ensures law { PointsAreCounted }
{}
