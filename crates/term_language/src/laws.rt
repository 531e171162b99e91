ghost use Rattle.term_language.specs.Laws.{IntervalsNarrow, MarksSharpen, MarksTell, PointsExact, PointsKnown, SizesBound, TasksFitAtAllTimes, TruthsSharpen, TruthsTell, ValuesLie};

/// At each point of a box the value of a number expression, if it has one, lies in its interval.
pub fn values_lie()
    ensures law { ValuesLie }
{}

/// Where the mark is Never there is no value, and where it is Always there is one.
pub fn marks_tell()
    ensures law { MarksTell }
{}

/// Where the truth of a condition is False it does not hold, and where it is True it does.
pub fn truths_tell()
    ensures law { TruthsTell }
{}

/// On a box of one point no mark is Maybe, and what is Always defined has an interval of one number.
pub fn points_exact()
    ensures law { PointsExact }
{}

/// On a box of one point no truth is Unknown.
pub fn points_known()
    ensures law { PointsKnown }
{}

/// Over a part of a box, whatever the reading, an interval lies within the wide one over the box.
pub fn intervals_narrow()
    ensures law { IntervalsNarrow }
{}

/// What the wide reading says is Never or Always defined over a box is so over each part.
pub fn marks_sharpen()
    ensures law { MarksSharpen }
{}

/// What the wide reading says is False or True over a box is so over each part.
pub fn truths_sharpen()
    ensures law { TruthsSharpen }
{}

/// Over each box inside the root no number of an interval is greater than the size.
pub fn sizes_bound()
    ensures law { SizesBound }
{}

/// Tasks fit under a capacity exactly where no length and no demand is negative, and at no time they ask for more.
pub fn tasks_fit_at_all_times()
    ensures law { TasksFitAtAllTimes }
{}
