ghost use Rattle.term_crowds.specs.Laws.{AnyCrowdCounts, AnyTimeMayPeak, ApartUncrowded, EndsMakeNoCrowd, EnoughAtAllTimes, FalseByCrowds, FalseByPeaks, FittingIsNotFailing};
ghost use Rattle.term_crowds.specs.Laws.{IntervalsOrdered, LowsTellAll, TaskIntervalsOrdered, TightAlone, TightAlways, TightBeginAtLows, TrueWhereApart, TrueWhereEnough, WindowsFindCrowds};

/// Intervals never differ exactly where some two numbers, which need be no ends, have more of them between them than numbers.
pub fn any_crowd_counts()
    ensures law { AnyCrowdCounts }
{}

/// The search by windows that get narrower, from each lower end on, finds a crowd exactly where there is one.
pub fn windows_find_crowds()
    ensures law { WindowsFindCrowds }
{}

/// Intervals that have no number in common, none of them empty, are not crowded.
pub fn apart_uncrowded()
    ensures law { ApartUncrowded }
{}

/// An interval that gets smaller makes a crowd only through a tight window that has the smaller one in it and not the larger one.
pub fn tight_alone()
    ensures law { TightAlone }
{}

/// And through such a window it always makes one, so that there the end of an interval may be taken away.
pub fn tight_always()
    ensures law { TightAlways }
{}

/// Where there is no crowd, each tight window begins at the lower end of some interval.
pub fn tight_begin_at_lows()
    ensures law { TightBeginAtLows }
{}

/// So it is enough to look at the windows from lower ends on.
pub fn lows_tell_all()
    ensures law { LowsTellAll }
{}

/// Where each tight window has the whole of each interval that has an end in it, no interval makes a crowd by shrinking to one of its ends.
pub fn ends_make_no_crowd()
    ensures law { EndsMakeNoCrowd }
{}

/// Tasks never fit exactly where a length or a demand is surely negative, or where the capacity is surely passed at some time.
pub fn any_time_may_peak()
    ensures law { AnyTimeMayPeak }
{}

/// Tasks always fit exactly where no length and no demand may be negative, and the capacity is enough at all times.
pub fn enough_at_all_times()
    ensures law { EnoughAtAllTimes }
{}

/// Tasks that always fit do not never fit, where no interval is empty.
pub fn fitting_is_not_failing()
    ensures law { FittingIsNotFailing }
{}

/// Over each box inside the root no interval of a term is empty.
pub fn intervals_ordered()
    ensures law { IntervalsOrdered }
{}

/// Nor is one of a task.
pub fn task_intervals_ordered()
    ensures law { TaskIntervalsOrdered }
{}

/// So `allDifferent` is False exactly where a term is Never defined, or more terms than numbers lie between any two numbers.
pub fn false_by_crowds()
    ensures law { FalseByCrowds }
{}

/// It is True exactly where all terms are Always defined, and no two of them have a number in common.
pub fn true_where_apart()
    ensures law { TrueWhereApart }
{}

/// `cumulative` is False exactly where an operand is Never defined, a length or a demand is surely negative, or the capacity is surely
/// passed at any time.
pub fn false_by_peaks()
    ensures law { FalseByPeaks }
{}

/// It is True exactly where all operands are Always defined, no length and no demand may be negative, and the capacity is enough at all
/// times.
pub fn true_where_enough()
    ensures law { TrueWhereEnough }
{}
