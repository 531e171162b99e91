//! A term of `allDifferent` that shrinks to a smaller interval, as to one of its ends, makes the condition False only through a tight window.

ghost use Rattle.term_crowds.specs.ShrinkingLaws.{HighEndStaysOpen, LowEndStaysOpen, TightAloneCloses, TightAlwaysCloses};

/// Where `allDifferent` is not False, a term that shrinks makes it so only through a tight window that has the smaller interval in it
/// and had not the whole one.
pub fn tight_alone_closes()
    ensures law { TightAloneCloses }
{}

/// And through such a window it always does, so that there the end of a term may be taken away.
pub fn tight_always_closes()
    ensures law { TightAlwaysCloses }
{}

/// Where each tight window has the whole of each term that has an end in it, no term makes it False by shrinking to its lower end.
pub fn low_end_stays_open()
    ensures law { LowEndStaysOpen }
{}

/// Nor by shrinking to its upper end.
pub fn high_end_stays_open()
    ensures law { HighEndStaysOpen }
{}
