//! Index sets whose numbers ascend: halving tells what one of them lacks.

ghost use Rattle.std.specs.Prelude.{◌≡◌, true, false, IfSome};
ghost use Rattle.std.specs.List.{list_any};
ghost use Rattle.std.specs.Ordering.{int_eq};
ghost use Rattle.term_language.specs.Ends as intervals;
ghost use Rattle.term_math.specs.Ascending.{IsGap, all_ascend, ascends, precedes};
ghost use Rattle.term_math.specs.Shown.{ends_of};

use crate::ends::Ends;

/// Whether a number is less than the first one of a set, if the set has one.
#[tactic(auto, using(crate::proofs::Ascents::first_preceded, crate::proofs::Ascents::none_preceded))]
fn is_before(number: &i64, set: &[i64]) -> bool
    ensures { result ≡ precedes number.now set.now }
{
    let Some((first, _)) = set.split_first() else {
        return true;
    };
    *number < *first
}

/// Whether each number of a set is less than the next.
#[tactic(auto, using(crate::proofs::Ascents::next_ascends, crate::proofs::Ascents::next_falls, crate::proofs::Ascents::none_ascend))]
pub(crate) fn is_ascending(set: &[i64]) -> bool
    ensures { result ≡ ascends set.now }
{
    let mut left = set;
    while let Some((first, later)) = left.split_first() {
        if !is_before(first, later) {
            return false;
        }
        left = later;
    }
    true
}

/// Whether the numbers of each set ascend.
pub(crate) fn are_ascending(sets: &[Vec<i64>]) -> bool
    ensures { result ≡ all_ascend sets.now }
{
    sets.iter().all(|set| is_ascending(set.as_slice()))
}

/// Where a number would stand in a set that ascends, if it does not stand there.
fn gap(set: &[i64], number: &i64) -> Option<usize>
    requires ascends { ascends set.now ≡ true }
    ensures { IfSome result (IsGap number.now set.now) }
{
    match set.binary_search(number) {
        Ok(_) => None,
        Err(place) => Some(place),
    }
}

/// Whether a number is told to be missing in a set; of one that does not ascend nothing is told.
pub(crate) fn is_missing(set: &[i64], ascending: bool, number: &i64) -> bool
    requires ascends { ascending ≡ true → ascends set.now ≡ true }
    ensures { result ≡ true → list_any (int_eq number.now) set.now ≡ false }
{
    if !ascending {
        return false;
    }
    gap(set, number).is_some()
}

/// Whether a set that ascends is told to have no number of an interval; of one that is empty nothing is told.
pub(crate) fn has_none(ends: &Ends, set: &[i64]) -> bool
    requires ascends { ascends set.now ≡ true }
    ensures { result ≡ true → list_any (intervals.has (ends_of ends.now)) set.now ≡ false }
{
    let Some(low) = gap(set, &ends.low) else {
        return false;
    };
    let Some(high) = gap(set, &ends.high) else {
        return false;
    };
    low == high
}
