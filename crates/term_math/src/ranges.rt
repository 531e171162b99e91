//! The elements of an array whose indices lie within intervals.

ghost use Rattle.std.specs.Prelude.{◌≡◌, ◌+ℤ◌, ◌<ℤ◌, ◌&&◌, pos, true, [], None, Some, if◌then◌else◌, length, option_map};
ghost use Rattle.std.specs.List.{list_all, list_any};
ghost use Rattle.std.specs.Ordering.{int_eq};
ghost use Rattle.term_language.specs.Arrays as arrays;
ghost use Rattle.term_language.specs.Ends as intervals;
ghost use Rattle.term_language.specs.Marks as marks;
ghost use Rattle.term_language.specs.declared.answers.Defined.TheVariants.{Always, Maybe};
ghost use Rattle.term_math.specs.Ascending.{ascends};
ghost use Rattle.term_math.specs.Shown.{box_in, ends_of};
ghost use Rattle.term_math.specs.Kept.{items_of, sets_of, table_of};
ghost use Rattle.term_math.specs.Within.{IsWideFirst, allowed_ends, grown, has_one, joined, known_of, lacks, none_known, ranges_of, reached_ends, seen_ends, seen_mark, wide_sets};

use crate::ascending::{has_none, is_missing};
use crate::elements::Element;
use crate::ends::Ends;
use crate::lookups::width;
use crate::marks::both;
use crate::tables::Table;
use crate::values::AbstractValue;
use crate::views::BoxView;
use term_language::Defined;

/// The intervals of the indices of an element, that of the first dimension first; they take no memory but that of the calls that compute
/// them.
#[derive(Clone, Copy)]
pub enum Ranges<'a> {
    End,
    First(Ends, &'a Ranges<'a>),
}

/// Whether a number lies in an interval.
fn has(ends: &Ends, number: &i64) -> bool
    ensures { result ≡ intervals.has (ends_of ends.now) number.now }
{
    ends.low <= *number && *number <= ends.high
}

/// Whether a set has a number: where it ascends, halving tells that it has not.
fn has_number(set: &[i64], ascending: bool, number: &i64) -> bool
    requires ascends { ascending ≡ true → ascends set.now ≡ true }
    ensures { result ≡ list_any (int_eq number.now) set.now }
{
    if is_missing(set, ascending, number) {
        return false;
    }
    set.iter().any(|here| *number == *here)
}

/// Whether two numbers are the same.
fn is_same(a: &i64, b: &i64) -> bool
    ensures { result ≡ int_eq a.now b.now }
{
    *a == *b
}

/// Whether a set has a number, which is looked for at one place first.
#[tactic(auto, using(crate::proofs::Covering::number_there))]
fn has_number_at(set: &[i64], ascending: bool, place: usize, number: &i64) -> bool
    requires ascends { ascending ≡ true → ascends set.now ≡ true }
    ensures { result ≡ list_any (int_eq number.now) set.now }
{
    if place < set.len() {
        if is_same(&set[place], number) {
            return true;
        }
    }
    has_number(set, ascending, number)
}

/// The place of a number in a set that ascends; where it does not, any.
fn place_in(set: &[i64], number: &i64) -> usize {
    match set.binary_search(number) {
        Ok(place) => place,
        Err(_) => 0,
    }
}

/// The interval without its first number.
fn behind_first(ends: &Ends) -> Ends
    requires more { ends.now.low <ℤ ends.now.high }
    ensures { ends_of result ≡ intervals.ends (ends.now.low +ℤ pos 1) ends.now.high }
{
    Ends {
        low: ends.low + 1,
        high: ends.high,
    }
}

/// Whether each number of an interval is in a set.
#[tactic(auto, using(crate::proofs::Covering::next_covered, crate::proofs::Covering::not_covered, crate::proofs::Covering::last_covered))]
pub fn covered(ends: &Ends, set: &[i64], ascending: bool) -> bool
    requires ascends { ascending ≡ true → ascends set.now ≡ true }
    ensures { result ≡ arrays.is_covered (ends_of ends.now) set.now }
{
    let mut left = *ends;
    let mut place = place_in(set, &left.low);
    while has_number_at(set, ascending, place, &left.low) {
        if left.low >= left.high {
            return true;
        }
        left = behind_first(&left);
        place = place.wrapping_add(1);
    }
    false
}

/// The hull of what was found and of an interval.
fn with_more(found: Option<Ends>, here: &Ends) -> Option<Ends>
    ensures { option_map ends_of result ≡ Some (joined (option_map ends_of found) (ends_of here.now)) }
{
    match found {
        Some(hull) => Some(hull.hull(here)),
        None => Some(*here),
    }
}

/// The dimensions from the first one on whose set has not one number alone.
#[tactic(auto, using(crate::proofs::Reaching::first_wide, crate::proofs::Reaching::passed_one, crate::proofs::Reaching::none_wide))]
fn from_wide(sets: &[Vec<i64>]) -> &[Vec<i64>]
    ensures same { wide_sets (sets_of result.now) ≡ wide_sets (sets_of sets.now) }
    ensures first { IsWideFirst (sets_of result.now) }
{
    let mut left = sets;
    while let Some((set, later)) = left.split_first() {
        if set.len() != 1 {
            return left;
        }
        left = later;
    }
    left
}

/// The hull of what was found and of the element that is left where no dimension is.
fn with_last(
    sets: &[Vec<i64>],
    elements: &[Element],
    view: &BoxView,
    found: Option<Ends>,
) -> Option<Ends>
    requires wide { IsWideFirst (sets_of sets.now) }
    requires complete { length elements.now ≡ length (arrays.indices (wide_sets (sets_of sets.now))) }
    ensures { option_map ends_of result ≡ grown (option_map ends_of found) (reached_ends (box_in view.now) [] (wide_sets (sets_of sets.now)) (items_of elements.now)) }
{
    if !sets.is_empty() {
        return found;
    }
    with_more(found, &elements[0].ends(view))
}

/// The hull of what was found and of the elements whose indices lie within intervals, one for each dimension of two numbers or more.
fn reached(
    ranges: &Ranges,
    sets: &[Vec<i64>],
    elements: &[Element],
    view: &BoxView,
    found: Option<Ends>,
) -> Option<Ends>
    requires complete { length elements.now ≡ length (arrays.indices (wide_sets (sets_of sets.now))) }
    ensures { option_map ends_of result ≡ grown (option_map ends_of found) (reached_ends (box_in view.now) (ranges_of ranges.now) (wide_sets (sets_of sets.now)) (items_of elements.now)) }
{
    let wide = from_wide(sets);
    let Ranges::First(ends, later) = ranges else {
        return with_last(wide, elements, view, found);
    };
    let Some((set, behind)) = wide.split_first() else {
        return found;
    };
    let numbers = set.as_slice();
    let width = width(elements, numbers);
    let mut hull = found;
    let mut left = elements;
    for number in numbers {
        let (first, rest) = left.split_at(width);
        left = rest;
        if !has(ends, number) {
            continue;
        }
        hull = reached(later, behind, first, view, hull);
    }
    hull
}

/// Whether it is told that the interval of some index has no number of its set, where the sets of two numbers or more ascend.
fn is_lacking(ranges: &Ranges, sets: &[Vec<i64>]) -> bool
    requires ascend { list_all ascends (wide_sets (sets_of sets.now)) ≡ true }
    ensures { result ≡ true → lacks (ranges_of ranges.now) (wide_sets (sets_of sets.now)) ≡ true }
{
    let wide = from_wide(sets);
    let Ranges::First(ends, later) = ranges else {
        return false;
    };
    let Some((set, behind)) = wide.split_first() else {
        return false;
    };
    if has_none(ends, set.as_slice()) {
        return true;
    }
    is_lacking(later, behind)
}

/// Whether an interval has the number of a set that has one alone.
fn allows(ends: &Ends, set: &[i64]) -> bool
    ensures { result ≡ has_one (ends_of ends.now) set.now }
{
    if set.len() != 1 {
        return true;
    }
    has(ends, &set[0])
}

/// What is known of the indices of an element, from the last one to the first: the mark of all, whether each number that they may have is in its
/// set, and whether those of dimensions of one number may have that number. Of these nothing else is kept, so that they may be any number.
#[derive(Clone, Copy, Debug)]
pub struct Indices {
    pub mark: Defined,
    pub covered: bool,
    pub allowed: bool,
}

impl Indices {
    /// No index is known yet.
    pub fn none() -> Indices
        ensures mark { result.mark ≡ Always }
        ensures known { known_of result [] ≡ none_known }
    {
        Indices {
            mark: Defined::Always,
            covered: true,
            allowed: true,
        }
    }

    /// Whether an index more has only numbers of its set, as the others have.
    fn covered_with(&self, ends: &Ends, set: &[i64], ascending: bool) -> bool
        requires ascends { ascending ≡ true → ascends set.now ≡ true }
        ensures { result ≡ (arrays.is_covered (ends_of ends.now) set.now && self.now.covered) }
    {
        if !self.covered {
            return false;
        }
        covered(ends, set, ascending)
    }

    /// Whether an index more may have the number of its set, if that is one alone, as the others may.
    fn allowed_with(&self, ends: &Ends, set: &[i64]) -> bool
        ensures { result ≡ (has_one (ends_of ends.now) set.now && self.now.allowed) }
    {
        if !self.allowed {
            return false;
        }
        allows(ends, set)
    }

    /// The mark of the element, where its indices allow some.
    fn reached_mark(&self) -> Defined
        ensures { result ≡ (if self.now.covered then self.now.mark else marks.both self.now.mark Maybe) }
    {
        if self.covered {
            return self.mark;
        }
        both(self.mark, Defined::Maybe)
    }

    /// With an index in front, of which the interval, the mark and the set are given, and whether it is known that this ascends.
    pub fn with(&self, ends: &Ends, mark: Defined, set: &[i64], ascending: bool) -> Indices
        requires ascends { ascending ≡ true → ascends set.now ≡ true }
        ensures mark { result.mark ≡ marks.both mark self.now.mark }
        ensures covered { result.covered ≡ (arrays.is_covered (ends_of ends.now) set.now && self.now.covered) }
        ensures allowed { result.allowed ≡ (has_one (ends_of ends.now) set.now && self.now.allowed) }
    {
        Indices {
            mark: both(mark, self.mark),
            covered: self.covered_with(ends, set, ascending),
            allowed: self.allowed_with(ends, set),
        }
    }
}

impl Table {
    /// Whether it is told that the interval of some index has no number of its set; of sets that do not ascend nothing is told.
    fn is_barred(&self, ranges: &Ranges) -> bool
        ensures { result ≡ true → lacks (ranges_of ranges.now) (wide_sets (table_of self.now).sets) ≡ true }
    {
        if !self.ascending {
            return false;
        }
        is_lacking(ranges, self.sets.as_slice())
    }

    /// The elements that the intervals of indices allow over a box, of which this is known: their hull, if there are any.
    fn allowed_hull(&self, ranges: &Ranges, indices: &Indices, view: &BoxView) -> Option<Ends>
        requires complete { length (table_of self.now).items ≡ length (arrays.indices (table_of self.now).sets) }
        ensures { option_map ends_of result ≡ grown None (allowed_ends (box_in view.now) (table_of self.now) (Some (known_of indices.now (ranges_of ranges.now)))) }
    {
        if !indices.allowed {
            return None;
        }
        if self.is_barred(ranges) {
            return None;
        }
        reached(
            ranges,
            self.sets.as_slice(),
            self.elements.as_slice(),
            view,
            None,
        )
    }

    /// What is seen over a box where this is known of the indices, and the intervals are given of those of dimensions of two numbers or more:
    /// the hull of the elements that these allow, or of all where they allow none; Never where they allow none, and no more defined than
    /// the indices.
    #[tactic(auto, using(crate::proofs::Indexed::none_ends, crate::proofs::Indexed::none_mark, crate::proofs::Indexed::some_ends, crate::proofs::Indexed::some_mark))]
    pub fn within(&self, ranges: &Ranges, indices: &Indices, view: &BoxView) -> AbstractValue
        requires complete { length (table_of self.now).items ≡ length (arrays.indices (table_of self.now).sets) }
        ensures ends { ends_of result.ends ≡ seen_ends (box_in view.now) (table_of self.now) (allowed_ends (box_in view.now) (table_of self.now) (Some (known_of indices.now (ranges_of ranges.now)))) }
        ensures mark { result.mark ≡ seen_mark indices.now.mark indices.now.covered (allowed_ends (box_in view.now) (table_of self.now) (Some (known_of indices.now (ranges_of ranges.now)))) }
    {
        let Some(ends) = self.allowed_hull(ranges, indices, view) else {
            return AbstractValue::never(self.hull(view));
        };
        AbstractValue {
            ends,
            mark: indices.reached_mark(),
        }
    }
}
