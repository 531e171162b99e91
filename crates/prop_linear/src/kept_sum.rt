//! The sum of a linear comparison, kept from one box to the next.

ghost use Rattle.std.specs.Prelude.{◌≡◌, ◌<◌, ◌++◌, ◌∷◌, [], ◌-ℤ◌, ◌+ℤ◌, ℕ, ℤ, List, false, true, length, slice_set, IfOk, IfSome};
ghost use Rattle.box_problem.specs.Box.{Box};
ghost use Rattle.prop_core.specs.Watches.{AgreeElsewhere};
ghost use Rattle.term_math.specs.Shown.{ends_of};
ghost use Rattle.term_math.specs.declared.forms.Coefficient.{Coefficient as Multiple};
ghost use Rattle.prop_linear.specs.Balances.{IsLight, IsPlaceOf, IsSummed, box_of, ends_width};
ghost use Rattle.prop_linear.specs.KeptSums.{HasPlaces, KnowsSum, SumsUp, SumsUpIfKnown};
ghost use Rattle.prop_linear.specs.Maxima.{kept_number};

use crate::balances::{Balance, Difference};
use crate::maxima::Maxima;
use std::alloc::{AllocError, Global};
use term_math::Ends;

/// The interval of a linear comparison's sum over a box, with that of each of its parts, as they were seen last, and how wide these are;
/// and the cells that were told since. There is room for some cells; where there is none left, nothing is known any more.
#[derive(Drop)]
pub struct KeptSum {
    pub whole: Ends,
    pub each: Vec<Ends>,
    pub widths: Maxima,
    pub told: Vec<u32>,
    pub known: bool,
}

/// A sum without a part, where that has room.
fn checked_without(sum: &Ends, part: &Ends) -> Option<Ends>
    ensures low { IfSome result (λ rest. rest.low ≡ sum.now.low -ℤ part.now.low) }
    ensures high { IfSome result (λ rest. rest.high ≡ sum.now.high -ℤ part.now.high) }
{
    let low = sum.low.checked_sub(part.low)?;
    let high = sum.high.checked_sub(part.high)?;
    Some(Ends { low, high })
}

/// A sum with another part, where that has room.
fn checked_with(sum: &Ends, part: &Ends) -> Option<Ends>
    ensures low { IfSome result (λ more. more.low ≡ sum.now.low +ℤ part.now.low) }
    ensures high { IfSome result (λ more. more.high ≡ sum.now.high +ℤ part.now.high) }
{
    let low = sum.low.checked_add(part.low)?;
    let high = sum.high.checked_add(part.high)?;
    Some(Ends { low, high })
}

impl KeptSum {
    /// Nothing that is known, with a place for each of so many parts and room for so many cells.
    pub(crate) fn new(alloc: Global, parts: usize, cells: usize) -> Result<KeptSum, AllocError>
        ensures places { IfOk result (HasPlaces parts) }
        ensures unknown { IfOk result (λ made. made.known ≡ false) }
    {
        let each = Vec::from_elem(alloc, Ends::zero(), parts)?;
        let widths = Maxima::new(alloc, parts)?;
        let told = Vec::with_capacity(alloc, cells)?;
        Ok(KeptSum {
            whole: Ends::zero(),
            each,
            widths,
            told,
            known: false,
        })
    }

    /// Forgets all that is known.
    pub(crate) fn forget(&mut self)
        ensures unknown { self.new.known ≡ false }
        ensures places { (count : ℕ) → HasPlaces count self.old → HasPlaces count self.new }
    {
        self.known = false;
    }

    /// Is told that a cell may have changed.
    pub(crate) fn tell(&mut self, cell: u32)
        ensures sums { (constant : ℤ) (parts : List Multiple) (b c : Box) → AgreeElsewhere cell b c
            → SumsUpIfKnown constant parts b self.old → SumsUpIfKnown constant parts c self.new }
        ensures places { (count : ℕ) → HasPlaces count self.old → HasPlaces count self.new }
        ensures places_before { (count : ℕ) → HasPlaces count self.new → HasPlaces count self.old }
    {
        if self.told.len() < self.told.capacity() {
            self.told.push_reserved(cell);
        } else {
            self.known = false;
        }
    }

    /// Keeps another interval of the part at a place.
    fn put(&mut self, place: usize, part: &Ends)
        requires places { HasPlaces (length self.old.each.items) self.old }
        requires exists { place < length self.old.each.items }
        ensures each { self.new.each.items ≡ slice_set self.old.each.items place part.now }
        ensures width { kept_number self.new.widths place ≡ ends_width (ends_of part.now) }
        ensures others { (other : ℕ) → ¬ other ≡ place → kept_number self.new.widths other ≡ kept_number self.old.widths other }
        ensures places { HasPlaces (length self.old.each.items) self.new }
        ensures whole { self.new.whole ≡ self.old.whole }
        ensures told { self.new.told ≡ self.old.told }
        ensures known { self.new.known ≡ self.old.known }
    {
        self.widths.set(place, part.high.abs_diff(part.low));
        self.each[place] = *part;
    }

    /// Sees the part of a cell at its place anew; whether the sum has room.
    fn renew_at(&mut self, difference: &Difference<'_>, place: usize, _cell: u32) -> bool
        requires light { IsLight difference.now }
        requires places { HasPlaces (length difference.now.parts.now) self.old }
        requires place { IsPlaceOf difference.now place _cell }
        ensures renewed { (told : List ℕ) → result ≡ true
            → SumsUp (told ++ _cell ∷ []) difference.now.constant difference.now.parts.now (box_of difference.now) self.old
            → SumsUp told difference.now.constant difference.now.parts.now (box_of difference.now) self.new }
        ensures places { HasPlaces (length difference.now.parts.now) self.new }
        ensures told { self.new.told ≡ self.old.told }
        ensures known { self.new.known ≡ self.old.known }
    {
        let part = difference.part_at(place);
        let Some(rest) = checked_without(&self.whole, &self.each[place]) else {
            return false;
        };
        let Some(whole) = checked_with(&rest, &part) else {
            return false;
        };
        self.put(place, &part);
        self.whole = whole;
        true
    }

    /// Sees the part of a cell anew; whether it has one, and the sum has room.
    fn renew_cell(&mut self, difference: &Difference<'_>, cell: u32) -> bool
        requires light { IsLight difference.now }
        requires places { HasPlaces (length difference.now.parts.now) self.old }
        ensures renewed { (told : List ℕ) → result ≡ true
            → SumsUp (told ++ cell ∷ []) difference.now.constant difference.now.parts.now (box_of difference.now) self.old
            → SumsUp told difference.now.constant difference.now.parts.now (box_of difference.now) self.new }
        ensures places { HasPlaces (length difference.now.parts.now) self.new }
        ensures told { self.new.told ≡ self.old.told }
        ensures known { self.new.known ≡ self.old.known }
    {
        match difference.place(cell) {
            Some(place) => self.renew_at(difference, place, cell),
            None => false,
        }
    }

    /// Sees the parts of all cells anew that were told; whether something is known, each of them has a part, and the sum has room.
    fn renew_told(&mut self, difference: &Difference<'_>) -> bool
        requires light { IsLight difference.now }
        requires places { HasPlaces (length difference.now.parts.now) self.old }
        requires sums { SumsUpIfKnown difference.now.constant difference.now.parts.now (box_of difference.now) self.old }
        ensures sums { result ≡ true → SumsUp [] difference.now.constant difference.now.parts.now (box_of difference.now) self.new }
        ensures clean { result ≡ true → self.new.told.items ≡ [] }
        ensures places { HasPlaces (length difference.now.parts.now) self.new }
    {
        if !self.known {
            return false;
        }
        'cells: while let Some(cell) = self.told.pop() {
            if !self.renew_cell(difference, cell) {
                return false;
            }
        }
        true
    }

    /// Sums up all parts anew.
    fn sum_up(&mut self, difference: &Difference<'_>)
        requires light { IsLight difference.now }
        requires places { HasPlaces (length difference.now.parts.now) self.old }
        ensures sums { SumsUp [] difference.now.constant difference.now.parts.now (box_of difference.now) self.new }
        ensures clean { self.new.told.items ≡ [] }
        ensures places { HasPlaces (length difference.now.parts.now) self.new }
    {
        self.told.clear();
        self.known = true;
        self.whole = difference.whole();
        'parts: for place in 0..difference.parts.len() {
            let part = difference.part_at(place);
            self.put(place, &part);
        }
    }

    /// Sees anew all that is not known of the sum over the box.
    pub(crate) fn renew(&mut self, difference: &Difference<'_>)
        requires light { IsLight difference.now }
        requires places { HasPlaces (length difference.now.parts.now) self.old }
        requires sums { SumsUpIfKnown difference.now.constant difference.now.parts.now (box_of difference.now) self.old }
        ensures sums { SumsUpIfKnown difference.now.constant difference.now.parts.now (box_of difference.now) self.new }
        ensures known { KnowsSum difference.now self.new }
        ensures places { HasPlaces (length difference.now.parts.now) self.new }
    {
        if self.renew_told(difference) {
            return;
        }
        self.sum_up(difference);
    }

    /// The comparison with its sum.
    pub(crate) fn balance<'a>(&self, difference: &Difference<'a>) -> Balance<'a>
        requires light { IsLight difference.now }
        requires known { KnowsSum difference.now self.now }
        ensures summed { IsSummed result }
        ensures same { result.difference ≡ difference.now }
    {
        Balance {
            difference: *difference,
            whole: self.whole,
        }
    }
}
