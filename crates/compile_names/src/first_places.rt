//! Which of some indices is the first that is the same as another.

ghost use Rattle.std.specs.Prelude.{◌≡◌, ◌≢◌, ◌≤◌, ◌+◌, ◌++◌, ◌∷◌, [], List, ℤ, Some, None, length, map, take, IfNone, IfOk, IfSome, OnOk, if◌then◌else◌};
ghost use Rattle.sopl_ast.specs.Numbers.{or_else};
ghost use Rattle.sopl_ast.specs.References.{now_of};
ghost use Rattle.term_language.specs.Arrays.{same_index};
ghost use Rattle.term_math.specs.Kept as kept;
ghost use Rattle.compile_names.specs.Kept.{place_in, places_behind};
ghost use Rattle.compile_names.specs.declared.first_places.Places.{Places};
ghost use Rattle.compile_names.specs.Plans.{place_among};

use indexmap::IndexMap;
use std::alloc::{AllocError, Global};

/// The first place of each of some indices.
#[derive(Drop)]
pub(crate) struct Places {
    first: IndexMap<Vec<i64>, usize>,
}

#[tactic(auto, using(crate::proofs::Ordering::ordering))]
impl Places {
    /// The places of these indices.
    #[tactic(auto, using(crate::proofs::Noting::place_noted))]
    pub(crate) fn of(alloc: Global, given: &[&[i64]]) -> Result<Places, AllocError>
        ensures { IfOk result (λ places. (index : List ℤ) → place_in places index ≡ place_among 0 (map now_of given.now) index) }
    {
        let mut places = Places {
            first: IndexMap::new(alloc),
        };
        'given: for place in 0..given.len() {
            places.note(alloc, given[place], place)?;
        }
        Ok(places)
    }

    /// Notes that an index stands at a place, unless it stands before.
    fn note(&mut self, alloc: Global, index: &[i64], place: usize) -> Result<(), AllocError>
        ensures { OnOk result ((other : List ℤ) → place_in self.new other
            ≡ or_else (place_in self.old other) (if same_index index.now other then Some place else None)) }
    {
        if self.first.get(index).is_some() {
            return Ok(());
        }
        let key = Vec::from_slice(alloc, index)?;
        self.first.insert(key, place)?;
        Ok(())
    }

    /// The place of an index, if it is one of them.
    fn place(&self, index: &[i64]) -> Option<usize>
        ensures { result ≡ place_in self.now index.now }
    {
        self.first.get(index).copied()
    }

    /// Puts the place of each index of sets, behind the numbers that stand there, behind others. It is recursive for a set of two numbers or more alone.
    #[cycle(list)]
    pub(crate) fn list(
        &self,
        index: &mut Vec<i64>,
        sets: &[Vec<i64>],
        order: &mut Vec<Option<usize>>,
    ) -> Result<(), AllocError>
        ensures kept { OnOk result (index.new.items ≡ index.old.items) }
        ensures added { OnOk result (order.new.items ≡ order.old.items ++ places_behind self.now index.old.items sets.now) }
    {
        let before = index.len();
        let left = put_singles(index, sets)?;
        self.list_first(index, left, order)?;
        index.truncate(before);
        Ok(())
    }

    /// Puts the places of the indices that begin with each number of the first set.
    #[cycle(list)]
    fn list_first(
        &self,
        index: &mut Vec<i64>,
        sets: &[Vec<i64>],
        order: &mut Vec<Option<usize>>,
    ) -> Result<(), AllocError>
        ensures kept { OnOk result (index.new.items ≡ index.old.items) }
        ensures added { OnOk result (order.new.items ≡ order.old.items ++ places_behind self.now index.old.items sets.now) }
    {
        let Some((set, later)) = sets.split_first() else {
            order.push(self.place(index.as_slice()))?;
            return Ok(());
        };
        'set: for number in set.as_slice() {
            self.list_behind(number, index, later, order)?;
        }
        Ok(())
    }

    /// Puts the places of the indices that begin with one number of the first set.
    #[cycle(list)]
    fn list_behind(
        &self,
        number: &i64,
        index: &mut Vec<i64>,
        later: &[Vec<i64>],
        order: &mut Vec<Option<usize>>,
    ) -> Result<(), AllocError>
        ensures kept { OnOk result (index.new.items ≡ index.old.items) }
        ensures added { OnOk result (order.new.items ≡ order.old.items ++ places_behind self.now (index.old.items ++ number.now ∷ []) later.now) }
    {
        index.push(*number)?;
        self.list(index, later, order)?;
        index.pop();
        Ok(())
    }
}

/// Puts the number of each set at the front that has one alone behind others, and gives the sets that are left.
#[tactic(auto, using(crate::proofs::Singles::singles))]
fn put_singles<'a>(index: &mut Vec<i64>, sets: &'a [Vec<i64>]) -> Result<&'a [Vec<i64>], AllocError>
    ensures kept { IfOk result (λ left. take (length index.old.items) index.new.items ≡ index.old.items) }
    ensures fewer { IfOk result (λ left. length left.now ≤ length sets.now) }
    ensures places { IfOk result (λ left. (places : Places) → places_behind places index.new.items left.now ≡ places_behind places index.old.items sets.now) }
    ensures all { IfOk result (λ left. (number : ℤ) (others : List (List ℤ)) → kept.sets_of left.now ≢ (number ∷ []) ∷ others) }
{
    let mut left = sets;
    'singles: while let Some((number, later)) = single(left) {
        index.push(number)?;
        left = later;
    }
    Ok(left)
}

/// The number of the first set, where it has one alone, and the other sets.
#[tactic(auto, using(crate::proofs::Singles::one_number, crate::proofs::Singles::no_set, crate::proofs::Singles::other_numbers))]
fn single(sets: &[Vec<i64>]) -> Option<(i64, &[Vec<i64>])>
    ensures number { IfSome result (λ first. kept.sets_of sets.now ≡ (first.0 ∷ []) ∷ kept.sets_of first.1.now) }
    ensures fewer { IfSome result (λ first. length first.1.now + 1 ≡ length sets.now) }
    ensures none { IfNone result ((number : ℤ) (others : List (List ℤ)) → kept.sets_of sets.now ≢ (number ∷ []) ∷ others) }
{
    let (set, later) = sets.split_first()?;
    match set.as_slice() {
        [number] => Some((*number, later)),
        _ => None,
    }
}
