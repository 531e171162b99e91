//! The element at an index, one dimension after the other.

ghost use Rattle.std.specs.Prelude.{◌≡◌, ◌<◌, ◌*◌, AllPairs, ℕ, [], ◌∷◌, length, option_map, true};
ghost use Rattle.term_language.specs.Arrays.{item_in, paired};
ghost use Rattle.term_math.specs.Ascending.{ascends};
ghost use Rattle.term_math.specs.Kept.{block, item_of, items_of};

use crate::ascending::is_missing;
use crate::elements::Element;

/// The elements at the indices that begin with a number, if the set has it, where their count is given.
#[tactic(auto, using(crate::proofs::Blocks::next_block, crate::proofs::Blocks::no_block))]
fn block<'a>(
    elements: &'a [Element],
    set: &[i64],
    width: usize,
    number: &i64,
) -> Option<&'a [Element]>
    requires complete { length elements.now ≡ length set.now * width }
    ensures { option_map (λ found. found.now) result ≡ block number.now set.now width elements.now }
{
    let mut left = elements;
    for here in set {
        let (first, later) = left.split_at(width);
        if *here == *number {
            return Some(first);
        }
        left = later;
    }
    None
}

/// The elements at the indices that begin with a number, if the set has it, where their count is given, and where there are any, no number
/// stands twice in the set: by halving where the set ascends, and else one number after the other.
#[tactic(auto, using(crate::proofs::Distinct::block_at, crate::proofs::Distinct::block_within))]
fn halved<'a>(
    elements: &'a [Element],
    set: &[i64],
    width: usize,
    number: &i64,
) -> Option<&'a [Element]>
    requires complete { length elements.now ≡ length set.now * width }
    requires distinct { 0 < length elements.now → AllPairs (λ p q. ¬ p ≡ q) set.now }
    ensures { option_map (λ found. found.now) result ≡ block number.now set.now width elements.now }
{
    match set.binary_search(number) {
        Ok(place) => {
            let (_, later) = elements.split_at(place * width);
            let (first, _) = later.split_at(width);
            Some(first)
        }
        Err(_) => block(elements, set, width, number),
    }
}

/// How many elements each number of a set has, where all have equally many; 0 where the set is empty.
#[tactic(auto, using(crate::proofs::Blocks::is_divided))]
pub(crate) fn width(elements: &[Element], set: &[i64]) -> usize
    ensures { (width : ℕ) → 0 < length set.now → length elements.now ≡ length set.now * width → result ≡ width }
{
    if set.is_empty() {
        return 0;
    }
    elements.len() / set.len()
}

/// The elements at the indices that begin with a number, if the set has it: each number of the set has equally many, and where there are
/// any, no number stands twice in it.
#[tactic(auto, using(crate::proofs::Blocks::no_numbers, crate::proofs::Blocks::divided_count))]
pub(crate) fn part<'a>(
    elements: &'a [Element],
    set: &[i64],
    number: &i64,
    ascending: bool,
) -> Option<&'a [Element]>
    requires ascends { ascending ≡ true → ascends set.now ≡ true }
    requires distinct { 0 < length elements.now → AllPairs (λ p q. ¬ p ≡ q) set.now }
    ensures { (width : ℕ) → length elements.now ≡ length set.now * width → option_map (λ found. found.now) result ≡ block number.now set.now width elements.now }
{
    if set.is_empty() {
        return None;
    }
    if elements.len() % set.len() != 0 {
        return None;
    }
    if is_missing(set, ascending, number) {
        return None;
    }
    halved(elements, set, elements.len() / set.len(), number)
}

/// The element that is left where an index is at its end.
pub(crate) fn last(elements: &[Element], rest: &[i64]) -> Option<Element>
    requires one { length elements.now ≡ 1 }
    ensures { option_map item_of result ≡ item_in (paired ([] ∷ []) (items_of elements.now)) rest.now }
{
    if !rest.is_empty() {
        return None;
    }
    Some(elements[0])
}
