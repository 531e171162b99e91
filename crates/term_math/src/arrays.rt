//! What is known of an array: the hull of its elements, and the element at an index.

ghost use Rattle.std.specs.Prelude.{◌≡◌, IfSome, map, option_map};
ghost use Rattle.box_problem.specs.Box.{Box};
ghost use Rattle.term_language.specs.Arrays as arrays;
ghost use Rattle.term_language.specs.Ends as ends;
ghost use Rattle.term_language.specs.Laws.{IsTable};
ghost use Rattle.term_language.specs.Rules as rule;
ghost use Rattle.term_math.specs.Shown.{box_in, ends_of};
ghost use Rattle.term_math.specs.Kept.{item_of, items_of, table_of};

use crate::ascending::are_ascending;
use crate::elements::Element;
use crate::ends::Ends;
use crate::lookups::{last, part};
use crate::tables::Table;
use crate::views::BoxView;

/// The interval of an element over any box, if it is a number.
fn fixed_ends(element: &Element) -> Option<Ends>
    ensures { (b : Box) → IfSome result (λ found. ends_of found ≡ rule.item_ends b (item_of element.now)) }
{
    match element {
        Element::Fixed(number) => Some(Ends {
            low: *number,
            high: *number,
        }),
        Element::Free(_) => None,
    }
}

/// The hull of the intervals of all elements over any box, if they are numbers; of none it is 0 alone.
fn fixed_hull(elements: &[Element]) -> Option<Ends>
    ensures { (b : Box) → IfSome result (λ found. ends_of found ≡ ends.hull_of (map (rule.item_ends b) (items_of elements.now))) }
{
    let Some((first, later)) = elements.split_first() else {
        return Some(Ends::zero());
    };
    let mut hull = fixed_ends(first)?;
    for element in later {
        let here = fixed_ends(element)?;
        hull = hull.hull(&here);
    }
    Some(hull)
}

impl Table {
    /// The array of these sets and elements.
    pub fn of(sets: Vec<Vec<i64>>, elements: Vec<Element>) -> Table
        ensures sets { result.sets ≡ sets }
        ensures elements { result.elements ≡ elements }
    {
        let ascending = are_ascending(sets.as_slice());
        let fixed = fixed_hull(elements.as_slice());
        Table {
            sets,
            elements,
            ascending,
            fixed,
        }
    }

    /// The hull of the intervals of all elements over a box, one after the other; of none it is 0 alone.
    #[tactic(auto, using(crate::proofs::Hulls::next_hull, crate::proofs::Hulls::no_hull))]
    fn walked_hull(&self, view: &BoxView) -> Ends
        ensures { ends_of result ≡ ends.hull_of (map (rule.item_ends (box_in view.now)) (items_of self.now.elements.items)) }
    {
        let Some((first, later)) = self.elements.as_slice().split_first() else {
            return Ends::zero();
        };
        let mut hull = first.ends(view);
        for element in later {
            let here = element.ends(view);
            hull = hull.hull(&here);
        }
        hull
    }

    /// The hull of the intervals of all elements over a box; of none it is 0 alone.
    pub fn hull(&self, view: &BoxView) -> Ends
        ensures { ends_of result ≡ ends.hull_of (map (rule.item_ends (box_in view.now)) (items_of self.now.elements.items)) }
    {
        match self.fixed {
            Some(hull) => hull,
            None => self.walked_hull(view),
        }
    }

    /// The element at an index, if the index is one of the array's, which has no index twice.
    #[tactic(auto, using(crate::proofs::Blocks::too_short, crate::proofs::Blocks::no_dimension, crate::proofs::Blocks::one_left))]
    pub fn known(&self, index: &[i64]) -> Option<Element>
        requires table { IsTable (table_of self.now) }
        ensures { option_map item_of result ≡ arrays.item_at (table_of self.now) index.now }
    {
        let mut elements = self.elements.as_slice();
        let mut rest = index;
        for set in &self.sets {
            let Some((number, later)) = rest.split_first() else {
                return None;
            };
            let Some(found) = part(elements, set.as_slice(), number, self.ascending) else {
                return None;
            };
            elements = found;
            rest = later;
        }
        last(elements, rest)
    }
}
