//! Arrays as they are kept.

ghost use Rattle.std.specs.Prelude.{◌≡◌, true, map};
ghost use Rattle.std.specs.Option.{ForSome};
ghost use Rattle.box_problem.specs.Box.{Box};
ghost use Rattle.term_language.specs.Ends as ends;
ghost use Rattle.term_language.specs.Rules as rule;
ghost use Rattle.term_math.specs.Ascending.{all_ascend, items_of};
ghost use Rattle.term_math.specs.Shown.{ends_of};

use crate::elements::Element;
use crate::ends::Ends;

/// An array: the numbers of the index set of each dimension, and the elements at the indices in lexicographic order. Beside them stands what
/// need not be looked for each time: whether it is known that each set ascends, and the hull of all elements, if they are numbers.
#[derive(Drop)]
pub struct Table {
    pub sets: Vec<Vec<i64>>,
    pub elements: Vec<Element>,
    pub ascending: bool,
    pub fixed: Option<Ends>,
    pub ghost ascend: { ascending ≡ true → all_ascend sets.items ≡ true },
    pub ghost hulled: { (b : Box) → ForSome fixed (λ hull. ends_of hull ≡ ends.hull_of (map (rule.item_ends b) (items_of elements.items))) },
}
