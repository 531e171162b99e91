//! Elements of arrays.

ghost use Rattle.std.specs.Prelude.{◌≡◌};
ghost use Rattle.term_language.specs.Rules as rule;
ghost use Rattle.term_math.specs.Shown.{box_in, ends_of};
ghost use Rattle.term_math.specs.Kept.{item_of};

use crate::ends::Ends;
use crate::views::BoxView;

/// An element of an array: a number, or a cell.
#[derive(Clone, Copy, Debug, PartialEq, Eq)]
pub enum Element {
    Fixed(i64),
    Free(u32),
}

impl Element {
    /// Its interval over a box.
    pub fn ends(&self, view: &BoxView) -> Ends
        ensures { ends_of result ≡ rule.item_ends (box_in view.now) (item_of self.now) }
    {
        match self {
            Element::Fixed(number) => Ends {
                low: *number,
                high: *number,
            },
            Element::Free(cell) => view.cell(*cell),
        }
    }
}
