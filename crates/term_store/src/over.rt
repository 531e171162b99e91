//! Terms and conditions of a store over a box inside its root.

ghost use Rattle.std.specs.Prelude.{◌≡◌, ◌<◌, length, Some};
ghost use Rattle.box_problem.specs.Box.{Inside};
ghost use Rattle.term_language.specs.Rules as rule;
ghost use Rattle.term_math.specs.Shown.{IsPart, box_in, box_under, ends_of, with_part};
ghost use Rattle.term_nodes.specs.Seen.{IsReady};
ghost use Rattle.term_nodes.specs.Things.{cond_at, term_at, things};
ghost use Rattle.term_store.specs.Stores.{IsSoundStore, all, root_of};

use crate::store::TermStore;
use term_language::Truth;
use term_math::{AbstractValue, BoxView, Part};
use term_nodes::Evaluator;

impl TermStore {
    /// The nodes and the root, beside a box.
    pub fn here<'a>(&'a self, view: &BoxView<'a>) -> Evaluator<'a>
        requires sound { IsSoundStore self.now }
        requires inside { Inside (box_in view.now) (root_of self.now) }
        ensures ready { IsReady result }
        ensures root { box_in result.root ≡ root_of self.now }
        ensures view { box_in result.view ≡ box_in view.now }
        ensures things { things result.items.now ≡ all self.now }
    {
        Evaluator {
            items: self.items.as_slice(),
            root: self.root(),
            view: *view,
            wide: false,
        }
    }

    /// The truth of a condition over the box.
    pub fn kleene(&self, id: u32, view: &BoxView) -> Truth
        requires sound { IsSoundStore self.now }
        requires inside { Inside (box_in view.now) (root_of self.now) }
        ensures { result ≡ rule.truth rule.Near (root_of self.now) (box_in view.now) (cond_at (all self.now) id) }
    {
        self.here(view).near_truth(id)
    }

    /// The interval and the mark of a term over the box.
    pub fn range_of(&self, id: u32, view: &BoxView) -> AbstractValue
        requires sound { IsSoundStore self.now }
        requires exists { id < length (all self.now) }
        requires inside { Inside (box_in view.now) (root_of self.now) }
        ensures interval { ends_of result.ends ≡ rule.interval rule.Near (root_of self.now) (box_in view.now) (term_at (all self.now) id) }
        ensures mark { result.mark ≡ rule.mark rule.Near (root_of self.now) (box_in view.now) (term_at (all self.now) id) }
    {
        self.here(view).near_range(id)
    }

    /// The truth of a condition over the box, with another interval for one cell.
    pub fn kleene_in(&self, id: u32, view: &BoxView, part: &Part) -> Truth
        requires sound { IsSoundStore self.now }
        requires inside { Inside (box_under view.now) (root_of self.now) }
        requires part { IsPart (root_of self.now) part.now }
        ensures { result ≡ rule.truth rule.Near (root_of self.now) (with_part (box_under view.now) (Some part.now)) (cond_at (all self.now) id) }
    {
        let changed = view.replaced(part);
        self.kleene(id, &changed)
    }

    /// The interval and the mark of a term over the box, with another interval for one cell.
    pub fn range_in(&self, id: u32, view: &BoxView, part: &Part) -> AbstractValue
        requires sound { IsSoundStore self.now }
        requires exists { id < length (all self.now) }
        requires inside { Inside (box_under view.now) (root_of self.now) }
        requires part { IsPart (root_of self.now) part.now }
        ensures interval { ends_of result.ends ≡ rule.interval rule.Near (root_of self.now) (with_part (box_under view.now) (Some part.now)) (term_at (all self.now) id) }
        ensures mark { result.mark ≡ rule.mark rule.Near (root_of self.now) (with_part (box_under view.now) (Some part.now)) (term_at (all self.now) id) }
    {
        let changed = view.replaced(part);
        self.range_of(id, &changed)
    }
}
