//! Where the value of a name without an index comes from.

ghost use Rattle.std.specs.Prelude.{◌≡◌, ◌++◌, [], ℕ, length, option_map, IfSome};
ghost use Rattle.sopl_scen.specs.Layout.{Layout};
ghost use Rattle.term_language.specs.Arrays.{item_in};
ghost use Rattle.compile_laws.specs.Instances.{decided_elements, seen_elements};
ghost use Rattle.compile_names.specs.Places.{cells_at, values_at};
ghost use Rattle.compile_names.specs.Variables.{OriginExists, item_from};

use crate::origins::Origin;
use crate::setting::Scenarios;
use sopl_ast::Name;

impl Scenarios<'_> {
    /// Where the value of a variable without an index comes from: a stochastic variable, else a decision; none if there is none of this name.
    pub fn scalar(&self, name: &Name) -> Option<Origin>
        ensures item { (tree : Layout) (i : ℕ) → option_map (item_from tree i) result ≡ item_in
            (seen_elements name.now self.now.stochs.now (values_at tree (length self.now.stochs.now) i)
            ++ decided_elements name.now self.now.decisions.now (cells_at tree (length self.now.decisions.now) i)) [] }
        ensures origins_exist { IfSome result (OriginExists (length self.now.stochs.now) (length self.now.decisions.now)) }
    {
        match self.drawn_scalar(name) {
            Some(origin) => Some(origin),
            None => self.decided_scalar(name),
        }
    }

    /// The first stochastic variable of a name that has no index.
    fn drawn_scalar(&self, name: &Name) -> Option<Origin>
        ensures item { (tree : Layout) (i : ℕ) → option_map (item_from tree i) result
            ≡ item_in (seen_elements name.now self.now.stochs.now (values_at tree (length self.now.stochs.now) i)) [] }
        ensures origins_exist { IfSome result (OriginExists (length self.now.stochs.now) (length self.now.decisions.now)) }
    {
        let numbers = self.drawn.numbers(name);
        'numbers: for number in numbers {
            let source = self.drawn_source(*number);
            if source.index.is_empty() {
                return Some(source.origin);
            }
        }
        None
    }

    /// The first decision of a name that has no index.
    fn decided_scalar(&self, name: &Name) -> Option<Origin>
        ensures item { (tree : Layout) (i : ℕ) → option_map (item_from tree i) result
            ≡ item_in (decided_elements name.now self.now.decisions.now (cells_at tree (length self.now.decisions.now) i)) [] }
        ensures origins_exist { IfSome result (OriginExists (length self.now.stochs.now) (length self.now.decisions.now)) }
    {
        let numbers = self.decided.numbers(name);
        'numbers: for number in numbers {
            let source = self.decided_source(*number);
            if source.index.is_empty() {
                return Some(source.origin);
            }
        }
        None
    }
}
