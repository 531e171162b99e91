//! A scenario, and what a name without an index stands for in it.

ghost use Rattle.std.specs.Prelude.{◌≡◌, ◌<◌, ◌++◌, [], length, option_map, IfSome};
ghost use Rattle.term_language.specs.Arrays.{item_in};
ghost use Rattle.compile_laws.specs.Instances.{bound_elements, decided_elements, elements, seen_elements};
ghost use Rattle.compile_names.specs.Places.{cells_at, values_at};
ghost use Rattle.compile_names.specs.Variables.{OriginExists, item_from};
ghost use Rattle.sopl_scen.specs.Layout.{cells_for, count_in};
ghost use Rattle.term_math.specs.Kept.{item_of};
ghost use Rattle.unfold_constants.specs.Here.{known_in};
ghost use Rattle.compile_scene.specs.Scenes.{HasCell, IsLaid, place_of};

use compile_names::{Origin, Scenarios};
use sopl_ast::Name;
use term_math::Element;
use unfold_constants::ConstantScope;

/// A scenario of a problem, by its number.
#[derive(Clone, Copy)]
pub struct NumberedScenario<'a, 'b> {
    pub setting: &'b Scenarios<'a>,
    pub scenario: u32,
}

impl NumberedScenario<'_, '_> {
    /// What a name without an index stands for: the number that a binder gives it or that a constant has, else the value of a stochastic variable, else the cell of a decision.
    pub fn item(&self, known: &ConstantScope<'_>, name: &Name) -> Option<Element>
        requires laid_out { IsLaid self.now.setting.now }
        requires exists { self.now.scenario < count_in self.now.setting.now.tree.now }
        ensures item { option_map item_of result ≡ item_in (bound_elements name.now (known_in known.now).bound ++ elements (place_of self.now (known_in known.now)) name.now) [] }
        ensures cell { IfSome result (HasCell (length (cells_for self.now.setting.now.decisions.now self.now.setting.now.stochs.now))) }
    {
        match known.value(name, &[]) {
            Some(value) => Some(Element::Fixed(value)),
            None => self.variable(name),
        }
    }

    /// The value of a stochastic variable without an index, or the cell of a decision.
    fn variable(&self, name: &Name) -> Option<Element>
        requires laid_out { IsLaid self.now.setting.now }
        requires exists { self.now.scenario < count_in self.now.setting.now.tree.now }
        ensures item { option_map item_of result ≡ item_in
            (seen_elements name.now self.now.setting.now.stochs.now (values_at self.now.setting.now.tree.now (length self.now.setting.now.stochs.now) self.now.scenario)
            ++ decided_elements name.now self.now.setting.now.decisions.now (cells_at self.now.setting.now.tree.now (length self.now.setting.now.decisions.now) self.now.scenario)) [] }
        ensures cell { IfSome result (HasCell (length (cells_for self.now.setting.now.decisions.now self.now.setting.now.stochs.now))) }
    {
        match self.setting.scalar(name) {
            Some(origin) => Some(self.element(origin)),
            None => None,
        }
    }

    /// The number or the cell that a value is, by where it comes from.
    #[tactic(auto, using(crate::proofs::Cells::cell_exists, crate::proofs::Cells::decision_placed, crate::proofs::Cells::variable_drawn))]
    pub(crate) fn element(&self, origin: Origin) -> Element
        requires laid_out { IsLaid self.now.setting.now }
        requires exists { self.now.scenario < count_in self.now.setting.now.tree.now }
        requires origins_exist { OriginExists (length self.now.setting.now.stochs.now) (length self.now.setting.now.decisions.now) origin }
        ensures item { item_of result ≡ item_from self.now.setting.now.tree.now self.now.scenario origin }
        ensures cell { HasCell (length (cells_for self.now.setting.now.decisions.now self.now.setting.now.stochs.now)) result }
    {
        match origin {
            Origin::Fixed(value) => Element::Fixed(value),
            Origin::Drawn(number) => Element::Fixed(self.setting.tree.value(number, self.scenario)),
            Origin::Decided(number) => {
                Element::Free(self.setting.tree.cell_of(number, self.scenario))
            }
        }
    }
}
