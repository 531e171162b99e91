//! A scenario as a policy plays it, and what a name is worth in it.

ghost use Rattle.std.specs.Prelude.{◌≡◌, ◌<◌, length, pos, get_or};
ghost use Rattle.sopl_ast.specs.Known.{Known};
ghost use Rattle.sopl_ast.specs.Meanings.{decided_value, named_value, or_else, seen_value};
ghost use Rattle.sopl_scen.specs.Layout.{cell_in, value_in};
ghost use Rattle.unfold_constants.specs.Here.{known_in};
ghost use Rattle.policy_values.specs.Played.{IsPlayed, drawn_values, place_of};

use crate::variables::Variables;
use sopl_ast::Name;
use sopl_scen::Tree;
use std::alloc::Global;
use unfold_constants::ConstantScope;

/// A scenario by its number, and the values that a policy gives the cells.
#[derive(Clone, Copy)]
pub struct PlayedScenario<'a, 'b> {
    pub alloc: Global,
    pub variables: &'b Variables<'a>,
    pub tree: &'b Tree,
    pub policy: &'b [i64],
    pub scenario: u32,
}

impl PlayedScenario<'_, '_> {
    /// The value of a name at an index: what is known of it, else the scenario's value, else the policy's, if there is one.
    pub(crate) fn named(&self, known: &ConstantScope<'_>, name: &Name, index: &[i64]) -> Option<i64>
        requires played { IsPlayed self.now }
        ensures value { result ≡ named_value (place_of self.now (known_in known.now)) name.now index.now }
    {
        match known.value(name, index) {
            Some(value) => Some(value),
            None => self.variable(name, index),
        }
    }

    /// The value of a stochastic variable, else of a decision, if there is one.
    fn variable(&self, name: &Name, index: &[i64]) -> Option<i64>
        requires played { IsPlayed self.now }
        ensures value { (known : Known) → result ≡ or_else
            (seen_value name.now index.now self.now.variables.now.stochs.now (drawn_values self.now.tree.now (length self.now.variables.now.stochs.now) self.now.scenario))
            (decided_value name.now index.now (place_of self.now known)) }
    {
        match self.variables.drawn_number(name, index) {
            Some(number) => Some(self.drawn(number)),
            None => self.decided_variable(name, index),
        }
    }

    /// The value of a decision, if there is one.
    fn decided_variable(&self, name: &Name, index: &[i64]) -> Option<i64>
        requires played { IsPlayed self.now }
        ensures value { (known : Known) → result ≡ decided_value name.now index.now (place_of self.now known) }
    {
        match self.variables.decided_number(name, index) {
            Some(number) => Some(self.decided(number)),
            None => None,
        }
    }

    /// The value that the scenario gives the stochastic variable with a number.
    #[tactic(auto, using(crate::proofs::Seen::variable_drawn))]
    fn drawn(&self, number: u32) -> i64
        requires played { IsPlayed self.now }
        requires exists { number < length self.now.variables.now.stochs.now }
        ensures value { result ≡ value_in self.now.tree.now number self.now.scenario }
    {
        self.tree.value(number, self.scenario)
    }

    /// The value that the policy gives the decision with a number, at the scenario's history.
    #[tactic(auto, using(crate::proofs::Seen::decision_placed, crate::proofs::Seen::cell_exists))]
    fn decided(&self, number: u32) -> i64
        requires played { IsPlayed self.now }
        requires exists { number < length self.now.variables.now.decisions.now }
        ensures value { result ≡ get_or self.now.policy.now (cell_in self.now.tree.now number self.now.scenario) (pos 0) }
    {
        self.policy[self.tree.cell_of(number, self.scenario) as usize]
    }
}
