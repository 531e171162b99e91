//! The tree of scenarios: their weights, values and histories, and the cells of decisions.

ghost use Rattle.std.specs.Prelude.{◌≡◌, ◌≤◌, ◌<◌, ◌+◌, ◌⊎◌, length, Some, None, IfOk, IfErr};
ghost use Rattle.sopl_base.specs.declared.fault.Excess.{Excess};
ghost use Rattle.sopl_ast.specs.Instances.{Problem};
ghost use Rattle.sopl_ast.specs.Limits.{size_excess, usual_limits};
ghost use Rattle.sopl_scen.specs.Layout.{AreStated, IsProblemOf, IsTreeOf, cell_in, count_in, decisions_in, histories_in, history_in, value_in, weight_in};

use crate::cells::{Cells, bits_of_all};
use crate::limits::Sizes;
use crate::scenes::Scenes;
use sopl_base::{Excess, Fault, Wide};
use std::alloc::{AllocError, Global};
use std::marker::Model;
use unfold_variables::{DecisionItem, StochItem};

/// The scenarios of stochastic variables, the numbers of their histories, and the cells of decisions.
#[derive(Drop)]
pub struct Tree {
    total: Wide,
    variables: usize,
    scenes: Scenes,
    cells: Cells,
}

impl Model for Tree {
    ghost use Rattle.sopl_scen.specs.Layout.{Layout};

    ghost Value = { Layout };

    ghost use Rattle.sopl_scen.specs.Tree.{layout_of, IsKept};

    ghost view = { layout_of };

    ghost invariant = { IsKept };
}

impl Tree {
    /// The tree of decisions and stochastic variables, beside which there are so many constraints; or the first limit that they pass.
    pub fn of(
        alloc: Global,
        decisions: &[DecisionItem],
        stochs: &[StochItem],
        constraints: usize,
    ) -> Result<Tree, Fault>
        requires stated { AreStated decisions.now stochs.now constraints }
        ensures tree { IfOk result (λ tree. IsTreeOf decisions.now stochs.now tree) }
        ensures within { IfOk result (λ tree. (problem : Problem) → IsProblemOf decisions.now stochs.now constraints problem
            → size_excess usual_limits problem ≡ None) }
        ensures limit { IfErr result (λ fault. (problem : Problem) → IsProblemOf decisions.now stochs.now constraints problem
            → (fault ≡ Fault.NoMemory) ⊎ ((e : Excess) × (fault ≡ Fault.Limit e) × (size_excess usual_limits problem ≡ Some e))) }
    {
        let instances = decisions.len() + (stochs.len() + constraints);
        let sizes = match Sizes::of(instances, stochs) {
            Ok(sizes) => sizes,
            Err(excess) => return Err(Fault::Limit(excess)),
        };
        let scenes = Scenes::of(alloc, stochs)?;
        if let Err(excess) = bits_of_all(decisions, &scenes.stages) {
            return Err(Fault::Limit(excess));
        }
        let count = scenes.weights.len() as u32;
        let cells = Cells::of(alloc, decisions, &scenes.stages, count)?;
        Ok(Tree {
            total: sizes.total,
            variables: stochs.len(),
            scenes,
            cells,
        })
    }

    /// The weight of all scenarios together.
    pub fn total(&self) -> i128
        ensures { result ≡ self.now.total }
    {
        self.total.value
    }

    /// How many scenarios there are.
    pub fn count(&self) -> u32
        ensures { result ≡ count_in self.now }
    {
        self.scenes.weights.len() as u32
    }

    /// The weight of a scenario.
    pub fn weight(&self, scenario: u32) -> i128
        requires exists { scenario < count_in self.now }
        ensures { result ≡ weight_in self.now scenario }
    {
        self.scenes.weights[scenario as usize]
    }

    /// The value of a stochastic variable in a scenario.
    pub fn value(&self, stoch: u32, scenario: u32) -> i64
        requires drawn { stoch < self.now.variables }
        requires exists { scenario < count_in self.now }
        ensures { result ≡ value_in self.now stoch scenario }
    {
        let behind = self.variables - 1 - stoch as usize;
        self.scenes.table.values[scenario as usize * self.variables + behind]
    }

    /// The number of a scenario's history among those of a stage.
    pub fn history(&self, stage: u32, scenario: u32) -> u32
        requires from { 1 ≤ stage }
        requires to { stage ≤ 24 }
        requires exists { scenario < count_in self.now }
        ensures { result ≡ history_in self.now stage scenario }
    {
        let behind = self.variables - self.scenes.stages[stage as usize - 1].prefix;
        self.scenes.table.nodes[scenario as usize * (self.variables + 1) + behind]
    }

    /// How many histories a stage has.
    pub fn histories(&self, stage: u32) -> u32
        requires from { 1 ≤ stage }
        requires to { stage ≤ 24 }
        ensures { result ≡ histories_in self.now stage }
    {
        self.scenes.stages[stage as usize - 1].histories
    }

    /// How many cells there are.
    pub fn cells(&self) -> u32
        ensures { result ≡ self.now.cells }
    {
        self.cells.total
    }

    /// The number of the cell of a decision in a scenario.
    pub fn cell_of(&self, decision: u32, scenario: u32) -> u32
        requires decided { decision < decisions_in self.now }
        requires exists { scenario < count_in self.now }
        ensures { result ≡ cell_in self.now decision scenario }
    {
        let place = self.cells.places[decision as usize];
        place.first + self.history(place.stage, scenario)
    }
}
