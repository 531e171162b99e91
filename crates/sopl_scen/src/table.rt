//! The values of all scenarios, and the numbers of their histories, in flat tables.

ghost use Rattle.std.specs.Prelude.{◌≡◌, ◌≤◌, ◌<◌, ◌-◌, length, get_or, [], ◌∷◌, ◌++◌, IfOk, OnOk};
ghost use Rattle.sopl_scen.specs.Levels.{root};
ghost use Rattle.sopl_scen.specs.Tables.{IsLinked, all_paths, all_rows, last_level, path_up, row_up};

use crate::nodes::{Level, Node};
use std::alloc::{AllocError, Global};

/// For each scenario its values, from the last variable to the first; and the numbers of the scenarios of all prefixes of the
/// variables with which it begins, from the longest prefix to that of no variable.
#[derive(Drop)]
pub(crate) struct Table {
    pub values: Vec<i64>,
    pub nodes: Vec<u32>,
}

impl Table {
    /// The tables of so many scenarios, which are the nodes of the last level.
    pub(crate) fn of(alloc: Global, levels: &[Level], count: u32) -> Result<Self, AllocError>
        requires linked { IsLinked levels.now }
        requires at_least_one { 1 ≤ length levels.now }
        requires exist { count ≤ length (get_or levels.now (last_level levels.now) []) }
        ensures values { IfOk result (λ t. t.values.items ≡ all_rows levels.now count) }
        ensures nodes { IfOk result (λ t. t.nodes.items ≡ all_paths levels.now count) }
    {
        let mut table = Table {
            values: Vec::new(alloc),
            nodes: Vec::new(alloc),
        };
        'scenarios: for scenario in 0..count {
            table.climb(levels, scenario)?;
        }
        Ok(table)
    }

    /// Adds the values and the nodes of a scenario, from the last level to the first.
    fn climb(&mut self, levels: &[Level], scenario: u32) -> Result<(), AllocError>
        requires linked { IsLinked levels.now }
        requires at_least_one { 1 ≤ length levels.now }
        requires exists { scenario < length (get_or levels.now (last_level levels.now) []) }
        ensures values { OnOk result (self.new.values.items ≡ self.old.values.items ++ row_up levels.now (last_level levels.now) scenario) }
        ensures nodes { OnOk result (self.new.nodes.items ≡ self.old.nodes.items ++ path_up levels.now (last_level levels.now) scenario) }
    {
        let mut node = scenario;
        let mut left = levels.len() - 1;
        'levels: while left > 0 {
            node = self.step(&levels[left], node)?;
            left -= 1;
        }
        self.nodes.push(node)?;
        Ok(())
    }

    /// Adds the value of a node and its number, and gives the number of its parent.
    fn step(&mut self, level: &Level, node: u32) -> Result<u32, AllocError>
        requires { node < length level.now }
        ensures parent { IfOk result (λ parent. parent ≡ (get_or level.now node root).parent) }
        ensures values { OnOk result (self.new.values.items ≡ self.old.values.items ++ (get_or level.now node root).value ∷ []) }
        ensures nodes { OnOk result (self.new.nodes.items ≡ self.old.nodes.items ++ node ∷ []) }
    {
        let Node { parent, value, .. } = level.as_slice()[node as usize];
        self.values.push(value)?;
        self.nodes.push(node)?;
        Ok(parent)
    }
}
