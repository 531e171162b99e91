//! What stands in all scenarios of a problem.

ghost use Rattle.std.specs.Prelude.{◌≡◌, ◌≤◌, ◌^◌, length, map, IfOk};
ghost use Rattle.compile_names.specs.Grouped.{IsGrouped};
ghost use Rattle.compile_names.specs.Variables.{decided_name, drawn_name};

use crate::names::Names;
use sopl_scen::Tree;
use std::alloc::{AllocError, Global};
use unfold_tables::Table;
use unfold_variables::{DecisionItem, StochItem};

/// What is known at the constant places of a problem, its stochastic variables and decisions, found by their names, and the tree of its
/// scenarios.
#[derive(Drop)]
pub struct Scenarios<'a> {
    pub table: &'a Table,
    pub stochs: &'a [StochItem],
    pub decisions: &'a [DecisionItem],
    pub tree: &'a Tree,
    pub(crate) drawn: Names,
    pub(crate) decided: Names,
    ghost drawn_named: { IsGrouped drawn (map drawn_name stochs.now) },
    ghost decided_named: { IsGrouped decided (map decided_name decisions.now) },
}

impl<'a> Scenarios<'a> {
    /// The setting of these, whose numbers have 32 bits.
    pub fn of(
        alloc: Global,
        table: &'a Table,
        stochs: &'a [StochItem],
        decisions: &'a [DecisionItem],
        tree: &'a Tree,
    ) -> Result<Scenarios<'a>, AllocError>
        requires few_drawn { length stochs.now ≤ 2 ^ 32 }
        requires few_decided { length decisions.now ≤ 2 ^ 32 }
        ensures table { IfOk result (λ setting. setting.table.now ≡ table.now) }
        ensures stochs { IfOk result (λ setting. setting.stochs.now ≡ stochs.now) }
        ensures decisions { IfOk result (λ setting. setting.decisions.now ≡ decisions.now) }
        ensures tree { IfOk result (λ setting. setting.tree.now ≡ tree.now) }
    {
        let drawn = drawn_names(alloc, stochs)?;
        let decided = decided_names(alloc, decisions)?;
        Ok(Scenarios {
            table,
            stochs,
            decisions,
            tree,
            drawn,
            decided,
        })
    }
}

/// The names of stochastic variables.
#[tactic(auto, using(crate::proofs::Labels::drawn_label, crate::proofs::Labels::drawn_labels))]
fn drawn_names(alloc: Global, stochs: &[StochItem]) -> Result<Names, AllocError>
    requires few { length stochs.now ≤ 2 ^ 32 }
    ensures { IfOk result (λ names. IsGrouped names (map drawn_name stochs.now)) }
{
    let mut names = Vec::new(alloc);
    'stochs: for stoch in stochs {
        names.push(&stoch.name)?;
    }
    Names::of(alloc, names.as_slice())
}

/// The names of decisions.
#[tactic(auto, using(crate::proofs::Labels::decided_label, crate::proofs::Labels::decided_labels))]
fn decided_names(alloc: Global, decisions: &[DecisionItem]) -> Result<Names, AllocError>
    requires few { length decisions.now ≤ 2 ^ 32 }
    ensures { IfOk result (λ names. IsGrouped names (map decided_name decisions.now)) }
{
    let mut names = Vec::new(alloc);
    'decisions: for decision in decisions {
        names.push(&decision.name)?;
    }
    Names::of(alloc, names.as_slice())
}
