//! The levels of a tree of scenarios: one node for each scenario of the first variables.

ghost use Rattle.std.specs.Prelude.{◌≡◌, ◌≤◌, ◌<◌, ◌+◌, ◌^◌, length, [], ◌∷◌, ◌++◌, map, IfOk, OnOk};
ghost use Rattle.std.specs.List.{AllByRecursion};
ghost use Rattle.unfold_variables.specs.Pairs.{outcome_in};
ghost use Rattle.sopl_scen.specs.Levels.{IsLight, AreSmall, all_levels, child_of, children, root};

use crate::nodes::{Level, Node};
use std::alloc::{AllocError, Global};
use unfold_variables::StochItem;

/// The levels of all prefixes of the variables, from that of no variable on.
pub(crate) fn levels(alloc: Global, stochs: &[StochItem]) -> Result<Vec<Level>, AllocError>
    requires small { AreSmall stochs.now }
    ensures { IfOk result (λ found. found.items ≡ all_levels stochs.now) }
{
    let mut found = Vec::new(alloc);
    found.push(first_level(alloc)?)?;
    'stochs: for (i, stoch) in stochs.iter().enumerate() {
        let level = next_level(alloc, found[i].as_slice(), stoch.distribution())?;
        found.push(level)?;
    }
    Ok(found)
}

/// The level of no variable.
fn first_level(alloc: Global) -> Result<Level, AllocError>
    ensures { IfOk result (λ level. level ≡ root ∷ []) }
{
    let mut level = Level::new(alloc);
    level.push(Node {
        parent: 0,
        value: 0,
        weight: 1,
    })?;
    Ok(level)
}

/// The level of one more variable: each node goes on with each of its outcomes.
fn next_level(alloc: Global, above: &[Node], outcomes: &[(i64, i64)]) -> Result<Level, AllocError>
    requires few { length above.now < 2 ^ 32 }
    requires light { AllByRecursion IsLight (children 0 above.now (map outcome_in outcomes.now)) }
    ensures { IfOk result (λ level. level ≡ children 0 above.now (map outcome_in outcomes.now)) }
{
    let mut level = Level::new(alloc);
    'above: for (i, node) in above.iter().enumerate() {
        add_children(&mut level, i as u32, node, outcomes)?;
    }
    Ok(level)
}

/// Adds the node of each outcome behind a node.
fn add_children(
    level: &mut Level,
    parent: u32,
    above: &Node,
    outcomes: &[(i64, i64)],
) -> Result<(), AllocError>
    requires { AllByRecursion IsLight (map (child_of parent above.now) (map outcome_in outcomes.now)) }
    ensures { OnOk result (level.new ≡ level.old ++ map (child_of parent above.now) (map outcome_in outcomes.now)) }
{
    'outcomes: for outcome in outcomes {
        level.push(child(parent, above, outcome))?;
    }
    Ok(())
}

/// The node of an outcome behind a node.
fn child(parent: u32, above: &Node, outcome: &(i64, i64)) -> Node
    requires { IsLight (child_of parent above.now (outcome_in outcome.now)) }
    ensures { result ≡ child_of parent above.now (outcome_in outcome.now) }
{
    Node {
        parent,
        value: outcome.0,
        weight: above.weight * i128::from(outcome.1),
    }
}
