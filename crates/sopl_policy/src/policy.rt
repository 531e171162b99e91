//! A policy, and how it is made of the values of all cells.

ghost use Rattle.std.specs.Prelude.{◌≡◌, ℕ, ℤ, List, Some, IfOk, slice_get};
ghost use Rattle.std.specs.FinMap.{get};
ghost use Rattle.sopl_ast.specs.Cells.{IsPoint, cells as cells_in};
ghost use Rattle.sopl_ast.specs.Histories.{histories};
ghost use Rattle.sopl_ast.specs.Instances.{Decision, Problem};
ghost use Rattle.sopl_scen.specs.Layout.{IsTreeOf};
ghost use Rattle.sopl_policy.specs.Kept.{HasHistory, IsPolicyFor, policy_map, value_kept};
ghost use Rattle.sopl_unfold.specs.GroundProblem.{ground_problem};

use crate::first_cells::first_cells;
use sopl_scen::Tree;
use sopl_unfold::Ground;
use std::alloc::{AllocError, Global};
use std::marker::Model;

/// A value for each decision at each history of its stage.
#[derive(Drop)]
pub struct Policy {
    firsts: Vec<usize>,
    values: Vec<i64>,
}

impl Model for Policy {
    ghost use Rattle.sopl_policy.specs.Kept.{PolicyCells};
    ghost use Rattle.sopl_policy.specs.Shown.{AreWithin, cells_kept};

    ghost Value = { PolicyCells };

    ghost view = { cells_kept };

    ghost invariant = { AreWithin };
}

impl Policy {
    /// The value of a decision at the history with this number, both counted from 0. It takes no memory.
    pub fn at(&self, decision: u32, history: u32) -> i64
        requires exists { HasHistory self.now decision history }
        ensures value { result ≡ value_kept self.now decision history }
        ensures policy { (problem : Problem) (d : Decision) (seen : List ℤ) → IsPolicyFor problem self.now
            → slice_get problem.decisions decision ≡ Some d → slice_get (histories d.stage problem.stochastics) history ≡ Some seen
            → get (policy_map problem self.now) (decision, seen) ≡ Some result }
    {
        self.values[self.firsts[decision as usize] + history as usize]
    }

    /// The values of all cells, in the order of the cells.
    pub fn values(&self) -> &[i64]
        ensures values { result.now ≡ self.now.values }
    {
        self.values.as_slice()
    }
}

/// The policy with these values of a tree's cells, in the order of the cells.
pub fn policy_of(
    alloc: Global,
    cells: &[i64],
    ground: &Ground,
    tree: &Tree,
) -> Result<Policy, AllocError>
    requires tree { IsTreeOf (ground_problem ground.now).decisions (ground_problem ground.now).stochastics tree.now }
    requires point { IsPoint (cells_in (ground_problem ground.now)) cells.now }
    ensures policy { IfOk result (IsPolicyFor (ground_problem ground.now)) }
    ensures values { IfOk result (λ policy. policy.values ≡ cells.now) }
{
    let firsts = first_cells(alloc, ground.decisions(), tree)?;
    let values = Vec::from_slice(alloc, cells)?;
    Ok(Policy { firsts, values })
}
