//! A program is built: its terms and conditions one by one, then its constraints, and at last its objective.

ghost use Rattle.std.specs.Prelude.{◌≡◌, ◌<◌, ◌≤◌, ◌≤ℤ◌, ◌^◌, [], None, pos, length, IfOk};
ghost use Rattle.std.specs.List.{AllByRecursion};
ghost use Rattle.sopl_base.specs.declared.limits.TheConstants as largest;
ghost use Rattle.box_problem.specs.Box.{box_of};
ghost use Rattle.term_language.specs.Globals.{total};
ghost use Rattle.sopl_term.specs.Built.{IsBuilding, IsNear, asked_direction, asked_worst, built, cell_terms, problem_built, root_built};

use crate::cells::cell_nodes;
use sopl_base::{Direction, Interval};
use std::alloc::{AllocError, Global};
use term_goals::whole_weight;
use term_program::Draft;
use term_store::TermStore;

/// A program that is being built.
#[derive(Drop)]
pub struct Builder {
    pub(crate) draft: Draft,
    pub(crate) direction: Direction,
    pub(crate) worst: bool,
}

impl Builder {
    /// A program over the cells of these intervals, whose ends lie within 2^40, and the scenarios of these weights, with a term for each cell and no
    /// constraint yet. What the direction and the worst scenario mean, the objective decides that comes last.
    pub fn new(
        alloc: Global,
        roots: &[Interval],
        weights: &[i128],
        direction: Direction,
        worst: bool,
    ) -> Result<Builder, AllocError>
        requires few_cells { length roots.now < 2 ^ 32 }
        requires near { AllByRecursion IsNear roots.now }
        requires first { 1 ≤ length weights.now }
        requires few_scenarios { length weights.now < 2 ^ 32 }
        requires weighs { AllByRecursion (λ weight. pos 1 ≤ℤ weight) weights.now }
        requires light { total weights.now ≤ℤ largest.WEIGHT }
        ensures building { IfOk result (λ builder. IsBuilding builder) }
        ensures root { IfOk result (λ builder. root_built builder ≡ box_of roots.now) }
        ensures things { IfOk result (λ builder. built builder ≡ cell_terms (length roots.now)) }
        ensures problem { IfOk result (λ builder. problem_built builder ≡ record { weights = weights.now; whole = total weights.now; hards = []; chances = []; goal = None }) }
        ensures direction { IfOk result (λ builder. asked_direction builder ≡ direction) }
        ensures worst { IfOk result (λ builder. asked_worst builder ≡ worst) }
    {
        let mut store = TermStore::new(alloc, roots)?;
        let nodes = cell_nodes(alloc, &mut store, roots.len() as u32)?;
        let list = Vec::from_slice(alloc, weights)?;
        let whole = whole_weight(weights);
        Ok(Builder {
            draft: Draft {
                alloc,
                store,
                cells: roots.len() as u32,
                nodes,
                weights: list,
                whole: whole.value,
                hards: Vec::new(alloc),
                chances: Vec::new(alloc),
            },
            direction,
            worst,
        })
    }
}
