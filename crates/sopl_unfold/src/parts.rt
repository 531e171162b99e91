//! What a ground problem states, part by part.

ghost use Rattle.std.specs.Prelude.{◌≡◌, IfOk, map};
ghost use Rattle.sopl_ast.specs.References.{now_of};
ghost use Rattle.sopl_ast.specs.Unfolding.{text_events};
ghost use Rattle.sopl_ast.specs.WholeModel.{whole};
ghost use Rattle.unfold_laws.specs.Passing.{NothingFails};
ghost use Rattle.unfold_tables.specs.Tables.{table_known};
ghost use Rattle.sopl_unfold.specs.GroundProblem.{ground_problem};

use crate::ground::Ground;
use sopl_ast::Expr;
use sopl_types::Typed;
use std::alloc::{AllocError, Global};
use unfold_constraints::{ChanceItem, HardItem, conditions};
use unfold_tables::Table;
use unfold_variables::{DecisionItem, StochItem};

impl Ground {
    /// The typed model.
    pub fn typed(&self) -> &Typed
        ensures same { result.now ≡ self.now.typed }
        ensures passes { NothingFails (text_events (whole result.now.model)) }
    {
        &self.typed
    }

    /// The constants, the ranges and the sets.
    pub fn table(&self) -> &Table
        ensures known { table_known result.now ≡ (ground_problem self.now).known }
    {
        &self.found.table
    }

    /// The decisions, in text order and in lexicographic order of their indices.
    pub fn decisions(&self) -> &[DecisionItem]
        ensures decisions { result.now ≡ (ground_problem self.now).decisions }
    {
        self.found.decisions.as_slice()
    }

    /// The stochastic variables, by stage and then in text order.
    pub fn stochs(&self) -> &[StochItem]
        ensures stochastics { result.now ≡ (ground_problem self.now).stochastics }
    {
        self.found.stochs.as_slice()
    }

    /// The instances of hard constraints, in text order.
    pub fn hards(&self) -> &[HardItem]
        ensures hards { result.now ≡ (ground_problem self.now).hards }
    {
        self.found.hards.as_slice()
    }

    /// The instances of chance constraints, in text order.
    pub fn chances(&self) -> &[ChanceItem]
        ensures chances { result.now ≡ (ground_problem self.now).chances }
    {
        self.found.chances.as_slice()
    }

    /// The conditions of the hard and the chance constraints, in text order: an instance names one of them by its number, counted
    /// from 0.
    pub fn conditions(&self, alloc: Global) -> Result<Vec<&Expr>, AllocError>
        ensures conditions { IfOk result (λ found. map now_of found.items ≡ (ground_problem self.now).conditions) }
    {
        conditions(alloc, &self.typed.model().body)
    }
}
