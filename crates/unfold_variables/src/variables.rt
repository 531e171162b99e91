//! The decisions and the stochastic variables that declarations state.

ghost use Rattle.std.specs.Prelude.{◌≡◌, ◌++◌, [], IfOk, option_map};
ghost use Rattle.sopl_ast.specs.Arrays.{array_events};
ghost use Rattle.sopl_ast.specs.Declarations.{domain_events, outcome_events, stage_events, decisions_of, stochastics_of};
ghost use Rattle.sopl_ast.specs.Ranges.{range_of};
ghost use Rattle.unfold_tables.specs.Tables.{table_known};
ghost use Rattle.unfold_tables.specs.Walks.{Walks};

use crate::arrays::array;
use crate::elements::{DecisionArray, StochArray};
use crate::equal_decisions::decision_array;
use crate::items::{DecisionItem, StochItem};
use sopl_ast::{Dim, Expr, Name, RangeText};
use sopl_base::Fault;
use std::alloc::Global;
use unfold_constants::ConstantScope;
use unfold_tables::{Count, Table};

/// The decisions of a declaration, in lexicographic order of their indices.
pub fn decisions(
    alloc: Global,
    table: &Table,
    count: &mut Count,
    name: &Name,
    dims: &[Dim],
    range: &RangeText,
    stage: Option<&Expr>,
) -> Result<Vec<DecisionItem>, Fault>
    ensures met { Walks count.old.counted count.new.counted
        (array_events (table_known table.now) dims.now (λ here.
        domain_events here (range_of range.now) ++ stage_events here (option_map (λ e. e.now) stage.entry))) result }
    ensures stated { IfOk result (λ found.
        found.items ≡ decisions_of (table_known table.now) name.now dims.now (range_of range.now) (option_map (λ e. e.now) stage.entry)) }
{
    let known = ConstantScope::new(alloc, table);
    let element = DecisionArray { name, range, stage };
    decision_array(alloc, &known, count, dims, &element)
}

/// The stochastic variables of a declaration, in lexicographic order of their indices.
pub fn stochastics(
    alloc: Global,
    table: &Table,
    count: &mut Count,
    name: &Name,
    dims: &[Dim],
    dist: &[(Expr, Expr)],
    stage: Option<&Expr>,
) -> Result<Vec<StochItem>, Fault>
    ensures met { Walks count.old.counted count.new.counted
        (array_events (table_known table.now) dims.now (λ here.
        outcome_events here [] dist.now ++ stage_events here (option_map (λ e. e.now) stage.entry))) result }
    ensures stated { IfOk result (λ found.
        found.items ≡ stochastics_of (table_known table.now) name.now dims.now dist.now (option_map (λ e. e.now) stage.entry)) }
{
    let known = ConstantScope::new(alloc, table);
    let element = StochArray { name, dist, stage };
    array(alloc, &known, count, dims, &element)
}
