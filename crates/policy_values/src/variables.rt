//! The stochastic variables and the decisions of a text, found by their names and indices.

ghost use Rattle.std.specs.Prelude.{◌≡◌, ◌≤◌, ◌^◌, ◌≤ℤ◌, length, map, option_map, pos, IfOk, IfSome};
ghost use Rattle.unfold_tables.specs.Tables.{table_known};
ghost use Rattle.policy_values.specs.Labels.{decided_label, drawn_label, number_at, numbered_from};

use crate::numbering::Numbering;
use sopl_ast::Name;
use std::alloc::{AllocError, Global};
use unfold_tables::Table;
use unfold_variables::{DecisionItem, StochItem};

/// The stochastic variables and the decisions of a text; their numbers are found by their names and indices.
#[derive(Drop)]
pub struct Variables<'a> {
    pub stochs: &'a [StochItem],
    pub decisions: &'a [DecisionItem],
    drawn: Table,
    decided: Table,
    ghost few_drawn: { length stochs.now ≤ 2 ^ 32 },
    ghost few_decided: { length decisions.now ≤ 2 ^ 32 },
    ghost drawn_numbered: { (table_known drawn).constants ≡ numbered_from 0 (map drawn_label stochs.now) },
    ghost decided_numbered: { (table_known decided).constants ≡ numbered_from 0 (map decided_label decisions.now) },
}

impl<'a> Variables<'a> {
    /// These variables and decisions, whose numbers have 32 bits.
    pub fn of(
        alloc: Global,
        stochs: &'a [StochItem],
        decisions: &'a [DecisionItem],
    ) -> Result<Variables<'a>, AllocError>
        requires few_drawn { length stochs.now ≤ 2 ^ 32 }
        requires few_decided { length decisions.now ≤ 2 ^ 32 }
        ensures stochs { IfOk result (λ variables. variables.stochs.now ≡ stochs.now) }
        ensures decisions { IfOk result (λ variables. variables.decisions.now ≡ decisions.now) }
    {
        let drawn = drawn_numbers(alloc, stochs)?;
        let decided = decided_numbers(alloc, decisions)?;
        Ok(Variables {
            stochs,
            decisions,
            drawn,
            decided,
        })
    }

    /// The number of the stochastic variable with a name and an index, if there is one.
    pub(crate) fn drawn_number(&self, name: &Name, index: &[i64]) -> Option<u32>
        ensures number { result ≡ number_at name.now index.now 0 (map drawn_label self.now.stochs.now) }
    {
        as_number(self.drawn.element(name, index))
    }

    /// The number of the decision with a name and an index, if there is one.
    pub(crate) fn decided_number(&self, name: &Name, index: &[i64]) -> Option<u32>
        ensures number { result ≡ number_at name.now index.now 0 (map decided_label self.now.decisions.now) }
    {
        as_number(self.decided.element(name, index))
    }
}

/// A number of 32 bits, as it was kept.
fn as_number(kept: Option<i64>) -> Option<u32>
    requires fits { IfSome kept (λ z. (pos 0 ≤ℤ z) × (z ≤ℤ pos 4294967295)) }
    ensures same { option_map pos result ≡ kept }
{
    match kept {
        Some(number) => Some(number as u32),
        None => None,
    }
}

/// The numbers of stochastic variables under their names and indices.
#[tactic(auto, using(crate::proofs::Numbered::drawn_more, crate::proofs::Numbered::drawn_end))]
fn drawn_numbers(alloc: Global, stochs: &[StochItem]) -> Result<Table, AllocError>
    requires few { length stochs.now ≤ 2 ^ 32 }
    ensures numbers { IfOk result (λ table. (table_known table).constants ≡ numbered_from 0 (map drawn_label stochs.now)) }
{
    let Some(first) = stochs.first() else {
        return Ok(Table::new(alloc));
    };
    let mut numbering = Numbering::new(alloc, &first.name);
    'stochs: for number in 0..stochs.len() {
        let stoch = &stochs[number];
        numbering.add(&stoch.name, stoch.index.as_slice(), number as u32)?;
    }
    numbering.finish()
}

/// The numbers of decisions under their names and indices.
#[tactic(auto, using(crate::proofs::Numbered::decided_more, crate::proofs::Numbered::decided_end))]
fn decided_numbers(alloc: Global, decisions: &[DecisionItem]) -> Result<Table, AllocError>
    requires few { length decisions.now ≤ 2 ^ 32 }
    ensures numbers { IfOk result (λ table. (table_known table).constants ≡ numbered_from 0 (map decided_label decisions.now)) }
{
    let Some(first) = decisions.first() else {
        return Ok(Table::new(alloc));
    };
    let mut numbering = Numbering::new(alloc, &first.name);
    'decisions: for number in 0..decisions.len() {
        let decision = &decisions[number];
        numbering.add(&decision.name, decision.index.as_slice(), number as u32)?;
    }
    numbering.finish()
}
