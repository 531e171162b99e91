//! What stands at an index: a decision, or a stochastic variable.

ghost use Rattle.std.specs.Prelude.{◌≡◌, IfOk};
ghost use Rattle.sopl_ast.specs.Instances.{independent};
ghost use Rattle.unfold_variables.specs.Listing as spec;

use crate::arrays::Element;
use crate::distributions::outcomes;
use crate::domains::{domain, stage};
use crate::items::{DecisionItem, Index, StochItem, Weighted};
use sopl_ast::{Expr, Name, RangeText};
use sopl_base::Fault;
use std::alloc::AllocError;
use unfold_declarations::IndexPrefix;
use unfold_tables::{Count, Ends};

/// A decision at each index, with a domain and, if it is written, a stage.
#[derive(Clone, Copy)]
pub struct DecisionArray<'a> {
    pub name: &'a Name,
    pub range: &'a RangeText,
    pub stage: Option<&'a Expr>,
}

impl Element<DecisionItem> for DecisionArray<'_> {
    ghost use Rattle.std.specs.Prelude.{option_map};
    ghost use Rattle.std.specs.Borrow.{Bor};
    ghost use Rattle.sopl_ast.specs.Ranges.{range_of};
    ghost use Rattle.sopl_ast.specs.Tree.{Tree};

    ghost step = { λ array known index.
        spec.decision known array.name.now (range_of array.range.now) (option_map (λ (e : Bor Tree). e.now) array.stage) index };

    fn at(&self, prefix: &IndexPrefix<'_>, count: &mut Count) -> Result<DecisionItem, Fault> {
        let domain = domain(&prefix.known, count, self.range)?;
        let stage = stage(&prefix.known, count, self.stage)?;
        Ok(decision(prefix, self.name, &domain, stage)?)
    }
}

/// The decision at an index.
pub(crate) fn decision(
    prefix: &IndexPrefix<'_>,
    name: &Name,
    domain: &Ends,
    stage: u32,
) -> Result<DecisionItem, AllocError>
    ensures { IfOk result (λ item. item ≡ record {
      name = name.now;
      index = prefix.now.index.items;
      lo = domain.now.lo;
      hi = domain.now.hi;
      stage = stage;
    }) }
{
    let name = name.copy(prefix.alloc)?;
    let index = Index::from_slice(prefix.alloc, prefix.index.as_slice())?;
    Ok(DecisionItem {
        name,
        index,
        lo: domain.lo,
        hi: domain.hi,
        stage,
    })
}

/// A stochastic variable at each index, with a distribution and, if it is written, a stage.
#[derive(Clone, Copy)]
pub struct StochArray<'a> {
    pub name: &'a Name,
    pub dist: &'a [(Expr, Expr)],
    pub stage: Option<&'a Expr>,
}

impl Element<StochItem> for StochArray<'_> {
    ghost use Rattle.std.specs.Prelude.{option_map};
    ghost use Rattle.std.specs.Borrow.{Bor};
    ghost use Rattle.sopl_ast.specs.Tree.{Tree};

    ghost step = { λ array known index.
        spec.stochastic known array.name.now array.dist.now (option_map (λ (e : Bor Tree). e.now) array.stage) index };

    fn at(&self, prefix: &IndexPrefix<'_>, count: &mut Count) -> Result<StochItem, Fault> {
        let values = outcomes(prefix.alloc, &prefix.known, count, self.dist)?;
        let stage = stage(&prefix.known, count, self.stage)?;
        Ok(stochastic(prefix, self.name, values, stage)?)
    }
}

/// The stochastic variable at an index.
fn stochastic(
    prefix: &IndexPrefix<'_>,
    name: &Name,
    values: Weighted,
    stage: u32,
) -> Result<StochItem, AllocError>
    ensures { IfOk result (λ item. item ≡ independent name.now prefix.now.index.items values stage) }
{
    let name = name.copy(prefix.alloc)?;
    let index = Index::from_slice(prefix.alloc, prefix.index.as_slice())?;
    Ok(StochItem {
        name,
        index,
        values,
        stage,
    })
}
