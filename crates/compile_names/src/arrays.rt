//! The array of a name, once for all scenarios.

ghost use Rattle.std.specs.Prelude.{◌≡◌, ℕ, length, map, IfOk};
ghost use Rattle.std.specs.List.{AllByRecursion};
ghost use Rattle.sopl_scen.specs.Layout.{Layout};
ghost use Rattle.sopl_ast.specs.Known.{Known};
ghost use Rattle.sopl_ast.specs.References.{now_of};
ghost use Rattle.compile_laws.specs.Instances.{elements, table_of};
ghost use Rattle.compile_names.specs.Plans.{picked};
ghost use Rattle.unfold_tables.specs.Tables.{table_known};
ghost use Rattle.compile_names.specs.Places.{place_in};
ghost use Rattle.compile_names.specs.Tables.{index_shown, items_in, table_in};
ghost use Rattle.compile_names.specs.Variables.{AreThere, OriginExists, entry_from, item_from};

use crate::origins::{Origin, Source};
use crate::plan::Plan;
use crate::setting::Scenarios;
use sopl_ast::Name;
use std::alloc::{AllocError, Global};

/// The array of a name: its index sets, and where each item comes from, in lexicographic order of the indices.
#[derive(Debug, Drop)]
pub struct Array {
    pub sets: Vec<Vec<i64>>,
    pub origins: Vec<Origin>,
}

impl Scenarios<'_> {
    /// The array of a name. At an index that no element has, as there is none where the elements have all indices of some sets, stands 0.
    pub fn array(&self, alloc: Global, name: &Name) -> Result<Array, AllocError>
        ensures table { IfOk result (λ array. (known : Known) (tree : Layout) (i : ℕ) → known.constants ≡ (table_known self.now.table.now).constants
            → table_in tree i array ≡ table_of (elements (place_in self.now.decisions.now self.now.stochs.now tree i known) name.now)) }
        ensures origins_exist { IfOk result (λ array. AllByRecursion (OriginExists (length self.now.stochs.now) (length self.now.decisions.now)) array.origins.items) }
    {
        let sources = self.sources(alloc, name)?;
        array_of(alloc, sources.as_slice())
    }
}

/// The array of elements.
fn array_of(alloc: Global, sources: &[Source<'_>]) -> Result<Array, AllocError>
    ensures table { IfOk result (λ array. (tree : Layout) (i : ℕ) → table_in tree i array ≡ table_of (map (entry_from tree i) sources.now)) }
    ensures origins_exist { IfOk result (λ array. (drawn decided : ℕ) → AreThere drawn decided sources.now → AllByRecursion (OriginExists drawn decided) array.origins.items) }
{
    let indices = indices_of(alloc, sources)?;
    let plan = Plan::of(alloc, indices.as_slice())?;
    let origins = origins_at(alloc, sources, plan.order.as_slice())?;
    Ok(Array {
        sets: plan.sets,
        origins,
    })
}

/// The indices of elements.
#[tactic(auto, using(crate::proofs::Planning::index_more, crate::proofs::Planning::indices_end))]
fn indices_of<'a>(alloc: Global, sources: &[Source<'a>]) -> Result<Vec<&'a [i64]>, AllocError>
    ensures { IfOk result (λ indices. map now_of indices.items ≡ map index_shown sources.now) }
{
    let mut indices = Vec::new(alloc);
    'sources: for source in sources {
        indices.push(source.index)?;
    }
    Ok(indices)
}

/// Where the items of these numbers come from; where there is none, from the constant 0.
fn origins_at(
    alloc: Global,
    sources: &[Source<'_>],
    order: &[Option<usize>],
) -> Result<Vec<Origin>, AllocError>
    ensures items { IfOk result (λ origins. (tree : Layout) (i : ℕ) → map (item_from tree i) origins.items ≡ map (picked (items_in tree i sources.now)) order.now) }
    ensures origins_exist { IfOk result (λ origins. (drawn decided : ℕ) → AreThere drawn decided sources.now → AllByRecursion (OriginExists drawn decided) origins.items) }
{
    let mut origins = Vec::new(alloc);
    'order: for place in order {
        origins.push(origin_at(sources, *place))?;
    }
    Ok(origins)
}

/// Where the item of this number comes from; where there is none, from the constant 0.
#[tactic(auto, using(crate::proofs::Planning::picked_some, crate::proofs::Planning::picked_none, crate::proofs::There::there_at))]
fn origin_at(sources: &[Source<'_>], place: Option<usize>) -> Origin
    ensures item { (tree : Layout) (i : ℕ) → item_from tree i result ≡ picked (items_in tree i sources.now) place }
    ensures origins_exist { (drawn decided : ℕ) → AreThere drawn decided sources.now → OriginExists drawn decided result }
{
    let Some(place) = place else {
        return Origin::Fixed(0);
    };
    match sources.get(place) {
        Some(source) => source.origin,
        None => Origin::Fixed(0),
    }
}
