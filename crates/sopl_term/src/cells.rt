//! A term for each cell.

ghost use Rattle.std.specs.Prelude.{◌≡◌, [], length, Ok, IfOk, OnOk};
ghost use Rattle.term_language.specs.Terms as term;
ghost use Rattle.term_goals.specs.Goals.{AreCells};
ghost use Rattle.term_store.specs.Additions.{AddsTerm};
ghost use Rattle.term_store.specs.Stores.{IsSoundStore, all, root_of};
ghost use Rattle.sopl_term.specs.Built.{cell_terms};

use std::alloc::{AllocError, Global};
use term_store::{NewTerm, TermId, TermStore};

/// Adds a cell, whose ends lie within 2^40, so that only out of memory can refuse it.
fn cell_node(store: &mut TermStore, cell: u32) -> Result<TermId, AllocError>
    requires sound { IsSoundStore store.old }
    ensures sound { IsSoundStore store.new }
    ensures root { root_of store.new ≡ root_of store.old }
    ensures adds { IfOk result (λ id. AddsTerm (root_of store.old) (all store.old) (all store.new) (term.Cell cell) (Ok id)) }
{
    match store.add_term(&NewTerm::Cell(cell)) {
        Ok(id) => Ok(id),
        Err(_) => Err(AllocError),
    }
}

/// Adds each cell to a store with nothing in it, and gives the numbers of these terms.
#[tactic(auto, using(crate::proofs::CellTerms::next_cell, crate::proofs::CellTerms::no_cell, crate::proofs::CellTerms::all_cells, crate::proofs::CellTerms::all_terms))]
pub(crate) fn cell_nodes(
    alloc: Global,
    store: &mut TermStore,
    count: u32,
) -> Result<Vec<u32>, AllocError>
    requires sound { IsSoundStore store.old }
    requires count { count ≡ length (root_of store.old).lows }
    requires empty { all store.old ≡ [] }
    ensures sound { OnOk result (IsSoundStore store.new) }
    ensures root { OnOk result (root_of store.new ≡ root_of store.old) }
    ensures cells { IfOk result (λ nodes. AreCells (root_of store.new) (all store.new) nodes.items) }
    ensures things { OnOk result (all store.new ≡ cell_terms count) }
{
    let mut nodes = Vec::new(alloc);
    for cell in 0..count {
        let id = cell_node(store, cell)?;
        nodes.push(id.0)?;
    }
    Ok(nodes)
}
