//! Arrays are added.

ghost use Rattle.std.specs.Prelude.{◌≡◌, map, IfOk};
ghost use Rattle.term_language.specs.Laws.{IsTable};
ghost use Rattle.term_math.specs.Kept as kept;
ghost use Rattle.term_nodes.specs.Things.{thing_at};
ghost use Rattle.sopl_term.specs.Built.{HasAddedTable, IsBuilding, built, item_of, table_of};

use crate::builder::Builder;
use crate::indices::Indices;
use std::alloc::{AllocError, Global};
use term_math::{Element, Table};
use term_nodes::{Node, item_at};
use term_store::{TableId, TermId};

/// The numbers of index sets.
fn copied(alloc: Global, sets: &[Indices]) -> Result<Vec<Vec<i64>>, AllocError>
    ensures { IfOk result (λ list. kept.sets_of list.items ≡ sets.now) }
{
    let mut list = Vec::new(alloc);
    for set in sets {
        let numbers = Vec::from_slice(alloc, set.as_slice())?;
        list.push(numbers)?;
    }
    Ok(list)
}

impl Builder {
    /// The number or the cell that a term is.
    fn element_of(&self, id: TermId) -> Element
        requires building { IsBuilding self.now }
        ensures { kept.item_of result ≡ item_of (thing_at (built self.now) id.0) }
    {
        let root = self.draft.store.root();
        let here = self.draft.store.here(&root);
        let Some(item) = item_at(here.items, id.0) else {
            return Element::Fixed(0);
        };
        match &item.node {
            Node::Constant(number) => Element::Fixed(*number),
            Node::Cell(cell) => Element::Free(*cell),
            _ => Element::Fixed(0),
        }
    }

    /// The numbers and cells that terms are.
    fn elements_of(&self, items: &[TermId]) -> Result<Vec<Element>, AllocError>
        requires building { IsBuilding self.now }
        ensures { IfOk result (λ list. kept.items_of list.items ≡ map (λ (id : TermId). item_of (thing_at (built self.now) id.0)) items.now) }
    {
        let mut list = Vec::new(self.draft.alloc);
        for id in items {
            list.push(self.element_of(*id))?;
        }
        Ok(list)
    }

    /// An array: the sets of its dimensions, and for each index, in lexicographic order, a term that `constant` or `cell` gave.
    pub fn table(&mut self, sets: &[Indices], items: &[TermId]) -> Result<TableId, AllocError>
        requires building { IsBuilding self.old }
        requires table { IsTable (table_of (built self.old) sets.now items.now) }
        ensures added { HasAddedTable self.old self.new (table_of (built self.old) sets.now items.now) result }
    {
        let elements = self.elements_of(items)?;
        let sets = copied(self.draft.alloc, sets)?;
        self.array(Table::of(sets, elements))
    }

    /// An array by its sets and its elements, which are numbers and cells as they are: no term is added, so no size is measured.
    pub fn array(&mut self, table: Table) -> Result<TableId, AllocError>
        requires building { IsBuilding self.old }
        requires table { IsTable (kept.table_of table) }
        ensures added { HasAddedTable self.old self.new (kept.table_of table) result }
    {
        self.draft.store.add_table(table)
    }
}
