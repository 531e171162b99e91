//! Which members watch a cell.

ghost use Rattle.std.specs.Prelude.{◌≡◌, ◌<◌, ◌∷◌, [], length, map, IfOk, OnOk};
ghost use Rattle.prop_core.specs.Places.{AddsPlaces, HasEmptyLists};
ghost use Rattle.prop_core.specs.Waking.{IsWatchOf, places_at};

use crate::watching::Watching;
use std::alloc::{AllocError, Global};

/// Places of members.
#[derive(Drop)]
pub struct WatchPlaces {
    pub items: Vec<usize>,
}

/// For each cell one list: the places of the members that watch it.
#[derive(Drop)]
pub struct Watch {
    pub lists: Vec<WatchPlaces>,
}

/// No places.
fn no_places(alloc: Global) -> WatchPlaces
    ensures { result.items.items ≡ [] }
{
    WatchPlaces {
        items: Vec::new(alloc),
    }
}

/// So many cells that no member watches.
fn unwatched(alloc: Global, cells: u32) -> Result<Watch, AllocError>
    ensures { IfOk result (HasEmptyLists cells) }
{
    let mut lists = Vec::new(alloc);
    'cells: for _ in 0..cells {
        lists.push(no_places(alloc))?;
    }
    Ok(Watch { lists })
}

impl Watch {
    /// For each of so many cells one list: the places of just the members that watch it.
    pub fn new<P: Watching>(alloc: Global, list: &[P], cells: u32) -> Result<Watch, AllocError>
        ensures { IfOk result (λ watch. IsWatchOf (map P.watches list.now) watch cells) }
    {
        let mut watch = unwatched(alloc, cells)?;
        'members: for at in 0..list.len() {
            watch.add_cells(list[at].watched_cells(), at)?;
        }
        Ok(watch)
    }

    /// Adds a place to those of each of these cells.
    #[tactic(auto, using(crate::proofs::Listed::none_added))]
    fn add_cells(&mut self, cells: &[u32], at: usize) -> Result<(), AllocError>
        ensures { OnOk result (AddsPlaces self.old self.new cells.now at) }
    {
        'cells: for cell in cells {
            self.add(*cell as usize, at)?;
        }
        Ok(())
    }

    /// Adds a place to those of a cell, if there is such a cell.
    #[tactic(auto, using(crate::proofs::Listed::nothing_added))]
    fn add(&mut self, cell: usize, at: usize) -> Result<(), AllocError>
        ensures { OnOk result (AddsPlaces self.old self.new (cell ∷ []) at) }
    {
        if cell >= self.lists.len() {
            return Ok(());
        }
        self.lists[cell].items.push(at)?;
        Ok(())
    }

    /// The places of the members that watch a cell.
    #[tactic(auto, using(crate::proofs::Told::places_there))]
    pub fn places(&self, cell: u32) -> &[usize]
        requires exists { cell < length self.now.lists.items }
        ensures { result.now ≡ places_at self.now cell }
    {
        self.lists[cell as usize].items.as_slice()
    }
}
