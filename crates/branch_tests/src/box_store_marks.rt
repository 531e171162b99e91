//! The store of a box: ends that move and come back, and which cells were changed since a mark.

ghost use Rattle.std.specs.Prelude.{◌≡◌, ◌+◌, ◌<◌, ◌≤◌, length, IfOk};

use box_store::BoxStore;
use sopl_base::{Interval, Side};
use std::alloc::{AllocError, Global};

/// A store of cells from 0 to 9 and from -4 to 4, with room for six changes or marks.
fn small(alloc: Global) -> Result<BoxStore, AllocError>
    ensures room { IfOk result (λ store. 6 ≤ store.spare) }
{
    let mut roots = Vec::new(alloc);
    for (lo, hi) in [(0, 9), (-4, 4)] {
        if let Some(interval) = Interval::new(lo, hi) {
            roots.push(interval)?;
        }
    }
    let mut store = BoxStore::new(alloc, prefix(roots.as_slice()))?;
    store.reserve(6)?;
    Ok(store)
}

/// The first two intervals.
fn prefix(roots: &[Interval]) -> &[Interval]
    ensures { length result.now ≤ 2 }
{
    if roots.len() > 2 { &roots[..2] } else { roots }
}

/// Moves an end where that is allowed.
fn moved(store: &mut BoxStore, cell: u32, side: Side, k: i64)
    requires { 1 ≤ store.old.spare }
    ensures spare { store.old.spare ≤ store.new.spare + 1 }
    ensures marks { store.new.marks ≡ store.old.marks }
{
    if cell >= store.cells() {
        return;
    }
    let lo = store.lo(cell);
    let hi = store.hi(cell);
    match side {
        Side::Le => {
            if lo <= k && k < hi {
                store.tighten(cell, side, k);
            }
        }
        Side::Ge => {
            if lo < k && k <= hi {
                store.tighten(cell, side, k);
            }
        }
    }
}

fn shows(store: &BoxStore, lows: &[i64], highs: &[i64]) -> bool {
    store.lows() == lows && store.highs() == highs
}

#[test]
fn ends_move_and_come_back(rt: HostRuntime) {
    let mut store = small(rt.alloc()).expect(&rt, "memory");
    assert_eq!(rt; store.cells(), 2);
    store.mark();
    moved(&mut store, 0, Side::Le, 7);
    store.mark();
    moved(&mut store, 1, Side::Ge, 2);
    assert!(rt; shows(&store, &[0, 2], &[7, 4]), "both moved");
    store.undo();
    assert!(rt; shows(&store, &[0, -4], &[7, 4]), "one moved");
    store.undo();
    assert!(rt; shows(&store, &[0, -4], &[9, 4]), "none moved");
}

fn tells(store: &BoxStore, cells: &[u32]) -> bool
    requires { 0 < length store.now.marks }
{
    store.changed() == cells
}

#[test]
fn changed_cells_are_those_since_the_newest_mark(rt: HostRuntime) {
    let mut store = small(rt.alloc()).expect(&rt, "memory");
    moved(&mut store, 1, Side::Le, 3);
    store.mark();
    assert!(rt; tells(&store, &[]), "none since the first mark");
    moved(&mut store, 0, Side::Le, 7);
    store.mark();
    moved(&mut store, 1, Side::Ge, 2);
    moved(&mut store, 1, Side::Le, 2);
    assert!(rt; tells(&store, &[1, 1]), "one cell twice");
    store.undo();
    assert!(rt; tells(&store, &[0]), "the one before the second mark");
}
