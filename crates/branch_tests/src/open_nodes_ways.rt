//! How many ends a walk makes again.

ghost use Rattle.std.specs.Prelude.{ℕ, IfOk, OnOk};
ghost use Rattle.branch_tests.specs.WorkedWays.{IsWorked, StandsWorked};

use box_store::BoxStore;
use open_nodes::{BoxWalk, Halving, SplitNode, made};
use sopl_base::{Interval, Side, Steps};
use std::alloc::{AllocError, Global};
use std::rc::Rc;
use std::test::Fail;

/// The root, split at 3.
fn first_split(alloc: Global) -> Result<Rc<SplitNode>, AllocError>
    ensures worked { IfOk result (λ split. IsWorked 0 split.value) }
{
    made(
        alloc,
        None,
        Side::Le,
        0,
        0,
        Steps::new(alloc),
        Halving { cell: 0, k: 3 },
    )
}

/// Its low side, split at 1.
fn second_split(alloc: Global, above: Rc<SplitNode>) -> Result<Rc<SplitNode>, AllocError>
    requires worked { IsWorked 0 above.value }
    ensures worked { IfOk result (λ split. IsWorked 1 split.value) }
{
    made(
        alloc,
        Some(above),
        Side::Le,
        1,
        1,
        Steps::new(alloc),
        Halving { cell: 0, k: 1 },
    )
}

/// And the low side of that one, split at 0.
fn third_split(alloc: Global, above: Rc<SplitNode>) -> Result<Rc<SplitNode>, AllocError>
    requires worked { IsWorked 1 above.value }
    ensures worked { IfOk result (λ split. IsWorked 2 split.value) }
{
    made(
        alloc,
        Some(above),
        Side::Le,
        2,
        2,
        Steps::new(alloc),
        Halving { cell: 0, k: 0 },
    )
}

/// A box of one cell with the numbers from 0 to 7.
fn walk_at_root(alloc: Global) -> Result<BoxWalk, AllocError>
    ensures stands { IfOk result StandsWorked }
{
    let roots = Vec::from_slice(alloc, &[Interval { lo: 0, hi: 7 }])?;
    let mut store = BoxStore::new(alloc, roots.as_slice())?;
    store.reserve(1)?;
    store.mark();
    Ok(BoxWalk {
        store,
        here: Vec::new(alloc),
    })
}

/// How many ends are made again on the way to a side of a split.
fn counted(
    alloc: Global,
    walk: &mut BoxWalk,
    split: &SplitNode,
    side: Side,
) -> Result<usize, AllocError>
    requires stands { StandsWorked walk.old }
    requires worked { (n : ℕ) × IsWorked n split.now }
    ensures stands { OnOk result (StandsWorked walk.new) }
{
    let mut remade = Vec::new(alloc);
    walk.enter(alloc, split, side, &mut remade)?;
    Ok(remade.len())
}

/// Adds how many ends are made again on the way to a side of a split.
fn add_count(
    alloc: Global,
    told: &mut Vec<usize>,
    walk: &mut BoxWalk,
    split: &SplitNode,
    side: Side,
) -> Result<(), AllocError>
    requires stands { StandsWorked walk.old }
    requires worked { (n : ℕ) × IsWorked n split.now }
    ensures stands { OnOk result (StandsWorked walk.new) }
{
    let count = counted(alloc, walk, split, side)?;
    told.push(count)?;
    Ok(())
}

/// With one seat: down the low sides of three splits, and back along the high ones.
fn add_counts(
    alloc: Global,
    told: &mut Vec<usize>,
    first: &SplitNode,
    second: &SplitNode,
    third: &SplitNode,
) -> Result<(), AllocError>
    requires first { IsWorked 0 first.now }
    requires second { IsWorked 1 second.now }
    requires third { IsWorked 2 third.now }
{
    let mut walk = walk_at_root(alloc)?;
    add_count(alloc, told, &mut walk, first, Side::Le)?;
    add_count(alloc, told, &mut walk, second, Side::Le)?;
    add_count(alloc, told, &mut walk, third, Side::Le)?;
    add_count(alloc, told, &mut walk, third, Side::Ge)?;
    add_count(alloc, told, &mut walk, second, Side::Ge)?;
    add_count(alloc, told, &mut walk, first, Side::Ge)
}

/// What is made again on the worked ways.
fn add_worked(alloc: Global, told: &mut Vec<usize>) -> Result<(), AllocError> {
    let first = first_split(alloc)?;
    let second = second_split(alloc, first.clone()?)?;
    let third = third_split(alloc, second.clone()?)?;
    add_counts(alloc, told, &first, &second, &third)
}

#[test]
fn shared_ends_stay(rt: HostRuntime) -> Result<(), Fail> {
    let mut told = Vec::new(rt.alloc());
    add_worked(rt.alloc(), &mut told)?;
    assert_eq!(rt; told.as_slice(), [1, 2, 2, 1, 1, 1].as_slice());
    Ok(())
}
