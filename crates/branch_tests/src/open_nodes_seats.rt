//! Which nodes seats take, one after another.

use open_nodes::{Halving, OpenNode, Seats, SplitNode, made};
use sopl_base::{Side, Steps};
use std::alloc::{AllocError, Global};
use std::rc::Rc;
use std::test::Fail;

// A side of the split with this number.
fn side_of(alloc: Global, node: u64, side: Side) -> Result<OpenNode, AllocError> {
    let cut = Halving { cell: 0, k: 0 };
    let split = made(alloc, None, Side::Le, node, 0, Steps::new(alloc), cut)?;
    Ok(OpenNode {
        below: Some(split),
        side,
    })
}

// The node of which an open node is a side, with that side.
fn shown(node: &OpenNode) -> Option<(u64, Side)> {
    match &node.below {
        Some(split) => Some((split.node, node.side)),
        None => None,
    }
}

// Gives a seat the sides of a split, the high one first.
fn split(alloc: Global, seats: &mut Seats, seat: usize, node: u64) -> Result<(), AllocError> {
    let high = side_of(alloc, node, Side::Ge)?;
    let low = side_of(alloc, node, Side::Le)?;
    if seat < seats.seats.len() {
        seats.give(seat, high, low)?;
    }
    Ok(())
}

// The nodes that seats take in this order, where the first ones, so many, are split.
fn taken(
    alloc: Global,
    many: usize,
    order: &[usize],
    splits: u64,
) -> Result<Vec<Option<(u64, Side)>>, AllocError> {
    let mut seats = Seats::new(alloc, many)?;
    let root = OpenNode {
        below: None,
        side: Side::Le,
    };
    if many > 0 && seats.seats.len() == many {
        seats.put(0, root)?;
    }
    let mut told = Vec::new(alloc);
    let mut number = 0;
    for seat in order {
        if *seat < seats.seats.len() {
            if let Some(node) = seats.take(*seat) {
                told.push(shown(&node))?;
                if number < splits {
                    split(alloc, &mut seats, *seat, number)?;
                }
                number = number.wrapping_add(1);
            }
        }
    }
    Ok(told)
}

const LOW_OF_0: Option<(u64, Side)> = Some((0, Side::Le));

const LOW_OF_1: Option<(u64, Side)> = Some((1, Side::Le));

const LOW_OF_2: Option<(u64, Side)> = Some((2, Side::Le));

const HIGH_OF_0: Option<(u64, Side)> = Some((0, Side::Ge));

const HIGH_OF_1: Option<(u64, Side)> = Some((1, Side::Ge));

const HIGH_OF_2: Option<(u64, Side)> = Some((2, Side::Ge));

// How many seats there are, which of them takes, one after another, how many nodes are split, and which ones are taken. A seat takes its newest
// node, and where it has none the oldest of another.
const ROWS: [(&str, usize, &[usize], u64, &[Option<(u64, Side)>]); 4] = [
    (
        "one seat",
        1,
        &[0, 0, 0, 0, 0],
        2,
        &[None, LOW_OF_0, LOW_OF_1, HIGH_OF_1, HIGH_OF_0],
    ),
    (
        "two seats in turn",
        2,
        &[0, 1, 0, 1, 0, 1, 0],
        3,
        &[
            None, HIGH_OF_0, LOW_OF_0, LOW_OF_1, LOW_OF_2, HIGH_OF_1, HIGH_OF_2,
        ],
    ),
    (
        "the last of three seats alone at work",
        3,
        &[0, 2, 2, 2, 1],
        2,
        &[None, HIGH_OF_0, LOW_OF_1, HIGH_OF_1, LOW_OF_0],
    ),
    ("no node is left", 2, &[1, 1, 0], 0, &[None]),
];

#[test]
fn seats_take(rt: HostRuntime) -> Result<(), Fail> {
    for (word, many, order, splits, wanted) in ROWS {
        let told = taken(rt.alloc(), many, order, splits)?;
        assert_eq!(rt; told.as_slice(), wanted, "{word}");
    }
    Ok(())
}

// The last of a chain of splits, each the low side of the one before.
fn chain(alloc: Global, splits: u64) -> Result<Option<Rc<SplitNode>>, AllocError> {
    let mut way = None;
    'splits: for node in 0..splits {
        let cut = Halving { cell: 0, k: 0 };
        let split = made(alloc, way, Side::Le, node, node, Steps::new(alloc), cut)?;
        way = Some(split);
    }
    Ok(way)
}

// A drop that called itself for each split above would need more stack than a process has.
#[test]
fn long_chains_are_dropped(rt: HostRuntime) -> Result<(), Fail> {
    let depth = match chain(rt.alloc(), 400_000)? {
        Some(last) => last.depth,
        None => 0,
    };
    assert_eq!(rt; depth, 399_999);
    Ok(())
}
