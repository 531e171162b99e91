//! Seats, each with a list of open nodes.

ghost use Rattle.std.specs.Prelude.{◌≡◌, ◌<◌, ◌++◌, ◌∷◌, [], length, replicate, slice_set, IfNone, IfOk, IfSome, OnOk};
ghost use Rattle.open_nodes.specs.Takes.{Gives, Steals, Takes, all_nodes, lists_of, seat_nodes};

use crate::split::SplitNode;
use sopl_base::Side;
use std::alloc::{AllocError, Global};
use std::collections::VecDeque;
use std::rc::Rc;

/// An open node: the split of which it is a side, and that side; the root stands below none.
#[derive(Drop)]
pub struct OpenNode {
    pub below: Option<Rc<SplitNode>>,
    pub side: Side,
}

/// The open nodes of a seat, from the oldest to the newest.
#[derive(Drop)]
pub struct Seat {
    pub nodes: VecDeque<OpenNode>,
}

/// All seats, by their numbers.
#[derive(Drop)]
pub struct Seats {
    pub seats: Vec<Seat>,
}

impl Seats {
    /// So many seats, none of which has a node.
    pub fn new(alloc: Global, many: usize) -> Result<Seats, AllocError>
        ensures empty { IfOk result (λ seats. lists_of seats ≡ replicate many []) }
    {
        let mut seats = Vec::new(alloc);
        'seats: for _seat in 0..many {
            let nodes = VecDeque::new(alloc);
            seats.push(Seat { nodes })?;
        }
        Ok(Seats { seats })
    }

    /// Gives a seat a node, which becomes its newest one: so the first seat gets the root.
    pub fn put(&mut self, seat: usize, node: OpenNode) -> Result<(), AllocError>
        requires exists { seat < length self.old.seats.items }
        ensures puts { OnOk result (lists_of self.new
            ≡ slice_set (lists_of self.old) seat (seat_nodes (lists_of self.old) seat ++ node ∷ [])) }
    {
        self.seats[seat].nodes.push_back(node)?;
        Ok(())
    }

    /// Takes the oldest node of the first seat that has one.
    fn steal(&mut self) -> Option<OpenNode>
        ensures steals { IfSome result (Steals (lists_of self.old) (lists_of self.new)) }
        ensures none { IfNone result (all_nodes (lists_of self.old) ≡ []) }
        ensures same { IfNone result (lists_of self.new ≡ lists_of self.old) }
    {
        'seats: for at in 0..self.seats.len() {
            if let Some(node) = self.seats[at].nodes.pop_front() {
                return Some(node);
            }
        }
        None
    }

    /// Takes the newest node of a seat, or else the oldest one of the first seat that has one; none where no seat has one.
    pub fn take(&mut self, seat: usize) -> Option<OpenNode>
        requires exists { seat < length self.old.seats.items }
        ensures takes { IfSome result (Takes (lists_of self.old) (lists_of self.new) seat) }
        ensures none { IfNone result (all_nodes (lists_of self.old) ≡ []) }
        ensures same { IfNone result (lists_of self.new ≡ lists_of self.old) }
    {
        match self.seats[seat].nodes.pop_back() {
            Some(node) => Some(node),
            None => self.steal(),
        }
    }

    /// Gives a seat two nodes, the sides of a split, which become its newest ones.
    pub fn give(&mut self, seat: usize, older: OpenNode, newer: OpenNode) -> Result<(), AllocError>
        requires exists { seat < length self.old.seats.items }
        ensures gives { OnOk result (Gives (lists_of self.old) (lists_of self.new) seat older newer) }
    {
        self.seats[seat].nodes.push_back(older)?;
        self.seats[seat].nodes.push_back(newer)?;
        Ok(())
    }
}
