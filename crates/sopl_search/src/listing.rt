//! The nodes that a search leaves open, by their parents.

ghost use Rattle.std.specs.Prelude.{◌≡◌, ◌∷◌, ◌+◌, ◌<◌, ◌^◌, ◌++◌, [], length, map, IfOk, OnOk, OnErr, IsPermutation};
ghost use Rattle.std.specs.List.Sorted.{IsNonDecreasingBy};
ghost use Rattle.sopl_io.specs.Gathered.{GathersAll};
ghost use Rattle.sopl_io.specs.Calls.{StopsAtFailure};
ghost use Rattle.sopl_io.specs.Causes.{HasCause};
ghost use Rattle.sopl_io.specs.Transfer.{AppendsPrefix};
ghost use Rattle.log_rows.specs.Lines.{rows_lines, text_of};
ghost use Rattle.open_nodes.specs.Takes.{all_nodes, lists_of};
ghost use Rattle.open_nodes.specs.declared.seats.OpenNode.{OpenNode};
ghost use Rattle.sopl_search.specs.Lines.{open_line, order_key, parent_above};

use crate::nodes::{key_of, parent_of};
use log_rows::{EndLine, Row, put_row};
use open_nodes::{OpenNode, Seats, release};
use sopl_base::Steps;
use sopl_io::{Failed, Gather, Sink};
use std::alloc::{AllocError, Global};

/// Takes all nodes out of seats.
#[tactic(auto, using(crate::proofs::AllTaken::one_taken, crate::proofs::AllTaken::one_fewer, crate::proofs::AllTaken::takes_long, crate::proofs::AllTaken::none_left))]
fn all_taken(alloc: Global, seats: &mut Seats) -> Result<Vec<OpenNode>, AllocError>
    requires some_seat { 0 < length seats.old.seats.items }
    ensures nodes { IfOk result (λ nodes. IsPermutation (all_nodes (lists_of seats.old)) nodes.items) }
{
    let mut nodes = Vec::new(alloc);
    'nodes: while let Some(node) = seats.take(0) {
        nodes.push(node)?;
    }
    Ok(nodes)
}

/// Takes all nodes out of seats, and sorts them by the number of the parent, and of one parent the low side first.
pub(crate) fn taken_in_order(alloc: Global, seats: &mut Seats) -> Result<Vec<OpenNode>, AllocError>
    requires some_seat { 0 < length seats.old.seats.items }
    ensures nodes { IfOk result (λ nodes. IsPermutation (all_nodes (lists_of seats.old)) nodes.items) }
    ensures in_order { IfOk result (λ nodes. IsNonDecreasingBy order_key nodes.items) }
{
    let mut nodes = all_taken(alloc, seats)?;
    nodes.sort_by_key(|node| key_of(node))?;
    Ok(nodes)
}

/// Writes the lines of an open node.
fn put_open<K: Sink>(
    alloc: Global,
    gather: &mut Gather,
    sink: &mut K,
    number: u64,
    node: &OpenNode,
) -> Result<(), Failed>
    ensures all { OnOk result (GathersAll (K.taken sink.old) gather.old.kept (K.taken sink.new) gather.new.kept
        (text_of (rows_lines number (open_line (parent_above node.now) ∷ [])))) }
    ensures prefix { OnErr result (AppendsPrefix (K.taken sink.old) (K.taken sink.new)
        (gather.old.kept ++ text_of (rows_lines number (open_line (parent_above node.now) ∷ [])))) }
    ensures size { gather.new.size ≡ gather.old.size }
    ensures names { K.names sink.new ≡ K.names sink.old }
    ensures outcomes { StopsAtFailure (K.outcomes sink.old) (K.outcomes sink.new) result }
    ensures cause { HasCause (K.faults sink.old) (K.faults sink.new) result }
{
    let row = Row {
        parent: parent_of(node),
        steps: Steps::new(alloc),
        end: EndLine::Unfinished,
    };
    put_row(gather, sink, number, &row)
}

/// Writes the lines of open nodes, which are numbered from this number on.
#[tactic(auto, using(crate::proofs::OpenTexts::opens_all, log_rows::proofs::Written::cause_later))]
pub(crate) fn put_opens<K: Sink>(
    alloc: Global,
    gather: &mut Gather,
    sink: &mut K,
    first: u64,
    nodes: &[OpenNode],
) -> Result<(), Failed>
    requires room { first + length nodes.now < 2 ^ 64 }
    ensures all { OnOk result (GathersAll (K.taken sink.old) gather.old.kept (K.taken sink.new) gather.new.kept
        (text_of (rows_lines first (map (λ (x : OpenNode). open_line (parent_above x)) nodes.now)))) }
    ensures prefix { OnErr result (AppendsPrefix (K.taken sink.old) (K.taken sink.new)
        (gather.old.kept ++ text_of (rows_lines first (map (λ (x : OpenNode). open_line (parent_above x)) nodes.now)))) }
    ensures size { gather.new.size ≡ gather.old.size }
    ensures names { K.names sink.new ≡ K.names sink.old }
    ensures outcomes { StopsAtFailure (K.outcomes sink.old) (K.outcomes sink.new) result }
    ensures cause { HasCause (K.faults sink.old) (K.faults sink.new) result }
{
    'nodes: for at in 0..nodes.len() {
        put_open(alloc, gather, sink, first + at as u64, &nodes[at])?;
    }
    Ok(())
}

/// Lets go of nodes that are done with.
pub(crate) fn release_all(nodes: Vec<OpenNode>) {
    let mut nodes = nodes;
    'nodes: while let Some(node) = nodes.pop() {
        release(node.below);
    }
}
