//! What a search has found, and what it has left to do.

ghost use Rattle.std.specs.Prelude.{◌≡◌, ◌+◌, ◌<◌, ◌≤◌, ◌^◌, ◌++◌, [], List, length, map, option_map, Some, Err, IfOk, OnOk, OnErr};
ghost use Rattle.sopl_io.specs.Calls.{StopsAtFailure, StopsWhere};
ghost use Rattle.sopl_io.specs.Causes.{HasCause, Rose};
ghost use Rattle.sopl_io.specs.Transfer.{AppendsPrefix};
ghost use Rattle.sopl_base.specs.declared.stop.SearchStop.TheVariants.{Write};
ghost use Rattle.box_problem.specs.Box.{Inside};
ghost use Rattle.prop_core.specs.Members.{AllFit, StillFit, together};
ghost use Rattle.log_rows.specs.Lines.{row_lines, text_of};
ghost use Rattle.log_rows.specs.Ranges.{RowFits};
ghost use Rattle.log_rows.specs.declared.rows.Row.{Row};
ghost use Rattle.open_nodes.specs.Takes.{Takes, lists_of};
ghost use Rattle.sopl_search.specs.Ends.{AreAll, IsPosed};
ghost use Rattle.sopl_search.specs.Following.{AreFollowing};
ghost use Rattle.sopl_search.specs.Frontiers.{IsBegun, Keeps, Stands, StandsAtRoot, first_lists, nodes_of};
ghost use Rattle.sopl_search.specs.Moves.{GivesSplit, HasTaken, IsBrokenStep, IsEnded, IsPut, IsStepped, IsWorked, event_told, worked_row};
ghost use Rattle.sopl_search.specs.Outcomes.{found_at, value_of};
ghost use Rattle.sopl_search.specs.Schedules.{AreSeats};

use crate::bounding::enter;
use crate::ending::{NodeEnd, finish};
use crate::fitting::steps_fit;
use crate::nodes::{cell_of, depth_of, parent_of};
use crate::outcome::{Found, value_in};
use crate::posed::SearchProblem;
use crate::values::Values;
use crate::watchers::Watchers;
use box_store::BoxStore;
use brancher::{Brancher, Event, tell};
use log_rows::{Row, put_row};
use open_nodes::{BoxWalk, Halving, OpenNode, Seats, made, release};
use sopl_base::{SearchStop, Side, Steps};
use sopl_io::{Gather, Sink};
use std::alloc::{AllocError, Global};

/// How many bytes of a log are kept before they are written.
const GATHERED: usize = 65_536;

/// The open nodes of all seats, and how many there are; the box that goes from one to another, and the cells of the ends that it made again;
/// how many nodes are finished; the best point that was found; and the bytes of the log that no sink took yet.
#[derive(Drop)]
pub struct Frontier {
    pub walk: BoxWalk,
    pub remade: Vec<u32>,
    pub seats: Seats,
    pub open_count: u64,
    pub finished: u64,
    pub best: Option<Found>,
    pub gather: Gather,
}

/// A node that a seat took, how deep it lies, the steps that narrowed its box, and how it ends.
#[derive(Drop)]
pub(crate) struct WorkedNode {
    pub(crate) node: OpenNode,
    pub(crate) depth: u64,
    pub(crate) steps: Steps,
    pub(crate) end: NodeEnd,
}

/// A box that stands at the root, which is the box of this store.
fn rooted(alloc: Global, mut store: BoxStore) -> Result<BoxWalk, AllocError>
    requires unmarked { store.marks ≡ [] }
    ensures stands { IfOk result (λ walk. StandsAtRoot store.box walk) }
{
    store.reserve(1)?;
    store.mark();
    Ok(BoxWalk {
        store,
        here: Vec::new(alloc),
    })
}

/// So many seats, of which the first one has the root.
fn seated(alloc: Global, seats: u32) -> Result<Seats, AllocError>
    requires seats { AreSeats seats }
    ensures seats { IfOk result (λ made. lists_of made ≡ first_lists seats) }
{
    let mut made = Seats::new(alloc, seats as usize)?;
    let root = OpenNode {
        below: None,
        side: Side::Le,
    };
    made.put(0, root)?;
    Ok(made)
}

impl Frontier {
    /// One open node, whose box is that of this store; the first of so many seats has it.
    pub(crate) fn new(alloc: Global, store: BoxStore, seats: u32) -> Result<Frontier, AllocError>
        requires unmarked { store.marks ≡ [] }
        requires seats { AreSeats seats }
        ensures begun { IfOk result (IsBegun store.box seats) }
    {
        Ok(Frontier {
            walk: rooted(alloc, store)?,
            remade: Vec::new(alloc),
            seats: seated(alloc, seats)?,
            open_count: 1,
            finished: 0,
            best: None,
            gather: Gather::new(alloc, GATHERED)?,
        })
    }

    /// The value of the best point that was found.
    pub(crate) fn value(&self) -> Option<i128>
        ensures { result ≡ value_of self.now.best }
    {
        value_in(&self.best)
    }

    /// Takes the node that a step of this seat finishes.
    fn take(&mut self, seat: u32) -> OpenNode
        requires exists { seat < length self.old.seats.seats.items }
        requires counted { length (nodes_of self.old) ≡ self.old.open_count }
        requires some { 0 < self.old.open_count }
        ensures taken { HasTaken self.old self.new seat result }
    {
        let Some(node) = self.seats.take(seat as usize) else {
            unreachable!()
        };
        self.open_count -= 1;
        node
    }

    /// Takes the node that a step of this seat finishes, and narrows its box.
    fn work<P: SearchProblem + Drop>(
        &mut self,
        alloc: Global,
        program: &P::Program,
        watchers: &mut Watchers<P>,
        brancher: &mut Option<Box<dyn Brancher>>,
        seat: u32,
    ) -> Result<WorkedNode, AllocError>
        requires posed { IsPosed (P.problem program.now) }
        requires fits { AllFit P.fits program.now watchers.old.list.items }
        requires all { AreAll (P.problem program.now) (together (map P.reasons watchers.old.list.items)) }
        requires following { AreFollowing P.in_step P.watches program.now (P.problem program.now).root watchers.old }
        requires exists { seat < length self.old.seats.seats.items }
        requires some { 0 < self.old.open_count }
        requires stands { Stands (P.problem program.now) self.old }
        requires keeps { (rows : List Row) × Keeps (P.problem program.now) (option_map rule brancher.old) rows self.old }
        ensures worked { (rows : List Row) → Keeps (P.problem program.now) (option_map rule brancher.old) rows self.old
            → IfOk result (IsWorked (P.problem program.now) (option_map rule brancher.old) rows seat self.old self.new) }
        ensures taken { (node : OpenNode) × (others : List (List OpenNode)) × Takes (lists_of self.old.seats) others seat node }
        ensures following { AreFollowing P.in_step P.watches program.now (P.problem program.now).root watchers.new }
        ensures same_reasons { map P.reasons watchers.new.list.items ≡ map P.reasons watchers.old.list.items }
        ensures still_fit { StillFit P.fits watchers.old.list.items watchers.new.list.items }
        ensures same_rule { option_map rule brancher.new ≡ option_map rule brancher.old }
        ensures same_heard { option_map heard brancher.new ≡ option_map heard brancher.old }
    {
        let node = self.take(seat);
        let depth = depth_of(&node);
        enter(alloc, &mut self.walk, &node, &mut self.remade)?;
        let best = self.value();
        let mut steps = Steps::new(alloc);
        let end = finish(
            alloc,
            watchers,
            program,
            &mut self.walk.store,
            best,
            &mut steps,
            brancher,
            depth as u32,
        )?;
        Ok(WorkedNode {
            node,
            depth,
            steps,
            end,
        })
    }

    /// Keeps the one point of the box in the store as the best one.
    fn keep<P: SearchProblem>(
        &mut self,
        alloc: Global,
        program: &P::Program,
    ) -> Result<(), AllocError>
        requires valid { P.valid program.now }
        requires inside { Inside self.old.walk.store.box (P.problem program.now).root }
        ensures best { OnOk result (self.new.best ≡ Some (found_at (P.problem program.now) self.old.walk.store.box)) }
        ensures walk { self.new.walk ≡ self.old.walk }
        ensures seats { self.new.seats ≡ self.old.seats }
        ensures open_count { self.new.open_count ≡ self.old.open_count }
        ensures finished { self.new.finished ≡ self.old.finished }
        ensures gather { self.new.gather ≡ self.old.gather }
    {
        let value = P::end(program, &self.walk.store);
        let cells = Values::copy_of(alloc, self.walk.store.lows())?;
        self.best = Some(Found { value, cells });
        Ok(())
    }

    /// Gives a seat the two sides of a node that is split; the one that is searched first becomes its newest.
    fn give(
        &mut self,
        alloc: Global,
        seat: u32,
        worked: WorkedNode,
        cut: Halving,
        low_first: bool,
    ) -> Result<(), AllocError>
        requires exists { seat < length self.old.seats.seats.items }
        requires room { self.old.open_count + 2 < 2 ^ 64 }
        ensures given { OnOk result (GivesSplit self.old self.new seat worked cut low_first) }
        ensures walk { self.new.walk ≡ self.old.walk }
        ensures finished { self.new.finished ≡ self.old.finished }
        ensures best { self.new.best ≡ self.old.best }
        ensures gather { self.new.gather ≡ self.old.gather }
    {
        let split = made(
            alloc,
            worked.node.below,
            worked.node.side,
            self.finished,
            worked.depth,
            worked.steps,
            cut,
        )?;
        let low = OpenNode {
            below: Some(split.clone()?),
            side: Side::Le,
        };
        let high = OpenNode {
            below: Some(split),
            side: Side::Ge,
        };
        self.open_count += 2;
        if low_first {
            self.seats.give(seat as usize, high, low)
        } else {
            self.seats.give(seat as usize, low, high)
        }
    }

    /// Writes the lines of a node.
    fn put<K: Sink>(&mut self, sink: &mut K, worked: WorkedNode) -> Result<WorkedNode, SearchStop>
        ensures same { IfOk result (λ put. put ≡ worked) }
        ensures put { OnOk result (IsPut self.old self.new (worked_row worked) (K.taken sink.old) (K.taken sink.new)) }
        ensures fits { RowFits (worked_row worked) }
        ensures prefix { OnErr result (AppendsPrefix (K.taken sink.old) (K.taken sink.new)
            (self.old.gather.kept ++ text_of (row_lines self.old.finished (worked_row worked)))) }
        ensures stop { OnErr result (result ≡ Err Write) }
        ensures names { K.names sink.new ≡ K.names sink.old }
        ensures outcomes { StopsAtFailure (K.outcomes sink.old) (K.outcomes sink.new) result }
        ensures cause { HasCause (K.faults sink.old) (K.faults sink.new) result }
    {
        steps_fit(worked.steps.as_slice());
        let row = Row {
            parent: parent_of(&worked.node),
            steps: worked.steps,
            end: worked.end.line(),
        };
        if put_row(&mut self.gather, sink, self.finished, &row).is_err() {
            return Err(SearchStop::Write);
        }
        Ok(WorkedNode {
            node: worked.node,
            depth: worked.depth,
            steps: row.steps,
            end: worked.end,
        })
    }

    /// Ends a node whose lines are written.
    fn end<P: SearchProblem>(
        &mut self,
        alloc: Global,
        program: &P::Program,
        seat: u32,
        worked: WorkedNode,
    ) -> Result<(), AllocError>
        requires valid { P.valid program.now }
        requires inside { Inside self.old.walk.store.box (P.problem program.now).root }
        requires exists { seat < length self.old.seats.seats.items }
        requires room { self.old.open_count + 2 < 2 ^ 64 }
        requires few { self.old.finished + 1 < 2 ^ 64 }
        ensures ended { OnOk result (IsEnded (P.problem program.now) self.old self.new seat worked worked.end) }
        ensures gather { self.new.gather ≡ self.old.gather }
        ensures walk { self.new.walk ≡ self.old.walk }
    {
        let end = worked.end;
        match end {
            NodeEnd::Refuted(_) => let_go(worked),
            NodeEnd::Split { cut, low_first } => self.give(alloc, seat, worked, cut, low_first)?,
            NodeEnd::Point => {
                let_go(worked);
                self.keep::<P>(alloc, program)?;
            }
        }
        self.finished += 1;
        Ok(())
    }

    /// Finishes one node: the newest one of this seat, or else the oldest one of the first seat that has one.
    pub(crate) fn step<P: SearchProblem + Drop, K: Sink>(
        &mut self,
        alloc: Global,
        program: &P::Program,
        watchers: &mut Watchers<P>,
        brancher: &mut Option<Box<dyn Brancher>>,
        seat: u32,
        sink: &mut K,
    ) -> Result<(), SearchStop>
        requires posed { IsPosed (P.problem program.now) }
        requires valid { P.valid program.now }
        requires fits { AllFit P.fits program.now watchers.old.list.items }
        requires all { AreAll (P.problem program.now) (together (map P.reasons watchers.old.list.items)) }
        requires following { AreFollowing P.in_step P.watches program.now (P.problem program.now).root watchers.old }
        requires exists { seat < length self.old.seats.seats.items }
        requires some { 0 < self.old.open_count }
        requires room { self.old.finished < 2 ^ 62 }
        requires stands { Stands (P.problem program.now) self.old }
        requires keeps { (rows : List Row) × Keeps (P.problem program.now) (option_map rule brancher.old) rows self.old }
        ensures stands { OnOk result (Stands (P.problem program.now) self.new) }
        ensures stepped { (rows : List Row) → Keeps (P.problem program.now) (option_map rule brancher.old) rows self.old
            → OnOk result (IsStepped (P.problem program.now) (option_map rule brancher.old) rows seat self.old self.new (K.taken sink.old) (K.taken sink.new)
            (option_map heard brancher.old) (option_map heard brancher.new)) }
        ensures broken { (rows : List Row) → Keeps (P.problem program.now) (option_map rule brancher.old) rows self.old
            → OnErr result (IsBrokenStep (P.problem program.now) rows seat self.old (K.taken sink.old) (K.taken sink.new)) }
        ensures finished { OnOk result (self.new.finished ≡ self.old.finished + 1) }
        ensures seats { OnOk result (length self.new.seats.seats.items ≡ length self.old.seats.seats.items) }
        ensures following { AreFollowing P.in_step P.watches program.now (P.problem program.now).root watchers.new }
        ensures same_reasons { map P.reasons watchers.new.list.items ≡ map P.reasons watchers.old.list.items }
        ensures still_fit { StillFit P.fits watchers.old.list.items watchers.new.list.items }
        ensures same_rule { option_map rule brancher.new ≡ option_map rule brancher.old }
        ensures names { K.names sink.new ≡ K.names sink.old }
        ensures faults_grow { K.faults sink.old ≤ K.faults sink.new }
        ensures write { result ≡ Err Write → Rose (K.faults sink.old) (K.faults sink.new) }
        ensures outcomes { StopsWhere (result ≡ Err Write) (K.outcomes sink.old) (K.outcomes sink.new) }
    {
        let worked = self.work(alloc, program, watchers, brancher, seat)?;
        let worked = self.put(sink, worked)?;
        let event = event_of(&worked);
        self.end::<P>(alloc, program, seat, worked)?;
        tell(brancher, event);
        Ok(())
    }
}

/// Lets go of a node that is not split.
fn let_go(worked: WorkedNode) {
    release(worked.node.below);
}

/// What a brancher is told of a node.
fn event_of(worked: &WorkedNode) -> Event
    ensures { result ≡ event_told worked.now.node worked.now.end }
{
    match &worked.end {
        NodeEnd::Refuted(_) => Event::Closed {
            cell: cell_of(&worked.node),
        },
        NodeEnd::Split { cut, .. } => Event::Split {
            cell: cut.cell,
            cut: cut.k,
        },
        NodeEnd::Point => Event::Found,
    }
}
