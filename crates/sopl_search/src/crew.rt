//! A search by several seats, step by step.

ghost use Rattle.std.specs.Prelude.{◌≡◌, ◌≤◌, ◌<◌, ◌+◌, ◌++◌, ◌^◌, [], false, true, List, length, map, option_map, Err, IfOk, OnOk, OnErr};
ghost use Rattle.std.specs.Io.KnownBytes.{Keeps as KeepsBytes};
ghost use Rattle.sopl_io.specs.Calls.{StopsAtFailure, StopsWhere};
ghost use Rattle.sopl_io.specs.Causes.{HasCause, Rose};
ghost use Rattle.sopl_io.specs.Gathered.{GathersAll};
ghost use Rattle.sopl_io.specs.Transfer.{AppendsPrefix};
ghost use Rattle.sopl_base.specs.declared.stop.SearchStop.TheVariants.{NoMemory, Write};
ghost use Rattle.log_rows.specs.Lines.{ended, head_line};
ghost use Rattle.log_rows.specs.declared.rows.Row.{Row};
ghost use Rattle.prop_core.specs.Members.{AllFit, together};
ghost use Rattle.prop_core.specs.Watches.{AllInStep};
ghost use Rattle.sopl_search.specs.Closes.{IsBrokenClose, IsClosed};
ghost use Rattle.sopl_search.specs.Ends.{AreAll, IsPosed};
ghost use Rattle.sopl_search.specs.Following.{AreFollowing};
ghost use Rattle.sopl_search.specs.Frontiers.{IsBegun, IsSearchOf, Keeps};
ghost use Rattle.sopl_search.specs.Moves.{IsBrokenStep, IsStepped};
ghost use Rattle.sopl_search.specs.Outcomes.{HasCause as HasSearchCause, IsTrueOf, value_of};
ghost use Rattle.sopl_search.specs.Schedules.{AreSeats};

use crate::frontier::Frontier;
use crate::outcome::Outcome;
use crate::posed::SearchProblem;
use crate::watchers::Watchers;
use box_store::BoxStore;
use brancher::Brancher;
use log_rows::put_head;
use sopl_base::SearchStop;
use sopl_io::Sink;
use std::alloc::{AllocError, Global};

/// Propagators and a brancher, with the open nodes of all seats and what a search has found. It keeps at most 65,536 bytes of its log for a
/// sink. Its calls say what they do by its fields; whoever changes one himself has to show anew what the calls ask.
#[derive(Drop)]
pub struct Crew<P> {
    pub alloc: Global,
    pub watchers: Watchers<P>,
    pub brancher: Option<Box<dyn Brancher>>,
    pub frontier: Frontier,
    pub broken: bool,
}

impl<P: SearchProblem + Drop> Crew<P> {
    /// A crew of so many seats, of which the first one has the root; no node is finished. Its members stand in the order in which they came.
    pub fn new(
        alloc: Global,
        program: &P::Program,
        props: Vec<P>,
        seats: u32,
        brancher: Option<Box<dyn Brancher>>,
    ) -> Result<Crew<P>, AllocError>
        requires posed { IsPosed (P.problem program.now) }
        requires valid { P.valid program.now }
        requires fits { AllFit P.fits program.now props.items }
        requires all { AreAll (P.problem program.now) (together (map P.reasons props.items)) }
        requires in_step { AllInStep P.in_step program.now (P.problem program.now).root props.items }
        requires seats { AreSeats seats }
        ensures begun { IfOk result (λ crew. IsBegun (P.problem program.now).root seats crew.frontier) }
        ensures search { IfOk result (λ crew. IsSearchOf (P.problem program.now) (option_map rule brancher) crew.frontier) }
        ensures first_state { IfOk result (λ crew. Keeps (P.problem program.now) (option_map rule brancher) [] crew.frontier) }
        ensures members { IfOk result (λ crew. crew.watchers.list.items ≡ props.items) }
        ensures fits { IfOk result (λ crew. AllFit P.fits program.now crew.watchers.list.items) }
        ensures all { IfOk result (λ crew. AreAll (P.problem program.now) (together (map P.reasons crew.watchers.list.items))) }
        ensures following { IfOk result (λ crew. AreFollowing P.in_step P.watches program.now (P.problem program.now).root crew.watchers) }
        ensures asked { IfOk result (λ crew. option_map rule crew.brancher ≡ option_map rule brancher) }
        ensures whole { IfOk result (λ crew. crew.broken ≡ false) }
    {
        let roots = P::roots(alloc, program)?;
        let store = BoxStore::new(alloc, roots.as_slice())?;
        let watchers = Watchers::new(alloc, props, &store)?;
        let frontier = Frontier::new(alloc, store, seats)?;
        Ok(Crew {
            alloc,
            watchers,
            brancher,
            frontier,
            broken: false,
        })
    }

    /// The propagators as they are now, in the order in which they were handed in; no step changes their number, their order or their reasons.
    pub fn members(&self) -> &[P]
        ensures { result.now ≡ self.now.watchers.list.items }
    {
        self.watchers.list.as_slice()
    }

    /// How many nodes are open.
    pub fn open_nodes(&self) -> u64
        ensures { result ≡ self.now.frontier.open_count }
    {
        self.frontier.open_count
    }

    /// How many nodes are finished.
    pub fn finished(&self) -> u64
        ensures { result ≡ self.now.frontier.finished }
    {
        self.frontier.finished
    }

    /// The best value that was found.
    pub fn best(&self) -> Option<i128>
        ensures { result ≡ value_of self.now.frontier.best }
    {
        self.frontier.value()
    }

    /// Whether a call was refused, or the crew is closed; then no step is left to it.
    pub fn broken(&self) -> bool
        ensures { result ≡ self.now.broken }
    {
        self.broken
    }

    /// Whether a node is open, and fewer than so many are finished.
    pub(crate) fn has_next(&self, budget: u32) -> bool
        ensures open { result ≡ true → 0 < self.now.frontier.open_count }
        ensures within { result ≡ true → self.now.frontier.finished < budget }
        ensures done { result ≡ false → 0 < self.now.frontier.open_count → budget ≤ self.now.frontier.finished }
    {
        if self.frontier.open_count == 0 {
            return false;
        }
        self.frontier.finished < u64::from(budget)
    }

    /// Keeps the first line of the log for a sink.
    pub(crate) fn begin<K: Sink>(&mut self, sink: &mut K) -> Result<(), SearchStop>
        ensures all { OnOk result (GathersAll (K.taken sink.old) self.old.frontier.gather.kept (K.taken sink.new) self.new.frontier.gather.kept (ended head_line)) }
        ensures prefix { OnErr result (AppendsPrefix (K.taken sink.old) (K.taken sink.new) (self.old.frontier.gather.kept ++ ended head_line)) }
        ensures stop { OnErr result (result ≡ Err Write) }
        ensures watchers { self.new.watchers ≡ self.old.watchers }
        ensures brancher { self.new.brancher ≡ self.old.brancher }
        ensures walk { self.new.frontier.walk ≡ self.old.frontier.walk }
        ensures seats { self.new.frontier.seats ≡ self.old.frontier.seats }
        ensures open_count { self.new.frontier.open_count ≡ self.old.frontier.open_count }
        ensures finished { self.new.frontier.finished ≡ self.old.frontier.finished }
        ensures best { self.new.frontier.best ≡ self.old.frontier.best }
        ensures whole { OnOk result (self.new.broken ≡ self.old.broken) }
        ensures names { K.names sink.new ≡ K.names sink.old }
        ensures outcomes { StopsAtFailure (K.outcomes sink.old) (K.outcomes sink.new) result }
        ensures cause { HasCause (K.faults sink.old) (K.faults sink.new) result }
    {
        match put_head(&mut self.frontier.gather, sink) {
            Ok(()) => Ok(()),
            Err(_) => Err(SearchStop::Write),
        }
    }

    /// Finishes one node: the newest one of this seat, or else the oldest one of the first seat that has one.
    pub fn step<K: Sink>(
        &mut self,
        program: &P::Program,
        seat: u32,
        sink: &mut K,
    ) -> Result<(), SearchStop>
        requires posed { IsPosed (P.problem program.now) }
        requires valid { P.valid program.now }
        requires fits { AllFit P.fits program.now self.old.watchers.list.items }
        requires all { AreAll (P.problem program.now) (together (map P.reasons self.old.watchers.list.items)) }
        requires following { AreFollowing P.in_step P.watches program.now (P.problem program.now).root self.old.watchers }
        requires search { IsSearchOf (P.problem program.now) (option_map rule self.old.brancher) self.old.frontier }
        requires some { 0 < self.old.frontier.open_count }
        requires room { self.old.frontier.finished < 2 ^ 62 }
        requires exists { seat < length self.old.frontier.seats.seats.items }
        requires whole { self.old.broken ≡ false }
        ensures search { OnOk result (IsSearchOf (P.problem program.now) (option_map rule self.old.brancher) self.new.frontier) }
        ensures stepped { (rows : List Row) → Keeps (P.problem program.now) (option_map rule self.old.brancher) rows self.old.frontier
            → OnOk result (IsStepped (P.problem program.now) (option_map rule self.old.brancher) rows seat self.old.frontier self.new.frontier
            (K.taken sink.old) (K.taken sink.new) (option_map heard self.old.brancher) (option_map heard self.new.brancher)) }
        ensures refused { (rows : List Row) → Keeps (P.problem program.now) (option_map rule self.old.brancher) rows self.old.frontier
            → OnErr result (IsBrokenStep (P.problem program.now) rows seat self.old.frontier (K.taken sink.old) (K.taken sink.new)) }
        ensures finished { OnOk result (self.new.frontier.finished ≡ self.old.frontier.finished + 1) }
        ensures seats { OnOk result (length self.new.frontier.seats.seats.items ≡ length self.old.frontier.seats.seats.items) }
        ensures same_number { length self.new.watchers.list.items ≡ length self.old.watchers.list.items }
        ensures same_reasons { map P.reasons self.new.watchers.list.items ≡ map P.reasons self.old.watchers.list.items }
        ensures fits { AllFit P.fits program.now self.new.watchers.list.items }
        ensures all { AreAll (P.problem program.now) (together (map P.reasons self.new.watchers.list.items)) }
        ensures following { AreFollowing P.in_step P.watches program.now (P.problem program.now).root self.new.watchers }
        ensures asked { option_map rule self.new.brancher ≡ option_map rule self.old.brancher }
        ensures whole { OnOk result (self.new.broken ≡ false) }
        ensures broken { OnErr result (self.new.broken ≡ true) }
        ensures names { K.names sink.new ≡ K.names sink.old }
        ensures faults_grow { K.faults sink.old ≤ K.faults sink.new }
        ensures write { result ≡ Err Write → Rose (K.faults sink.old) (K.faults sink.new) }
        ensures outcomes { StopsWhere (result ≡ Err Write) (K.outcomes sink.old) (K.outcomes sink.new) }
    {
        self.broken = true;
        self.frontier.step(
            self.alloc,
            program,
            &mut self.watchers,
            &mut self.brancher,
            seat,
            sink,
        )?;
        self.broken = false;
        Ok(())
    }

    /// Ends the search: writes the nodes that are open, by their parents and of one parent the low side first, and what the log claims; and
    /// then all that is kept.
    pub fn close<K: Sink>(
        &mut self,
        program: &P::Program,
        sink: &mut K,
    ) -> Result<Outcome, SearchStop>
        requires posed { IsPosed (P.problem program.now) }
        requires valid { P.valid program.now }
        requires search { IsSearchOf (P.problem program.now) (option_map rule self.old.brancher) self.old.frontier }
        requires root { 0 < self.old.frontier.finished }
        requires room { self.old.frontier.finished ≤ 2 ^ 62 }
        requires some_seat { 0 < length self.old.frontier.seats.seats.items }
        requires whole { self.old.broken ≡ false }
        ensures truth { IfOk result (IsTrueOf (P.problem program.now)) }
        ensures cause { IfOk result (HasSearchCause (P.problem program.now) self.old.frontier.finished) }
        ensures closed { IfOk result (IsClosed (P.problem program.now) self.old.frontier (K.taken sink.old) (K.taken sink.new)) }
        ensures refused { result ≡ Err Write → IsBrokenClose (P.problem program.now) self.old.frontier (K.taken sink.old) (K.taken sink.new) }
        ensures nothing { result ≡ Err NoMemory → KeepsBytes (K.taken sink.old) (K.taken sink.new) }
        ensures broken { self.new.broken ≡ true }
        ensures names { K.names sink.new ≡ K.names sink.old }
        ensures faults_grow { K.faults sink.old ≤ K.faults sink.new }
        ensures write { result ≡ Err Write → Rose (K.faults sink.old) (K.faults sink.new) }
        ensures outcomes { StopsWhere (result ≡ Err Write) (K.outcomes sink.old) (K.outcomes sink.new) }
    {
        self.broken = true;
        self.frontier.close::<P, K>(self.alloc, program, sink)
    }
}
