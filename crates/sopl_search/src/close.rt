//! The end of a search.

ghost use Rattle.std.specs.Prelude.{◌≡◌, ◌≤◌, ◌<◌, ◌+◌, ◌^◌, ◌++◌, ◌∷◌, [], List, Option, length, map, Err, IfOk, OnOk, OnErr};
ghost use Rattle.std.specs.Io.KnownBytes.{Appends, Keeps as KeepsBytes};
ghost use Rattle.sopl_io.specs.Calls.{StopsAtFailure, StopsWhere};
ghost use Rattle.sopl_io.specs.Causes.{HasCause, Rose};
ghost use Rattle.sopl_io.specs.Transfer.{AppendsPrefix};
ghost use Rattle.sopl_base.specs.declared.stop.SearchStop.TheVariants.{NoMemory, Write};
ghost use Rattle.log_rows.specs.Lines.{footer_line, rows_lines, text_of};
ghost use Rattle.log_rows.specs.declared.rows.Row.{Row};
ghost use Rattle.open_nodes.specs.declared.seats.OpenNode.{OpenNode};
ghost use Rattle.sopl_search.specs.Closes.{IsBrokenClose, IsClosed};
ghost use Rattle.sopl_search.specs.Ends.{IsPosed};
ghost use Rattle.sopl_search.specs.Frontiers.{AreEnterable, Keeps, Stands, boxes, pendings};
ghost use Rattle.sopl_search.specs.Lines.{open_line, parent_above};
ghost use Rattle.sopl_search.specs.Outcomes.{EndsBy, HasCause as HasSearchCause, IsTrueOf};
ghost use Rattle.brancher.specs.Rules.{Rule};

use crate::bounding::{best_end, outcome_of};
use crate::frontier::Frontier;
use crate::listing::{put_opens, release_all, taken_in_order};
use crate::outcome::Outcome;
use crate::posed::SearchProblem;
use log_rows::{Footer, put_footer};
use open_nodes::OpenNode;
use sopl_base::SearchStop;
use sopl_io::{Failed, Sink};
use std::alloc::{AllocError, Global};

impl Frontier {
    /// Writes the lines of the nodes that are open and of what the log claims, and all that is kept.
    #[tactic(auto, using(log_rows::proofs::Written::cause_later))]
    fn put_rest<K: Sink>(
        &mut self,
        alloc: Global,
        sink: &mut K,
        nodes: &[OpenNode],
        footer: &Footer,
    ) -> Result<(), Failed>
        requires room { self.old.finished + length nodes.now < 2 ^ 64 }
        ensures all { OnOk result (Appends (K.taken sink.old) (K.taken sink.new) (self.old.gather.kept
            ++ text_of (rows_lines self.old.finished (map (λ (x : OpenNode). open_line (parent_above x)) nodes.now) ++ footer_line footer.now ∷ []))) }
        ensures prefix { OnErr result (AppendsPrefix (K.taken sink.old) (K.taken sink.new) (self.old.gather.kept
            ++ text_of (rows_lines self.old.finished (map (λ (x : OpenNode). open_line (parent_above x)) nodes.now) ++ footer_line footer.now ∷ []))) }
        ensures names { K.names sink.new ≡ K.names sink.old }
        ensures outcomes { StopsAtFailure (K.outcomes sink.old) (K.outcomes sink.new) result }
        ensures cause { HasCause (K.faults sink.old) (K.faults sink.new) result }
    {
        put_opens(alloc, &mut self.gather, sink, self.finished, nodes)?;
        put_footer(&mut self.gather, sink, footer)?;
        self.gather.flush(sink)
    }

    /// What is answered, where these are the nodes that are open.
    fn answer<P: SearchProblem>(
        &mut self,
        alloc: Global,
        program: &P::Program,
        nodes: &[OpenNode],
    ) -> Result<Outcome, AllocError>
        requires valid { P.valid program.now }
        requires known { (rows : List Row) × AreEnterable (P.problem program.now) rows self.old.walk nodes.now }
        ensures ends { IfOk result (EndsBy (P.problem program.now) self.old.best (boxes (pendings (P.problem program.now).root nodes.now))) }
        ensures finished { self.new.finished ≡ self.old.finished }
        ensures gather { self.new.gather ≡ self.old.gather }
    {
        let end = best_end::<P>(alloc, program, &mut self.walk, nodes)?;
        Ok(outcome_of(P::direction(program), self.best.take(), end))
    }

    /// Ends the search: writes the nodes that are open by their parents, of one parent the low side first, and what the log claims.
    pub(crate) fn close<P: SearchProblem, K: Sink>(
        &mut self,
        alloc: Global,
        program: &P::Program,
        sink: &mut K,
    ) -> Result<Outcome, SearchStop>
        requires posed { IsPosed (P.problem program.now) }
        requires valid { P.valid program.now }
        requires stands { Stands (P.problem program.now) self.old }
        requires keeps { (asked : Option Rule) × (rows : List Row) × Keeps (P.problem program.now) asked rows self.old }
        requires root { 0 < self.old.finished }
        requires room { self.old.finished ≤ 2 ^ 62 }
        requires some_seat { 0 < length self.old.seats.seats.items }
        ensures truth { IfOk result (IsTrueOf (P.problem program.now)) }
        ensures cause { IfOk result (HasSearchCause (P.problem program.now) self.old.finished) }
        ensures closed { IfOk result (IsClosed (P.problem program.now) self.old (K.taken sink.old) (K.taken sink.new)) }
        ensures refused { result ≡ Err Write → IsBrokenClose (P.problem program.now) self.old (K.taken sink.old) (K.taken sink.new) }
        ensures nothing { result ≡ Err NoMemory → KeepsBytes (K.taken sink.old) (K.taken sink.new) }
        ensures names { K.names sink.new ≡ K.names sink.old }
        ensures faults_grow { K.faults sink.old ≤ K.faults sink.new }
        ensures write { result ≡ Err Write → Rose (K.faults sink.old) (K.faults sink.new) }
        ensures outcomes { StopsWhere (result ≡ Err Write) (K.outcomes sink.old) (K.outcomes sink.new) }
    {
        let nodes = taken_in_order(alloc, &mut self.seats)?;
        let outcome = self.answer::<P>(alloc, program, nodes.as_slice())?;
        let footer = outcome.footer();
        match self.put_rest(alloc, sink, nodes.as_slice(), &footer) {
            Ok(()) => {
                release_all(nodes);
                Ok(outcome)
            }
            Err(_) => Err(SearchStop::Write),
        }
    }
}
