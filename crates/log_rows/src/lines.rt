//! The lines of a log, one by one.

ghost use Rattle.std.specs.Prelude.{◌≡◌, ◌+◌, ◌≤◌, ◌++◌, length, codes, decimal, OnOk, OnErr};
ghost use Rattle.sopl_io.specs.Gathered.{GathersAll};
ghost use Rattle.std.specs.Fmt.{signed_decimal};
ghost use Rattle.sopl_io.specs.Calls.{StopsAtFailure};
ghost use Rattle.sopl_io.specs.Causes.{HasCause};
ghost use Rattle.sopl_io.specs.Transfer.{AppendsPrefix};
ghost use Rattle.log_rows.specs.Lines.{head_line, side_letter, parent_text, node_line, reason_text, side_word, step_line, end_line, found_text, footer_line, ended};

use crate::line::Line;
use crate::rows::{Cut, EndLine, Footer, Parent};
use sopl_base::{Reason, Side, Step};
use sopl_io::{Failed, Gather, Sink};

/// Writes the first line.
#[tactic(auto, using(crate::proofs::Written::same_all, crate::proofs::Written::same_prefix))]
pub fn put_head<K: Sink>(gather: &mut Gather, sink: &mut K) -> Result<(), Failed>
    ensures all { OnOk result (GathersAll (K.taken sink.old) gather.old.kept (K.taken sink.new) gather.new.kept (ended head_line)) }
    ensures prefix { OnErr result (AppendsPrefix (K.taken sink.old) (K.taken sink.new) (gather.old.kept ++ ended head_line)) }
    ensures size { gather.new.size ≡ gather.old.size }
    ensures names { K.names sink.new ≡ K.names sink.old }
    ensures outcomes { StopsAtFailure (K.outcomes sink.old) (K.outcomes sink.new) result }
    ensures cause { HasCause (K.faults sink.old) (K.faults sink.new) result }
{
    let mut line = Line::new();
    line.text("sopl-log 1");
    line.put(gather, sink)
}

/// Writes a node's number, and what it is.
#[tactic(auto, using(crate::proofs::Written::same_all, crate::proofs::Written::same_prefix))]
pub fn put_node<K: Sink>(
    gather: &mut Gather,
    sink: &mut K,
    number: u64,
    parent: Option<Parent>,
) -> Result<(), Failed>
    ensures all { OnOk result
        (GathersAll (K.taken sink.old) gather.old.kept (K.taken sink.new) gather.new.kept (ended (node_line number parent))) }
    ensures prefix { OnErr result
        (AppendsPrefix (K.taken sink.old) (K.taken sink.new) (gather.old.kept ++ ended (node_line number parent))) }
    ensures size { gather.new.size ≡ gather.old.size }
    ensures names { K.names sink.new ≡ K.names sink.old }
    ensures outcomes { StopsAtFailure (K.outcomes sink.old) (K.outcomes sink.new) result }
    ensures cause { HasCause (K.faults sink.old) (K.faults sink.new) result }
{
    let mut line = Line::new();
    line.text("n ");
    line.number(number);
    add_parent(&mut line, parent);
    line.put(gather, sink)
}

/// Writes a step.
#[tactic(auto, using(crate::proofs::Written::same_all, crate::proofs::Written::same_prefix))]
pub fn put_step<K: Sink>(gather: &mut Gather, sink: &mut K, step: &Step) -> Result<(), Failed>
    ensures all { OnOk result
        (GathersAll (K.taken sink.old) gather.old.kept (K.taken sink.new) gather.new.kept (ended (step_line step.now))) }
    ensures prefix { OnErr result (AppendsPrefix (K.taken sink.old) (K.taken sink.new) (gather.old.kept ++ ended (step_line step.now))) }
    ensures size { gather.new.size ≡ gather.old.size }
    ensures names { K.names sink.new ≡ K.names sink.old }
    ensures outcomes { StopsAtFailure (K.outcomes sink.old) (K.outcomes sink.new) result }
    ensures cause { HasCause (K.faults sink.old) (K.faults sink.new) result }
{
    let mut line = Line::new();
    add_step(&mut line, step);
    line.put(gather, sink)
}

/// Writes a node's end.
#[tactic(auto, using(crate::proofs::Written::same_all, crate::proofs::Written::same_prefix))]
pub fn put_end<K: Sink>(gather: &mut Gather, sink: &mut K, end: &EndLine) -> Result<(), Failed>
    ensures all { OnOk result
        (GathersAll (K.taken sink.old) gather.old.kept (K.taken sink.new) gather.new.kept (ended (end_line end.now))) }
    ensures prefix { OnErr result (AppendsPrefix (K.taken sink.old) (K.taken sink.new) (gather.old.kept ++ ended (end_line end.now))) }
    ensures size { gather.new.size ≡ gather.old.size }
    ensures names { K.names sink.new ≡ K.names sink.old }
    ensures outcomes { StopsAtFailure (K.outcomes sink.old) (K.outcomes sink.new) result }
    ensures cause { HasCause (K.faults sink.old) (K.faults sink.new) result }
{
    let mut line = Line::new();
    add_end(&mut line, end);
    line.put(gather, sink)
}

/// Writes what the log claims.
#[tactic(auto, using(crate::proofs::Written::same_all, crate::proofs::Written::same_prefix))]
pub fn put_footer<K: Sink>(gather: &mut Gather, sink: &mut K, footer: &Footer) -> Result<(), Failed>
    ensures all { OnOk result
        (GathersAll (K.taken sink.old) gather.old.kept (K.taken sink.new) gather.new.kept (ended (footer_line footer.now))) }
    ensures prefix { OnErr result
        (AppendsPrefix (K.taken sink.old) (K.taken sink.new) (gather.old.kept ++ ended (footer_line footer.now))) }
    ensures size { gather.new.size ≡ gather.old.size }
    ensures names { K.names sink.new ≡ K.names sink.old }
    ensures outcomes { StopsAtFailure (K.outcomes sink.old) (K.outcomes sink.new) result }
    ensures cause { HasCause (K.faults sink.old) (K.faults sink.new) result }
{
    let mut line = Line::new();
    add_footer(&mut line, footer);
    line.put(gather, sink)
}

/// Adds what a node is: the root, or a side of a node.
pub fn add_parent(line: &mut Line, parent: Option<Parent>)
    requires room { length line.old ≤ 50 }
    ensures added { line.new ≡ line.old ++ parent_text parent }
    ensures bounded_length { length line.new ≤ length line.old + 50 }
{
    match parent {
        None => line.text(" r"),
        Some(split) => add_side(line, &split),
    }
}

/// Adds a side of a node.
fn add_side(line: &mut Line, parent: &Parent)
    requires room { length line.old ≤ 50 }
    ensures added { line.new ≡ line.old ++ (codes " " ++ decimal parent.now.node ++ side_letter parent.now.side) }
    ensures bounded_length { length line.new ≤ length line.old + 50 }
{
    line.text(" ");
    line.number(parent.node);
    line.text(letter_of(parent.side));
}

/// The letter of a side of a node, behind its number.
fn letter_of(side: Side) -> &'static str
    ensures letter { result.now ≡ side_letter side }
    ensures bounded_length { length result.now ≡ 2 }
{
    match side {
        Side::Le => " l",
        Side::Ge => " h",
    }
}

/// Adds a reason.
fn add_reason(line: &mut Line, reason: &Reason)
    requires room { length line.old ≤ 8 }
    ensures added { line.new ≡ line.old ++ reason_text reason.now }
    ensures bounded_length { length line.new ≤ length line.old + 84 }
{
    match *reason {
        Reason::Hard { instance, scenario } => {
            line.text("h ");
            line.number(instance);
            line.text(" ");
            line.number(scenario);
        }
        Reason::Chance { instance } => {
            line.text("c ");
            line.number(instance);
        }
        Reason::Undefined { scenario } => {
            line.text("u ");
            line.number(scenario);
        }
        Reason::Bound => line.text("b"),
    }
}

/// Adds a step to a line without bytes.
pub fn add_step(line: &mut Line, step: &Step)
    requires empty { length line.old ≤ 0 }
    ensures added { line.new ≡ line.old ++ step_line step.now }
    ensures bounded_length { length line.new ≤ 190 }
{
    line.text("s ");
    add_reason(line, &step.reason);
    line.text(" ");
    line.number(step.cell);
    line.text(word_of(step.side));
    line.number(step.k);
}

/// The word for the end that a step moves, between the cell and the number.
fn word_of(side: Side) -> &'static str
    ensures word { result.now ≡ side_word side }
    ensures bounded_length { length result.now ≡ 4 }
{
    match side {
        Side::Le => " le ",
        Side::Ge => " ge ",
    }
}

/// Adds an end to a line without bytes.
pub fn add_end(line: &mut Line, end: &EndLine)
    requires empty { length line.old ≤ 0 }
    ensures added { line.new ≡ line.old ++ end_line end.now }
    ensures bounded_length { length line.new ≤ 190 }
{
    match end {
        EndLine::Refuted(reason) => {
            line.text("f ");
            add_reason(line, reason);
        }
        EndLine::Split(cut) => add_cut(line, cut),
        EndLine::Point => line.text("v"),
        EndLine::Unfinished => line.text("o"),
    }
}

/// Adds a split.
fn add_cut(line: &mut Line, cut: &Cut)
    requires empty { length line.old ≤ 0 }
    ensures added { line.new ≡ line.old ++ (codes "x " ++ decimal cut.now.cell ++ codes " " ++ signed_decimal cut.now.k) }
    ensures bounded_length { length line.new ≤ 190 }
{
    line.text("x ");
    line.number(cut.cell);
    line.text(" ");
    line.number(cut.k);
}

/// Adds a claim to a line without bytes.
pub fn add_footer(line: &mut Line, footer: &Footer)
    requires empty { length line.old ≤ 0 }
    ensures added { line.new ≡ line.old ++ footer_line footer.now }
    ensures bounded_length { length line.new ≤ 190 }
{
    match footer {
        Footer::Optimal(value) => {
            line.text("end optimal ");
            line.number(*value);
        }
        Footer::Infeasible => line.text("end infeasible"),
        Footer::Bounded(found, bound) => {
            line.text("end bounded ");
            add_found(line, found);
            line.text(" ");
            line.number(*bound);
        }
    }
}

/// Adds the value that was found, if any.
fn add_found(line: &mut Line, found: &Option<i128>)
    requires room { length line.old ≤ 50 }
    ensures added { line.new ≡ line.old ++ found_text found.now }
    ensures bounded_length { length line.new ≤ length line.old + 40 }
{
    match found {
        None => line.text("none"),
        Some(value) => line.number(*value),
    }
}
