//! The rows of a log, line by line.

ghost use Rattle.std.specs.Prelude.{◌≡◌, ◌++◌, [], map, OnOk, OnErr};
ghost use Rattle.std.specs.Io.KnownBytes.{Appends};
ghost use Rattle.sopl_io.specs.Gathered.{GathersAll};
ghost use Rattle.sopl_io.specs.Calls.{StopsAtFailure};
ghost use Rattle.sopl_io.specs.Causes.{HasCause};
ghost use Rattle.sopl_io.specs.Transfer.{AppendsPrefix};
ghost use Rattle.log_rows.specs.Lines.{step_line, row_lines, rows_lines, log_lines, text_of};

use crate::lines::{put_end, put_footer, put_head, put_node, put_step};
use crate::rows::{Footer, Row};
use sopl_base::Step;
use sopl_io::{Failed, Gather, Sink};

/// Writes the lines of a node.
#[tactic(auto, using(crate::proofs::Texts::row_fails_first, crate::proofs::Written::cause_later))]
pub fn put_row<K: Sink>(
    gather: &mut Gather,
    sink: &mut K,
    number: u64,
    row: &Row,
) -> Result<(), Failed>
    ensures all { OnOk result
        (GathersAll (K.taken sink.old) gather.old.kept (K.taken sink.new) gather.new.kept (text_of (row_lines number row.now))) }
    ensures prefix { OnErr result
        (AppendsPrefix (K.taken sink.old) (K.taken sink.new) (gather.old.kept ++ text_of (row_lines number row.now))) }
    ensures size { gather.new.size ≡ gather.old.size }
    ensures names { K.names sink.new ≡ K.names sink.old }
    ensures outcomes { StopsAtFailure (K.outcomes sink.old) (K.outcomes sink.new) result }
    ensures cause { HasCause (K.faults sink.old) (K.faults sink.new) result }
{
    put_node(gather, sink, number, row.parent)?;
    put_steps(gather, sink, row.steps.as_slice())?;
    put_end(gather, sink, &row.end)
}

/// Writes steps.
#[tactic(auto, using(crate::proofs::Texts::steps_all, crate::proofs::Written::cause_later))]
pub fn put_steps<K: Sink>(gather: &mut Gather, sink: &mut K, steps: &[Step]) -> Result<(), Failed>
    ensures all { OnOk result
        (GathersAll (K.taken sink.old) gather.old.kept (K.taken sink.new) gather.new.kept (text_of (map step_line steps.now))) }
    ensures prefix { OnErr result
        (AppendsPrefix (K.taken sink.old) (K.taken sink.new) (gather.old.kept ++ text_of (map step_line steps.now))) }
    ensures size { gather.new.size ≡ gather.old.size }
    ensures names { K.names sink.new ≡ K.names sink.old }
    ensures outcomes { StopsAtFailure (K.outcomes sink.old) (K.outcomes sink.new) result }
    ensures cause { HasCause (K.faults sink.old) (K.faults sink.new) result }
{
    'steps: for step in steps {
        put_step(gather, sink, step)?;
    }
    Ok(())
}

/// Writes the lines of all rows, which are numbered from 0.
#[tactic(auto, using(crate::proofs::Texts::rows_all, crate::proofs::Written::cause_later))]
pub fn put_rows<K: Sink>(gather: &mut Gather, sink: &mut K, rows: &[Row]) -> Result<(), Failed>
    ensures all { OnOk result
        (GathersAll (K.taken sink.old) gather.old.kept (K.taken sink.new) gather.new.kept (text_of (rows_lines 0 rows.now))) }
    ensures prefix { OnErr result
        (AppendsPrefix (K.taken sink.old) (K.taken sink.new) (gather.old.kept ++ text_of (rows_lines 0 rows.now))) }
    ensures size { gather.new.size ≡ gather.old.size }
    ensures names { K.names sink.new ≡ K.names sink.old }
    ensures outcomes { StopsAtFailure (K.outcomes sink.old) (K.outcomes sink.new) result }
    ensures cause { HasCause (K.faults sink.old) (K.faults sink.new) result }
{
    'rows: for number in 0..rows.len() {
        put_row(gather, sink, number as u64, &rows[number])?;
    }
    Ok(())
}

/// Writes the lines of a whole log.
#[tactic(auto, using(crate::proofs::Texts::log_fails_first, crate::proofs::Written::cause_later))]
fn put_log_lines<K: Sink>(
    gather: &mut Gather,
    sink: &mut K,
    rows: &[Row],
    footer: &Footer,
) -> Result<(), Failed>
    ensures all { OnOk result
        (GathersAll (K.taken sink.old) gather.old.kept (K.taken sink.new) gather.new.kept (text_of (log_lines rows.now footer.now))) }
    ensures prefix { OnErr result
        (AppendsPrefix (K.taken sink.old) (K.taken sink.new) (gather.old.kept ++ text_of (log_lines rows.now footer.now))) }
    ensures size { gather.new.size ≡ gather.old.size }
    ensures names { K.names sink.new ≡ K.names sink.old }
    ensures outcomes { StopsAtFailure (K.outcomes sink.old) (K.outcomes sink.new) result }
    ensures cause { HasCause (K.faults sink.old) (K.faults sink.new) result }
{
    put_head(gather, sink)?;
    put_rows(gather, sink, rows)?;
    put_footer(gather, sink, footer)
}

/// Writes a whole log, and all that is kept of it.
#[tactic(auto, using(crate::proofs::Written::cause_later))]
pub fn put_log<K: Sink>(
    gather: &mut Gather,
    sink: &mut K,
    rows: &[Row],
    footer: &Footer,
) -> Result<(), Failed>
    requires none_kept { gather.old.kept ≡ [] }
    ensures all { OnOk result (Appends (K.taken sink.old) (K.taken sink.new) (text_of (log_lines rows.now footer.now))) }
    ensures kept { OnOk result (gather.new.kept ≡ []) }
    ensures prefix { OnErr result (AppendsPrefix (K.taken sink.old) (K.taken sink.new) (text_of (log_lines rows.now footer.now))) }
    ensures size { gather.new.size ≡ gather.old.size }
    ensures names { K.names sink.new ≡ K.names sink.old }
    ensures outcomes { StopsAtFailure (K.outcomes sink.old) (K.outcomes sink.new) result }
    ensures cause { HasCause (K.faults sink.old) (K.faults sink.new) result }
{
    put_log_lines(gather, sink, rows, footer)?;
    gather.flush(sink)
}
