//! A log, written as its text; and that this text is read as the log.

ghost use Rattle.std.specs.Prelude.{◌≡◌, ◌<◌, ◌^◌, [], All, OnOk, OnErr, length};
ghost use Rattle.std.specs.Io.KnownBytes.{Appends};
ghost use Rattle.sopl_io.specs.Calls.{StopsAtFailure};
ghost use Rattle.sopl_io.specs.Causes.{HasCause};
ghost use Rattle.sopl_io.specs.Transfer.{AppendsPrefix};
ghost use Rattle.log_rows.specs.Lines.{log_lines, text_of};
ghost use Rattle.log_rows.specs.LogText.{IsLogText};
ghost use Rattle.log_rows.specs.Ranges.{RowFits, StepFits};
ghost use Rattle.log_rows.specs.Rows.{AreOrdered};
ghost use Rattle.log_tree.specs.ReadingLaws.{NoneTooDeep};
ghost use Rattle.log_tree.specs.Reads.{IsReading, read};

use crate::fitting::{end_fits, footer_fits, parent_fits, step_fits};
use crate::reader::Log;
use log_rows::{Row, put_log};
use sopl_base::Step;
use sopl_io::{Failed, Gather, Sink};

/// Writes a log through gathered bytes: its first line, the lines of its rows in their order and that of its claim, each with a line feed. It
/// asks for rows in order: each but the first names an earlier row that is split, and each side of a row stands once at most.
pub fn write_log<K: Sink>(log: &Log, gather: &mut Gather, sink: &mut K) -> Result<(), Failed>
    requires none_kept { gather.old.kept ≡ [] }
    requires ordered { AreOrdered log.now.rows.items }
    requires at_least_one { 0 < length log.now.rows.items }
    ensures all { OnOk result (Appends (K.taken sink.old) (K.taken sink.new) (text_of (log_lines log.now.rows.items log.now.footer))) }
    ensures kept { OnOk result (gather.new.kept ≡ []) }
    ensures prefix { OnErr result (AppendsPrefix (K.taken sink.old) (K.taken sink.new) (text_of (log_lines log.now.rows.items log.now.footer))) }
    ensures size { gather.new.size ≡ gather.old.size }
    ensures names { K.names sink.new ≡ K.names sink.old }
    ensures outcomes { StopsAtFailure (K.outcomes sink.old) (K.outcomes sink.new) result }
    ensures cause { HasCause (K.faults sink.old) (K.faults sink.new) result }
{
    put_log(gather, sink, log.rows.as_slice(), &log.footer)
}

/// What is written of a log is the text of a log, and is read as the same rows and the same claim where none of the rows lies too deep. The
/// function does nothing: what it ensures is so of every log.
#[tactic(auto, using(log_rows::proofs::LogTexts::texts_are_logs, crate::proofs::Writing::written_read))]
pub fn written_is_read(log: &Log)
    requires ordered { AreOrdered log.now.rows.items }
    requires at_least_one { 0 < length log.now.rows.items }
    ensures text { IsLogText log.now.rows.items log.now.footer (text_of (log_lines log.now.rows.items log.now.footer)) }
    ensures same { NoneTooDeep log.now.rows.items
        → IsReading (text_of (log_lines log.now.rows.items log.now.footer)) (read log.now.rows.items log.now.footer) }
{
    rows_fit(log.rows.as_slice());
    count_fits(log.rows.len());
    footer_fits(&log.footer);
}

/// A number of the machine has 64 bits.
fn count_fits(_count: usize)
    ensures fits { _count < 2 ^ 64 }
{}

/// The numbers of all rows fit.
fn rows_fit(rows: &[Row])
    ensures fit { All RowFits rows.now }
{
    'rows: for row in rows {
        row_fits(row);
    }
}

/// The numbers of a row fit.
fn row_fits(row: &Row)
    ensures fit { RowFits row.now }
{
    parent_fits(&row.parent);
    steps_fit(row.steps.as_slice());
    end_fits(&row.end);
}

/// The numbers of all steps fit.
fn steps_fit(steps: &[Step])
    ensures fit { All StepFits steps.now }
{
    'steps: for step in steps {
        step_fits(step);
    }
}
