//! What holds of the replies of `check`.

ghost use Rattle.answer_check.specs.CheckLaws.{AcceptedLogsAreAnswered, ChecksEndOnce, WrittenLogsAreAccepted};

use log_tree::{readings_are_unique, texts_are_read};

/// All replies to the same text and the same bytes are one, status and line; so a log is accepted exactly where each of its lines is right, and of a log that is
/// not accepted one line and one node are told. It does nothing when it runs.
pub fn checks_end_once()
    ensures law { ChecksEndOnce }
{
    readings_are_unique();
}

/// What an accepted log claims is true of all policies of the text, and each reply to it is that it is accepted with this claim.
pub fn accepted_logs_are_answered()
    ensures law { AcceptedLogsAreAnswered }
{
    readings_are_unique();
}

/// The log that goes with an answer of `solve` is accepted, with the claim of the answer, and each reply to it says so.
pub fn written_logs_are_accepted()
    ensures law { WrittenLogsAreAccepted }
{
    readings_are_unique();
    texts_are_read();
}
