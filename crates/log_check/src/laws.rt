//! What a verdict excludes, and for which logs a checker has room.

ghost use Rattle.log_check.specs.Checkers.{SmallerLogsHaveRoom};
ghost use Rattle.log_check.specs.VerdictLaws.{WrongLogsAreRejected};

/// A log with a wrong line is not accepted; so a log is accepted exactly where no line of it is told.
pub fn wrong_logs_are_rejected()
    ensures law { WrongLogsAreRejected }
{}

/// A checker has room for each log with no more steps and no more nodes than one for which it has room, so for such logs as the one that it
/// was made for.
pub fn smaller_logs_have_room()
    ensures law { SmallerLogsHaveRoom }
{}
