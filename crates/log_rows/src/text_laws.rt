//! What is written is the text of a log.

ghost use Rattle.log_rows.specs.LogText.{TextsAreLogs};

/// The text that is written of rows in order is the text of a log.
pub fn texts_are_logs()
    ensures law { TextsAreLogs }
{}
