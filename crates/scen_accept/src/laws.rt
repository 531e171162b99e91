//! What is true of all texts.

ghost use Rattle.scen_accept.specs.Laws.{TextsEndOnce};

/// A text is accepted with one problem, or refused by one code at one place, or passes a limit, and no two of these. It does nothing
/// when it runs.
pub fn texts_end_once()
    ensures { TextsEndOnce }
{}
