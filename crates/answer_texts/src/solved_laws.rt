//! What is true of all accepted texts.

ghost use Rattle.answer_texts.specs.Laws.{AcceptedEndOnce, SettledAnswerAlike};

/// An accepted text is solved with one problem, or passes a limit on its terms, and not both. It does nothing when it runs.
pub fn accepted_end_once()
    ensures law { AcceptedEndOnce }
{}

/// Two searches of one text that were done answer the same kind and value, by any seats, orders and branchers. It does nothing when it runs.
pub fn settled_answer_alike()
    ensures law { SettledAnswerAlike }
{}
