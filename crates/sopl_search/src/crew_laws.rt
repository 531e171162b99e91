//! What is true of all searches, by however many seats.

ghost use Rattle.sopl_search.specs.Crews.{RunsAreLogs};
ghost use Rattle.sopl_search.specs.Outcomes.{SettledOutcomesAgree};

/// Behind any steps of any seats each side of each split is finished once or open once, and so is the root. It does nothing when it runs.
pub fn runs_are_logs()
    ensures law { RunsAreLogs }
{}

/// Two searches of one problem that both settle it say the same. It does nothing when it runs.
pub fn settled_outcomes_agree()
    ensures law { SettledOutcomesAgree }
{}
