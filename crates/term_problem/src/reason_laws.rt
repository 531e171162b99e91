//! What holds of the cells that reasons mention.

ghost use Rattle.term_problem.specs.ReasonLaws.{ReasonsAgree};

/// Boxes that agree on the cells that a reason mentions are closed by it alike.
pub fn reasons_agree()
    ensures law { ReasonsAgree }
{}
