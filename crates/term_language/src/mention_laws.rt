//! What holds of the cells that are mentioned.

ghost use Rattle.term_language.specs.MentionLaws.{FormsAreMentioned, HoldingAgrees, IntervalsAgree, MarksAgree, TruthsAgree, ValuesAgree};

/// The cells of a term's linear form are among those that it mentions.
pub fn forms_are_mentioned()
    ensures law { FormsAreMentioned }
{}

/// Boxes that agree on the cells that a term mentions give it the same interval.
pub fn intervals_agree()
    ensures law { IntervalsAgree }
{}

/// They give it the same mark.
pub fn marks_agree()
    ensures law { MarksAgree }
{}

/// Boxes that agree on the cells that a condition mentions give it the same truth.
pub fn truths_agree()
    ensures law { TruthsAgree }
{}

/// Points that agree on the cells that a term mentions give it the same value.
pub fn values_agree()
    ensures law { ValuesAgree }
{}

/// Points that agree on the cells that a condition mentions give it the same truth.
pub fn holding_agrees()
    ensures law { HoldingAgrees }
{}
