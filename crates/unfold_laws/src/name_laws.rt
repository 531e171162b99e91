//! The law, as the contract of an empty function.

ghost use Rattle.unfold_laws.specs.Laws.{NamesAreWords};

/// The decisions and the stochastic variables of a text have names of the form of names. It does nothing when it runs.
pub fn names_are_words()
    ensures law { NamesAreWords }
{}
