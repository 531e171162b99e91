//! What holds of sizes that are limited.

ghost use Rattle.compile_laws.specs.SizeLaws.{FaultsEnd, FaultsInTurn, FirstIsFound, GoalIsAllowed, GoalIsRefused, LargeInTurn, NoneIsLarge};

/// Which of several terms is too large first, and that they may be measured one after the other. It does nothing when it runs.
pub fn terms_are_measured()
    ensures none { NoneIsLarge }
    ensures first { FirstIsFound }
    ensures in_turn { LargeInTurn }
    ensures faults { FaultsInTurn }
    ensures ends { FaultsEnd }
{}

/// Which objectives are allowed, and what is told of one that is not. It does nothing when it runs.
pub fn objectives_are_measured()
    ensures allowed { GoalIsAllowed }
    ensures refused { GoalIsRefused }
{}
