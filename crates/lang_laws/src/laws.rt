ghost use Rattle.lang_laws.specs.Laws.{FitAtEachTime, RangesAscend, RangesHold, SatisfiedIsWorth, ScenariosAgree, ScenariosAlive, ScenariosDistinct, ScenariosSplit, SetsAscend};
ghost use Rattle.lang_laws.specs.Laws.{SetsHold, WeightsSum};

/// The numbers of a range ascend.
pub fn ranges_ascend()
    ensures law { RangesAscend }
{}

/// The numbers of a set ascend.
pub fn sets_ascend()
    ensures law { SetsAscend }
{}

/// The numbers of a range are those from its lower to its upper end.
pub fn ranges_hold()
    ensures law { RangesHold }
{}

/// The numbers of a set are those of its elements.
pub fn sets_hold()
    ensures law { SetsHold }
{}

/// Tasks fit under a capacity exactly where they are sound and at no whole number ask for more than it.
pub fn fit_at_each_time()
    ensures law { FitAtEachTime }
{}

/// The scenarios of the definitions are those with places, without their places.
pub fn scenarios_agree()
    ensures law { ScenariosAgree }
{}

/// Scenarios of variables in two parts are those of the first part, each followed by those of the second part after it.
pub fn scenarios_split()
    ensures law { ScenariosSplit }
{}

/// There is a scenario, where each stochastic variable has outcomes.
pub fn scenarios_alive()
    ensures law { ScenariosAlive }
{}

/// No two scenarios have the same values, where no two outcomes of a stochastic variable have the same value.
pub fn scenarios_distinct()
    ensures law { ScenariosDistinct }
{}

/// The weights of all scenarios together are the product of the distributions' totals.
pub fn weights_sum()
    ensures law { WeightsSum }
{}

/// A policy that satisfies is worth something.
pub fn satisfied_is_worth()
    ensures law { SatisfiedIsWorth }
{}
