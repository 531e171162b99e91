//! Laws over the definitions of the unfolding.

ghost use Rattle.unfold_laws.specs.Bounds.{DecisionsAreBounded, StochasticsAreBounded, StochasticsHaveOutcomes, InstancesAreCounted};
ghost use Rattle.unfold_laws.specs.Conditions.{HardsAreMet, ChancesAreMet, ObjectiveIsMet};
ghost use Rattle.unfold_laws.specs.Passing.{PartsPass, ConstantsHaveValues};

/// Parts of what passes pass.
pub fn parts_pass()
    ensures law { PartsPass }
{}

/// An expression in a constant place has a value, where what is met there passes.
pub fn constants_have_values()
    ensures law { ConstantsHaveValues }
{}

/// The ends, the size and the stage of each decision of a text that passes.
pub fn decisions_are_bounded()
    ensures law { DecisionsAreBounded }
{}

/// The outcomes and the stage of each stochastic variable of a text that passes.
pub fn stochastics_are_bounded()
    ensures law { StochasticsAreBounded }
{}

/// Each hard constraint's condition, where its binders give what they give.
pub fn hards_are_met()
    ensures law { HardsAreMet }
{}

/// Each chance constraint's condition, where its binders give what they give, and its threshold.
pub fn chances_are_met()
    ensures law { ChancesAreMet }
{}

/// The objective.
pub fn objective_is_met()
    ensures law { ObjectiveIsMet }
{}

/// Each stochastic variable of a text has an outcome.
pub fn stochastics_have_outcomes()
    ensures law { StochasticsHaveOutcomes }
{}

/// The instances of a text that passes are few.
pub fn instances_are_counted()
    ensures law { InstancesAreCounted }
{}
