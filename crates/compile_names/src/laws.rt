//! The law, as the contract of an empty function.

ghost use Rattle.compile_names.specs.Places.{PlacesOfTree};

/// Where the expressions of a problem are instantiated in a scenario is what a tree of its scenarios gives there: the values of the
/// stochastic variables, and the cells of the decisions. It does nothing when it runs.
pub fn places_of_tree()
    ensures law { PlacesOfTree }
{}
