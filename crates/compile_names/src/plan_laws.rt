//! The law, as the contract of an empty function.

ghost use Rattle.compile_names.specs.Plans.{TablesArePlanned};

/// The table of elements is the one that their indices and their items give: the sets and the order of the items go by the indices
/// alone. It does nothing when it runs.
pub fn tables_are_planned()
    ensures law { TablesArePlanned }
{}
