//! Laws over the definitions of scenarios.

ghost use Rattle.scen_laws.specs.Laws.{CountsMultiply, PrefixesAreFewer, HistoriesArePrefixes, HistoriesAreRows, ProductsRun, RowsAreNumbered, RowsDiffer, ScenariosAreCounted};
ghost use Rattle.scen_laws.specs.Laws.{ScenariosAreLight, ScenariosExtend, ScenariosSplit, StochasticsAscend, WeightsMultiply};

/// The stochastic variables of a text are by stage.
pub fn stochastics_ascend()
    ensures law { StochasticsAscend }
{}

/// Scenarios of variables in two parts are those of the first part, each followed by those of the second.
pub fn scenarios_split()
    ensures law { ScenariosSplit }
{}

/// With one more variable, each scenario of the variables before it goes on with each of its outcomes.
pub fn scenarios_extend()
    ensures law { ScenariosExtend }
{}

/// How many scenarios variables in two parts have.
pub fn scenarios_are_counted()
    ensures law { ScenariosAreCounted }
{}

/// A prefix of the variables has a scenario, and no more than all of them.
pub fn prefixes_are_fewer()
    ensures law { PrefixesAreFewer }
{}

/// A scenario of a prefix of the variables weighs no more than all scenarios.
pub fn scenarios_are_light()
    ensures law { ScenariosAreLight }
{}

/// No two scenarios have the same values.
pub fn rows_differ()
    ensures law { RowsDiffer }
{}

/// The number of a list among lists of which no two are the same.
pub fn rows_are_numbered()
    ensures law { RowsAreNumbered }
{}

/// What a scenario has seen when a stage is chosen is a prefix of its values.
pub fn histories_are_prefixes()
    ensures law { HistoriesArePrefixes }
{}

/// The histories of a stage are the scenarios of the variables of the stages below it.
pub fn histories_are_rows()
    ensures law { HistoriesAreRows }
{}

/// The weight of all scenarios is a product.
pub fn weights_multiply()
    ensures law { WeightsMultiply }
{}

/// The number of scenarios is a product.
pub fn counts_multiply()
    ensures law { CountsMultiply }
{}

/// The first prefix whose product passes a limit, by running products.
pub fn products_run()
    ensures law { ProductsRun }
{}
