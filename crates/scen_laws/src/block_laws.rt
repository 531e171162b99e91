//! Laws over the definitions of scenarios and histories.

ghost use Rattle.scen_laws.specs.BlockLaws.{BlocksDivide, BlocksFill, HistoriesAreBlocks, HistoriesGoOn, RowsSplit, ValuesOfStages};

/// The values of variables in two parts: each row of the first part, followed by each of the second.
pub fn rows_split()
    ensures law { RowsSplit }
{}

/// The histories of the next stage are those of a stage, each followed by all that is seen after it.
pub fn histories_go_on()
    ensures law { HistoriesGoOn }
{}

/// The blocks of a stage are all scenarios.
pub fn blocks_fill()
    ensures law { BlocksFill }
{}

/// A block has one block of the next stage for each row of the stage's variables.
pub fn blocks_divide()
    ensures law { BlocksDivide }
{}

/// The scenarios of a block have the block's history.
pub fn histories_are_blocks()
    ensures law { HistoriesAreBlocks }
{}

/// In a block of the next stage, the variables of a stage have the values of one row.
pub fn values_of_stages()
    ensures law { ValuesOfStages }
{}
