//! By how much a number turns with a cell at its ends, and what is told of these.

use sopl_base::Wide;

/// By how much a number that goes by the box turns with a cell at its low and at its high end.
#[derive(Clone, Copy)]
pub struct EndTurns {
    pub low: Wide,
    pub high: Wide,
}

/// What is told of the ends of a cell.
#[derive(Clone, Copy)]
pub enum EndsTold {
    /// The box stays open with the cell at either end.
    Open,
    /// By so much the number turns there.
    Turned(EndTurns),
    /// Neither is told.
    Untold,
}
