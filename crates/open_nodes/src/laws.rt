//! What holds of ways and of seats.

ghost use Rattle.open_nodes.specs.SeatLaws.{GivesAreEven, TakesAreEven};
ghost use Rattle.open_nodes.specs.WayLaws.{WaysAreKnown, WaysAreRows, WaysDescend, WaysGoOn};

/// The box to which a way leads is the one with which the open node begins that hangs there below the rows of a log.
pub fn ways_are_rows()
    ensures law { WaysAreRows }
{}

/// The way to an open node of a search is known by the rows of its log: what `BoxWalk::enter` asks for.
pub fn ways_are_known()
    ensures law { WaysAreKnown }
{}

/// The way to a node stays one of rows where rows come behind.
pub fn ways_go_on()
    ensures law { WaysGoOn }
{}

/// The numbers of the splits on a way of rows descend from the nearest one up.
pub fn ways_descend()
    ensures law { WaysDescend }
{}

/// Taking a node takes it out of the list of all open nodes, and nothing else.
pub fn takes_are_even()
    ensures law { TakesAreEven }
{}

/// Giving two nodes puts them side by side into the list of all open nodes.
pub fn gives_are_even()
    ensures law { GivesAreEven }
{}
