ghost use Rattle.term_program.specs.Laws.{ProgramsAreLawful, RootsAreNear};

/// What closes a box of a program has no point that is looked for, tells a box of one point exactly and stays closed against better values, and no
/// point of a box is better than the better end of the objective over it.
pub fn lawful_of()
    ensures law { ProgramsAreLawful }
{}

/// Midpoints and counts of binary digits over the box of a program have room.
pub fn roots_are_near()
    ensures law { RootsAreNear }
{}
