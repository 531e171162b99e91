//! The box of all points of an accepted text: where its ends lie, and how many bits it has.

ghost use Rattle.compile_laws.specs.RootLaws.{BitsAreTheSame, DigitsAreTheSame, RootHasFewBits, RootIsNear};

/// A number has as many digits to the search as it has to the limit on the bits of decisions.
pub fn digits_are_the_same()
    ensures law { DigitsAreTheSame }
{}

/// The box of all points of a problem has the bits of the problem's decisions, each as often as it is decided.
pub fn bits_are_the_same()
    ensures law { BitsAreTheSame }
{}

/// The ends of the box of all points of a text that is unfolded whole lie within 2^40.
pub fn root_is_near()
    ensures law { RootIsNear }
{}

/// The box of all points of an accepted text has no more bits than the limit allows.
pub fn root_has_few_bits()
    ensures law { RootHasFewBits }
{}
