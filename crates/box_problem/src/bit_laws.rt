//! How many binary digits it takes to name a point of a box.

ghost use Rattle.box_problem.specs.BitLaws.{MiddlesTakeABit, PartsHaveNoMoreBits};

/// A part has no more bits than the whole.
pub fn parts_have_no_more_bits()
    ensures law { PartsHaveNoMoreBits }
{}

/// A cut in the middle of an interval leaves fewer bits on both sides.
pub fn middles_take_a_bit()
    ensures law { MiddlesTakeABit }
{}
