//! Intervals with a mark of definedness.

ghost use Rattle.std.specs.Prelude.{◌≡◌, pos};
ghost use Rattle.term_language.specs.Ends as ends;
ghost use Rattle.term_language.specs.Forms.{sign};
ghost use Rattle.term_language.specs.Marks as marks;
ghost use Rattle.term_language.specs.declared.answers.Defined.TheVariants.{Always, Never};
ghost use Rattle.term_math.specs.Sights.{sight_of};
ghost use Rattle.term_math.specs.Shown.{IsFit, ends_at, ends_of};

use crate::ends::{Ends, Factor};
use crate::marks::both;
use crate::operations::taken;
use sopl_base::Extreme;
use term_language::Defined;

/// An interval in which a number lies where it is defined, and its mark: of a term, of the non-linear part of one, or of an element.
#[derive(Clone, Copy, Debug)]
pub struct AbstractValue {
    pub ends: Ends,
    pub mark: Defined,
}

impl AbstractValue {
    /// Nothing but cells, and Always defined.
    pub fn clear() -> AbstractValue
        ensures { sight_of result ≡ record { ends = ends.exactly (pos 0); mark = Always } }
    {
        AbstractValue {
            ends: Ends::zero(),
            mark: Defined::Always,
        }
    }

    /// What is Never defined.
    pub fn never(ends: Ends) -> AbstractValue
        ensures { sight_of result ≡ record { ends = ends_of ends; mark = Never } }
    {
        AbstractValue {
            ends,
            mark: Defined::Never,
        }
    }

    /// A sum with a part more.
    pub fn with_part(&self, subtracted: bool, part: &AbstractValue) -> AbstractValue
        requires times { IsFit (ends_at (sign subtracted) (ends_of part.now.ends)) }
        requires plus { IsFit (ends.plus (ends.scaled (sign subtracted) (ends_of part.now.ends)) (ends_of self.now.ends)) }
        ensures { sight_of result ≡ record {
          ends = ends.plus (ends.scaled (sign subtracted) (ends_of part.now.ends)) (ends_of self.now.ends);
          mark = marks.both part.now.mark self.now.mark;
        } }
    {
        let times = part.ends.scaled(&factor(subtracted));
        AbstractValue {
            ends: times.plus(&self.ends),
            mark: both(part.mark, self.mark),
        }
    }

    /// The one that is taken of this number and another, where the whole intervals of both are given.
    pub fn or_other(&self, extreme: Extreme, other: &AbstractValue) -> AbstractValue
        ensures { sight_of result ≡ record {
          ends = ends.picked extreme (ends_of self.now.ends) (ends_of other.now.ends);
          mark = marks.both self.now.mark other.now.mark;
        } }
    {
        AbstractValue {
            ends: taken(extreme, &self.ends, &other.ends),
            mark: both(self.mark, other.mark),
        }
    }
}

/// 1, or -1 for what is subtracted.
pub fn factor(subtracted: bool) -> Factor
    ensures { result.k ≡ sign subtracted }
{
    if subtracted {
        Factor { k: -1 }
    } else {
        Factor { k: 1 }
    }
}
