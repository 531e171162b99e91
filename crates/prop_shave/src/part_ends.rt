//! The ends of the parts of an expected objective's sum over a box.

ghost use Rattle.std.specs.Prelude.{◌≡◌, ◌<◌, length, IfSome};
ghost use Rattle.box_problem.specs.Box.{Inside};
ghost use Rattle.term_language.specs.declared.answers.Defined.TheVariants.{Always};
ghost use Rattle.term_language.specs.Ends.{ends, scaled};
ghost use Rattle.term_problem.specs.Problems.{direction_in};
ghost use Rattle.term_program.specs.Programs.{IsMade, problem_in, root_in, things_in};
ghost use Rattle.prop_shave.specs.GoalKnown.{IsPartSeen, IsWorsened};
ghost use Rattle.prop_shave.specs.GoalSums.{worse_end};

use crate::goal_bounds::{end_of_part, worse_end_of_part};
use crate::turning::turned;
use box_store::BoxStore;
use sopl_base::Wide;
use term_goals::Atom;
use term_language::Defined;
use term_program::{Program, Range, TermId, range_of};

/// The better end of a part over a box, and, where the part has a value all over the box, the worse one.
#[derive(Clone, Copy)]
pub struct PartEnds {
    pub better: Wide,
    pub worse: Option<Wide>,
}

impl PartEnds {
    /// A sum with the worse end in place of the better one; none where there is no worse one, or no room.
    pub(crate) fn worsened(&self, sum: Wide) -> Option<Wide>
        ensures { IfSome result (λ new. IsWorsened self.now sum.value new.value) }
    {
        match &self.worse {
            Some(worse) => turned(sum, self.better, *worse),
            None => None,
        }
    }
}

/// The worse end of a part with this range, where it has a value all over the box.
fn worse_in(program: &Program, atom: &Atom, range: &Range) -> Option<Wide>
    ensures always { IfSome result (λ w. range.now.defined ≡ Always) }
    ensures worse { IfSome result (λ w. w.value ≡ worse_end (direction_in (problem_in program.now)) (scaled atom.now.k (ends range.now.interval.lo range.now.interval.hi))) }
{
    match range.defined {
        Defined::Never => None,
        Defined::Maybe => None,
        Defined::Always => worse_end_of_part(program.direction(), atom, &range.interval),
    }
}

/// Sees a part over the box of a store: its ends there, or none where they have no room.
pub fn see_part(program: &Program, atom: &Atom, store: &BoxStore) -> Option<PartEnds>
    requires made { IsMade program.now }
    requires inside { Inside store.now.box (root_in program.now) }
    requires exists { atom.now.term < length (things_in program.now) }
    ensures { IfSome result (IsPartSeen program.now store.now.box atom.now) }
{
    let range = range_of(program, TermId(atom.term), store);
    let better = end_of_part(program.direction(), atom, &range.interval)?;
    let worse = worse_in(program, atom, &range);
    Some(PartEnds { better, worse })
}
