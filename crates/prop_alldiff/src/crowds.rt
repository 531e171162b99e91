//! What `allDifferent` asks of the intervals of its terms.

ghost use Rattle.std.specs.Prelude.{ℕ};
ghost use Rattle.term_language.specs.Globals as globals;
ghost use Rattle.prop_alldiff.specs.Crowds.{any_room};

use prop_operands::Question;
use term_math::Ends;
use term_windows::never_differ;

/// Whether more of the intervals lie between two numbers than there are numbers.
#[derive(Clone, Copy)]
pub(crate) struct Crowds;

impl Question for Crowds {
    ghost fails = { globals.never_differ };

    ghost has_room = { any_room };

    fn is_failed(&mut self, ends: &[Ends]) -> bool {
        never_differ(ends)
    }
}
