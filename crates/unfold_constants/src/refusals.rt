//! The refusal of a text where a test fails.

ghost use Rattle.std.specs.Prelude.{ℕ};
ghost use Rattle.unfold_constants.specs.CountedAnswers.{Answers};
ghost use Rattle.unfold_constants.specs.Traversal as traversal;

use sopl_base::Fault;

/// Refuses the text with this code at this place, unless a test holds.
pub fn unless(holds: bool, code: u16, at: usize) -> Result<(), Fault>
    ensures { (count : ℕ) → Answers (λ u. u) count result (traversal.unless holds code at count) }
{
    if holds {
        Ok(())
    } else {
        Err(Fault::refused(code, at))
    }
}
