//! What holds of the replies of `eval`.

ghost use Rattle.answer_eval.specs.EvalLaws.{EvalsEndOnce, SatisfyingAreAnswered};

use policy_eval::reports_are_one;
use policy_read::accepted_are_read;

/// All replies to the same text and the same bytes are one, status and line. It does nothing when it runs.
pub fn evals_end_once()
    ensures law { EvalsEndOnce }
{
    reports_are_one();
}

/// Each reply to bytes that have, as their member `policy`, what is printed of a policy of the text that satisfies, as `solve`
/// prints the best one, is that it satisfies, with its value. It does nothing when it runs.
pub fn satisfying_are_answered()
    ensures law { SatisfyingAreAnswered }
{
    reports_are_one();
    accepted_are_read();
}
