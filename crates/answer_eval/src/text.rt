//! The text of which a policy is evaluated.

ghost use Rattle.std.specs.Prelude.{◌≡◌, ℕ, List, IfOk, IfErr, string_bytes};
ghost use Rattle.scen_accept.specs.Stated.{IsLaid, States, model_in};
ghost use Rattle.answer_texts.specs.Away.{IsTurnedAway};
ghost use Rattle.answer_texts.specs.Models.{IsSolvable};
ghost use Rattle.answer_texts.specs.Replies.{IsFaultOn};
ghost use Rattle.answer_texts.specs.Solving.{IsSolveFault};
ghost use Rattle.answer_texts.specs.declared.command.Command.TheVariants.{Solve};
ghost use Rattle.answer_texts.specs.declared.command.Detail.TheVariants.{Full};
ghost use Rattle.answer_eval.specs.EvalReplies.{IsEvalReply, IsStatedFor};

use answer_texts::{Reply, away_reply, terms_allowed};
use scen_accept::{AcceptedProblem, stated_in};
use sopl_base::Fault;
use std::alloc::{AllocError, Global};

/// What an accepted text states, where it is solved. Its program is made, so that each limit on its terms is told, and dropped.
fn solvable(alloc: Global, stated: AcceptedProblem) -> Result<AcceptedProblem, Fault>
    requires stated { (text : List ℕ) × States text stated }
    requires laid_out { IsLaid stated }
    ensures same { IfOk result (λ found. found ≡ stated) }
    ensures solvable { IfOk result (λ found. IsSolvable (model_in stated)) }
    ensures refused { IfErr result (IsSolveFault (model_in stated)) }
{
    terms_allowed(alloc, &stated)?;
    Ok(stated)
}

/// What a text states of which policies are evaluated. Or why `solve` does not solve the text: its first rule that is broken, or the
/// limit that it passes.
pub fn text_to_eval(alloc: Global, text: &[u8]) -> Result<AcceptedProblem, Fault>
    ensures stated { IfOk result (IsStatedFor text.now) }
    ensures refused { IfErr result (IsFaultOn text.now (Solve Full)) }
{
    let stated = stated_in(alloc, text)?;
    solvable(alloc, stated)
}

/// The reply to a text of which no policy is evaluated, for this fault, whatever the policy. It is refused only where memory runs out.
pub fn unsolved_reply(alloc: Global, fault: Fault) -> Result<Reply, AllocError>
    ensures reply { (text bytes : List ℕ) → IsFaultOn text (Solve Full) fault
        → IfOk result (λ reply. IsEvalReply text bytes reply.status (string_bytes reply.line)) }
    ensures of_text { IfOk result (λ reply. IsTurnedAway reply.status) }
{
    away_reply(alloc, fault)
}
