//! What holds of the lines of any answers.

ghost use Rattle.std.specs.Prelude.{◌≡◌, ℤ, Some};
ghost use Rattle.sopl_ast.specs.Accepted.{AcceptedModel};
ghost use Rattle.sopl_ast.specs.Instances.{Problem};
ghost use Rattle.sopl_ast.specs.Limits.{Limits};
ghost use Rattle.sopl_ast.specs.Policies.{Policy, IsPolicy};
ghost use Rattle.sopl_ast.specs.Whole.{ModelTree};
ghost use Rattle.answer_lines.specs.AnswerData.{Valued, bounded_data, line_of, optimal_data};

/// Answers of an accepted model with different policies have different lines, whatever their values and bounds
/// are: from the bytes of an answer there is one way back to its policy.
pub fn lines_differ()
    ensures optimal { (limits : Limits) (model : ModelTree) (problem : Problem) → AcceptedModel limits model problem
        → (p q : Policy) → IsPolicy problem p → IsPolicy problem q → (v w : ℤ)
        → line_of (optimal_data problem p v) ≡ line_of (optimal_data problem q w) → p ≡ q }
    ensures bounded { (limits : Limits) (model : ModelTree) (problem : Problem) → AcceptedModel limits model problem
        → (f g : Valued) → IsPolicy problem f.policy → IsPolicy problem g.policy → (b c : ℤ)
        → line_of (bounded_data problem (Some f) b) ≡ line_of (bounded_data problem (Some g) c) → f.policy ≡ g.policy }
{}
