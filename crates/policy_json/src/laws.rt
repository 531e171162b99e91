//! What holds of the JSON of any policy.

ghost use Rattle.std.specs.Prelude.{◌≡◌, ◌++◌, ℕ, List, Some, false};
ghost use Rattle.serde_json.specs.Written.{compact_text, has_float};
ghost use Rattle.sopl_ast.specs.Accepted.{AcceptedModel};
ghost use Rattle.sopl_ast.specs.Instances.{Problem};
ghost use Rattle.sopl_ast.specs.Limits.{Limits};
ghost use Rattle.sopl_ast.specs.Policies.{Policy, IsPolicy};
ghost use Rattle.sopl_ast.specs.Whole.{ModelTree};
ghost use Rattle.policy_json.specs.Held.{held_data};
ghost use Rattle.policy_json.specs.Nodes.{policy_data};
ghost use Rattle.policy_json.specs.Staged.{IsStaged, TextsAreStaged};

/// The JSON of a policy has no float.
pub fn no_float()
    ensures { (problem : Problem) (policy : Policy)
        → has_float (policy_data problem policy) ≡ false }
{}

/// Where a problem comes by stage, its policies hold a value for each decision of each node, and their
/// JSON has these values: no 0 stands for one that is not there. So comes the problem of each accepted
/// text. A printing that shows other values is refused by the clause `held` of `policy_value`.
pub fn held_throughout()
    ensures held { (problem : Problem) (policy : Policy) → IsStaged problem → IsPolicy problem policy
        → held_data problem policy ≡ Some (policy_data problem policy) }
    ensures staged { TextsAreStaged }
{}

/// Different policies of an accepted problem have different JSON, and its text, which ends by itself, is one
/// policy's, whatever stands behind it: from an answer's bytes there is one way back to the policy.
pub fn texts_differ()
    ensures json { (limits : Limits) (model : ModelTree) (problem : Problem) → AcceptedModel limits model problem
        → (p q : Policy) → IsPolicy problem p → IsPolicy problem q
        → policy_data problem p ≡ policy_data problem q → p ≡ q }
    ensures text { (limits : Limits) (model : ModelTree) (problem : Problem) → AcceptedModel limits model problem
        → (p q : Policy) → IsPolicy problem p → IsPolicy problem q → (r s : List ℕ)
        → compact_text (policy_data problem p) ++ r ≡ compact_text (policy_data problem q) ++ s → p ≡ q }
{}
