//! The bytes of a policy.

ghost use Rattle.std.specs.Prelude.{◌≡◌, IfOk};
ghost use Rattle.serde_json.specs.Written.{compact_text};
ghost use Rattle.sopl_scen.specs.Layout.{IsTreeOf};
ghost use Rattle.sopl_policy.specs.Kept.{IsPolicyFor, policy_map};
ghost use Rattle.policy_json.specs.Nodes.{policy_data};
ghost use Rattle.sopl_unfold.specs.GroundProblem.{ground_problem};

use crate::policy::policy_value;
use sopl_policy::Policy;
use sopl_scen::Tree;
use sopl_unfold::Ground;
use std::alloc::{AllocError, Global};

/// The bytes of the outermost node of a policy, as JSON in compact form.
pub fn print(
    alloc: Global,
    policy: &Policy,
    ground: &Ground,
    tree: &Tree,
) -> Result<Vec<u8>, AllocError>
    requires tree { IsTreeOf (ground_problem ground.now).decisions (ground_problem ground.now).stochastics tree.now }
    requires policy { IsPolicyFor (ground_problem ground.now) policy.now }
    ensures bytes { IfOk result (λ bytes. bytes.items
        ≡ compact_text (policy_data (ground_problem ground.now) (policy_map (ground_problem ground.now) policy.now))) }
{
    let values = policy.values();
    let node = policy_value(alloc, ground.decisions(), ground.stochs(), tree, values)?;
    let text = node.to_string(alloc)?;
    Ok(text.into_bytes())
}
