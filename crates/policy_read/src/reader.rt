//! The policy of a ground problem is read.

ghost use Rattle.std.specs.Prelude.{◌≡◌, IfOk, IfErr};
ghost use Rattle.sopl_ast.specs.Cells.{cells};
ghost use Rattle.sopl_scen.specs.Layout.{IsTreeOf};
ghost use Rattle.sopl_policy.specs.Kept.{IsPolicyFor};
ghost use Rattle.policy_read.specs.Policies.{HoldsPoint, Point, RefusesPolicy, policy_in, policy_reading};
ghost use Rattle.sopl_unfold.specs.GroundProblem.{ground_problem};

use crate::policy::{PolicyReading, policy_in};
use sopl_base::{Fault, codes};
use sopl_policy::{Policy, policy_of};
use sopl_scen::Tree;
use sopl_unfold::Ground;
use std::alloc::{AllocError, Global};

/// What a text says of a policy of a ground problem.
fn reading_of(
    alloc: Global,
    bytes: &[u8],
    ground: &Ground,
    tree: &Tree,
) -> Result<PolicyReading, AllocError>
    requires tree { IsTreeOf (ground_problem ground.now).decisions (ground_problem ground.now).stochastics tree.now }
    ensures reading { IfOk result (λ reading. policy_reading reading
        ≡ policy_in (ground_problem ground.now).decisions (ground_problem ground.now).stochastics bytes.now) }
    ensures inside { IfOk result (λ reading. HoldsPoint (cells (ground_problem ground.now)) (policy_reading reading)) }
{
    policy_in(alloc, bytes, ground.decisions(), ground.stochs(), tree)
}

/// The policy that a reading holds.
fn policy_held(
    alloc: Global,
    reading: PolicyReading,
    ground: &Ground,
    tree: &Tree,
) -> Result<Policy, Fault>
    requires tree { IsTreeOf (ground_problem ground.now).decisions (ground_problem ground.now).stochastics tree.now }
    requires inside { HoldsPoint (cells (ground_problem ground.now)) (policy_reading reading) }
    ensures policy { IfOk result (IsPolicyFor (ground_problem ground.now)) }
    ensures values { IfOk result (λ policy. policy_reading reading ≡ Point policy.values) }
    ensures refused { IfErr result (RefusesPolicy (policy_reading reading)) }
{
    match reading {
        PolicyReading::Point(values) => {
            let policy = policy_of(alloc, &values, ground, tree)?;
            Ok(policy)
        }
        PolicyReading::NoJson => Err(Fault::refused(codes::POLICY_JSON, 0)),
        PolicyReading::Differs(node) => Err(Fault::refused(codes::POLICY_SHAPE, node)),
        PolicyReading::Outside(cell) => Err(Fault::refused(codes::POLICY_VALUE, cell as usize)),
    }
}

/// The policy that a text holds for a ground problem and its tree, by its member `policy`, which has the form that is printed; members beside the named ones are
/// passed over. Else 401 at 0 where the text is no JSON; 402 at the number, as printed, of the first node that has another form; and where all have the form, 403 at
/// the number of the cell of the first value, as printed, that lies outside its domain. Whole numbers are those within 64 signed bits.
pub fn read(alloc: Global, bytes: &[u8], ground: &Ground, tree: &Tree) -> Result<Policy, Fault>
    requires tree { IsTreeOf (ground_problem ground.now).decisions (ground_problem ground.now).stochastics tree.now }
    ensures policy { IfOk result (IsPolicyFor (ground_problem ground.now)) }
    ensures values { IfOk result (λ policy. policy_in (ground_problem ground.now).decisions (ground_problem ground.now).stochastics bytes.now
        ≡ Point policy.values) }
    ensures refused { IfErr result (RefusesPolicy
        (policy_in (ground_problem ground.now).decisions (ground_problem ground.now).stochastics bytes.now)) }
{
    let reading = reading_of(alloc, bytes, ground, tree)?;
    policy_held(alloc, reading, ground, tree)
}
