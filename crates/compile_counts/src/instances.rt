//! The places and the conditions of instances of constraints.

ghost use Rattle.std.specs.Prelude.{◌≡◌, ◌<◌, length, map, slice_get, IfOk, Some};
ghost use Rattle.sopl_ast.specs.References.{now_of};
ghost use Rattle.unfold_constants.specs.Here.{known_in};
ghost use Rattle.unfold_laws.specs.Conditions.{placed};
ghost use Rattle.unfold_tables.specs.Tables.{table_known};

use sopl_ast::Expr;
use std::alloc::{AllocError, Global};
use unfold_constants::ConstantScope;
use unfold_constraints::Env;
use unfold_tables::Table;

/// What is known at an instance of a constraint, whose binders give this.
#[tactic(auto, using(crate::proofs::Copied::copied))]
pub fn known_at<'a>(
    alloc: Global,
    table: &'a Table,
    env: &'a Env,
) -> Result<ConstantScope<'a>, AllocError>
    ensures known { IfOk result (λ known. known_in known ≡ placed (table_known table.now) env.now) }
{
    let bound = env.as_slice();
    let mut known = ConstantScope::for_names(alloc, table, bound.len());
    'bound: for binding in bound {
        known.bind(&binding.0, binding.1)?;
    }
    Ok(known)
}

/// The condition of the instances with this number, among all conditions of a text.
pub fn condition_at<'a>(conditions: &[&'a Expr], text: u32) -> &'a Expr
    requires exists { text < length conditions.now }
    ensures at { slice_get (map now_of conditions.now) text ≡ Some result.now }
{
    conditions[text as usize]
}
