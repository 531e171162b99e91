//! The left sides of constraints.

use sopl_ast::{Expr, Kind};

/// The left side of the condition with this number, if it is a comparison.
pub fn left_of<'a>(conditions: &[&'a Expr], text: u32) -> Option<&'a Expr> {
    let condition = conditions.get(text as usize)?;
    match &condition.kind {
        Kind::Cmp(_, left, _) => Some(left),
        _ => None,
    }
}
