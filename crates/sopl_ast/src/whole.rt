//! A whole model.

use crate::constraints::ConsList;
use crate::decls::Decls;
use crate::expr::Expr;
use sopl_base::Direction;

/// The objective: its direction, whether the worst scenario counts in place of the mean of all, and
/// the expression.
#[derive(Debug, Drop)]
pub struct Goal {
    pub direction: Direction,
    pub worst: bool,
    pub expr: Expr,
}

/// A model: its declarations, its objective if it has one, and its constraints.
#[derive(Debug, Drop)]
pub struct Model {
    pub decls: Decls,
    pub goal: Option<Goal>,
    pub body: ConsList,
}
