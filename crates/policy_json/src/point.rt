//! A point of the cells, with what its nodes are made from.

use crate::stages::Stage;
use sopl_scen::Tree;
use unfold_variables::{DecisionItem, StochItem};

/// A point, with what it is a point of, and what each stage has.
#[derive(Drop)]
pub(crate) struct Point<'a> {
    pub decisions: &'a [DecisionItem],
    pub stochs: &'a [StochItem],
    pub tree: &'a Tree,
    pub values: &'a [i64],
    pub stages: &'a [Stage],
}
