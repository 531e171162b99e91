//! The ground problem of a model: what is known behind its declarations, and the instances that it states.

ghost use Rattle.sopl_ast.specs.WholeModel.{whole};
ghost use Rattle.sopl_unfold.specs.Shown.{Unfolds};

use sopl_types::Typed;
use unfold_constraints::{ChanceItem, HardItem};
use unfold_tables::Table;
use unfold_variables::{DecisionItem, StochItem};

/// What a model states.
#[derive(Drop)]
pub(crate) struct StatedParts {
    pub(crate) table: Table,
    pub(crate) decisions: Vec<DecisionItem>,
    pub(crate) stochs: Vec<StochItem>,
    pub(crate) hards: Vec<HardItem>,
    pub(crate) chances: Vec<ChanceItem>,
}

/// A typed model with the instances that it states; nothing stops its unfolding.
#[derive(Drop)]
pub struct Ground {
    pub(crate) typed: Typed,
    pub(crate) found: StatedParts,
    ghost unfolded: { Unfolds (whole typed.model) found },
}
