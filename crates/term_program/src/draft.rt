//! What a program is made of, before its objective is known.

ghost use Rattle.std.specs.Prelude.{◌≡◌, ◌<◌, Some, length, slice_get};

use std::alloc::Global;
use term_store::{CondId, TermStore};

/// The conditions of a constraint, one for each scenario, by their numbers in the store.
#[derive(Drop)]
pub struct Conditions {
    pub ids: Vec<u32>,
}

impl Conditions {
    /// The condition in a scenario.
    pub(crate) fn at(&self, scenario: u32) -> CondId
        requires exists { scenario < length self.now.ids.items }
        ensures { slice_get self.now.ids.items scenario ≡ Some result.0 }
    {
        CondId(self.ids[scenario as usize])
    }
}

/// A chance constraint: its conditions, and `p` and `q` of its threshold.
#[derive(Drop)]
pub struct ChanceConditions {
    pub conditions: Conditions,
    pub p: i64,
    pub q: i64,
}

/// A problem whose objective is still to come: its terms, among them one for each cell, the weight of each scenario and that of all together, and its
/// constraints.
#[derive(Drop)]
pub struct Draft {
    pub alloc: Global,
    pub store: TermStore,
    pub cells: u32,
    pub nodes: Vec<u32>,
    pub weights: Vec<i128>,
    pub whole: i128,
    pub hards: Vec<Conditions>,
    pub chances: Vec<ChanceConditions>,
}
