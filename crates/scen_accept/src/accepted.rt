//! What an accepted text states.

use sopl_scen::Tree;
use sopl_unfold::Ground;

/// The ground problem of a text, and the scenarios of it.
#[derive(Drop)]
pub struct AcceptedProblem {
    pub ground: Ground,
    pub tree: Tree,
}
