//! Propagators, which narrow a box by right steps, and the box in which several of them come to rest; a propagator that keeps what it reckoned is
//! asked again only where a cell that it watches has changed.
//! Its tests stand in `branch_tests`; those of all kinds of propagators in `search_tests`.
#![tactic(auto)]

mod calming;
mod finding;
mod keeping;
mod kept;
mod last_rest;
mod laws;
mod propagator;
mod resting;
mod sweeping;
mod waking;
mod watch;
mod watching;

pub use calming::fixpoint;
pub use finding::{Calm, Finding};
pub use kept::fixpoint_kept;
pub use last_rest::{rested_by, rests_at};
pub use laws::rests_alike;
pub use propagator::Propagator;
pub use resting::Resting;
pub use waking::touch;
pub use watch::{Watch, WatchPlaces};
pub use watching::Watching;
