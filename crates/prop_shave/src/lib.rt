//! Shaving: what is found of a program's box for one reason, by tests of both ends of the cells that the reason mentions, and as large a
//! right step there as doubled and then halved numbers of values reach. The truth of a chance constraint in each scenario and the ends of each part
//! of an objective over the box are handed in: where one cell has another interval, only the scenarios and the parts that mention the cell are seen
//! anew, and a cell is passed over where these cannot close the box whatever they become, or where the weight or the end, turned by as much as is handed in
//! for each of the cell's ends, leaves it open.
//! The tests of `prop_term` and of `prop_chance` in `search_tests` reach it.
#![tactic(auto)]

mod chance_delta;
mod end_turns;
mod goal_bounds;
mod goal_delta;
mod lists;
mod part_ends;
mod probes;
mod removals;
mod shave_steps;
mod staying;
mod touched_parts;
mod touched_scenarios;
mod turning;
mod weights;

pub use chance_delta::ChanceDelta;
pub use end_turns::{EndTurns, EndsTold};
pub use goal_delta::GoalDelta;
pub use lists::{has, put_if};
pub use part_ends::{PartEnds, see_part};
pub use probes::Probe;
pub use shave_steps::{CellEnd, Shave};
pub use touched_parts::{TouchedParts, parts_touching};
pub use touched_scenarios::{TouchedScenarios, scenarios_touching};
pub use weights::{is_too_little, weight_unless_false};
