//! The language of terms and conditions over cells: which linear form, interval and mark a number expression has over a box, which truth a
//! condition has, what both are worth at a point, how large numbers get, and which cells they mention. All of it is definitions, worked
//! values and laws over them: the functions are empty and state what was proved, so that no body here could be wrong; hence the crate has
//! no must-fail edits.
//! There is nothing to test.
#![tactic(auto)]

mod answers;
mod laws;
mod made;
mod mention_laws;
mod mention_vectors;
mod worked;

pub use answers::{Defined, Truth};
pub use laws::{
    intervals_narrow, marks_sharpen, marks_tell, points_exact, points_known, sizes_bound,
    tasks_fit_at_all_times, truths_sharpen, truths_tell, values_lie,
};
pub use made::{Divisor, Operation};
pub use mention_laws::{
    forms_are_mentioned, holding_agrees, intervals_agree, marks_agree, truths_agree, values_agree,
};
pub use mention_vectors::worked_mentions;
pub use worked::{
    worked_elements, worked_forms, worked_intervals, worked_sizes, worked_tasks, worked_truths,
    worked_values,
};
