//! What holds of the tests of `allDifferent` and `cumulative` over intervals: any two numbers and any time may be looked at and not ends
//! alone, windows that get narrower find each crowd, and an interval that gets smaller makes a crowd only through a window that was
//! tight; so what both conditions are over a box, and when a term of `allDifferent` that shrinks to one of its ends makes it False. All
//! of it is definitions, worked values and laws over them: the functions are empty and state what was proved, so that no body here could
//! be wrong; hence the crate has no must-fail edits.
//! There is nothing to test.
#![tactic(auto)]

mod laws;
mod shrinking_laws;
mod worked;

pub use laws::{
    any_crowd_counts, any_time_may_peak, apart_uncrowded, ends_make_no_crowd, enough_at_all_times,
    false_by_crowds, false_by_peaks, fitting_is_not_failing, intervals_ordered, lows_tell_all,
    task_intervals_ordered, tight_alone, tight_always, tight_begin_at_lows, true_where_apart,
    true_where_enough, windows_find_crowds,
};
pub use shrinking_laws::{
    high_end_stays_open, low_end_stays_open, tight_alone_closes, tight_always_closes,
};
pub use worked::{worked_crowds, worked_open_tasks, worked_sizes_of_parts};
