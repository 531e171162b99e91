//! Boxes of cells, a problem over their points as a search sees it, the open boxes of a search from one node to the next, and how many
//! binary digits it takes to name a point of a box. The functions are empty and state what was proved of the definitions, so that no body
//! here could be wrong; hence the crate has no must-fail edits.
//! There is nothing to test.
#![tactic(auto)]

mod bit_laws;
mod bound_laws;
mod box_laws;
mod open_laws;
mod search_laws;

pub use bit_laws::{middles_take_a_bit, parts_have_no_more_bits};
pub use bound_laws::{
    best_within_bound, bound_at_last, bound_grows, bound_holds, bound_is_hopeful, unsettled_within,
};
pub use box_laws::{
    cuts_count, cuts_cover, cuts_make_parts, cuts_narrow, cuts_separate, intervals_make_a_box,
    one_point, part_of_itself, parts_of_parts, points_are_counted, points_of_parts,
};
pub use open_laws::{
    best_at_last, none_at_last, open_after_point, open_after_refuted, open_after_split,
    open_after_steps, open_at_first, open_in_any_order, point_is_reached,
};
pub use search_laws::{
    beats_earlier, consistent_point, counts_after_end, counts_after_split, counts_after_steps,
    counts_at_first, counts_in_any_order, counts_leave, covers_after_point, covers_after_refuted,
    covers_after_split, covers_after_steps, covers_at_first, covers_at_last, covers_bound,
    covers_in_any_order, steps_keep, steps_lead_inside, steps_narrow,
};
