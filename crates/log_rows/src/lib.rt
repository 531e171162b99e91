//! The rows of a log: the tree of a search as a table, a row for each node, what they claim, and the lines in which they are written. Lines
//! are gathered before a sink takes them, and want no memory of their own.
//! Its tests stand in `search_tests`.
#![tactic(auto)]

mod line;
mod lines;
mod log_laws;
mod row_lines;
mod rows;
mod text_laws;

pub use line::Line;
pub use lines::{
    add_end, add_footer, add_parent, add_step, put_end, put_footer, put_head, put_node, put_step,
};
pub use log_laws::{
    accepted_logs_are_right, depths_after_end, depths_after_split, depths_at_first,
    depths_in_any_order, leaves_are_apart, leaves_are_few, leaves_have_points, logs_after_end,
    logs_after_split, logs_are_accepted, logs_are_small, logs_are_true, logs_at_first,
    logs_in_any_order, logs_with_open,
};
pub use row_lines::{put_log, put_row, put_rows, put_steps};
pub use rows::{Cut, EndLine, Footer, Parent, Row};
pub use text_laws::texts_are_logs;
