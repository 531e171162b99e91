//! A log, read from its bytes: its rows and what it claims, or the code and the line of the first mistake; and written as its text. A line is read freely, and then
//! compared with the line that is written of what was read; so what is read is what would be written.
//! Its tests stand in `search_tests`.
#![tactic(auto)]

mod cutting;
mod fitting;
mod growing;
mod laws;
mod lines;
mod numbers;
mod reader;
mod reading;
mod slots;
mod words;
mod written;

pub use laws::{readings_are_texts, readings_are_unique, texts_are_read};
pub use log_rows::{
    Cut, EndLine, Footer, Parent, Row, put_end, put_footer, put_head, put_node, put_step,
};
pub use reader::{Log, read_log};
pub use written::{write_log, written_is_read};
