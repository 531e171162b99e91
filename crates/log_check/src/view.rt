//! A log while it is checked.

use crate::sides::Sides;
use log_rows::{Footer, Row};
use term_program::Program;

/// The rows and the claim of a log, with the sides of each row, and the program that they are checked against.
#[derive(Clone, Copy)]
pub(crate) struct LogView<'a> {
    pub(crate) program: &'a Program,
    pub(crate) rows: &'a [Row],
    pub(crate) footer: &'a Footer,
    pub(crate) sides: &'a [Sides],
}
