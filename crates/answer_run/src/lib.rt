//! The top call: the words of the command line, a source and two sinks in, one answer line and a status out.
//!
//! `run` reads the words and the text of the model; what a command is answered on that text is the reply of `answer_texts`. Where it takes
//! a second file, `run` reads that behind the text, and the reply is that of `answer_check` or `answer_eval`.
//! Its tests stand in `run_tests`.
#![tactic(auto)]

mod commands;
mod drawn;
mod files;
mod options;
mod pair;
mod reply;
mod request;
mod top;
mod words;
mod worked;

pub use answer_texts::Status;
pub use top::run;
pub use words::{Word, Words};
pub use worked::{
    worked_branchers, worked_numbers, worked_positional_words, worked_requests, worked_seats,
};
