//! Tests of whole runs: words, texts and files go in, and an answer line, a status and a log come out, over sources and sinks in memory.
//!
//! What each command answers stands in `answer_run_words`, `answer_texts_solved`, `whole_logs`, `drawn`, `checks` and `evals`, and how each command line ends
//! in `command_lines`; where the branchers of `main` cut in `cuts`; that no schedule and no habit of a brancher changes an answer in `crews`
//! and `branchers`; and what is left where a call fails, where little fits or where memory runs out in `failing_calls`, `faults` and
//! `streams`. They reach `answer_run` and all crates below it.
#![tactic(auto)]

#[cfg(test)]
mod answer_lines_commands;
#[cfg(test)]
mod answer_run_words;
#[cfg(test)]
mod answer_texts_solved;
#[cfg(test)]
mod branchers;
#[cfg(test)]
mod checks;
#[cfg(test)]
mod command_lines;
#[cfg(test)]
mod crews;
#[cfg(test)]
mod cuts;
#[cfg(test)]
mod drawn;
#[cfg(test)]
mod evals;
#[cfg(test)]
mod failing_calls;
#[cfg(test)]
mod faults;
#[cfg(test)]
mod runs;
#[cfg(test)]
mod streams;
#[cfg(test)]
mod whole_logs;
