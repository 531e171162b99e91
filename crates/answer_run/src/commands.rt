//! The table of commands.

ghost use Rattle.std.specs.Prelude.{◌≡◌, option_map};
ghost use Rattle.answer_run.specs.Words as spec;
ghost use Rattle.answer_run.specs.Shown.{row_shown};

use crate::options::Kind;
use answer_texts::{Command, Detail};

/// A command on the text of a model and the bytes of a second file, which is read where the text is taken.
#[derive(Clone, Copy, Debug, PartialEq, Eq)]
pub enum PairCommand {
    /// Is each line of a log of the text right?
    Check,
    /// Does a policy of the text satisfy, and what is it worth?
    Eval,
}

/// A command on a text that is drawn, and not read.
#[derive(Clone, Copy, Debug, PartialEq, Eq)]
pub enum DrawnCommand {
    /// The text.
    Gen,
    /// A summary of what a search finds for the text.
    Demo,
}

/// What a command is done on.
#[derive(Clone, Copy, Debug, PartialEq, Eq)]
pub enum Job {
    /// The text of a model.
    Text(Command),
    /// Such a text and a second file.
    Pair(PairCommand),
    /// A text that is drawn of two numbers.
    Drawn(DrawnCommand),
}

/// A row of the table: what is done on what, the command's name, the options that may stand behind it, and how many positional words do.
#[derive(Clone, Copy, Drop)]
pub struct CommandRow {
    pub job: Job,
    pub name: &'static str,
    pub options: &'static [Kind],
    pub positional: usize,
}

/// All commands.
const COMMANDS: [CommandRow; 6] = [
    CommandRow {
        job: Job::Text(Command::Solve(Detail::Full)),
        name: "solve",
        options: &[
            Kind::Budget,
            Kind::Branch,
            Kind::Seats,
            Kind::Order,
            Kind::Log,
        ],
        positional: 1,
    },
    CommandRow {
        job: Job::Text(Command::Tree),
        name: "tree",
        options: &[],
        positional: 1,
    },
    CommandRow {
        job: Job::Pair(PairCommand::Check),
        name: "check",
        options: &[],
        positional: 2,
    },
    CommandRow {
        job: Job::Pair(PairCommand::Eval),
        name: "eval",
        options: &[],
        positional: 2,
    },
    CommandRow {
        job: Job::Drawn(DrawnCommand::Gen),
        name: "gen",
        options: &[],
        positional: 2,
    },
    CommandRow {
        job: Job::Drawn(DrawnCommand::Demo),
        name: "demo",
        options: &[Kind::Budget],
        positional: 2,
    },
];

/// The row of the command of this name.
pub fn row_named(word: &str) -> Option<CommandRow>
    ensures { option_map row_shown result ≡ spec.row_named word.now }
{
    COMMANDS.iter().copied().find(|row| row.name == word)
}
