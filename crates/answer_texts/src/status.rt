//! How a run ends.

ghost use Rattle.std.specs.Prelude.{◌≡◌};
ghost use Rattle.answer_texts.specs.Codes.{code_of};

/// How a run ended; its code is the program's exit status.
#[derive(Clone, Copy, Debug, PartialEq, Eq)]
pub enum Status {
    /// An answer, or what was asked for.
    Done,
    /// A policy or a log that is not right.
    Failing,
    /// Words that are not of the form.
    Usage,
    /// A text that breaks a rule.
    Refused,
    /// A text that passes a limit.
    Limit,
    /// The search ended before it was done.
    Bounded,
    /// The source failed.
    ReadFault,
    /// A sink failed.
    WriteFault,
    /// There was no memory.
    NoMemory,
    /// A log or a policy that cannot be read.
    Unreadable,
}

impl Status {
    /// The code, 0 to 9 in the order of the variants.
    pub fn code(&self) -> u8
        ensures code { result ≡ code_of self.now }
    {
        match *self {
            Status::Done => 0,
            Status::Failing => 1,
            Status::Usage => 2,
            Status::Refused => 3,
            Status::Limit => 4,
            Status::Bounded => 5,
            Status::ReadFault => 6,
            Status::WriteFault => 7,
            Status::NoMemory => 8,
            Status::Unreadable => 9,
        }
    }
}
