//! The statuses of runs.

ghost use Rattle.std.specs.Prelude.{◌≡◌};

/// How a run ended. Each status has a number, which a program ends with.
#[derive(Clone, Copy, Debug, PartialEq, Eq)]
pub enum Status {
    /// The input was read to its end.
    Done,
    /// The words after the program's name are outside their grammar or limits.
    BadWords,
    /// A line is outside the grammar. Its number was written.
    BadLine,
    /// The source failed.
    ReadFault,
    /// The sink failed.
    WriteFault,
    /// No memory was left.
    NoMemory,
    /// No further line is taken.
    Spent,
    /// A line of a log isn't the one that the rule gives. Both were written.
    NotKarma,
}

impl Status {
    ghost use Rattle.run_end.specs.Status.{code_of};

    /// The number that a program ends with.
    pub fn code(self) -> u8
        ensures { result ≡ code_of self }
    {
        match self {
            Status::Done => 0,
            Status::BadWords => 2,
            Status::BadLine => 3,
            Status::ReadFault => 4,
            Status::WriteFault => 5,
            Status::NoMemory => 6,
            Status::Spent => 7,
            Status::NotKarma => 9,
        }
    }
}
