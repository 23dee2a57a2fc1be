//! Why a run ended.

ghost use Rattle.std.specs.Prelude.{◌≡◌};

use crate::faults::{LineFault, WordsFault};
use crate::status::Status;
use std::fmt;

/// Why a run ended: its status, and for a person what led to it. Lines are numbered from 1. It holds no memory, and is
/// shown as one line of plain words.
#[derive(Clone, Copy, Debug, PartialEq, Eq)]
pub enum Why {
    /// The input was read to its end.
    Done,
    /// The words after the program's name are outside their grammar or limits.
    BadWords { fault: WordsFault },
    /// A line is outside the grammar.
    BadLine { number: u64, fault: LineFault },
    /// The source failed.
    ReadFault,
    /// The sink failed.
    WriteFault,
    /// No memory was left.
    NoMemory,
    /// No further line is taken.
    Spent,
    /// A line of a log isn't the one that the rule gives.
    NotKarma { number: u64 },
}

impl Why {
    ghost use Rattle.run_end.specs.Why.{status_of};

    /// The status of a run that ended so.
    pub fn status(self) -> Status
        ensures { result ≡ status_of self }
    {
        match self {
            Why::Done => Status::Done,
            Why::BadWords { fault: _ } => Status::BadWords,
            Why::BadLine {
                number: _,
                fault: _,
            } => Status::BadLine,
            Why::ReadFault => Status::ReadFault,
            Why::WriteFault => Status::WriteFault,
            Why::NoMemory => Status::NoMemory,
            Why::Spent => Status::Spent,
            Why::NotKarma { number: _ } => Status::NotKarma,
        }
    }
}

impl fmt::Display for Why {
    fn fmt<W: fmt::Write>(&self, f: &mut fmt::Formatter<W>) -> fmt::Result {
        match self {
            Why::Done => f.write_str("the input was read to its end"),
            Why::BadWords { fault } => write!(f, "bad words: {fault}"),
            Why::BadLine { number, fault } => write!(f, "line {number} is bad: {fault}"),
            Why::ReadFault => f.write_str("reading failed"),
            Why::WriteFault => f.write_str("writing failed"),
            Why::NoMemory => f.write_str("no memory was left"),
            Why::Spent => f.write_str("a line stands after the last one that is taken"),
            Why::NotKarma { number } => write!(f, "line {number} is not what the rule gives"),
        }
    }
}
