//! What is wrong with a line or with the words after the program's name, for a person to read.

use std::error::Error;
use std::fmt;

/// A line of a quantum's block, by its first word.
#[derive(Clone, Copy, Debug, PartialEq, Eq)]
pub enum DueLine {
    Quantum,
    Demand,
    Slices,
    Credits,
}

impl fmt::Display for DueLine {
    fn fmt<W: fmt::Write>(&self, f: &mut fmt::Formatter<W>) -> fmt::Result {
        f.write_str(match self {
            DueLine::Quantum => "quantum",
            DueLine::Demand => "demand",
            DueLine::Slices => "slices",
            DueLine::Credits => "credits",
        })
    }
}

/// What is wrong with a line. Words are numbered from 1.
#[derive(Clone, Copy, Debug, PartialEq, Eq)]
pub enum LineFault {
    /// It has more than `limit` bytes.
    TooLong { limit: u64 },
    /// It has `found` words and should have `wanted`.
    WordCount { wanted: u64, found: u64 },
    /// This word is no decimal of 64 bits.
    NoDecimal { word: u64 },
    /// The number that this word spells is above `limit`.
    AboveLimit { word: u64, limit: u64 },
    /// No line begins with its first word.
    UnknownWord,
    /// This word is no path.
    NoPath { word: u64 },
    /// This word is no kind of structure.
    NoKind { word: u64 },
    /// This word is no escaped text.
    NoEscape { word: u64 },
    /// Its word is `shares`, and it tells no roster that may stand here.
    NoShares,
    /// Another line is due here.
    NotDue { due: DueLine },
    /// The input ends, and this line is missing.
    Missing { due: DueLine },
}

impl fmt::Display for LineFault {
    fn fmt<W: fmt::Write>(&self, f: &mut fmt::Formatter<W>) -> fmt::Result {
        match self {
            LineFault::TooLong { limit } => write!(f, "it has more than {limit} bytes"),
            LineFault::WordCount { wanted, found } => {
                write!(f, "words wanted: {wanted}, found: {found}")
            }
            LineFault::NoDecimal { word } => write!(f, "word {word} is no decimal"),
            LineFault::AboveLimit { word, limit } => write!(f, "word {word} is above {limit}"),
            LineFault::UnknownWord => f.write_str("no line begins with its first word"),
            LineFault::NoPath { word } => write!(f, "word {word} is no path"),
            LineFault::NoKind { word } => write!(f, "word {word} is no kind of structure"),
            LineFault::NoEscape { word } => write!(f, "word {word} is no escaped text"),
            LineFault::NoShares => f.write_str(
                "this line `shares` tells no roster that may stand here",
            ),
            LineFault::NotDue { due } => write!(f, "a line `{due}` is due here"),
            LineFault::Missing { due } => write!(
                f,
                "the input ends, and a line `{due}` is missing"
            ),
        }
    }
}

impl Error for LineFault {}

/// A limit of the numbers of a shape. `docs/RULES.md` has the limits.
#[derive(Clone, Copy, Debug, PartialEq, Eq)]
pub enum ShapeLimit {
    /// From 1 to 1,024 users.
    Users,
    /// One user, where only one is served as yet.
    OneUser,
    /// A fair share from 1 to 2^32 slices.
    Fair,
    /// A floor of at most the fair share.
    Floor,
    /// At most 2^60 credits to start with.
    Credits,
    /// A slice from 64 to 65,536 bytes.
    Slice,
    /// At most 2^30 bytes in all slices, and room for at most 2^22 slices over all users.
    Room,
}

impl fmt::Display for ShapeLimit {
    fn fmt<W: fmt::Write>(&self, f: &mut fmt::Formatter<W>) -> fmt::Result {
        f.write_str(match self {
            ShapeLimit::Users => "USERS has to be from 1 to 1024",
            ShapeLimit::OneUser => "USERS has to be 1",
            ShapeLimit::Fair => "FAIR has to be from 1 to 4294967296",
            ShapeLimit::Floor => "FLOOR has to be at most FAIR",
            ShapeLimit::Credits => "CREDITS has to be at most 1152921504606846976",
            ShapeLimit::Slice => "SLICE has to be from 64 to 65536",
            ShapeLimit::Room => {
                "USERS * FAIR * SLICE has to be at most 1073741824, and USERS * USERS * FAIR at most 4194304"
            }
        })
    }
}

/// What is wrong with the words after the program's name. Words are numbered from 1, the command's own.
#[derive(Clone, Copy, Debug, PartialEq, Eq)]
pub enum WordsFault {
    /// There is no word.
    NoCommand,
    /// This word isn't UTF-8.
    NotUtf8 { word: u64 },
    /// The first word names no command.
    UnknownCommand,
    /// There are `found` words and should be `wanted`.
    WordCount { wanted: u64, found: u64 },
    /// This word is no decimal of 64 bits.
    NoDecimal { word: u64 },
    /// The numbers break this limit.
    Limit { limit: ShapeLimit },
}

impl fmt::Display for WordsFault {
    fn fmt<W: fmt::Write>(&self, f: &mut fmt::Formatter<W>) -> fmt::Result {
        match self {
            WordsFault::NoCommand => f.write_str("there is no command"),
            WordsFault::NotUtf8 { word } => write!(f, "word {word} is not UTF-8"),
            WordsFault::UnknownCommand => f.write_str("there is no such command"),
            WordsFault::WordCount { wanted, found } => {
                write!(f, "words wanted: {wanted}, found: {found}")
            }
            WordsFault::NoDecimal { word } => write!(f, "word {word} is no decimal"),
            WordsFault::Limit { limit } => write!(f, "{limit}"),
        }
    }
}

impl Error for WordsFault {}
