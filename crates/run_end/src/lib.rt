//! How runs end: the statuses with their numbers, the last lines that they write, the limit of a line, and why a run
//! ended, in words for a person. `docs/FORMATS.md` has the statuses and their lines.
#![tactic(auto)]

mod faults;
mod last_lines;
mod status;
mod why;

pub use faults::{DueLine, LineFault, ShapeLimit, WordsFault};
pub use last_lines::{put_bad_line, put_bad_words, put_last_line, put_no_memory, put_spent};
pub use status::Status;
pub use why::Why;

/// The most bytes of a line of input, its line end apart.
pub const MOST_LINE: usize = 262_144;
