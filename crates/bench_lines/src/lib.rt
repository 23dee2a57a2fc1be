//! What the programs of measurements share: their words, times, the line of a name and its figures, and why one ends.
#![tactic(auto)]

mod fault;
mod line;
mod times;
mod words;

pub use fault::{Fault, end_of};
pub use line::{Figure, print_line, put_line};
pub use times::{nanos_each, nanos_since, now};
pub use words::Words;
