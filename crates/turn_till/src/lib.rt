//! A demonstration of a turn cell: a till, the smallest object with a move, and a day on which two threads call it.
//!
//! Anybody may pay into the till and count what is in it. Only who has the right to move may empty it. No other crate stands on this one: it shows how an
//! object is written and what a cell promises its callers, and it is what the cell is tried with.
#![tactic(auto)]

mod day;
mod till;

pub use day::{Day, serve_two};
pub use till::{Till, TillAsk, TillEntry, TillKey, TillTell};

#[cfg(test)]
mod tests;
