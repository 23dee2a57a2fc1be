//! Runs over lines: what takes the lines of an input one by one, and the loop that reads them.
#![tactic(auto)]

mod run;
mod taker;

pub use run::run_lines;
pub use taker::LineTaker;
