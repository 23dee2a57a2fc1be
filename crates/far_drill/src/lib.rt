//! The drill: a script that is generated, and a summary of what a replay of it wrote.
//!
//! A [`DrillSource`] tells the script line by line, and a [`DrillSink`] keeps of the output its counts and its digest.
//! Neither takes memory or fails. `docs/FORMATS.md`, "The drill", has the lines and what is counted.
#![tactic(auto)]

mod act;
mod output;
mod script;
mod sink;
mod source;

pub use sink::{DrillSink, Summary};
pub use source::DrillSource;
