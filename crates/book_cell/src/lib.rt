//! A demonstration of a demand book in a turn cell: two users report to it at once, each in a thread of its own.
//!
//! Whatever the order of their reports is, each stands once in the one history that is shown, in its user's order, nothing else does, and the book stands
//! for that history. No other crate stands on this one.
#![tactic(auto)]

mod reporters;

pub use reporters::{Reported, report_at_once};

#[cfg(test)]
mod tests;
