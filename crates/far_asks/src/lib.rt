//! What is asked of the service, what it is told, and what came of it.
//!
//! The words in which it is said are those of `far_words`. The rules are in `docs/RULES.md`, and the texts in `docs/FORMATS.md`.
#![tactic(auto)]

pub mod frames;
mod request;

pub use far_words::Kind;
pub use request::{MOST_IN_REQUEST, Outcome, Reply, Request};
