//! Frames of a source, the same for every cutting of it.
#![tactic(auto)]

mod feed;
mod look;

pub use feed::{Feed, FeedEnd, next_frame};
