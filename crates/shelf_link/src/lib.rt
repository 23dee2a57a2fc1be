//! Shelves: what blocks are parked in. A call may fail, and the content may be told.
//!
//! Above this crate nothing more is used of a shelf than what it tells, whether it tells that it is void, and what
//! stands under a number. The rules are in `docs/RULES.md`, the promises in `docs/PROMISES.md`.
#![tactic(auto)]

mod calls;
mod crossing;
mod dir;
mod kept;
mod mem;
mod null;
mod shelf;
mod slot;
mod sure;
mod twist;

pub use dir::ShelfDir;
pub use mem::ShelfMem;
pub use null::NullShelf;
pub use shelf::{Got, Shelf};
pub use sure::SureShelf;
pub use twist::ShelfTwist;
