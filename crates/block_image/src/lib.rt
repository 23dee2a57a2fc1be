//! Images of blocks: what is put into a store when a block is parked, and read back from it.
//!
//! An image has a stamp, which says whose block it is, which, how long, and the digest of its content, and then the
//! content. The layout is in `docs/FORMATS.md`. No call takes memory.
#![tactic(auto)]

mod image;
mod read;

pub use image::{HEAD, MOST_IN_BLOCK, stamp_of, write_image};
pub use read::{View, read_image};
