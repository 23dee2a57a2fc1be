//! The limits of contents. Those of requests are in `far_asks`, and that of a block in `block_image`.

/// The most bytes of a file, 2^40.
pub const MOST_IN_FILE: u64 = 1 << 40;

/// The most items of a queue, 2^40.
pub const MOST_IN_QUEUE: u64 = 1 << 40;
