//! Why a call on a home did nothing.

use far_words::{Found, Stamp};
use slice_seq::Slice;

/// Why a call on a home, or on something that is kept in one, did nothing.
#[derive(Clone, Copy, PartialEq, Eq, Debug)]
pub enum HomeEnd {
    /// So many slices are needed, and fewer are unused: of those that are held so many are used.
    Exhausted { need: u64, used: u64, granted: u64 },
    /// The store failed.
    StoreFault,
    /// A block isn't what was parked: the stamp that was kept, and what was found in its place.
    Damaged { kept: Stamp, found: Found },
    /// No memory was found.
    NoMemory,
}

/// What a yield gave.
pub enum YieldEnd {
    /// A slice, which is held no longer.
    Slice(Slice),
    /// No slice is held.
    NoneHeld,
    /// Each slice has a block, and the store failed to take one.
    StoreFault,
}

/// The store failed.
#[derive(Clone, Copy, PartialEq, Eq, Debug)]
pub struct StoreFault;
