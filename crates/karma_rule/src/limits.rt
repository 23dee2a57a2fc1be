//! The limits of a pool's numbers, which contracts cite by name. `docs/RULES.md` has them in words.

/// How many users share a pool at most.
pub const MOST_USERS: u64 = 1024;

/// The greatest fair share, in slices.
pub const MOST_FAIR: u64 = 1 << 32;

/// The most credits that a user starts with.
pub const MOST_CREDITS: u64 = 1 << 60;

/// The greatest demand of a user, in slices.
pub const MOST_DEMAND: u64 = 1 << 42;

/// A quantum begins with credits below this, whatever the users started with.
pub const CREDITS_BOUND: u64 = (1 << 62) - MOST_FAIR;

/// In an open quantum, a row's credits and what the row may still earn stay below this.
pub const CREDITS_TOP: u64 = 1 << 63;

/// The least size of a slice, in bytes.
pub const LEAST_SLICE: u64 = 64;

/// The greatest size of a slice, in bytes.
pub const MOST_SLICE: u64 = 65_536;

/// How many bytes all slices may have together.
pub const MOST_BYTES: u64 = 1 << 30;

/// How many slices all users together may reserve room for, where each reserves room for every slice.
pub const MOST_ROOM: u64 = 1 << 22;
