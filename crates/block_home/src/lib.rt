//! A user's home: blocks of bytes, each in a slice of its own or parked in the user's store.
//!
//! Contracts see the blocks, the slices and the store of a home, and speak of every map from block numbers to bytes that
//! these hold: one clause serves stores that tell their content, stores that are void, and stores that tell nothing. The
//! rules of slices and blocks are those of docs/RULES.md.
#![tactic(auto)]

mod end;
mod home;
mod stored;

pub use block_seats::{HomeMoves, PlacedBlock};
pub use end::{HomeEnd, StoreFault, YieldEnd};
pub use home::Home;
