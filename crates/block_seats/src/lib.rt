//! A user's blocks and slices: each block in a slice of its own, or known by the stamp of its image in a store.
//!
//! Contracts see a finite map from block numbers, and beside it the purse: the held slices by id, each with its number
//! and the block that lies in it. The rules of slices and blocks are those of docs/RULES.md.
#![tactic(auto)]

mod cell;
mod moves;
mod seat;
mod seating;
mod start;

pub use moves::{HomeMoves, PlacedBlock};
pub use seating::Seating;
