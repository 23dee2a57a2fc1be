//! The free slices, and which slices are to change hands after a quantum.
//!
//! A pool is seen as a finite map from the slices' ids: each slice as it was given back. `docs/RULES.md` has the rules.
#![tactic(auto)]

mod due;
mod pool;

pub use due::{Due, DueMove, plan_moves};
pub use pool::Pool;
