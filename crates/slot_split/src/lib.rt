//! What the buckets of a table come to: when one is ripe to be split, packed or merged, and which records go where.
//!
//! A bucket has neighbouring slots and a chain of blocks with the records of these slots. Contracts see a block as the
//! list of its records, and a chain as the list of its blocks. The rules are in `docs/RULES.md`.
#![tactic(auto)]

mod acts;
mod moves;
mod packing;
mod plans;
mod records;

pub use acts::{Act, ripe};
pub use moves::{move_plan, pack_plan};
pub use packing::Chain;
pub use plans::{MovePlan, Plan, Rest, Rests};
pub use records::{Records, RecordsEnd};
