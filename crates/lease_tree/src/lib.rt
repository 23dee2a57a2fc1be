//! A user's names, each with a lease and a body.
#![tactic(auto)]

mod lease;
mod leases;
mod order;
mod tree;

pub use tree::{HasKind, Tree, TreeEnd};
