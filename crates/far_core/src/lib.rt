//! The service of one thread: the free slices, those in hand, and a user's tenant, event by event.
#![tactic(auto)]

mod service;
mod slices;

pub use service::{Core, CoreEvent, Ran};
