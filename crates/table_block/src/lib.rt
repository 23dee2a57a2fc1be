//! Blocks of tables: bytes that are records, one after the other.
//!
//! Contracts see a block as the list of its records, each a key and a value. The layout of a record and the hash of a
//! key are in `docs/FORMATS.md`. No call but `BlockBuf::new` takes memory.
#![tactic(auto)]

mod buf;
mod slots;
mod spots;

pub use buf::{BlockBuf, insert, put_record, remove, replace};
pub use slots::{SLOTS, hash_slot};
pub use spots::{Spot, find, next_spot};
