//! The fields of frames, read and written: numbers, texts, names, digests, and what is made of such.
//!
//! What stands in a frame is [`Framed`]. Contracts see a value as the list of its fields, and its type as the layout of
//! these: which fields follow one another. A pair is framed as its parts one after the other, so the type of a tuple is
//! the layout of a frame's body, and one proof serves all. `docs/FORMATS.md` has the fields.
#![tactic(auto)]

mod digests;
mod ends;
mod framed;
mod lengths;
mod names;
mod numbers;
mod rows;
mod stamps;
mod texts;

pub use digests::put_digest;
pub use ends::ReadEnd;
pub use framed::{Framed, read_all};
pub use lengths::{MOST_IN_FRAME, is_frame, said_by};
pub use names::{put_after, put_kind, put_path};
pub use numbers::{byte_at, put_byte, put_long, put_optional, put_word};
pub use rows::{Row, Rows, put_counted};
pub use stamps::{put_found, put_stamp};
pub use texts::put_text;
