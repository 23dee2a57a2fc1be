//! Requests and replies as frames, both ways.
//!
//! A frame is a length and so many bytes: a kind and the fields of that kind. Each request and each reply has one frame,
//! and no frame begins another. `docs/FORMATS.md` has the table of kinds.
#![tactic(auto)]

/// Reads all of the bytes as the fields that the pattern takes, and gives what is made of these.
macro_rules! read_as {
    ($alloc:expr, $bytes:expr, $fields:pat => $made:expr) => {
        match read_all($alloc, $bytes) {
            Ok($fields) => Ok($made),
            Err(end) => Err(end),
        }
    };
}

mod decode;
mod encode;
mod kinds;
mod put_replies;
mod put_requests;
mod replies;
mod requests;

pub use decode::{FrameEnd, decode_reply, decode_request};
pub use encode::{append_reply, append_request, encode_reply, encode_request};
