//! What stands at the front of bytes.

ghost use Rattle.frame_feed.specs.Feeds.{Looks};

use frame_fields::{MOST_IN_FRAME, said_by};

/// What stands at the front of bytes.
#[derive(Clone, Copy, Debug, PartialEq, Eq)]
pub enum Ahead {
    /// A whole frame, of so many bytes with its length field.
    Whole(usize),
    /// The beginning of a frame that says this length, which is too long.
    Long(u32),
    /// Less than a frame.
    Part,
}

/// What stands at the front of these bytes.
pub fn look(bytes: &[u8]) -> Ahead
    ensures { Looks bytes.now result }
{
    let Some(len) = said_by(bytes) else {
        return Ahead::Part;
    };
    if len > MOST_IN_FRAME {
        return Ahead::Long(len);
    }
    let count = 4 + len as usize;
    if bytes.len() < count {
        return Ahead::Part;
    }
    Ahead::Whole(count)
}
