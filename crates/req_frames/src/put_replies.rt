//! The bodies of replies, written.

ghost use Rattle.std.specs.Prelude.{OnOk};
ghost use Rattle.frame_fields.specs.FrameLayouts.{tagged};
ghost use Rattle.frame_fields.specs.Frames.{AreShort, HaveShortTexts, Extends, IsPut};
ghost use Rattle.req_frames.specs.Replies.{replies, reply_kind, reply_layout, HasFewRows, reply_rest, reply_fields};

use crate::kinds::ReplyKind;
use far_asks::frames::Reply;
use far_words::Blob;
use frame_fields::{
    put_byte, put_counted, put_found, put_long, put_optional, put_stamp, put_text, put_word,
};
use std::alloc::AllocError;

/// The bytes of a part of 32 bytes behind its count.
const ROOM_OF_NAME: usize = 36;

/// The bytes of a place.
const ROOM_OF_PLACE: usize = 20;

/// Room for all fields of a reply but its blobs and rows: the longest are those of `Damaged`.
const ROOM_BESIDE: usize = 128;

/// Adds the fields that follow the kind of a reply at the end.
fn put_rest(out: &mut Blob, reply: &Reply) -> Result<(), AllocError>
    requires texts { HaveShortTexts (reply_rest reply.now) }
    requires rows { HasFewRows reply.now }
    ensures put { OnOk result
        (IsPut (reply_layout (reply_kind reply.now)) (reply_rest reply.now) out.old out.new) }
    ensures kept { Extends out.old out.new }
{
    match reply {
        Reply::Done
        | Reply::Nothing
        | Reply::Absent
        | Reply::WrongKind
        | Reply::Exists
        | Reply::StoreFault
        | Reply::NoMemory => Ok(()),
        Reply::Number(number)
        | Reply::TooLong { limit: number }
        | Reply::TooMuch { limit: number }
        | Reply::Full { limit: number } => put_long(out, *number),
        Reply::AbsentUser { users } => put_word(out, *users),
        Reply::Bytes(bytes) | Reply::Item(bytes) => put_text(out, bytes.items()),
        Reply::Names(names) => put_counted(out, names.items()),
        Reply::Places(places) => put_counted(out, places.items()),
        Reply::Share {
            demand: first,
            credits: second,
            given: third,
        }
        | Reply::Exhausted {
            need: first,
            used: second,
            granted: third,
        } => {
            put_long(out, *first)?;
            put_long(out, *second)?;
            put_long(out, *third)
        }
        Reply::Damaged { kept, found } => {
            put_stamp(out, kept)?;
            put_found(out, found)
        }
        Reply::Stale { asked, now } => {
            put_long(out, *asked)?;
            put_optional(out, *now)
        }
    }
}

/// Adds the kind of a reply and its fields at the end.
pub fn put_reply(out: &mut Blob, reply: &Reply) -> Result<(), AllocError>
    requires { AreShort (reply_fields reply.now) }
    ensures put { OnOk result (IsPut (tagged replies) (reply_fields reply.now) out.old out.new) }
    ensures kept { Extends out.old out.new }
{
    put_byte(out, ReplyKind::of(reply).byte())?;
    put_rest(out, reply)
}

/// About how many bytes the frame of a reply takes, so that they are reserved at once. It may be any number.
pub fn room_for(reply: &Reply) -> usize {
    let bytes = match reply {
        Reply::Bytes(bytes) => bytes.items().len(),
        Reply::Item(item) => item.items().len(),
        Reply::Names(names) => names.items().len().saturating_mul(ROOM_OF_NAME),
        Reply::Places(places) => places.items().len().saturating_mul(ROOM_OF_PLACE),
        _ => 0,
    };
    bytes.saturating_add(ROOM_BESIDE)
}
