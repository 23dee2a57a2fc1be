//! The bodies of replies: a kind, and the fields of that kind.

ghost use Rattle.std.specs.Prelude.{◌≡◌, [], ◌∷◌, IsTrue};
ghost use Rattle.frame_fields.specs.Fields.{Byte, Long, AByte};
ghost use Rattle.frame_fields.specs.FrameLayouts.{is_in, tagged};
ghost use Rattle.frame_fields.specs.Reads.{Finds, ReadsAll};
ghost use Rattle.req_frames.specs.Replies.{ReadsReply, replies, reply_byte, reply_kind, is_alone, is_number, reply_rest, reply_fields};

use crate::kinds::ReplyKind as Kind;
use far_asks::frames::Reply;
use frame_fields::{ReadEnd, Rows, byte_at, read_all};
use std::alloc::Global;

/// The kind at the front, and the bytes after it.
fn kind_at(body: &[u8]) -> Option<(Kind, &[u8])>
    ensures { Finds (λ x. Byte (reply_byte x.0)) (λ x. x.1.now) (AByte (is_in replies)) body.now result }
{
    let Some((byte, rest)) = byte_at(body) else {
        return None;
    };
    let Some(kind) = Kind::from_byte(byte) else {
        return None;
    };
    Some((kind, rest))
}

/// The reply of a kind that says all.
fn alone(kind: Kind) -> Reply
    requires { IsTrue (is_alone kind) }
    ensures kind { reply_kind result ≡ kind }
    ensures rest { reply_rest result ≡ [] }
{
    match kind {
        Kind::Done => Reply::Done,
        Kind::Nothing => Reply::Nothing,
        Kind::Absent => Reply::Absent,
        Kind::WrongKind => Reply::WrongKind,
        Kind::Exists => Reply::Exists,
        Kind::StoreFault => Reply::StoreFault,
        _ => Reply::NoMemory,
    }
}

/// The reply of a kind that a number follows.
fn of_number(kind: Kind, number: u64) -> Reply
    requires { IsTrue (is_number kind) }
    ensures kind { reply_kind result ≡ kind }
    ensures rest { reply_rest result ≡ Long number ∷ [] }
{
    match kind {
        Kind::Number => Reply::Number(number),
        Kind::TooLong => Reply::TooLong { limit: number },
        Kind::TooMuch => Reply::TooMuch { limit: number },
        _ => Reply::Full { limit: number },
    }
}

/// The reply of a kind, of which these bytes are the fields.
fn reply_of(kind: Kind, alloc: Global, bytes: &[u8]) -> Result<Reply, ReadEnd>
    ensures { ReadsReply kind bytes.now result }
{
    match kind {
        Kind::Done
        | Kind::Nothing
        | Kind::Absent
        | Kind::WrongKind
        | Kind::Exists
        | Kind::StoreFault
        | Kind::NoMemory => read_as!(alloc, bytes, () => alone(kind)),
        Kind::Number | Kind::TooLong | Kind::TooMuch | Kind::Full =>
            read_as!(alloc, bytes, (number, ()) => of_number(kind, number)),
        Kind::Bytes => read_as!(alloc, bytes, (bytes, ()) => Reply::Bytes(bytes)),
        Kind::Item => read_as!(alloc, bytes, (item, ()) => Reply::Item(item)),
        Kind::Names => read_as!(alloc, bytes, Rows { items } => Reply::Names(items)),
        Kind::Places => read_as!(alloc, bytes, Rows { items } => Reply::Places(items)),
        Kind::Share => read_as!(alloc, bytes, (demand, (credits, (given, ()))) =>
            Reply::Share { demand, credits, given }),
        Kind::Exhausted => read_as!(alloc, bytes, (need, (used, (granted, ()))) =>
            Reply::Exhausted { need, used, granted }),
        Kind::Damaged => read_as!(alloc, bytes, (kept, found) => Reply::Damaged { kept, found }),
        Kind::Stale => read_as!(alloc, bytes, (asked, now) => Reply::Stale { asked, now }),
        Kind::AbsentUser => read_as!(alloc, bytes, (users, ()) => Reply::AbsentUser { users }),
    }
}

/// The reply that a frame's body is.
pub fn read_reply(alloc: Global, body: &[u8]) -> Result<Reply, ReadEnd>
    ensures { ReadsAll reply_fields (tagged replies) body.now result }
{
    let Some((kind, rest)) = kind_at(body) else {
        return Err(ReadEnd::Bad { left: body.len() });
    };
    reply_of(kind, alloc, rest)
}
