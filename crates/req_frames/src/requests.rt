//! The bodies of requests: a kind, and the fields of that kind.

ghost use Rattle.std.specs.Prelude.{◌≡◌, [], ◌∷◌, IsTrue};
ghost use Rattle.frame_fields.specs.Fields.{Byte, Text, AByte};
ghost use Rattle.frame_fields.specs.FrameLayouts.{is_in, tagged};
ghost use Rattle.frame_fields.specs.Reads.{Finds, ReadsAll};
ghost use Rattle.req_frames.specs.Requests.{ReadsRequest, requests, request_byte, request_kind, is_named, is_named_blob, request_rest, request_fields};

use crate::kinds::RequestKind as Kind;
use far_asks::frames::Request;
use far_words::{Blob, Path};
use frame_fields::{ReadEnd, byte_at, read_all};
use std::alloc::Global;

/// The kind at the front, and the bytes after it.
fn kind_at(body: &[u8]) -> Option<(Kind, &[u8])>
    ensures { Finds (λ x. Byte (request_byte x.0)) (λ x. x.1.now) (AByte (is_in requests)) body.now result }
{
    let Some((byte, rest)) = byte_at(body) else {
        return None;
    };
    let Some(kind) = Kind::from_byte(byte) else {
        return None;
    };
    Some((kind, rest))
}

/// The request of a kind that a name alone follows.
fn named(kind: Kind, path: Path) -> Request
    requires { IsTrue (is_named kind) }
    ensures kind { request_kind result ≡ kind }
    ensures rest { request_rest result ≡ Text path ∷ [] }
{
    match kind {
        Kind::DropTree => Request::DropTree { path },
        Kind::Lease => Request::Lease { path },
        Kind::Length => Request::Length { path },
        Kind::Pop => Request::Pop { path },
        Kind::Front => Request::Front { path },
        Kind::Count => Request::Count { path },
        Kind::Park => Request::Park { path },
        _ => Request::Load { path },
    }
}

/// The request of a kind that a name and bytes follow.
fn named_blob(kind: Kind, path: Path, bytes: Blob) -> Request
    requires { IsTrue (is_named_blob kind) }
    ensures kind { request_kind result ≡ kind }
    ensures rest { request_rest result ≡ Text path ∷ Text bytes ∷ [] }
{
    match kind {
        Kind::Append => Request::Append { path, bytes },
        Kind::Push => Request::Push { path, item: bytes },
        Kind::Get => Request::Get { path, key: bytes },
        _ => Request::Remove { path, key: bytes },
    }
}

/// The request of a kind, of which these bytes are the fields.
fn request_of(kind: Kind, alloc: Global, bytes: &[u8]) -> Result<Request, ReadEnd>
    ensures { ReadsRequest kind bytes.now result }
{
    match kind {
        Kind::Hello => read_as!(alloc, bytes, (user, ()) => Request::Hello { user }),
        Kind::Make => read_as!(alloc, bytes, (path, (kind, (span, ()))) =>
            Request::Make { path, kind, span }),
        Kind::DropTree
        | Kind::Lease
        | Kind::Length
        | Kind::Pop
        | Kind::Front
        | Kind::Count
        | Kind::Park
        | Kind::Load => read_as!(alloc, bytes, (path, ()) => named(kind, path)),
        Kind::List => read_as!(alloc, bytes, (path, (after, ())) => Request::List { path, after }),
        Kind::Top => read_as!(alloc, bytes, (after, ()) => Request::Top { after }),
        Kind::Renew => read_as!(alloc, bytes, (path, (span, ())) => Request::Renew { path, span }),
        Kind::Append | Kind::Push | Kind::Get | Kind::Remove =>
            read_as!(alloc, bytes, (path, (bytes, ())) => named_blob(kind, path, bytes)),
        Kind::Read => read_as!(alloc, bytes, (path, (from, (len, ()))) =>
            Request::Read { path, from, len }),
        Kind::Put => read_as!(alloc, bytes, (path, (key, (value, ()))) =>
            Request::Put { path, key, value }),
        Kind::Map => read_as!(alloc, bytes, (path, (from, ())) => Request::Map { path, from }),
        Kind::ReadSlice => read_as!(alloc, bytes, (slice, (number, (from, (len, ())))) =>
            Request::ReadSlice { slice, number, from, len }),
        Kind::GetSlice => read_as!(alloc, bytes, (slice, (number, (key, ()))) =>
            Request::GetSlice { slice, number, key }),
        Kind::PutSlice => read_as!(alloc, bytes, (slice, (number, (key, (value, ())))) =>
            Request::PutSlice { slice, number, key, value }),
        Kind::Report => read_as!(alloc, bytes, (demand, ()) => Request::Report { demand }),
        Kind::Share => read_as!(alloc, bytes, () => Request::Share),
        Kind::Bye => read_as!(alloc, bytes, () => Request::Bye),
    }
}

/// The request that a frame's body is.
pub fn read_request(alloc: Global, body: &[u8]) -> Result<Request, ReadEnd>
    ensures { ReadsAll request_fields (tagged requests) body.now result }
{
    let Some((kind, rest)) = kind_at(body) else {
        return Err(ReadEnd::Bad { left: body.len() });
    };
    request_of(kind, alloc, rest)
}
