//! The bodies of requests, written.

ghost use Rattle.std.specs.Prelude.{[], ◌∷◌, OnOk};
ghost use Rattle.frame_fields.specs.Fields.{Word, Long};
ghost use Rattle.frame_fields.specs.FrameLayouts.{Stop, tagged};
ghost use Rattle.frame_fields.specs.Parts.{a_word, a_long};
ghost use Rattle.frame_fields.specs.Frames.{AreShort, HaveShortTexts, Extends, IsPut};
ghost use Rattle.req_frames.specs.Requests.{requests, request_kind, request_layout, request_rest, request_fields};

use crate::kinds::RequestKind;
use far_asks::frames::Request;
use far_words::Blob;
use frame_fields::{put_after, put_byte, put_kind, put_long, put_path, put_text, put_word};
use std::alloc::AllocError;

/// Room for all fields of a request but its blobs: a path has at most 263 bytes.
const ROOM_BESIDE_BLOBS: usize = 512;

/// Adds the pair of a slice and its number at the end.
fn put_pair(out: &mut Blob, slice: u32, number: u64) -> Result<(), AllocError>
    ensures put { OnOk result (IsPut (a_word (a_long Stop)) (Word slice ∷ Long number ∷ []) out.old out.new) }
    ensures kept { Extends out.old out.new }
{
    put_word(out, slice)?;
    put_long(out, number)
}

/// Adds the fields that follow the kind of a request at the end.
fn put_rest(out: &mut Blob, request: &Request) -> Result<(), AllocError>
    requires { HaveShortTexts (request_rest request.now) }
    ensures put { OnOk result
        (IsPut (request_layout (request_kind request.now)) (request_rest request.now) out.old out.new) }
    ensures kept { Extends out.old out.new }
{
    match request {
        Request::Share | Request::Bye => Ok(()),
        Request::Hello { user } => put_word(out, *user),
        Request::Report { demand } => put_long(out, *demand),
        Request::Top { after } => put_after(out, after),
        Request::DropTree { path }
        | Request::Lease { path }
        | Request::Length { path }
        | Request::Pop { path }
        | Request::Front { path }
        | Request::Count { path }
        | Request::Park { path }
        | Request::Load { path } => put_path(out, path),
        Request::List { path, after } => {
            put_path(out, path)?;
            put_after(out, after)
        }
        Request::Renew { path, span: number } | Request::Map { path, from: number } => {
            put_path(out, path)?;
            put_long(out, *number)
        }
        Request::Append { path, bytes }
        | Request::Push { path, item: bytes }
        | Request::Get { path, key: bytes }
        | Request::Remove { path, key: bytes } => {
            put_path(out, path)?;
            put_text(out, bytes.items())
        }
        Request::Make { path, kind, span } => {
            put_path(out, path)?;
            put_kind(out, *kind)?;
            put_long(out, *span)
        }
        Request::Read { path, from, len } => {
            put_path(out, path)?;
            put_long(out, *from)?;
            put_word(out, *len)
        }
        Request::Put { path, key, value } => {
            put_path(out, path)?;
            put_text(out, key.items())?;
            put_text(out, value.items())
        }
        Request::ReadSlice {
            slice,
            number,
            from,
            len,
        } => {
            put_pair(out, *slice, *number)?;
            put_word(out, *from)?;
            put_word(out, *len)
        }
        Request::GetSlice { slice, number, key } => {
            put_pair(out, *slice, *number)?;
            put_text(out, key.items())
        }
        Request::PutSlice {
            slice,
            number,
            key,
            value,
        } => {
            put_pair(out, *slice, *number)?;
            put_text(out, key.items())?;
            put_text(out, value.items())
        }
    }
}

/// Adds the kind of a request and its fields at the end.
pub fn put_request(out: &mut Blob, request: &Request) -> Result<(), AllocError>
    requires { AreShort (request_fields request.now) }
    ensures put { OnOk result (IsPut (tagged requests) (request_fields request.now) out.old out.new) }
    ensures kept { Extends out.old out.new }
{
    put_byte(out, RequestKind::of(request).byte())?;
    put_rest(out, request)
}

/// About how many bytes the frame of a request takes, so that they are reserved at once. It may be any number.
pub fn room_for(request: &Request) -> usize {
    let bytes = match request {
        Request::Append { path: _, bytes } => bytes.items().len(),
        Request::Push { path: _, item } => item.items().len(),
        Request::Put {
            path: _,
            key,
            value,
        } => key.items().len().saturating_add(value.items().len()),
        Request::PutSlice {
            slice: _,
            number: _,
            key,
            value,
        } => key.items().len().saturating_add(value.items().len()),
        _ => 0,
    };
    bytes.saturating_add(ROOM_BESIDE_BLOBS)
}
