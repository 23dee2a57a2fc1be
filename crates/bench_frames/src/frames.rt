//! Frames of one kind: encoded and decoded, beside a copy of as many bytes.
//!
//! The line has the bytes of a frame and, but for `check`, the nanoseconds to encode, to decode and to copy one.

ghost use Rattle.frame_fields.specs.Frames.{AreShort, IsFrame};
ghost use Rattle.req_frames.specs.Requests.{request_fields};
ghost use Rattle.req_frames.specs.Replies.{reply_fields};

use bench_lines::{Fault, Figure, Words, nanos_each, nanos_since, now, print_line};
use far_asks::frames::{Reply, Request};
use far_words::Blob;
use frame_fields::is_frame;
use req_frames::{decode_reply, decode_request, encode_reply, encode_request};
use std::alloc::{AllocError, Global};
use std::rt::Clock;

/// Which frames are measured.
#[derive(Clone, Copy)]
pub enum What {
    /// An append of so many bytes.
    Append(u32),
    /// A put of a key of 16 bytes and a value of 100.
    Put,
    /// A get of a key of 16 bytes.
    Get,
    /// So many places.
    Places(u32),
}

/// So many frames of one kind.
#[derive(Clone, Copy)]
pub struct FrameWork {
    what: What,
    calls: u32,
}

/// The work that the words after `frames` ask for.
pub fn read_work(words: &Words) -> Result<FrameWork, Fault> {
    let size = words.number(2, 0, 65_536)? as u32;
    let calls = words.number(3, 1, 100_000_000)? as u32;
    let what = match words.word(1) {
        "append" => What::Append(size),
        "put" => What::Put,
        "get" => What::Get,
        "places" => What::Places(size.min(4_096)),
        _ => return Err(Fault::Words),
    };
    Ok(FrameWork { what, calls })
}

/// Three calls of a kind.
pub fn little(what: What) -> FrameWork {
    FrameWork { what, calls: 3 }
}

fn put_blob(out: &mut Vec<u8>, len: u32) -> Result<(), AllocError> {
    out.extend_from_slice(&len.to_be_bytes())?;
    for _ in 0..len {
        out.push(b'x').or(Err(AllocError))?;
    }
    Ok(())
}

// The bytes of a frame of this kind.
fn frame_of(alloc: Global, what: What) -> Result<Vec<u8>, AllocError> {
    let mut body = Vec::new(alloc);
    let kind = match what {
        What::Append(_) => 8,
        What::Put => 15,
        What::Get => 16,
        What::Places(_) => 70,
    };
    body.push(kind).or(Err(AllocError))?;
    match what {
        What::Append(len) => {
            put_blob(&mut body, 11)?;
            put_blob(&mut body, len)?;
        }
        What::Put => {
            put_blob(&mut body, 11)?;
            put_blob(&mut body, 16)?;
            put_blob(&mut body, 100)?;
        }
        What::Get => {
            put_blob(&mut body, 11)?;
            put_blob(&mut body, 16)?;
        }
        What::Places(count) => {
            body.extend_from_slice(&count.to_be_bytes())?;
            for _ in 0..count {
                body.extend_from_slice(&[7; 20])?;
            }
        }
    }
    let len = u32::try_from(body.len()).or(Err(AllocError))?;
    let mut frame = Vec::from_slice(alloc, &len.to_be_bytes())?;
    frame.extend_from_slice(body.as_slice())?;
    Ok(frame)
}

fn encode_requests(request: &Request, out: &mut Blob, calls: u32) -> Result<(), AllocError>
    requires { AreShort (request_fields request.now) }
{
    for _ in 0..calls {
        encode_request(request, out)?;
    }
    Ok(())
}

fn encode_replies(reply: &Reply, out: &mut Blob, calls: u32) -> Result<(), AllocError>
    requires { AreShort (reply_fields reply.now) }
{
    for _ in 0..calls {
        encode_reply(reply, out)?;
    }
    Ok(())
}

fn decode_requests(alloc: Global, frame: &[u8], calls: u32) -> Result<(), Fault>
    requires { IsFrame frame.now }
{
    for _ in 0..calls {
        if decode_request(alloc, frame).is_err() {
            return Err(Fault::Refused);
        }
    }
    Ok(())
}

fn decode_replies(alloc: Global, frame: &[u8], calls: u32) -> Result<(), Fault>
    requires { IsFrame frame.now }
{
    for _ in 0..calls {
        if decode_reply(alloc, frame).is_err() {
            return Err(Fault::Refused);
        }
    }
    Ok(())
}

fn copy_all(frame: &[u8], out: &mut Blob, calls: u32) -> Result<(), AllocError> {
    for _ in 0..calls {
        out.clear();
        out.extend_from_slice(frame)?;
    }
    Ok(())
}

// The nanoseconds of all calls that encode a request and that decode it. What is encoded is in `out`.
fn time_request<R: Clock + AllocGlobal>(
    rt: &R,
    frame: &[u8],
    out: &mut Blob,
    calls: u32,
) -> Result<(u64, u64), Fault>
    requires { IsFrame frame.now }
{
    let start = now(rt)?;
    decode_requests(rt.alloc(), frame, calls)?;
    let decodes = nanos_since(rt, start)?;
    let Ok(request) = decode_request(rt.alloc(), frame) else {
        return Err(Fault::Refused);
    };
    let start = now(rt)?;
    encode_requests(&request, out, calls)?;
    Ok((nanos_since(rt, start)?, decodes))
}

// The same of a reply.
fn time_reply<R: Clock + AllocGlobal>(
    rt: &R,
    frame: &[u8],
    out: &mut Blob,
    calls: u32,
) -> Result<(u64, u64), Fault>
    requires { IsFrame frame.now }
{
    let start = now(rt)?;
    decode_replies(rt.alloc(), frame, calls)?;
    let decodes = nanos_since(rt, start)?;
    let Ok(reply) = decode_reply(rt.alloc(), frame) else {
        return Err(Fault::Refused);
    };
    let start = now(rt)?;
    encode_replies(&reply, out, calls)?;
    Ok((nanos_since(rt, start)?, decodes))
}

fn print_frame<R: Print>(
    rt: &R,
    bytes: usize,
    encode: u64,
    decode: u64,
    copy: u64,
    is_check: bool,
) -> Result<(), Fault> {
    let figures = [
        Figure {
            name: b"bytes",
            number: bytes as u64,
        },
        Figure {
            name: b"encode",
            number: encode,
        },
        Figure {
            name: b"decode",
            number: decode,
        },
        Figure {
            name: b"copy",
            number: copy,
        },
    ];
    let shown = if is_check { 1 } else { 4 };
    print_line(rt, b"frame", &figures[..shown])
}

/// Does the work, and prints its line. It refuses where the frame that was encoded isn't the one that was decoded.
pub fn measure<R: Clock + AllocGlobal + Print>(
    rt: &R,
    work: FrameWork,
    is_check: bool,
) -> Result<(), Fault> {
    let frame = frame_of(rt.alloc(), work.what)?;
    let frame = frame.as_slice();
    if !is_frame(frame) {
        return Err(Fault::Refused);
    }
    let mut out = Blob::new(rt.alloc());
    let (encodes, decodes) = match work.what {
        What::Places(_) => time_reply(rt, frame, &mut out, work.calls)?,
        _ => time_request(rt, frame, &mut out, work.calls)?,
    };
    if out.items() != frame {
        return Err(Fault::Refused);
    }
    let start = now(rt)?;
    copy_all(frame, &mut out, work.calls)?;
    let copies = nanos_since(rt, start)?;
    let calls = u64::from(work.calls);
    print_frame(
        rt,
        frame.len(),
        nanos_each(encodes, calls),
        nanos_each(decodes, calls),
        nanos_each(copies, calls),
        is_check,
    )
}
