//! Frames of a text, each decoded: for a check by another program.
//!
//! Each line of the input is answered by a line. `request HEX` and `reply HEX`, whole frames in digits, are answered by the digits of the frame that the
//! value is encoded to and the value as it is shown to a person, or by `bad PLACE`. `stream PIECE HEX`, bytes that come in pieces of so many, is answered by
//! the length of each frame and the end.

ghost use Rattle.frame_fields.specs.Frames.{AreShort};
ghost use Rattle.req_frames.specs.Requests.{request_fields};
ghost use Rattle.req_frames.specs.Replies.{reply_fields};

use bench_lines::Fault;
use far_asks::frames::{Reply, Request};
use far_io::{LineBuf, MemSource, Raw, Source, parse_decimal, read_line};
use far_words::Blob;
use frame_feed::{Feed, next_frame};
use frame_fields::is_frame;
use req_frames::{decode_reply, decode_request, encode_reply, encode_request};
use std::alloc::{AllocError, Global};
use std::io;

/// The most bytes of a line.
const MOST_LINE: usize = 262_144;

/// The most frames of a stream.
const MOST_FRAMES: u32 = 100;

fn digit(byte: u8) -> Option<u8> {
    match byte {
        b'0'..=b'9' => Some(byte - b'0'),
        b'a'..=b'f' => Some(byte - b'a' + 10),
        _ => None,
    }
}

/// The bytes that a text of two digits each stands for, as far as it does.
fn bytes_of(alloc: Global, text: &[u8]) -> Result<Vec<u8>, AllocError> {
    let mut bytes = Vec::new(alloc);
    for pair in text.chunks_exact(2) {
        let (Some(high), Some(low)) = (digit(pair[0]), digit(pair[1])) else {
            return Ok(bytes);
        };
        let byte = high.wrapping_mul(16).wrapping_add(low);
        bytes.push(byte).or(Err(AllocError))?;
    }
    Ok(bytes)
}

/// A digit of a number below 16.
fn shown_digit(number: u8) -> char {
    match number {
        0..=9 => char::from(b'0' + number),
        10..=15 => char::from(b'a' + (number - 10)),
        _ => '?',
    }
}

/// Two digits for each byte.
fn digits_of(alloc: Global, bytes: &[u8]) -> Result<String, AllocError> {
    let mut text = String::new(alloc);
    for byte in bytes {
        text.push(shown_digit(*byte / 16))?;
        text.push(shown_digit(*byte % 16))?;
    }
    Ok(text)
}

fn printed(done: io::Result<()>) -> Result<(), Fault> {
    match done {
        Ok(()) => Ok(()),
        Err(_) => Err(Fault::Output),
    }
}

fn print_text<R: Print>(rt: &R, text: &str) -> Result<(), Fault> {
    printed(rt.println(text))
}

fn print_request<R: Print + AllocGlobal>(rt: &R, request: &Request) -> Result<(), Fault>
    requires { AreShort (request_fields request.now) }
{
    let mut out = Blob::new(rt.alloc());
    encode_request(request, &mut out)?;
    let digits = digits_of(rt.alloc(), out.items())?;
    printed(println!(rt; "{digits} {request:?}"))
}

fn answer_request<R: Print + AllocGlobal>(rt: &R, frame: &[u8]) -> Result<(), Fault> {
    if !is_frame(frame) {
        return print_text(rt, "no frame");
    }
    match decode_request(rt.alloc(), frame) {
        Ok(request) => print_request(rt, &request),
        Err(end) => printed(rt.println(end)),
    }
}

fn print_reply<R: Print + AllocGlobal>(rt: &R, reply: &Reply) -> Result<(), Fault>
    requires { AreShort (reply_fields reply.now) }
{
    let mut out = Blob::new(rt.alloc());
    encode_reply(reply, &mut out)?;
    let digits = digits_of(rt.alloc(), out.items())?;
    printed(println!(rt; "{digits} {reply:?}"))
}

fn answer_reply<R: Print + AllocGlobal>(rt: &R, frame: &[u8]) -> Result<(), Fault> {
    if !is_frame(frame) {
        return print_text(rt, "no frame");
    }
    match decode_reply(rt.alloc(), frame) {
        Ok(reply) => print_reply(rt, &reply),
        Err(end) => printed(rt.println(end)),
    }
}

fn answer_stream<R: Print + AllocGlobal>(rt: &R, piece: u64, bytes: Vec<u8>) -> Result<(), Fault> {
    let piece = (piece as usize).max(1);
    let mut source = MemSource::new(Raw::from(bytes), piece, Vec::new(rt.alloc()));
    let mut feed = Feed::new(rt.alloc())?;
    for _ in 0..MOST_FRAMES {
        match next_frame(&mut source, &mut feed) {
            Ok(()) => printed(print!(rt; "{} ", feed.frame().len()))?,
            Err(end) => return printed(rt.println(end)),
        }
    }
    print_text(rt, "more")
}

fn answer_line<R: Print + AllocGlobal>(rt: &R, line: &[u8]) -> Result<(), Fault> {
    let mut words = line.split(|byte| *byte == b' ');
    let (Some(verb), Some(second)) = (words.next(), words.next()) else {
        return print_text(rt, "no line");
    };
    if verb == b"request".as_slice() {
        let frame = bytes_of(rt.alloc(), second)?;
        return answer_request(rt, frame.as_slice());
    }
    if verb == b"reply".as_slice() {
        let frame = bytes_of(rt.alloc(), second)?;
        return answer_reply(rt, frame.as_slice());
    }
    match (parse_decimal(second), words.next()) {
        (Some(piece), Some(third)) => {
            let bytes = bytes_of(rt.alloc(), third)?;
            answer_stream(rt, piece, bytes)
        }
        _ => print_text(rt, "no line"),
    }
}

/// Answers each line of the source, until it ends or fails.
pub fn answer_lines<R: Print + AllocGlobal, S: Source>(
    rt: &R,
    source: &mut S,
) -> Result<(), Fault> {
    let mut line = LineBuf::new(rt.alloc(), MOST_LINE)?;
    for _ in 0..u32::MAX {
        if read_line(source, &mut line).is_err() {
            return Ok(());
        }
        answer_line(rt, line.bytes())?;
    }
    Ok(())
}
