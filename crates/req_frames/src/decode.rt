//! Whole frames, read.

ghost use Rattle.std.specs.Prelude.{◌≡◌, ◌^◌, ◌<◌, ◌≤◌, ℕ, length};
ghost use Rattle.far_asks.specs.declared.frames.Request.{Request as Asked};
ghost use Rattle.far_asks.specs.declared.frames.Reply.{Reply as Told};
ghost use Rattle.frame_fields.specs.Reads.{Blames};
ghost use Rattle.frame_fields.specs.Frames.{IsFrame};
ghost use Rattle.req_frames.specs.Requests.{request_frame, HasRequestFrame, IsBadRequest};
ghost use Rattle.req_frames.specs.Replies.{reply_frame, HasReplyFrame, IsBadReply};
ghost use Rattle.req_frames.specs.Answers.{IsDecoded, IsOneOf, IsBadAt, IsEndOf};

use crate::replies::read_reply;
use crate::requests::read_request;
use far_asks::frames::{Reply, Request};
use frame_fields::ReadEnd;
use std::alloc::Global;
use std::error::Error;
use std::fmt;

/// Why a frame was not decoded.
#[derive(Clone, Copy, Debug, PartialEq, Eq)]
pub enum FrameEnd {
    /// It is outside the grammar: `place` bytes of it, its length field included, come before the first field that is
    /// cut off, outside its grammar or no kind, or where all fields are well, before the first byte that is left.
    BadFrame { place: u32 },
    NoMemory,
}

impl fmt::Display for FrameEnd {
    fn fmt<W: fmt::Write>(&self, f: &mut fmt::Formatter<W>) -> fmt::Result {
        match self {
            FrameEnd::BadFrame { place } => write!(f, "the frame is wrong from byte {place} on"),
            FrameEnd::NoMemory => f.write_str("no memory for what a frame holds"),
        }
    }
}

impl Error for FrameEnd {}

/// The end of a frame of this length whose body ends so.
fn end_of(length: usize, end: ReadEnd) -> FrameEnd
    requires within { Blames (λ left. left ≤ length) end }
    requires length { length < 2 ^ 32 }
    ensures { IsEndOf length end result }
{
    match end {
        ReadEnd::Bad { left } => FrameEnd::BadFrame {
            place: (length - left) as u32,
        },
        ReadEnd::NoMemory => FrameEnd::NoMemory,
    }
}

/// The request of a whole frame, as `frame_feed` gives it: it is as long as its first four bytes say.
///
/// It takes memory for the blobs of the frame alone.
pub fn decode_request(alloc: Global, frame: &[u8]) -> Result<Request, FrameEnd>
    requires { IsFrame frame.now }

    // What is decoded is spelled so, and a place that is told is the bad one.
    ensures decoded { IsDecoded request_frame HasRequestFrame IsBadRequest frame.now result }

    // The frame of a request is decoded to it, and a bad place is told, but for want of memory.
    ensures only { (request : Asked) → HasRequestFrame request → frame.now ≡ request_frame request → IsOneOf request result }
    ensures bad { (place : ℕ) → IsBadRequest frame.now place → IsBadAt place result }
{
    match read_request(alloc, &frame[4..]) {
        Ok(request) => Ok(request),
        Err(end) => Err(end_of(frame.len(), end)),
    }
}

/// The reply of a whole frame, as `frame_feed` gives it: it is as long as its first four bytes say.
///
/// It takes memory for the blobs and rows of the frame alone.
pub fn decode_reply(alloc: Global, frame: &[u8]) -> Result<Reply, FrameEnd>
    requires { IsFrame frame.now }

    // What is decoded is spelled so, and a place that is told is the bad one.
    ensures decoded { IsDecoded reply_frame HasReplyFrame IsBadReply frame.now result }

    // The frame of a reply is decoded to it, and a bad place is told, but for want of memory.
    ensures only { (reply : Told) → HasReplyFrame reply → frame.now ≡ reply_frame reply → IsOneOf reply result }
    ensures bad { (place : ℕ) → IsBadReply frame.now place → IsBadAt place result }
{
    match read_reply(alloc, &frame[4..]) {
        Ok(reply) => Ok(reply),
        Err(end) => Err(end_of(frame.len(), end)),
    }
}
