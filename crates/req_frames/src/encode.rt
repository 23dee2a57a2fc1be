//! Whole frames, written.

ghost use Rattle.std.specs.Prelude.{◌≡◌, ◌+◌, ◌-◌, ◌≤◌, ◌++◌, length, take, drop, OnOk};
ghost use Rattle.frame_fields.specs.Fields.{Word, spelling};
ghost use Rattle.frame_fields.specs.Frames.{AreShort, Extends};
ghost use Rattle.req_frames.specs.Answers.{HasOneReading};
ghost use Rattle.req_frames.specs.Requests.{request_frame, request_fields, HasRequestFrame};
ghost use Rattle.req_frames.specs.Replies.{reply_frame, reply_fields, HasReplyFrame};

use crate::put_replies::{self, put_reply};
use crate::put_requests::{self, put_request};
use far_asks::frames::{Reply, Request};
use far_words::Blob;
use frame_fields::put_word;
use std::alloc::AllocError;

/// Writes the length of a frame that begins at `at`, over the four bytes that stand there for it.
fn close_frame(out: &mut Blob, at: usize)
    requires room { at + 4 ≤ length out.old }
    requires short { length out.old ≤ at + 131076 }
    ensures { out.new ≡ take at out.old ++ (spelling (Word (length out.old - (at + 4))) ++ drop (at + 4) out.old) }
{
    let len = (out.items().len() - (at + 4)) as u32;
    let end = at + 4;
    out.items_mut()[at..end].copy_from_slice(&len.to_be_bytes());
}

/// Adds the frame of a request at the end. At an `Err` a beginning of it may stand there, after what stood there before.
pub fn append_request(out: &mut Blob, request: &Request) -> Result<(), AllocError>
    requires { AreShort (request_fields request.now) }
    ensures put { OnOk result (out.new ≡ out.old ++ request_frame request.now) }
    // What stood in front stays there, also at an `Err`.
    ensures kept { Extends out.old out.new }
    // So it is decoded to the same request again.
    ensures within { OnOk result (HasRequestFrame request.now) }
{
    out.reserve(put_requests::room_for(request))?;
    let at = out.items().len();
    put_word(out, 0)?;
    put_request(out, request)?;
    close_frame(out, at);
    Ok(())
}

/// Adds the frame of a reply at the end. At an `Err` a beginning of it may stand there, after what stood there before.
pub fn append_reply(out: &mut Blob, reply: &Reply) -> Result<(), AllocError>
    requires { AreShort (reply_fields reply.now) }
    ensures put { OnOk result (out.new ≡ out.old ++ reply_frame reply.now) }
    // What stood in front stays there, also at an `Err`.
    ensures kept { Extends out.old out.new }
    // So it is decoded to the same reply again.
    ensures within { OnOk result (HasReplyFrame reply.now) }
{
    out.reserve(put_replies::room_for(reply))?;
    let at = out.items().len();
    put_word(out, 0)?;
    put_reply(out, reply)?;
    close_frame(out, at);
    Ok(())
}

/// Puts the frame of a request in place of what `out` held, whose room stays. At an `Err` a beginning of it may stand
/// there.
pub fn encode_request(request: &Request, out: &mut Blob) -> Result<(), AllocError>
    requires { AreShort (request_fields request.now) }
    ensures put { OnOk result (out.new ≡ request_frame request.now) }
    ensures within { OnOk result (HasRequestFrame request.now) }

    // Bytes are frames of one list of requests alone.
    ensures one { HasOneReading request_frame HasRequestFrame }
{
    out.clear();
    append_request(out, request)
}

/// Puts the frame of a reply in place of what `out` held, whose room stays. At an `Err` a beginning of it may stand
/// there.
pub fn encode_reply(reply: &Reply, out: &mut Blob) -> Result<(), AllocError>
    requires { AreShort (reply_fields reply.now) }
    ensures put { OnOk result (out.new ≡ reply_frame reply.now) }
    ensures within { OnOk result (HasReplyFrame reply.now) }

    // Bytes are frames of one list of replies alone.
    ensures one { HasOneReading reply_frame HasReplyFrame }
{
    out.clear();
    append_reply(out, reply)
}
