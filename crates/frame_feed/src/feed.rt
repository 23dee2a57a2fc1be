//! The feed of a source of frames. No connection has one yet.

ghost use Rattle.std.specs.Prelude.{◌≡◌, ℕ, ◌+◌, ◌<◌, ◌≤◌, ◌↔◌, IsTrue, List, [], ◌++◌, length, drop, take, Some, Err, IfOk, MatchResult};
ghost use Rattle.far_io.specs.Faults.{HasCause, Follows, Rose};
ghost use Rattle.far_io.specs.Left.{in_front};
ghost use Rattle.far_io.specs.Gains.{Gains};
ghost use Rattle.frame_fields.specs.Frames.{IsFrame};
ghost use Rattle.frame_feed.specs.Feeds.{HasFrame, Feeds, Decides, IsRead};

use crate::look::{Ahead, look};
use bytes::BytesMut;
use far_io::{Failed, Source};
use std::alloc::{AllocError, Global};
use std::error::Error;
use std::fmt;
use std::marker::Model;

/// The room of a feed: one frame with its length field.
const ROOM: usize = 131_076;

/// Why no frame was read.
#[derive(Clone, Copy, Debug, PartialEq, Eq)]
pub enum FeedEnd {
    /// The input is read to its end.
    End,
    /// The input ends after `have` bytes of a frame.
    Cut { have: u32 },
    /// The next frame says the length `len`, which is above the greatest.
    TooLong { len: u32 },
    /// The source failed. What is left to read stays as it was.
    ReadFault,
}

impl fmt::Display for FeedEnd {
    fn fmt<W: fmt::Write>(&self, f: &mut fmt::Formatter<W>) -> fmt::Result {
        match self {
            FeedEnd::End => f.write_str("the input is read to its end"),
            FeedEnd::Cut { have } => write!(f, "the input ends after {have} bytes of a frame"),
            FeedEnd::TooLong { len } => write!(f, "a frame says that it has {len} bytes"),
            FeedEnd::ReadFault => f.write_str("the source failed"),
        }
    }
}

impl Error for FeedEnd {}

/// One frame, and what was taken from the source after it.
///
/// A feed is used with one source.
#[derive(Drop)]
pub struct Feed {
    // What was read before, the frame, and what is ahead.
    bytes: BytesMut,
    from: usize,
    to: usize,
}

impl Model for Feed {
    ghost use Rattle.std.specs.Prelude.{◌+◌, ◌≤◌, length, drop, slice_range};
    ghost use Rattle.frame_feed.specs.FeedView.{FeedView};

    ghost Value = { FeedView };

    ghost view = { λ s. record { frame = slice_range s.bytes.items s.from s.to; ahead = drop s.to s.bytes.items } };

    ghost invariant = { λ s. (s.from ≤ s.to) × (s.to ≤ length s.bytes.items)
        × (131076 ≤ length s.bytes.items + s.bytes.spare) };
}

/// Takes bytes from the source into the spare room, in one call.
fn take_into<S: Source>(source: &mut S, bytes: &mut BytesMut) -> Result<usize, Failed>
    requires { 0 < bytes.old.spare }
    ensures room { length bytes.new.items + bytes.new.spare ≡ length bytes.old.items + bytes.old.spare }
    ensures bytes { MatchResult result
        (λ count. Gains bytes.old.items bytes.new.items (S.left source.old) (S.left source.new) count)
        (λ _. (bytes.new.items ≡ bytes.old.items) × (S.left source.new ≡ S.left source.old)) }
    ensures cause { HasCause (S.faults source.old) (S.faults source.new) result }
{
    let len = bytes.len();
    let spare = bytes.capacity() - len;
    bytes.advance_mut(spare);
    match source.take(&mut bytes.as_mut_slice()[len..]) {
        Ok(count) => {
            bytes.truncate(len + count);
            Ok(count)
        }
        Err(failed) => {
            bytes.truncate(len);
            Err(failed)
        }
    }
}

/// Moves what stands from `from` on to the front, and lets go of the rest.
fn to_front(bytes: &mut BytesMut, from: usize)
    requires { from ≤ length bytes.old.items }
    ensures items { bytes.new.items ≡ drop from bytes.old.items }
    ensures room { length bytes.new.items + bytes.new.spare ≡ length bytes.old.items + bytes.old.spare }
{
    if from == 0 {
        return;
    }
    let len = bytes.len();
    bytes.as_mut_slice().copy_within(from..len, 0);
    bytes.truncate(len - from);
}

impl Feed {
    /// A feed that has read nothing. It reserves the room of one frame here, and takes no memory afterwards.
    pub fn new(alloc: Global) -> Result<Feed, AllocError>
        ensures { IfOk result (λ feed. feed ≡ record { frame = []; ahead = [] }) }
    {
        Ok(Feed {
            bytes: BytesMut::with_capacity(alloc, ROOM)?,
            from: 0,
            to: 0,
        })
    }

    /// The last frame that was read, with its length field; empty where `next_frame` gave none last.
    pub fn frame(&self) -> &[u8]
        ensures { result.now ≡ self.now.frame }
    {
        &self.bytes.as_slice()[self.from..self.to]
    }

    fn ahead(&self) -> &[u8]
        ensures { result.now ≡ self.now.ahead }
    {
        &self.bytes.as_slice()[self.to..]
    }

    /// Whether a whole frame is ahead, so that `next_frame` gives it without a call of the source. Who gathers replies
    /// sends them where none is, since the next read may have to wait.
    pub fn has_frame(&self) -> bool
        ensures { IsTrue result ↔ HasFrame self.now.ahead }
    {
        match look(self.ahead()) {
            Ahead::Whole(_) => true,
            Ahead::Long(_) | Ahead::Part => false,
        }
    }

    /// Lets go of the frame.
    fn drop_frame(&mut self)
        ensures { self.new ≡ record { frame = []; ahead = self.old.ahead } }
    {
        self.from = self.to;
    }

    /// Makes so many bytes that are ahead the frame.
    fn cut(&mut self, count: usize)
        requires { count ≤ length self.old.ahead }
        ensures { self.new ≡ record { frame = take count self.old.ahead; ahead = drop count self.old.ahead } }
    {
        let rest = self.ahead().len() - count;
        self.from = self.to;
        self.to = self.bytes.len() - rest;
    }

    /// Takes bytes from the source, after what is ahead.
    fn fill<S: Source>(&mut self, source: &mut S) -> Result<usize, Failed>
        requires { length self.old.ahead < 131076 }
        ensures frame { self.new.frame ≡ [] }
        ensures ahead { MatchResult result
            (λ count. Gains self.old.ahead self.new.ahead (S.left source.old) (S.left source.new) count)
            (λ _. (self.new.ahead ≡ self.old.ahead) × (S.left source.new ≡ S.left source.old)) }
        ensures cause { HasCause (S.faults source.old) (S.faults source.new) result }
    {
        to_front(&mut self.bytes, self.to);
        self.from = 0;
        self.to = 0;
        take_into(source, &mut self.bytes)
    }
}

/// Reads the next frame into the feed.
fn read_next<S: Source>(source: &mut S, feed: &mut Feed) -> Result<(), FeedEnd>
    ensures feeds { Feeds (in_front feed.old.ahead (S.left source.old))
        (in_front feed.new.ahead (S.left source.new)) (S.left source.new) feed.new result }
    ensures faults { Follows (S.faults source.old) (S.faults source.new) }
    ensures fault { result ≡ Err FeedEnd.ReadFault → Rose (S.faults source.old) (S.faults source.new) }
    ensures untaken { HasFrame feed.old.ahead → source.new ≡ source.old }
{
    feed.drop_frame();
    'pieces: loop {
        match look(feed.ahead()) {
            Ahead::Whole(count) => {
                feed.cut(count);
                return Ok(());
            }
            Ahead::Long(len) => return Err(FeedEnd::TooLong { len }),
            Ahead::Part => {}
        }
        let have = feed.ahead().len();
        match feed.fill(source) {
            Err(Failed) => return Err(FeedEnd::ReadFault),
            Ok(count) => {
                if count == 0 {
                    if have == 0 {
                        return Err(FeedEnd::End);
                    }
                    return Err(FeedEnd::Cut { have: have as u32 });
                }
            }
        }
    }
}

/// Reads the next frame into the feed. It takes no memory, and calls the source only where no whole frame is ahead:
/// once where the source gives what is missing at once, for up to as many bytes as the feed has room for.
///
/// What is to be read is what the feed has ahead, and then what the source has left: where the source tells that, each
/// answer is decided by these bytes, but for a fault. After any other answer than Ok the feed's frame is empty, and
/// what is to be read is as before.
pub fn next_frame<S: Source>(source: &mut S, feed: &mut Feed) -> Result<(), FeedEnd>
    ensures feeds { Feeds (in_front feed.old.ahead (S.left source.old))
        (in_front feed.new.ahead (S.left source.new)) (S.left source.new) feed.new result }

    // The bytes decide, whatever the pieces.
    ensures decided { (bytes : List ℕ) → in_front feed.old.ahead (S.left source.old) ≡ Some bytes
        → Decides bytes feed.new.frame result }
    ensures first { (frame more : List ℕ) → IsFrame frame
        → in_front feed.old.ahead (S.left source.old) ≡ Some (frame ++ more) → IsRead frame feed.new.frame result }

    // A fault is answered only where the source counted one.
    ensures faults { Follows (S.faults source.old) (S.faults source.new) }
    ensures fault { result ≡ Err FeedEnd.ReadFault → Rose (S.faults source.old) (S.faults source.new) }

    // Where a whole frame is ahead, the source isn't called.
    ensures untaken { HasFrame feed.old.ahead → source.new ≡ source.old }
{
    read_next(source, feed)
}
