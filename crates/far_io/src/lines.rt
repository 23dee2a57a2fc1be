//! Lines of a source, the same for every cutting of it into pieces.

ghost use Rattle.std.specs.Prelude.{◌≡◌, ◌+◌, ◌-◌, ◌^◌, ◌≤◌, ◌↔◌, min, [], length, drop, take, slice_range, IfOk, IsTrue, MatchResult, Err, true, false};
ghost use Rattle.far_io.specs.Faults.{HasCause, Follows, Rose};
ghost use Rattle.far_io.specs.Left.{in_front, IsAtEnd};
ghost use Rattle.far_io.specs.Lines.{line_of};
ghost use Rattle.far_io.specs.LineView.{AgreesOnEnd, AnswersAtOnce};
ghost use Rattle.far_io.specs.Gains.{Gains};
ghost use Rattle.far_io.specs.Reads.{Reads};
ghost use Rattle.far_io.specs.declared.lines.TheConstants.{PIECE};

use crate::outside::{Failed, Source};
use std::alloc::{AllocError, Global};
use std::error::Error;
use std::fmt;
use std::marker::Model;

/// The most bytes that are taken from a source at a time.
const PIECE: usize = 65536;

/// Why no line was read.
#[derive(Clone, Copy, Debug, PartialEq, Eq)]
pub enum LineEnd {
    /// The input is read to its end.
    End,
    /// The source failed. What is left to read stays as it was, so a further call goes on where this one was.
    ReadFault,
    /// More than `limit` bytes come before a line end. What is left to read stays as it was.
    TooLong { limit: usize },
}

impl fmt::Display for LineEnd {
    fn fmt<W: fmt::Write>(&self, f: &mut fmt::Formatter<W>) -> fmt::Result {
        match self {
            LineEnd::End => f.write_str("the input is read to its end"),
            LineEnd::ReadFault => f.write_str("the source failed"),
            LineEnd::TooLong { limit } => write!(f, "a line has more than {limit} bytes"),
        }
    }
}

impl Error for LineEnd {}

/// One line, and what was taken from the source after it. A buffer is used with one source, from whose end on it
/// answers [`LineEnd::End`] without a further take.
#[derive(Drop)]
pub struct LineBuf {
    // The line and what is ahead are parts of these bytes.
    bytes: Vec<u8>,
    limit: usize,
    line_from: usize,
    line_to: usize,
    from: usize,
    to: usize,
    // Among so many bytes ahead no line end was found.
    searched: usize,
    number: u64,
    ended: bool,
}

impl Model for LineBuf {
    ghost use Rattle.std.specs.Prelude.{◌≡◌, ◌+◌, ◌≤◌, slice_range, vec_len, true};
    ghost use Rattle.far_io.specs.LineView.{LineView, IsSearched};
    ghost use Rattle.far_io.specs.declared.lines.TheConstants.{PIECE};

    ghost Value = { LineView };

    ghost view = { λ s. record {
      limit = s.limit;
      line = slice_range s.bytes.items s.line_from s.line_to;
      ahead = slice_range s.bytes.items s.from s.to;
      number = s.number;
      ended = s.ended;
    } };

    ghost invariant = { λ s. (s.from ≤ s.to) × (s.to ≤ vec_len s.bytes) × (s.line_from ≤ s.line_to)
        × (s.line_to ≤ vec_len s.bytes) × (vec_len s.bytes ≡ s.limit + PIECE)
        × (s.ended ≡ true → s.from ≡ s.to) × IsSearched s.searched (slice_range s.bytes.items s.from s.to) };
}

impl LineBuf {
    /// A buffer for lines of at most `limit` bytes, their line ends apart. It reserves its whole room here, and takes
    /// no memory afterwards.
    pub fn new(alloc: Global, limit: usize) -> Result<Self, AllocError>
        ensures { IfOk result (λ line. line ≡ record {
          limit = limit;
          line = [];
          ahead = [];
          number = 0;
          ended = false;
        }) }
    {
        let room = limit.checked_add(PIECE).ok_or(AllocError)?;
        Ok(LineBuf {
            bytes: vec![in alloc; 0u8; room]?,
            limit,
            line_from: 0,
            line_to: 0,
            from: 0,
            to: 0,
            searched: 0,
            number: 0,
            ended: false,
        })
    }

    /// The last line that was read, without its line end.
    pub fn bytes(&self) -> &[u8]
        ensures { result.now ≡ self.now.line }
    {
        &self.bytes[self.line_from..self.line_to]
    }

    /// How many lines were read so far. It stands still at the greatest u64.
    pub fn number(&self) -> u64
        ensures { result ≡ self.now.number }
    {
        self.number
    }

    fn limit(&self) -> usize
        ensures { result ≡ self.now.limit }
    {
        self.limit
    }

    // How many bytes are ahead.
    fn ahead_len(&self) -> usize
        ensures bytes { result ≡ length self.now.ahead }
        ensures room { length self.now.ahead ≤ self.now.limit + PIECE }
    {
        self.to - self.from
    }

    // How many bytes ahead come before the first line end, all where there is none. No byte is searched twice.
    fn end_ahead(&mut self) -> usize
        ensures end { result ≡ length (line_of self.new.ahead) }
        ensures same { self.new ≡ self.old }
    {
        let end = find_end(&self.bytes[self.from..self.to], self.searched);
        self.searched = end;
        end
    }

    /// Whether [`read_line`] answers without a take from the source: where a line end is ahead, or more bytes than the
    /// limit come before one, or the end of the input was met. A run passes on what it wrote before a read that takes.
    pub fn has_line(&mut self) -> bool
        ensures answer { IsTrue result ↔ AnswersAtOnce self.old }
        ensures same { self.new ≡ self.old }
    {
        let end = self.end_ahead();
        let length = self.ahead_len();
        let limit = self.limit();
        self.ended() || end > limit || end < length
    }

    fn ended(&self) -> bool
        ensures ended { result ≡ self.now.ended }
        ensures ahead { self.now.ended ≡ true → self.now.ahead ≡ [] }
    {
        self.ended
    }

    // Remembers that the source has nothing left.
    fn finish(&mut self)
        requires { self.old.ahead ≡ [] }
        ensures { self.new ≡ record self.old { ended = true } }
    {
        self.ended = true;
    }

    // Makes the first `end` bytes ahead the line, and lets go of those up to `rest`.
    fn cut(&mut self, end: usize, rest: usize)
        requires end { end ≤ rest }
        requires rest { rest ≤ length self.old.ahead }
        ensures { self.new ≡ record {
          limit = self.old.limit;
          line = take end self.old.ahead;
          ahead = drop rest self.old.ahead;
          number = min (self.old.number + 1) (2 ^ 64 - 1);
          ended = self.old.ended;
        } }
    {
        self.line_from = self.from;
        self.line_to = self.from + end;
        self.from += rest;
        self.searched = 0;
        self.number = self.number.saturating_add(1);
    }
}

// How many bytes come before the first line end, all where there is none. Among the first `seen` there is none.
#[tactic(auto, using(crate::proofs::LineLaws::passes, crate::proofs::LineLaws::stops))]
fn find_end(bytes: &[u8], seen: usize) -> usize
    requires seen { seen ≤ length bytes.now }
    requires passed { line_of (take seen bytes.now) ≡ take seen bytes.now }
    ensures { result ≡ length (line_of bytes.now) }
{
    for i in seen..bytes.len() {
        if bytes[i] == b'\n' {
            return i;
        }
    }
    bytes.len()
}

// Moves the part to the front.
fn to_front(bytes: &mut [u8], from: usize, to: usize)
    requires order { from ≤ to }
    requires within { to ≤ length bytes.old }
    ensures { take (to - from) bytes.new ≡ slice_range bytes.old from to }
{
    bytes.copy_within(from..to, 0);
}

// Takes a piece from the source, to the place `at` and after it.
fn take_at<S: Source>(source: &mut S, bytes: &mut [u8], at: usize) -> Result<usize, Failed>
    requires { at + PIECE ≤ length bytes.old }
    ensures front { take at bytes.new ≡ take at bytes.old }
    ensures room { IfOk result (λ count. count ≤ PIECE) }
    ensures bytes { MatchResult result
        (λ count. (S.left source.old ≡ in_front (slice_range bytes.new at (at + count)) (S.left source.new))
        × (count ≡ 0 → IsAtEnd (S.left source.new)))
        (λ _. S.left source.new ≡ S.left source.old) }
    ensures cause { HasCause (S.faults source.old) (S.faults source.new) result }
{
    source.take(&mut bytes[at..at + PIECE])
}

// Moves the part to the front where there is no room for a piece after it, and says where it stands.
fn make_room(bytes: &mut [u8], from: usize, to: usize) -> (usize, usize)
    requires order { from ≤ to }
    requires room { to - from + PIECE ≤ length bytes.old }
    requires within { to ≤ length bytes.old }
    ensures order { result.0 ≤ result.1 }
    ensures room { result.1 + PIECE ≤ length bytes.new }
    ensures same { slice_range bytes.new result.0 result.1 ≡ slice_range bytes.old from to }
{
    if bytes.len() - to < PIECE {
        to_front(bytes, from, to);
        (0, to - from)
    } else {
        (from, to)
    }
}

impl LineBuf {
    // Takes a piece from the source, after what is ahead.
    fn fill<S: Source>(&mut self, source: &mut S) -> Result<usize, Failed>
        requires room { length self.old.ahead ≤ self.old.limit }
        requires going { self.old.ended ≡ false }
        ensures limit { self.new.limit ≡ self.old.limit }
        ensures number { self.new.number ≡ self.old.number }
        ensures ended { self.new.ended ≡ self.old.ended }
        ensures line { self.new.line ≡ [] }
        ensures room { length self.new.ahead ≤ self.new.limit + PIECE }
        ensures ahead { MatchResult result
            (λ count. Gains self.old.ahead self.new.ahead
            (S.left source.old) (S.left source.new) count)
            (λ _. (self.new.ahead ≡ self.old.ahead) × (S.left source.new ≡ S.left source.old)) }
        ensures cause { HasCause (S.faults source.old) (S.faults source.new) result }
    {
        self.line_from = 0;
        self.line_to = 0;
        let (from, to) = make_room(&mut self.bytes, self.from, self.to);
        self.from = from;
        self.to = to;
        match take_at(source, &mut self.bytes, to) {
            Ok(count) => {
                self.to = to + count;
                Ok(count)
            }
            Err(failed) => Err(failed),
        }
    }
}

/// Reads the next line into the buffer, without its line end. A last line without a line end is a line where it has at
/// least one byte. It takes no memory, and reads in pieces of 64 KiB.
///
/// What is to be read is what the buffer keeps ahead, and then what the source has left: where the source tells that,
/// each answer is decided by these bytes, but for a fault. After any other answer than Ok the buffer's last line is of
/// no more use, and what is to be read and the count of lines are as before.
pub fn read_line<S: Source>(source: &mut S, line: &mut LineBuf) -> Result<(), LineEnd>
    ensures read { Reads (in_front line.old.ahead (S.left source.old))
        (in_front line.new.ahead (S.left source.new)) line.old line.new result }
    ensures limit { line.new.limit ≡ line.old.limit }

    // At the end the buffer remembers it, and from then on it answers so without a take.
    ensures end { result ≡ Err LineEnd.End → AgreesOnEnd line.old (S.left source.old)
        → IsAtEnd (in_front line.old.ahead (S.left source.old)) }
    ensures agrees { AgreesOnEnd line.old (S.left source.old) → AgreesOnEnd line.new (S.left source.new) }
    ensures remembered { line.old.ended ≡ true → (result ≡ Err LineEnd.End)
        × (line.new ≡ line.old) × (source.new ≡ source.old) }

    // Where has_line holds it takes nothing, so that it needn't wait.
    ensures at_once { AnswersAtOnce line.old → source.new ≡ source.old }

    ensures faults { Follows (S.faults source.old) (S.faults source.new) }
    ensures fault { result ≡ Err LineEnd.ReadFault → Rose (S.faults source.old) (S.faults source.new) }
{
    if line.ended() {
        return Err(LineEnd::End);
    }
    let limit = line.limit();
    'pieces: loop {
        let end = line.end_ahead();
        let length = line.ahead_len();
        if end > limit {
            return Err(LineEnd::TooLong { limit });
        }
        if end < length {
            line.cut(end, end + 1);
            return Ok(());
        }
        match line.fill(source) {
            Err(Failed) => return Err(LineEnd::ReadFault),
            Ok(count) => {
                if count == 0 {
                    if end == 0 {
                        line.finish();
                        return Err(LineEnd::End);
                    }
                    line.cut(end, end);
                    line.finish();
                    return Ok(());
                }
            }
        }
    }
}
