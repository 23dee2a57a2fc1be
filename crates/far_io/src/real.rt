//! The edges to the real outside: a source over a reader of std, and a sink over a writer.
//!
//! They tell nothing of what is left or was taken. They hand on what std tells of the reader and the writer; what a
//! file, a pipe or a terminal delivers is trusted to std.

ghost use Rattle.std.specs.Prelude.{◌≡◌, ◌<◌, ◌↔◌, None, IsSome};
ghost use Rattle.std.specs.Io.{ReadsAtMost, WritesAtMost};
ghost use Rattle.std.specs.Io.KnownBytes.{ReadConsumes, WriteAppends};
ghost use Rattle.far_io.specs.Faults.{HasCause, counted, one_more};
ghost use Rattle.far_io.specs.Left.{Takes};
ghost use Rattle.far_io.specs.Adds.{Adds, taken, GivesSome};
ghost use Rattle.far_io.specs.Counted.{NothingTold};

use crate::outside::{Failed, Sink, Source};
use std::io::{Error, ErrorKind, Read, Result as IoResult, Write};
use std::marker::Model;

/// How often a call is made at most: once, and 64 times more where it was interrupted each time.
const TRIES: u8 = 65;

// Reads once, and again where the call was interrupted.
fn read_patiently<R: Read>(inner: &mut R, out: &mut [u8]) -> IoResult<usize>
    ensures bound { ReadsAtMost result out.new }
    ensures bytes { ReadConsumes (R.remaining inner.old) (R.remaining inner.new) result out.new }
{
    for _ in 1..TRIES {
        match inner.read(out) {
            Ok(count) => return Ok(count),
            Err(error) => {
                if error.kind() != ErrorKind::Interrupted {
                    return Err(error);
                }
            }
        }
    }
    inner.read(out)
}

// Writes once, and again where the call was interrupted.
fn write_patiently<W: Write>(inner: &mut W, bytes: &[u8]) -> IoResult<usize>
    ensures bound { WritesAtMost result bytes.now }
    ensures bytes { WriteAppends (W.contents inner.old) (W.contents inner.new) result bytes.now }
{
    for _ in 1..TRIES {
        match inner.write(bytes) {
            Ok(count) => return Ok(count),
            Err(error) => {
                if error.kind() != ErrorKind::Interrupted {
                    return Err(error);
                }
            }
        }
    }
    inner.write(bytes)
}

/// A source over a reader. A read that fails counts as a fault, an interrupted one after 64 further tries. The count
/// stands still at the greatest u64.
#[derive(Drop)]
pub struct ReadSource<R: Drop> {
    inner: R,
    faults: u64,
    // The last error, once a call failed.
    error: Option<Error>,
}

impl<R: Drop> Model for ReadSource<R> {
    ghost use Rattle.std.specs.Prelude.{◌<◌, ◌↔◌, IsSome};
    ghost use Rattle.far_io.specs.Counted.{Counted};

    ghost Value = { Counted R };

    ghost view = { λ s. record { object = s.inner; faults = s.faults } };

    ghost invariant = { λ s. IsSome s.error ↔ (0 < s.faults) };
}

impl<R: Read + Drop> ReadSource<R> {
    /// A source over this reader.
    pub fn new(inner: R) -> Self
        ensures { result ≡ record { object = inner; faults = 0 } }
    {
        ReadSource {
            inner,
            faults: 0,
            error: None,
        }
    }

    /// The error of the last call that failed.
    pub fn last_error(&self) -> Option<&Error>
        ensures { IsSome result ↔ (0 < self.now.faults) }
    {
        self.error.as_ref()
    }

    // Counts a fault, and keeps its error.
    fn fail(&mut self, error: Error) -> Failed
        ensures { self.new ≡ record self.old { faults = one_more self.old.faults } }
    {
        self.faults = self.faults.saturating_add(1);
        self.error = Some(error);
        Failed
    }
}

#[tactic(auto, unfolding(crate::specs::Left::in_front))]
impl<R: Read + Drop> Source for ReadSource<R> {
    ghost left = { λ _. None };

    ghost faults = { λ s. counted s.faults };

    fn take(&mut self, out: &mut [u8]) -> Result<usize, Failed>
        ensures bound { ReadsAtMost result out.new }
        ensures bytes { Takes None None result out.new }
        ensures cause { HasCause (counted self.old.faults) (counted self.new.faults) result }

        // What std tells of the reader.
        ensures object { ReadConsumes (R.remaining self.old.object) (R.remaining self.new.object) result out.new }
    {
        match read_patiently(&mut self.inner, out) {
            Ok(count) => Ok(count),
            Err(error) => Err(self.fail(error)),
        }
    }
}

/// A sink over a writer. A write that fails counts as a fault, one that takes no byte of a piece that has some too, and
/// an interrupted one after 64 further tries. The count stands still at the greatest u64.
#[derive(Drop)]
pub struct WriteSink<W: Drop> {
    inner: W,
    faults: u64,
    // The last error, once a call failed.
    error: Option<Error>,
}

impl<W: Drop> Model for WriteSink<W> {
    ghost use Rattle.std.specs.Prelude.{◌<◌, ◌↔◌, IsSome};
    ghost use Rattle.far_io.specs.Counted.{Counted};

    ghost Value = { Counted W };

    ghost view = { λ s. record { object = s.inner; faults = s.faults } };

    ghost invariant = { λ s. IsSome s.error ↔ (0 < s.faults) };
}

impl<W: Write + Drop> WriteSink<W> {
    /// A sink over this writer.
    pub fn new(inner: W) -> Self
        ensures { result ≡ record { object = inner; faults = 0 } }
    {
        WriteSink {
            inner,
            faults: 0,
            error: None,
        }
    }

    /// The error of the last call that failed. One that took no byte has the kind WriteZero.
    pub fn last_error(&self) -> Option<&Error>
        ensures { IsSome result ↔ (0 < self.now.faults) }
    {
        self.error.as_ref()
    }

    // Counts a fault, and keeps its error.
    fn fail(&mut self, error: Error) -> Failed
        ensures { self.new ≡ record self.old { faults = one_more self.old.faults } }
    {
        self.faults = self.faults.saturating_add(1);
        self.error = Some(error);
        Failed
    }
}

impl<W: Write + Drop> Sink for WriteSink<W> {
    ghost took = { NothingTold };

    ghost faults = { λ s. counted s.faults };

    fn give(&mut self, bytes: &[u8]) -> Result<usize, Failed>
        ensures bound { GivesSome result bytes.now }
        ensures bytes { Adds NothingTold self.old self.new (taken result bytes.now) }
        ensures cause { HasCause (counted self.old.faults) (counted self.new.faults) result }

        // What std tells of the writer.
        ensures object { WriteAppends (W.contents self.old.object) (W.contents self.new.object) result bytes.now }
    {
        match write_patiently(&mut self.inner, bytes) {
            Ok(count) => {
                if count == 0 && !bytes.is_empty() {
                    return Err(self.fail(Error::new(ErrorKind::WriteZero, "no byte was taken")));
                }
                Ok(count)
            }
            Err(error) => Err(self.fail(error)),
        }
    }
}
