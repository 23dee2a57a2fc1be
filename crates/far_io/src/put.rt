//! Bytes and numbers to a sink.

ghost use Rattle.std.specs.Prelude.{◌≡◌, ◌+◌, ◌≤◌, [], length, take, decimal, OnErr, OnOk};
ghost use Rattle.far_io.specs.Faults.{HasCause};
ghost use Rattle.far_io.specs.Adds.{Adds, AddsPrefix};

use crate::outside::{Failed, Sink};
use crate::piece::{Piece, flush, push_decimal};
use std::error::Error;
use std::fmt;

/// The sink failed, and took a part of what it was to take.
#[derive(Clone, Copy, Debug, PartialEq, Eq)]
pub struct WriteFault;

impl fmt::Display for WriteFault {
    fn fmt<W: fmt::Write>(&self, f: &mut fmt::Formatter<W>) -> fmt::Result {
        f.write_str("the sink failed")
    }
}

impl Error for WriteFault {}

impl From<WriteFault> for Failed {
    fn from(_: WriteFault) -> Self {
        Failed
    }
}

// Gives these bytes to the sink, in as many gives as it wants, until it fails, and says how many of them it took.
pub(crate) fn give_most<O: Sink>(sink: &mut O, bytes: &[u8]) -> (usize, Result<(), WriteFault>)
    ensures bound { result.0 ≤ length bytes.now }
    ensures all { OnOk result.1 (result.0 ≡ length bytes.now) }
    ensures bytes { Adds O.took sink.old sink.new (take result.0 bytes.now) }
    ensures still { bytes.now ≡ [] → sink.new ≡ sink.old }
    ensures cause { HasCause (O.faults sink.old) (O.faults sink.new) result.1 }
{
    let mut done = 0;
    while done < bytes.len() {
        match sink.give(&bytes[done..]) {
            Ok(count) => done += count,
            Err(Failed) => return (done, Err(WriteFault)),
        }
    }
    (done, Ok(()))
}

/// Gives all these bytes to the sink, in as many gives as it wants. After a fault the sink took a prefix of them. It
/// takes no memory.
pub fn put_all<O: Sink>(sink: &mut O, bytes: &[u8]) -> Result<(), WriteFault>
    ensures all { OnOk result (Adds O.took sink.old sink.new bytes.now) }
    ensures prefix { OnErr result (AddsPrefix O.took sink.old sink.new bytes.now) }
    ensures cause { HasCause (O.faults sink.old) (O.faults sink.new) result }
{
    let (_, result) = give_most(sink, bytes);
    result
}

/// Gives the decimal of a number to the sink. After a fault the sink took a prefix of it. It takes no memory. Where
/// more than a number is written, a [`Piece`] of it all is.
pub fn put_decimal<O: Sink>(sink: &mut O, value: u64) -> Result<(), WriteFault>
    ensures all { OnOk result (Adds O.took sink.old sink.new (decimal value)) }
    ensures prefix { OnErr result (AddsPrefix O.took sink.old sink.new (decimal value)) }
    ensures cause { HasCause (O.faults sink.old) (O.faults sink.new) result }
{
    let mut piece = Piece::new();
    push_decimal(&mut piece, value);
    flush(sink, &mut piece)
}
