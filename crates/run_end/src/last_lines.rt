//! The last lines that runs write for their statuses.

ghost use Rattle.std.specs.Prelude.{OnErr, OnOk};
ghost use Rattle.far_io.specs.Faults.{HasCause};
ghost use Rattle.far_io.specs.Adds.{Adds, AddsPrefix};
ghost use Rattle.run_end.specs.LastLines.{bad_line, bad_words_line, no_memory_line, spent_line, last_line};

use crate::why::Why;
use far_io::{Piece, Sink, WriteFault, flush, push_decimal, put_all};

/// Writes `bad line` and the line's number.
pub fn put_bad_line<O: Sink>(sink: &mut O, number: u64) -> Result<(), WriteFault>
    ensures all { OnOk result (Adds O.took sink.old sink.new (bad_line number)) }
    ensures prefix { OnErr result (AddsPrefix O.took sink.old sink.new (bad_line number)) }
    ensures cause { HasCause (O.faults sink.old) (O.faults sink.new) result }
{
    let mut piece = Piece::new();
    piece.push_all(b"bad line ");
    push_decimal(&mut piece, number);
    piece.push(b'\n');
    flush(sink, &mut piece)
}

/// Writes `spent`.
#[tactic(auto, unfolding(crate::specs::LastLines::spent_line))]
pub fn put_spent<O: Sink>(sink: &mut O) -> Result<(), WriteFault>
    ensures all { OnOk result (Adds O.took sink.old sink.new spent_line) }
    ensures prefix { OnErr result (AddsPrefix O.took sink.old sink.new spent_line) }
    ensures cause { HasCause (O.faults sink.old) (O.faults sink.new) result }
{
    put_all(sink, b"spent\n")
}

/// Writes `bad words`.
#[tactic(auto, unfolding(crate::specs::LastLines::bad_words_line))]
pub fn put_bad_words<O: Sink>(sink: &mut O) -> Result<(), WriteFault>
    ensures all { OnOk result (Adds O.took sink.old sink.new bad_words_line) }
    ensures prefix { OnErr result (AddsPrefix O.took sink.old sink.new bad_words_line) }
    ensures cause { HasCause (O.faults sink.old) (O.faults sink.new) result }
{
    put_all(sink, b"bad words\n")
}

/// Writes `nomemory`.
#[tactic(auto, unfolding(crate::specs::LastLines::no_memory_line))]
pub fn put_no_memory<O: Sink>(sink: &mut O) -> Result<(), WriteFault>
    ensures all { OnOk result (Adds O.took sink.old sink.new no_memory_line) }
    ensures prefix { OnErr result (AddsPrefix O.took sink.old sink.new no_memory_line) }
    ensures cause { HasCause (O.faults sink.old) (O.faults sink.new) result }
{
    put_all(sink, b"nomemory\n")
}

/// Writes the last line of a run that ended so, where it is of no more than the status and a line's number; else
/// nothing.
pub fn put_last_line<O: Sink>(sink: &mut O, why: Why) -> Result<(), WriteFault>
    ensures all { OnOk result (Adds O.took sink.old sink.new (last_line why)) }
    ensures prefix { OnErr result (AddsPrefix O.took sink.old sink.new (last_line why)) }
    ensures cause { HasCause (O.faults sink.old) (O.faults sink.new) result }
{
    match why {
        Why::BadWords { fault: _ } => put_bad_words(sink),
        Why::BadLine { number, fault: _ } => put_bad_line(sink, number),
        Why::NoMemory => put_no_memory(sink),
        Why::Spent => put_spent(sink),
        Why::Done | Why::ReadFault | Why::WriteFault | Why::NotKarma { number: _ } => {
            put_all(sink, b"")
        }
    }
}
