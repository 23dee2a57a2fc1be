//! The last texts of `audit`.

ghost use Rattle.std.specs.Prelude.{◌≡◌, ℕ, List, [], ◌∷◌, ◌++◌, OnErr, OnOk};
ghost use Rattle.far_io.specs.Faults.{HasCause};
ghost use Rattle.far_io.specs.Adds.{Adds, AddsPrefix};
ghost use Rattle.quantum_text.specs.LineKind.{numbers_of};
ghost use Rattle.plan_run.specs.AuditText.{ok_line, wanted_text, read_text, not_karma};

use demand_book::Report;
use far_io::{Piece, Sink, WriteFault, flush, push_decimal, put_all};
use quantum_text::{LineKind, put_block_line};

// Writes the number of a line that isn't the one that is wanted, and the wanted line.
fn put_wanted<O: Sink>(
    sink: &mut O,
    number: u64,
    kind: LineKind,
    wanted: &Report,
) -> Result<(), WriteFault>
    ensures all { OnOk result (Adds O.took sink.old sink.new (wanted_text number kind (numbers_of kind wanted.now))) }
    ensures prefix { OnErr result (AddsPrefix O.took sink.old sink.new
        (wanted_text number kind (numbers_of kind wanted.now))) }
    ensures cause { HasCause (O.faults sink.old) (O.faults sink.new) result }
{
    let mut piece = Piece::new();
    piece.push_all(b"not karma line ");
    push_decimal(&mut piece, number);
    piece.push_all(b"\nwant ");
    put_block_line(kind, wanted, sink, &mut piece)?;
    flush(sink, &mut piece)
}

// Writes a line and its line end.
fn put_ended<O: Sink>(sink: &mut O, line: &[u8]) -> Result<(), WriteFault>
    ensures all { OnOk result (Adds O.took sink.old sink.new (line.now ++ 10 ∷ [])) }
    ensures prefix { OnErr result (AddsPrefix O.took sink.old sink.new (line.now ++ 10 ∷ [])) }
    ensures cause { HasCause (O.faults sink.old) (O.faults sink.new) result }
{
    put_all(sink, line)?;
    put_all(sink, b"\n")
}

// Writes the line that was read.
fn put_read<O: Sink>(sink: &mut O, line: &[u8]) -> Result<(), WriteFault>
    ensures all { OnOk result (Adds O.took sink.old sink.new (read_text line.now)) }
    ensures prefix { OnErr result (AddsPrefix O.took sink.old sink.new (read_text line.now)) }
    ensures cause { HasCause (O.faults sink.old) (O.faults sink.new) result }
{
    put_all(sink, b"read ")?;
    put_ended(sink, line)
}

/// Writes the three lines for a line that isn't the one that is wanted.
pub(crate) fn put_not_karma<O: Sink>(
    sink: &mut O,
    number: u64,
    kind: LineKind,
    wanted: &Report,
    line: &[u8],
) -> Result<(), WriteFault>
    ensures all { OnOk result (Adds O.took sink.old sink.new
        (not_karma number kind (numbers_of kind wanted.now) line.now)) }
    ensures prefix { OnErr result (AddsPrefix O.took sink.old sink.new
        (not_karma number kind (numbers_of kind wanted.now) line.now)) }
    ensures cause { HasCause (O.faults sink.old) (O.faults sink.new) result }
{
    put_wanted(sink, number, kind, wanted)?;
    put_read(sink, line)
}

/// Writes the count of blocks of a good log.
pub(crate) fn put_ok<O: Sink>(sink: &mut O, blocks: u64) -> Result<(), WriteFault>
    ensures all { OnOk result (Adds O.took sink.old sink.new (ok_line blocks)) }
    ensures prefix { OnErr result (AddsPrefix O.took sink.old sink.new (ok_line blocks)) }
    ensures cause { HasCause (O.faults sink.old) (O.faults sink.new) result }
{
    let mut piece = Piece::new();
    piece.push_all(b"ok ");
    push_decimal(&mut piece, blocks);
    piece.push(b'\n');
    flush(sink, &mut piece)
}
