//! A report as the text of its block.

ghost use Rattle.std.specs.Prelude.{◌++◌, OnOk, OnErr};
ghost use Rattle.far_io.specs.Faults.{HasCause};
ghost use Rattle.far_io.specs.Adds.{Adds, AddsPrefix};
ghost use Rattle.far_io.specs.Sends.{Sends, spaced};
ghost use Rattle.quantum_text.specs.LineKind.{numbers_of};
ghost use Rattle.quantum_text.specs.Block.{ended_line, roster_text, report_text};

use crate::line_kind::LineKind;
use crate::shares::put_shares_line;
use demand_book::Report;
use far_io::{Piece, Sink, WriteFault, flush, make_room, push_decimal};

/// The most bytes of a space and a decimal.
const NUMBER_ROOM: usize = 21;

/// The most bytes of a line's word.
const WORD_ROOM: usize = 7;

/// Puts a space and the decimal of each number of the line.
fn put_numbers<O: Sink>(
    kind: LineKind,
    report: &Report,
    sink: &mut O,
    piece: &mut Piece,
) -> Result<(), WriteFault>
    ensures sends { OnOk result (Sends O.took sink.old sink.new piece.old piece.new
        (spaced (numbers_of kind report.now))) }
    ensures prefix { OnErr result (AddsPrefix O.took sink.old sink.new
        (piece.old ++ spaced (numbers_of kind report.now))) }
    ensures cause { HasCause (O.faults sink.old) (O.faults sink.new) result }
{
    for index in 0..kind.count(report) {
        make_room(sink, piece, NUMBER_ROOM)?;
        piece.push(b' ');
        push_decimal(piece, kind.number(report, index));
    }
    Ok(())
}

/// Puts one line of a report, with its line end, into the piece, which goes to the sink as it fills. Whoever calls
/// it flushes the piece. It takes no memory.
pub fn put_block_line<O: Sink>(
    kind: LineKind,
    report: &Report,
    sink: &mut O,
    piece: &mut Piece,
) -> Result<(), WriteFault>
    ensures sends { OnOk result (Sends O.took sink.old sink.new piece.old piece.new
        (ended_line kind (numbers_of kind report.now))) }
    ensures prefix { OnErr result (AddsPrefix O.took sink.old sink.new
        (piece.old ++ ended_line kind (numbers_of kind report.now))) }
    ensures cause { HasCause (O.faults sink.old) (O.faults sink.new) result }
{
    make_room(sink, piece, WORD_ROOM)?;
    piece.push_all(kind.word());
    put_numbers(kind, report, sink, piece)?;
    make_room(sink, piece, 1)?;
    piece.push(b'\n');
    Ok(())
}

/// Puts the line of a report's roster where it changed.
fn put_roster<O: Sink>(report: &Report, sink: &mut O, piece: &mut Piece) -> Result<(), WriteFault>
    ensures sends { OnOk result (Sends O.took sink.old sink.new piece.old piece.new (roster_text report.now)) }
    ensures prefix { OnErr result (AddsPrefix O.took sink.old sink.new (piece.old ++ roster_text report.now)) }
    ensures cause { HasCause (O.faults sink.old) (O.faults sink.new) result }
{
    if !report.changed {
        return Ok(());
    }
    put_shares_line(report, sink, piece)
}

/// Writes the lines of the report, in pieces of 4 KiB: four, and after the first that of its roster where it changed.
/// After a fault the sink took a prefix of them. It takes no memory. `docs/FORMATS.md`, "Quantum blocks", has the form.
pub fn write_report<O: Sink>(report: &Report, sink: &mut O) -> Result<(), WriteFault>
    ensures all { OnOk result (Adds O.took sink.old sink.new (report_text report.now)) }
    ensures prefix { OnErr result (AddsPrefix O.took sink.old sink.new (report_text report.now)) }
    ensures cause { HasCause (O.faults sink.old) (O.faults sink.new) result }
{
    let mut piece = Piece::new();
    put_block_line(LineKind::Quantum, report, sink, &mut piece)?;
    put_roster(report, sink, &mut piece)?;
    for kind in [LineKind::Demand, LineKind::Slices, LineKind::Credits] {
        put_block_line(kind, report, sink, &mut piece)?;
    }
    flush(sink, &mut piece)
}
