//! A line of a name and its figures.

ghost use Rattle.std.specs.Prelude.{OnOk};
ghost use Rattle.far_io.specs.Adds.{Adds};
ghost use Rattle.bench_lines.specs.Lines.{figure_text, line_text};

use crate::fault::Fault;
use far_io::{Sink, WriteFault, WriteSink, put_all, put_decimal};
use std::io;

/// A figure, by its name, which has no space.
#[derive(Clone, Copy)]
pub struct Figure {
    pub name: &'static [u8],
    pub number: u64,
}

// Gives a space, the figure's name, a space and its number to the sink.
fn put_figure<O: Sink>(sink: &mut O, name: &[u8], number: u64) -> Result<(), WriteFault>
    ensures { OnOk result (Adds O.took sink.old sink.new (figure_text name.now number)) }
{
    put_all(sink, b" ")?;
    put_all(sink, name)?;
    put_all(sink, b" ")?;
    put_decimal(sink, number)
}

/// Gives a line to the sink: a name, and behind it each figure's name and its number in decimal, with a space before
/// each. It takes no memory.
pub fn put_line<O: Sink>(sink: &mut O, name: &[u8], figures: &[Figure]) -> Result<(), WriteFault>
    ensures { OnOk result (Adds O.took sink.old sink.new (line_text name.now figures.now)) }
{
    put_all(sink, name)?;
    for figure in figures {
        put_figure(sink, figure.name, figure.number)?;
    }
    put_all(sink, b"\n")
}

/// Prints such a line.
pub fn print_line<R: Print>(rt: &R, name: &[u8], figures: &[Figure]) -> Result<(), Fault> {
    let mut sink = WriteSink::new(io::writer(rt));
    put_line(&mut sink, name, figures)?;
    Ok(())
}
