//! The next block of a source, read into a report.

ghost use Rattle.std.specs.Prelude.{◌≡◌, ◌+◌, ◌-◌, ◌^◌, min, if◌then◌else◌, length, true, Err, OnOk, IfOk, IfErr};
ghost use Rattle.far_io.specs.Faults.{Follows, Rose, one_more};
ghost use Rattle.far_io.specs.Left.{in_front};
ghost use Rattle.far_io.specs.LineView.{AgreesOnEnd};
ghost use Rattle.far_io.specs.Reads.{ReadsLine};
ghost use Rattle.karma_rule.specs.declared.shape.Shape.{Shape as AShape};
ghost use Rattle.quantum_text.specs.Block.{block_lines};
ghost use Rattle.quantum_text.specs.Reading.{first_lines, TakesNone, ReadsKind, ReadsSecond, ReadsTo, ReadsBlock, IsPartLine, IsReadAgain};

use crate::line_kind::LineKind;
use crate::parse::parse_block_line;
use crate::shares::parse_shares_line;
use demand_book::Report;
use far_io::{LineBuf, LineEnd, Source, read_line};
use karma_rule::Shape;
use std::error::Error;
use std::fmt;

/// Why no report was read.
#[derive(Clone, Copy, Debug, PartialEq, Eq)]
pub enum ReportTextEnd {
    /// No line is left where a block would begin.
    End,
    /// The line with this number, from 1, is outside the grammar, longer than the buffer's limit, or missing.
    BadLine { line: u64 },
    /// The source failed.
    ReadFault,
}

impl fmt::Display for ReportTextEnd {
    fn fmt<W: fmt::Write>(&self, f: &mut fmt::Formatter<W>) -> fmt::Result {
        match self {
            ReportTextEnd::End => f.write_str("no block is left"),
            ReportTextEnd::BadLine { line } => write!(f, "line {line} is no line of a block"),
            ReportTextEnd::ReadFault => f.write_str("the source failed"),
        }
    }
}

impl Error for ReportTextEnd {}

/// The line after those that were read is bad.
fn next_is_bad(line: &LineBuf) -> ReportTextEnd
    ensures { result ≡ ReportTextEnd.BadLine (one_more line.now.number) }
{
    ReportTextEnd::BadLine {
        line: line.number().saturating_add(1),
    }
}

/// The last line that was read is bad.
fn is_bad(line: &LineBuf) -> ReportTextEnd
    ensures { result ≡ ReportTextEnd.BadLine line.now.number }
{
    ReportTextEnd::BadLine {
        line: line.number(),
    }
}

/// Takes the next line, which has to stand there unless the block begins with it.
fn take_line<S: Source>(
    begins: bool,
    source: &mut S,
    line: &mut LineBuf,
) -> Result<(), ReportTextEnd>
    ensures taken { OnOk result (ReadsLine
        (in_front line.old.ahead (S.left source.old)) (in_front line.new.ahead (S.left source.new)) line.old line.new) }
    ensures none { AgreesOnEnd line.old (S.left source.old) → IfErr result (λ end. TakesNone
        line.old.limit line.old.number begins
        (in_front line.old.ahead (S.left source.old)) (in_front line.new.ahead (S.left source.new)) end) }
    ensures limit { line.new.limit ≡ line.old.limit }
    ensures agrees { AgreesOnEnd line.old (S.left source.old) → AgreesOnEnd line.new (S.left source.new) }
    ensures faults { Follows (S.faults source.old) (S.faults source.new) }
    ensures fault { result ≡ Err ReportTextEnd.ReadFault → Rose (S.faults source.old) (S.faults source.new) }
    ensures part { result ≡ Err ReportTextEnd.ReadFault → IsPartLine line.old.limit line.new.ahead }
{
    match read_line(source, line) {
        Ok(()) => Ok(()),
        Err(LineEnd::End) => {
            if begins {
                return Err(ReportTextEnd::End);
            }
            Err(next_is_bad(line))
        }
        Err(LineEnd::TooLong { limit: _ }) => Err(next_is_bad(line)),
        Err(LineEnd::ReadFault) => Err(ReportTextEnd::ReadFault),
    }
}

/// Reads the next line, which is to be of this kind.
fn read_kind<S: Source>(
    kind: LineKind,
    source: &mut S,
    line: &mut LineBuf,
    out: &mut Report,
) -> Result<(), ReportTextEnd>
    ensures read { AgreesOnEnd line.old (S.left source.old) → (shape : AShape) → ReadsKind
        line.old.limit shape line.old.number kind
        (in_front line.old.ahead (S.left source.old)) (in_front line.new.ahead (S.left source.new))
        out.old out.new result }
    ensures number { OnOk result (line.new.number ≡ one_more line.old.number) }
    ensures changed { out.new.changed ≡ out.old.changed }
    ensures limit { line.new.limit ≡ line.old.limit }
    ensures agrees { AgreesOnEnd line.old (S.left source.old) → AgreesOnEnd line.new (S.left source.new) }
    ensures faults { Follows (S.faults source.old) (S.faults source.new) }
    ensures fault { result ≡ Err ReportTextEnd.ReadFault → Rose (S.faults source.old) (S.faults source.new) }
    ensures part { result ≡ Err ReportTextEnd.ReadFault → IsPartLine line.old.limit line.new.ahead }
{
    take_line(kind.is_first(), source, line)?;
    if !parse_block_line(kind, line.bytes(), out) {
        return Err(is_bad(line));
    }
    Ok(())
}

/// Reads the second line of a block, which is to be that of the roster or that of the demands, and says whether it is
/// that of the roster.
fn read_second<S: Source>(
    shape: Shape,
    source: &mut S,
    line: &mut LineBuf,
    out: &mut Report,
) -> Result<bool, ReportTextEnd>
    ensures read { AgreesOnEnd line.old (S.left source.old) → ReadsSecond line.old.limit shape line.old.number
        (in_front line.old.ahead (S.left source.old)) (in_front line.new.ahead (S.left source.new))
        out.old out.new result }
    ensures number { OnOk result (line.new.number ≡ one_more line.old.number) }
    ensures changed { IfOk result (λ told. out.new.changed ≡ (if told then true else out.old.changed)) }
    ensures limit { line.new.limit ≡ line.old.limit }
    ensures agrees { AgreesOnEnd line.old (S.left source.old) → AgreesOnEnd line.new (S.left source.new) }
    ensures faults { Follows (S.faults source.old) (S.faults source.new) }
    ensures fault { result ≡ Err ReportTextEnd.ReadFault → Rose (S.faults source.old) (S.faults source.new) }
    ensures part { result ≡ Err ReportTextEnd.ReadFault → IsPartLine line.old.limit line.new.ahead }
{
    take_line(false, source, line)?;
    if parse_shares_line(shape, line.bytes(), out) {
        return Ok(true);
    }
    if !parse_block_line(LineKind::Demand, line.bytes(), out) {
        return Err(is_bad(line));
    }
    Ok(false)
}

/// Reads the lines of a block up to that of the demands.
fn read_first<S: Source>(
    shape: Shape,
    source: &mut S,
    line: &mut LineBuf,
    out: &mut Report,
) -> Result<(), ReportTextEnd>
    ensures read { AgreesOnEnd line.old (S.left source.old) → ReadsTo first_lines
        line.old.limit shape line.old.number
        (in_front line.old.ahead (S.left source.old)) (in_front line.new.ahead (S.left source.new))
        out.old out.new result }
    ensures number { OnOk result
        (line.new.number ≡ min (line.old.number + length (first_lines out.new.changed)) (2 ^ 64 - 1)) }
    ensures limit { line.new.limit ≡ line.old.limit }
    ensures agrees { AgreesOnEnd line.old (S.left source.old) → AgreesOnEnd line.new (S.left source.new) }
    ensures faults { Follows (S.faults source.old) (S.faults source.new) }
    ensures fault { result ≡ Err ReportTextEnd.ReadFault → Rose (S.faults source.old) (S.faults source.new) }
    ensures part { result ≡ Err ReportTextEnd.ReadFault → IsPartLine line.old.limit line.new.ahead }
{
    out.changed = false;
    read_kind(LineKind::Quantum, source, line, out)?;
    if read_second(shape, source, line, out)? {
        read_kind(LineKind::Demand, source, line, out)?;
    }
    Ok(())
}

/// Reads the next block into a report, whose rows are the users that the block is to have, with the shares that they had
/// in the block before: at first, the shape's. It takes no memory, and `docs/FORMATS.md`, "Quantum blocks", has the
/// grammar.
///
/// After Ok, BadLine and ReadFault the report has what the block's lines tell that were read, and is as it was
/// otherwise. Where no line told a roster, the shares stay. `changed` says whether one did. What is to be read is what
/// the buffer keeps ahead, and then what the source has left: where the source tells that, each answer is decided by
/// these bytes, but for a fault. After Ok the buffer has counted the block's lines.
pub fn read_report<S: Source>(
    shape: Shape,
    source: &mut S,
    line: &mut LineBuf,
    out: &mut Report,
) -> Result<(), ReportTextEnd>
    ensures read { AgreesOnEnd line.old (S.left source.old) → ReadsBlock line.old.limit shape line.old.number
        (in_front line.old.ahead (S.left source.old)) (in_front line.new.ahead (S.left source.new))
        out.old out.new result }

    // What was written is read again.
    ensures one_spelling { AgreesOnEnd line.old (S.left source.old) → IsReadAgain line.old.limit shape
        (in_front line.old.ahead (S.left source.old)) (in_front line.new.ahead (S.left source.new))
        out.old out.new result }

    ensures number { OnOk result
        (line.new.number ≡ min (line.old.number + length (block_lines out.new.changed)) (2 ^ 64 - 1)) }
    ensures limit { line.new.limit ≡ line.old.limit }
    ensures agrees { AgreesOnEnd line.old (S.left source.old) → AgreesOnEnd line.new (S.left source.new) }
    ensures faults { Follows (S.faults source.old) (S.faults source.new) }
    ensures fault { result ≡ Err ReportTextEnd.ReadFault → Rose (S.faults source.old) (S.faults source.new) }

    // A fault hides no bad line: what is ahead then is the part of one line, and not too long.
    ensures part { result ≡ Err ReportTextEnd.ReadFault → IsPartLine line.old.limit line.new.ahead }
{
    read_first(shape, source, line, out)?;
    read_kind(LineKind::Slices, source, line, out)?;
    read_kind(LineKind::Credits, source, line, out)
}
