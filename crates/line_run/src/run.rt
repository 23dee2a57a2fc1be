//! The loop that reads lines and has them taken.

ghost use Rattle.std.specs.Prelude.{◌≡◌, ◌≢◌, ℕ, ◌<◌, List, [], Ok, None, false, IfOk, OnOk, OnErr, ◌⊎◌};
ghost use Rattle.far_io.specs.Adds.{Adds};
ghost use Rattle.far_io.specs.Faults.{Rose, Follows, HasCause};
ghost use Rattle.far_io.specs.LineView.{AnswersAtOnce};
ghost use Rattle.run_end.specs.Why.{status_of, end_of};
ghost use Rattle.run_end.specs.declared.TheConstants.{MOST_LINE};
ghost use Rattle.line_run.specs.LineRules.{IsOwnEnd};
ghost use Rattle.line_run.specs.Runs.{reading, ComesTo, BreaksOff, PutsLast, RunsTo};

use crate::taker::LineTaker;
use far_io::{LineBuf, LineEnd, Sink, Source, WriteBuf, WriteFault, WriteRoom, read_line};
use run_end::{Status, Why};

// A sink that gathers what it takes, and passes it on when it is told to.
trait PassesOn: Sink {
    // It holds nothing back.
    ghost is_empty: { Self → Type 0 };

    // Passes on all that it gathered, which changes nothing of what it took.
    fn pass_on(&mut self) -> Result<(), WriteFault>
        ensures empty { OnOk result (is_empty self.new) }
        ensures bytes { Adds Self.took self.old self.new [] }
        ensures still { is_empty self.old → self.new ≡ self.old }
        ensures cause { HasCause (Self.faults self.old) (Self.faults self.new) result };
}

impl<'a, O: Sink> PassesOn for WriteBuf<'a, O> {
    ghost is_empty = { λ b. b.room.now ≡ [] };

    fn pass_on(&mut self) -> Result<(), WriteFault> {
        WriteBuf::pass_on(self)
    }
}

// Passes on what was gathered, where the next line isn't ahead, and may have to be waited for.
fn pass_on_before_wait<B: PassesOn>(line: &mut LineBuf, out: &mut B) -> Result<(), WriteFault>
    ensures kept { line.new ≡ line.old }
    ensures passed { OnOk result (AnswersAtOnce line.old ⊎ B.is_empty out.new) }
    ensures bytes { Adds B.took out.old out.new [] }
    ensures still { B.is_empty out.old → out.new ≡ out.old }
    ensures cause { HasCause (B.faults out.old) (B.faults out.new) result }
{
    if line.has_line() {
        return Ok(());
    }
    out.pass_on()
}

// Reads lines and has them taken, one by one, until the run ends. Its last text isn't written yet.
fn take_lines<T: LineTaker, S: Source, B: PassesOn>(
    taker: &mut T,
    line: &mut LineBuf,
    source: &mut S,
    out: &mut B,
) -> Result<Why, WriteFault>
    requires holds { T.holds taker.old }
    requires limit { line.old.limit ≡ MOST_LINE }
    requires fresh { line.old.ahead ≡ [] }
    requires going { line.old.ended ≡ false }
    ensures comes { IfOk result (λ why. ComesTo T.rules
        (reading S.left S.faults source.old source.new)
        B.took out.old out.new taker.old taker.new (end_of why) (T.last_text taker.new line.new.line why)) }
    ensures breaks { OnErr result (BreaksOff T.rules
        (reading S.left S.faults source.old source.new)
        B.took B.faults out.old out.new taker.old taker.new) }
    ensures quiet { T.rules.quiet → B.is_empty out.old → out.new ≡ out.old }
    ensures holds { IfOk result (λ _. T.holds taker.new) }
    ensures fault { result ≡ Ok Why.ReadFault → Rose (S.faults source.old) (S.faults source.new) }
    ensures source { Follows (S.faults source.old) (S.faults source.new) }
    ensures cause { HasCause (B.faults out.old) (B.faults out.new) result }
{
    'lines: loop {
        pass_on_before_wait(line, out)?;
        match read_line(source, line) {
            Ok(()) => {}
            Err(LineEnd::End) => return Ok(taker.at_end()),
            Err(LineEnd::ReadFault) => return Ok(Why::ReadFault),
            Err(LineEnd::TooLong { limit: _ }) => return Ok(taker.at_long_line()),
        }
        match taker.take_line(line.bytes(), out)? {
            None => {}
            Some(why) => return Ok(why),
        }
    }
}

// Reads lines and has them taken, with what they write gathered in the room, until the run ends. Then all is passed on
// but the last text, which isn't written yet.
fn take_gathered<T: LineTaker, S: Source, O: Sink>(
    taker: &mut T,
    line: &mut LineBuf,
    room: &mut WriteRoom,
    source: &mut S,
    sink: &mut O,
) -> Result<Why, WriteFault>
    requires holds { T.holds taker.old }
    requires limit { line.old.limit ≡ MOST_LINE }
    requires fresh { line.old.ahead ≡ [] }
    requires going { line.old.ended ≡ false }
    ensures comes { IfOk result (λ why. ComesTo T.rules (reading S.left S.faults source.old source.new)
        O.took sink.old sink.new taker.old taker.new (end_of why) (T.last_text taker.new line.new.line why)) }
    ensures breaks { OnErr result (BreaksOff T.rules (reading S.left S.faults source.old source.new)
        O.took O.faults sink.old sink.new taker.old taker.new) }
    ensures quiet { T.rules.quiet → sink.new ≡ sink.old }
    ensures holds { IfOk result (λ _. T.holds taker.new) }
    ensures fault { result ≡ Ok Why.ReadFault → Rose (S.faults source.old) (S.faults source.new) }
    ensures source { Follows (S.faults source.old) (S.faults source.new) }
    ensures cause { HasCause (O.faults sink.old) (O.faults sink.new) result }
{
    let mut out = WriteBuf::new(sink, room);
    let why = take_lines(taker, line, source, &mut out)?;
    out.pass_on()?;
    Ok(why)
}

// How a run ends that came to this end, where the sink fails within its last text.
fn after_fault(why: Why) -> Why
    ensures want { status_of why ≡ Status.NoMemory → result ≡ why }
    ensures fault { status_of why ≢ Status.NoMemory → result ≡ Why.WriteFault }
{
    match why {
        Why::NoMemory => why,
        _ => Why::WriteFault,
    }
}

// Writes the last text of a run that came to this end, and says how it ended then.
fn put_end<T: LineTaker, O: Sink>(taker: &T, line: &[u8], why: Why, sink: &mut O) -> Why
    requires { T.holds taker.now }
    ensures last { PutsLast O.took O.faults sink.old sink.new (T.last_text taker.now line.now why)
        (end_of why) (end_of result) }
    ensures faults { Follows (O.faults sink.old) (O.faults sink.new) }
{
    match taker.put_last(line, why, sink) {
        Ok(()) => why,
        Err(WriteFault) => after_fault(why),
    }
}

/// Reads the lines of the source and has them taken, one by one, until a line ends the run or the input ends, and then
/// writes the last text. What is written is gathered, and goes out where 64 KiB are full, before a read that may wait,
/// before the last text, and at the end. It takes no memory.
///
/// It answers why the run ended, and leaves the taker in the state in which it did. Where the sink fails, that is the reason, but for want of memory, which stays it.
pub fn run_lines<T: LineTaker, S: Source, O: Sink>(
    taker: &mut T,
    line: &mut LineBuf,
    room: &mut WriteRoom,
    source: &mut S,
    sink: &mut O,
) -> Why
    requires holds { T.holds taker.old }
    requires limit { line.old.limit ≡ MOST_LINE }
    requires fresh { line.old.ahead ≡ [] }
    requires going { line.old.ended ≡ false }
    ensures { RunsTo T.rules (reading S.left S.faults source.old source.new)
        O.took O.faults sink.old sink.new taker.old taker.new (end_of result) }
{
    let Ok(why) = take_gathered(taker, line, room, source, sink) else {
        return Why::WriteFault;
    };
    match why {
        Why::ReadFault => why,
        _ => put_end(taker, line.bytes(), why, sink),
    }
}
