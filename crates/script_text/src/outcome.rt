//! Outcome lines.

ghost use Rattle.std.specs.Prelude.{◌≡◌, ◌+◌, ◌≤◌, ◌∷◌, [], ◌++◌, length, map, decimal, OnErr, OnOk};
ghost use Rattle.std.specs.Option.{option_copied};
ghost use Rattle.far_io.specs.Faults.{HasCause};
ghost use Rattle.far_io.specs.Adds.{Adds, AddsPrefix};
ghost use Rattle.far_io.specs.Escapes.{escaped};
ghost use Rattle.far_io.specs.Sends.{Sends};
ghost use Rattle.script_text.specs.declared.outcome.TheConstants.{LINE_ROOM};
ghost use Rattle.script_text.specs.Words.{ended, IsPut};
ghost use Rattle.script_text.specs.Outcomes.{reply_words, outcome_words, outcome_text, OutcomeFits, IsOutcomeLine};

use crate::damages::{DAMAGE_ROOM, push_damage};
use crate::rows::push_line;
use far_asks::{Outcome, Reply};
use far_io::{Piece, Sink, WriteFault, flush, make_room, push_escaped};

/// The most bytes of a line, apart from an escaped text at its end.
const LINE_ROOM: usize = DAMAGE_ROOM;

// A line is put in a piece whole, which is answered by None, or up to the bytes whose escaped text ends it.

/// Puts a line of a word and numbers.
fn push_numbered<'a>(piece: &mut Piece, word: &[u8], numbers: &[u64]) -> Option<&'a [u8]>
    requires room { length piece.old + LINE_ROOM ≤ 4096 }
    requires short { length word.now ≤ 10 }
    requires few { length numbers.now ≤ 3 }
    ensures { IsPut piece.old (word.now ∷ map decimal numbers.now) piece.new (option_copied result) }
{
    push_line(piece, word, numbers);
    None
}

/// Puts a line of a word and bytes, up to these.
fn push_before<'a>(piece: &mut Piece, word: &[u8], bytes: &'a [u8]) -> Option<&'a [u8]>
    requires room { length piece.old + LINE_ROOM ≤ 4096 }
    requires short { length word.now ≤ 10 }
    ensures { IsPut piece.old (word.now ∷ escaped bytes.now ∷ []) piece.new (option_copied result) }
{
    piece.push_all(word);
    piece.push(b' ');
    Some(bytes)
}

/// Puts the line of a reply.
fn push_reply<'a>(piece: &mut Piece, reply: &'a Reply) -> Option<&'a [u8]>
    requires { length piece.old + LINE_ROOM ≤ 4096 }
    ensures { IsPut piece.old (reply_words reply.now) piece.new (option_copied result) }
{
    match reply {
        Reply::Done => push_numbered(piece, b"done", &[]),
        Reply::Number(number) => push_numbered(piece, b"number", &[*number]),
        Reply::Bytes(bytes) => push_before(piece, b"bytes", bytes.items()),
        Reply::Item(item) => push_before(piece, b"item", item.items()),
        Reply::Nothing => push_numbered(piece, b"nothing", &[]),
        Reply::TooLong { limit } => push_numbered(piece, b"toolong", &[*limit]),
        Reply::Absent => push_numbered(piece, b"absent", &[]),
        Reply::WrongKind => push_numbered(piece, b"wrongkind", &[]),
        Reply::Exists => push_numbered(piece, b"exists", &[]),
        Reply::Full { limit } => push_numbered(piece, b"full", &[*limit]),
        Reply::Exhausted {
            need,
            used,
            granted,
        } => push_numbered(piece, b"exhausted", &[*need, *used, *granted]),
        Reply::StoreFault => push_numbered(piece, b"storefault", &[]),
        Reply::Damaged { kept, found } => {
            push_damage(piece, kept, found);
            None
        }
        Reply::AbsentUser { users } => push_numbered(piece, b"absentuser", &[*users as u64]),
        Reply::NoMemory => push_numbered(piece, b"nomemory", &[]),
    }
}

/// Puts the line of an outcome.
fn push_outcome<'a>(piece: &mut Piece, outcome: &'a Outcome) -> Option<&'a [u8]>
    requires { length piece.old + LINE_ROOM ≤ 4096 }
    ensures { IsPut piece.old (outcome_words outcome.now) piece.new (option_copied result) }
{
    match outcome {
        Outcome::Reply(reply) => push_reply(piece, reply),
        Outcome::Slice { slice, number } => {
            push_numbered(piece, b"slice", &[*slice as u64, *number])
        }
        Outcome::Granted { slice, number } => {
            push_numbered(piece, b"granted", &[*slice as u64, *number])
        }
        Outcome::HandEmpty => push_numbered(piece, b"handempty", &[]),
        Outcome::PoolEmpty => push_numbered(piece, b"poolempty", &[]),
    }
}

/// Puts the escaped text that ends a line, and the line's end.
fn put_text<O: Sink>(bytes: &[u8], sink: &mut O, piece: &mut Piece) -> Result<(), WriteFault>
    ensures sends { OnOk result (Sends O.took sink.old sink.new piece.old piece.new (escaped bytes.now ++ 10 ∷ [])) }
    ensures prefix { OnErr result (AddsPrefix O.took sink.old sink.new (piece.old ++ (escaped bytes.now ++ 10 ∷ []))) }
    ensures cause { HasCause (O.faults sink.old) (O.faults sink.new) result }
{
    push_escaped(sink, piece, bytes)?;
    make_room(sink, piece, 1)?;
    piece.push(b'\n');
    Ok(())
}

/// Puts the line of an outcome, whole.
fn put_outcome<O: Sink>(
    outcome: &Outcome,
    sink: &mut O,
    piece: &mut Piece,
) -> Result<(), WriteFault>
    ensures sends { OnOk result (Sends O.took sink.old sink.new piece.old piece.new (outcome_text outcome.now)) }
    ensures prefix { OnErr result (AddsPrefix O.took sink.old sink.new (piece.old ++ outcome_text outcome.now)) }
    ensures cause { HasCause (O.faults sink.old) (O.faults sink.new) result }
{
    make_room(sink, piece, LINE_ROOM)?;
    match push_outcome(piece, outcome) {
        None => Ok(()),
        Some(bytes) => put_text(bytes, sink, piece),
    }
}

/// Writes the outcome's line, with its line end, in pieces of 4 KiB. After a fault the sink took a prefix of it. It takes
/// no memory.
pub fn write_outcome<O: Sink>(outcome: &Outcome, sink: &mut O) -> Result<(), WriteFault>
    ensures all { OnOk result (Adds O.took sink.old sink.new (outcome_text outcome.now)) }
    ensures prefix { OnErr result (AddsPrefix O.took sink.old sink.new (outcome_text outcome.now)) }
    ensures cause { HasCause (O.faults sink.old) (O.faults sink.new) result }

    // Each outcome has one spelling, and each spelling is one line and of one outcome. No line of moves begins as it does.
    ensures one_spelling { (one other : Outcome) → OutcomeFits one → OutcomeFits other → outcome_text one ≡ outcome_text other → one ≡ other }
    ensures one_line { (one : Outcome) → OutcomeFits one → IsOutcomeLine (outcome_text one) }
{
    let mut piece = Piece::new();
    put_outcome(outcome, sink, &mut piece)?;
    flush(sink, &mut piece)
}
