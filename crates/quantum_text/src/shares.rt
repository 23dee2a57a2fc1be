//! The line of a block that tells a roster: a seat for each user.

ghost use Rattle.std.specs.Prelude.{◌≡◌, ◌≢◌, ℕ, ◌+◌, ◌≤◌, ◌++◌, List, length, map, All, OnOk, OnErr, IfSome, IfNone};
ghost use Rattle.std.specs.Bool.{OnTrue, OnFalse};
ghost use Rattle.std.specs.List.{flat_map};
ghost use Rattle.std.specs.Option.{option_copied};
ghost use Rattle.std.specs.declared.option.Option.{Option};
ghost use Rattle.far_io.specs.Adds.{AddsPrefix};
ghost use Rattle.far_io.specs.Faults.{HasCause};
ghost use Rattle.far_io.specs.Sends.{Sends};
ghost use Rattle.far_io.specs.Words.{words_after};
ghost use Rattle.karma_rule.specs.declared.row.Share.{Share as AShare};
ghost use Rattle.demand_book.specs.Roster.{seat_of};
ghost use Rattle.quantum_text.specs.LineKind.{without_seat};
ghost use Rattle.quantum_text.specs.Shares.{roster_of, seat_text, ended_shares, AreSeats, IsSharesLine, IsNoSharesLine, IsSeated, SeatsTogether, ChangesRoster};

use crate::seat_words::next_seat;
use demand_book::{Report, has_seat, row_seat, seat_fair};
use far_io::{Piece, Sink, WriteFault, make_room, push_decimal, split_word};
use karma_rule::{Row, Shape, Share};

/// The most bytes of a space and a seat's word: two decimals and a colon.
const SEAT_ROOM: usize = 42;

/// The word that the line begins with.
pub const SHARES_WORD: &[u8] = b"shares";

/// Puts a space and the seat's word.
fn push_seat(piece: &mut Piece, seat: Option<Share>)
    requires { length piece.old + 42 ≤ 4096 }
    ensures { piece.new ≡ piece.old ++ seat_text seat }
{
    piece.push(b' ');
    match seat {
        Some(share) => {
            push_decimal(piece, share.fair);
            piece.push(b':');
            push_decimal(piece, share.floor);
        }
        None => piece.push(b'-'),
    }
}

/// Puts each row's seat.
fn put_seats<O: Sink>(rows: &[Row], sink: &mut O, piece: &mut Piece) -> Result<(), WriteFault>
    ensures sends { OnOk result (Sends O.took sink.old sink.new piece.old piece.new
        (flat_map seat_text (map seat_of rows.now))) }
    ensures prefix { OnErr result (AddsPrefix O.took sink.old sink.new
        (piece.old ++ flat_map seat_text (map seat_of rows.now))) }
    ensures cause { HasCause (O.faults sink.old) (O.faults sink.new) result }
{
    for row in rows {
        make_room(sink, piece, SEAT_ROOM)?;
        push_seat(piece, row_seat(row));
    }
    Ok(())
}

/// Puts the line of a report's roster, with its line end, into the piece, which goes to the sink as it fills. Whoever
/// calls it flushes the piece. It takes no memory.
pub fn put_shares_line<O: Sink>(
    report: &Report,
    sink: &mut O,
    piece: &mut Piece,
) -> Result<(), WriteFault>
    ensures sends { OnOk result (Sends O.took sink.old sink.new piece.old piece.new
        (ended_shares (roster_of report.now))) }
    ensures prefix { OnErr result (AddsPrefix O.took sink.old sink.new
        (piece.old ++ ended_shares (roster_of report.now))) }
    ensures cause { HasCause (O.faults sink.old) (O.faults sink.new) result }
{
    make_room(sink, piece, SHARES_WORD.len())?;
    piece.push_all(SHARES_WORD);
    put_seats(report.rows.items(), sink, piece)?;
    make_room(sink, piece, 1)?;
    piece.push(b'\n');
    Ok(())
}

/// The fair shares together of the seats that these words are, where they are so many.
fn total_fair(words: Option<&[u8]>, users: usize) -> Option<u128>
    ensures seats { IfSome result (λ total. SeatsTogether users (words_after (option_copied words.entry)) total) }
    ensures none { IfNone result ((seats : List (Option AShare))
        → AreSeats users (words_after (option_copied words.entry)) seats → ⊥) }
{
    let mut rest = words;
    let mut total = 0u128;
    for _user in 0..users {
        let (seat, others) = next_seat(rest)?;
        total += u128::from(seat_fair(seat));
        rest = others;
    }
    if rest.is_some() {
        return None;
    }
    Some(total)
}

/// Whether the rows have other seats than those that these words are.
fn has_other_seats(words: Option<&[u8]>, rows: &[Row]) -> bool
    requires { (seats : List (Option AShare)) × AreSeats (length rows.now) (words_after (option_copied words)) seats }
    ensures others { OnTrue result ((seats : List (Option AShare))
        → AreSeats (length rows.now) (words_after (option_copied words.entry)) seats → seats ≢ map seat_of rows.now) }
    ensures same { OnFalse result ((seats : List (Option AShare))
        → AreSeats (length rows.now) (words_after (option_copied words.entry)) seats → seats ≡ map seat_of rows.now) }
{
    let mut rest = words;
    for row in rows {
        let Some((seat, others)) = next_seat(rest) else {
            unreachable!();
        };
        if !has_seat(row, seat) {
            return true;
        }
        rest = others;
    }
    false
}

/// Gives a row this seat.
fn take_seat(row: &mut Row, seat: Option<Share>)
    ensures seat { seat_of row.new ≡ seat }
    ensures seated { IsSeated row.new }
    ensures numbers { without_seat row.new ≡ without_seat row.old }
{
    match seat {
        Some(share) => {
            row.fair = share.fair;
            row.floor = share.floor;
            row.present = true;
        }
        None => {
            row.fair = 0;
            row.floor = 0;
            row.present = false;
        }
    }
}

/// Gives the rows the seats that these words are.
fn take_seats(words: Option<&[u8]>, rows: &mut [Row])
    requires { (seats : List (Option AShare)) × AreSeats (length rows.old) (words_after (option_copied words)) seats }
    ensures seats { AreSeats (length rows.old) (words_after (option_copied words.entry)) (map seat_of rows.new) }
    ensures seated { All IsSeated rows.new }
    ensures numbers { map without_seat rows.new ≡ map without_seat rows.old }
{
    let mut rest = words;
    for row in rows.iter_mut() {
        let Some((seat, others)) = next_seat(rest) else {
            unreachable!();
        };
        take_seat(row, seat);
        rest = others;
    }
}

/// Reads the line of a roster, without its line end, into the report, whose users have the shares of the block before:
/// true where it is the line of another roster for these users, whose fair shares are together no more than the shape
/// has slices. The report then has that roster, and says that it changed. Else the report stays as it was. It takes no
/// memory.
pub fn parse_shares_line(shape: Shape, line: &[u8], report: &mut Report) -> bool
    ensures good { OnTrue result (IsSharesLine shape (roster_of report.old) line.now (roster_of report.new)) }
    ensures others { OnTrue result (ChangesRoster report.old report.new) }
    ensures bad { OnFalse result (IsNoSharesLine shape (roster_of report.old) line.now) }
    ensures kept { OnFalse result (report.new ≡ report.old) }
{
    let (word, words) = split_word(line);
    if word != SHARES_WORD {
        return false;
    }
    let Some(total) = total_fair(words, report.rows.items().len()) else {
        return false;
    };
    if total > u128::from(shape.users) * u128::from(shape.share.fair) {
        return false;
    }
    if !has_other_seats(words, report.rows.items()) {
        return false;
    }
    take_seats(words, report.rows.items_mut());
    report.changed = true;
    true
}
