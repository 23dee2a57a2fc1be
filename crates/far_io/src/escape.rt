//! Escaped texts, in which each list of bytes has one spelling.

ghost use Rattle.std.specs.Prelude.{◌≡◌, ◌≢◌, ℕ, ◌+◌, ◌*◌, ◌<◌, ◌≤◌, ◌↔◌, [], ◌∷◌, ◌++◌, List, drop, length, IsTrue, IfSome, IfNone, IfOk, OnErr, OnOk};
ghost use Rattle.std.specs.List.{flat_map};
ghost use Rattle.far_io.specs.Faults.{HasCause};
ghost use Rattle.far_io.specs.Adds.{Adds, AddsPrefix};
ghost use Rattle.far_io.specs.Sends.{Sends};
ghost use Rattle.far_io.specs.Escapes.{is_plain, hex_digit, escaped_byte, escaped, AreBytes, IsNoEscape, IsReadBack};

use crate::outside::Sink;
use crate::piece::{Piece, flush, make_room};
use crate::put::WriteFault;
use crate::raw::Raw;
use std::alloc::{AllocError, Global};

/// The most bytes that spell one byte.
const BYTE_ROOM: usize = 3;

// Whether a byte stands for itself.
fn is_plain_byte(byte: u8) -> bool
    ensures { result ≡ is_plain byte }
{
    matches!(byte, b'!'..=b'~') && byte != b'%'
}

// The byte that spells a digit of base 16.
fn hex_byte(digit: u8) -> u8
    requires { digit < 16 }
    ensures { result ≡ hex_digit digit }
{
    if digit < 10 {
        b'0' + digit
    } else {
        b'A' + (digit - 10)
    }
}

// The digit of base 16 that a byte spells.
fn hex_value(byte: u8) -> Option<u8>
    ensures some { IfSome result (λ digit. (digit < 16) × (byte ≡ hex_digit digit)) }
    ensures none { IfNone result ((digit : ℕ) → digit < 16 → byte ≢ hex_digit digit) }
{
    match byte {
        b'0'..=b'9' => Some(byte - b'0'),
        b'A'..=b'F' => Some(byte - b'A' + 10),
        _ => None,
    }
}

// Puts the spelling of one byte at the end.
fn push_byte(piece: &mut Piece, byte: u8)
    requires { length piece.old + 3 ≤ 4096 }
    ensures { piece.new ≡ piece.old ++ escaped_byte byte }
{
    if is_plain_byte(byte) {
        piece.push(byte);
        return;
    }
    piece.push(b'%');
    piece.push(hex_byte(byte / 16));
    piece.push(hex_byte(byte % 16));
}

/// Puts the escaped text of these bytes into the piece, which goes to the sink as it fills. Whoever calls it flushes
/// the piece. It takes no memory.
pub fn push_escaped<O: Sink>(
    sink: &mut O,
    piece: &mut Piece,
    bytes: &[u8],
) -> Result<(), WriteFault>
    ensures sends { OnOk result (Sends O.took sink.old sink.new piece.old piece.new (escaped bytes.now)) }
    ensures prefix { OnErr result (AddsPrefix O.took sink.old sink.new (piece.old ++ escaped bytes.now)) }
    ensures cause { HasCause (O.faults sink.old) (O.faults sink.new) result }
{
    if bytes.is_empty() {
        make_room(sink, piece, 1)?;
        piece.push(b'%');
        return Ok(());
    }
    for byte in bytes {
        make_room(sink, piece, BYTE_ROOM)?;
        push_byte(piece, *byte);
    }
    Ok(())
}

/// Gives the escaped text of these bytes to the sink, in pieces of 4 KiB. After a fault the sink took a prefix of it.
/// It takes no memory. The grammar stands in `docs/FORMATS.md`.
pub fn put_escaped<O: Sink>(sink: &mut O, bytes: &[u8]) -> Result<(), WriteFault>
    ensures all { OnOk result (Adds O.took sink.old sink.new (escaped bytes.now)) }
    ensures prefix { OnErr result (AddsPrefix O.took sink.old sink.new (escaped bytes.now)) }
    ensures cause { HasCause (O.faults sink.old) (O.faults sink.new) result }
{
    let mut piece = Piece::new();
    push_escaped(sink, &mut piece, bytes)?;
    flush(sink, &mut piece)
}

// The byte that the text's front spells, and in how many bytes it does.
fn first_byte(text: &[u8]) -> Option<(u8, usize)>
    ensures front { IfSome result (λ found. text.now ≡ escaped_byte found.0 ++ drop found.1 text.now) }
    ensures byte { IfSome result (λ found. found.0 < 256) }
    ensures length { IfSome result (λ found. length (escaped_byte found.0) ≡ found.1) }
    ensures none { IfNone result ((byte : ℕ) → byte < 256 → (others : List ℕ)
        → text.now ≢ escaped_byte byte ++ others) }
{
    if text.is_empty() {
        return None;
    }
    if is_plain_byte(text[0]) {
        return Some((text[0], 1));
    }
    if text[0] != b'%' || text.len() < BYTE_ROOM {
        return None;
    }
    let byte = hex_value(text[1])? * 16 + hex_value(text[2])?;
    if is_plain_byte(byte) {
        return None;
    }
    Some((byte, BYTE_ROOM))
}

// Whether the text is a single `%`, for which the empty list stands.
fn is_percent(text: &[u8]) -> bool
    ensures { IsTrue result ↔ (text.now ≡ 37 ∷ []) }
{
    text.len() == 1 && text[0] == b'%'
}

/// The bytes for which an escaped text stands. A text that is the spelling of no list gives None: one with an escape
/// of a byte that stands for itself, with lower-case digits, with a space, and the empty one.
pub fn parse_escaped(alloc: Global, text: &[u8]) -> Result<Option<Raw>, AllocError>
    ensures spelled { IfOk result (λ found. IfSome found (λ bytes. text.now ≡ escaped bytes)) }
    ensures bytes { IfOk result (λ found. IfSome found (λ bytes. AreBytes bytes)) }
    ensures none { IfOk result (λ found. IfNone found (IsNoEscape text.now)) }

    // Each list has one spelling, and each spelling is of one list.
    ensures one_spelling { IsReadBack text.now result }
{
    if text.is_empty() {
        return Ok(None);
    }
    if is_percent(text) {
        return Ok(Some(Raw::new(alloc)));
    }
    let mut bytes = Raw::new(alloc);
    let mut at = 0;
    while at < text.len() {
        let Some((byte, count)) = first_byte(&text[at..]) else {
            return Ok(None);
        };
        bytes.push(byte)?;
        at += count;
    }
    Ok(Some(bytes))
}
