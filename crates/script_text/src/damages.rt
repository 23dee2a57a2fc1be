//! How a parked block's stamp is told, and what was found in its place.

ghost use Rattle.std.specs.Prelude.{◌≡◌, ◌+◌, ◌*◌, ◌<◌, ◌≤◌, ◌∷◌, [], ◌++◌, length, map, codes, decimal};
ghost use Rattle.script_text.specs.declared.damages.TheConstants.{STAMP_ROOM, FAULT_ROOM, FOUND_ROOM, DAMAGE_ROOM};
ghost use Rattle.script_text.specs.declared.rows.TheConstants.{NUMBER_ROOM};
ghost use Rattle.script_text.specs.Words.{ended};
ghost use Rattle.script_text.specs.Damages.{low_digit, digest_text, with_colons, stamp_parts, stamp_text, fault_parts};
ghost use Rattle.script_text.specs.Damages.{found_text, damage_words};

use crate::rows::push_numbers;
use far_io::{Piece, push_decimal};
use far_words::{Found, ImageFault, Stamp};

/// The most bytes of a stamp.
const STAMP_ROOM: usize = 127;

/// The most bytes of what makes an image a broken one.
const FAULT_ROOM: usize = 136;

/// The most bytes of what was found.
const FOUND_ROOM: usize = 143;

/// The most bytes of the line of a block that isn't as it was parked.
pub const DAMAGE_ROOM: usize = 280;

/// The byte that spells a digit of base 16.
fn digit_byte(digit: u8) -> u8
    requires { digit < 16 }
    ensures { result ≡ low_digit digit }
{
    if digit < 10 {
        b'0' + digit
    } else {
        b'a' + (digit - 10)
    }
}

/// Puts a colon and the digits of these bytes.
fn push_digest(piece: &mut Piece, digest: &[u8])
    requires { length piece.old + 2 * length digest.now + 1 ≤ 4096 }
    ensures text { piece.new ≡ piece.old ++ 58 ∷ digest_text digest.now }
    ensures room { length piece.new ≡ length piece.old + 2 * length digest.now + 1 }
{
    piece.push(b':');
    for byte in digest {
        piece.push(digit_byte(*byte / 16));
        piece.push(digit_byte(*byte % 16));
    }
}

/// Puts a word and the numbers after it.
fn push_named(piece: &mut Piece, word: &[u8], numbers: &[u64])
    requires { length piece.old + length word.now + NUMBER_ROOM * length numbers.now ≤ 4096 }
    ensures text { piece.new ≡ piece.old ++ with_colons (word.now ∷ map decimal numbers.now) }
    ensures room { length piece.new ≤ length piece.old + length word.now + NUMBER_ROOM * length numbers.now }
{
    piece.push_all(word);
    push_numbers(piece, b':', numbers);
}

/// Puts a stamp.
fn push_stamp(piece: &mut Piece, stamp: &Stamp)
    requires { length piece.old + STAMP_ROOM ≤ 4096 }
    ensures text { piece.new ≡ piece.old ++ stamp_text stamp.now }
    ensures room { length piece.new ≤ length piece.old + STAMP_ROOM }
{
    push_decimal(piece, stamp.user as u64);
    push_numbers(piece, b':', &[stamp.block, stamp.length as u64]);
    push_digest(piece, &stamp.digest);
}

/// Puts two digests that differ.
fn push_digests(piece: &mut Piece, kept: &[u8; 32], found: &[u8; 32])
    requires { length piece.old + FAULT_ROOM ≤ 4096 }
    ensures text { piece.new ≡ piece.old ++ with_colons (codes "digest" ∷ digest_text kept.now ∷ digest_text found.now ∷ []) }
    ensures room { length piece.new ≤ length piece.old + FAULT_ROOM }
{
    piece.push_all(b"digest");
    push_digest(piece, kept);
    push_digest(piece, found);
}

/// Puts why bytes are no image.
fn push_fault(piece: &mut Piece, fault: &ImageFault)
    requires { length piece.old + FAULT_ROOM ≤ 4096 }
    ensures text { piece.new ≡ piece.old ++ with_colons (fault_parts fault.now) }
    ensures room { length piece.new ≤ length piece.old + FAULT_ROOM }
{
    match fault {
        ImageFault::Short { have } => push_named(piece, b"short", &[*have as u64]),
        ImageFault::Magic => push_named(piece, b"magic", &[]),
        ImageFault::Version { found } => push_named(piece, b"version", &[*found as u64]),
        ImageFault::Length { said, have } => {
            push_named(piece, b"length", &[*said as u64, *have as u64])
        }
        ImageFault::Digest { kept, found } => push_digests(piece, kept, found),
    }
}

/// Puts what is no image.
fn push_broken(piece: &mut Piece, fault: &ImageFault)
    requires { length piece.old + FOUND_ROOM ≤ 4096 }
    ensures text { piece.new ≡ piece.old ++ with_colons (codes "broken" ∷ fault_parts fault.now) }
    ensures room { length piece.new ≤ length piece.old + FOUND_ROOM }
{
    piece.push_all(b"broken:");
    push_fault(piece, fault);
}

/// Puts the stamp of another image.
fn push_other(piece: &mut Piece, stamp: &Stamp)
    requires { length piece.old + FOUND_ROOM ≤ 4096 }
    ensures text { piece.new ≡ piece.old ++ with_colons (codes "other" ∷ stamp_parts stamp.now) }
    ensures room { length piece.new ≤ length piece.old + FOUND_ROOM }
{
    piece.push_all(b"other:");
    push_stamp(piece, stamp);
}

/// Puts what was found.
fn push_found(piece: &mut Piece, found: &Found)
    requires { length piece.old + FOUND_ROOM ≤ 4096 }
    ensures text { piece.new ≡ piece.old ++ found_text found.now }
    ensures room { length piece.new ≤ length piece.old + FOUND_ROOM }
{
    match found {
        Found::Absent => push_named(piece, b"absent", &[]),
        Found::Broken { fault } => push_broken(piece, fault),
        Found::Longer { len } => push_named(piece, b"longer", &[*len]),
        Found::Other { stamp } => push_other(piece, stamp),
        Found::Unfit { place } => push_named(piece, b"unfit", &[*place as u64]),
    }
}

/// Puts the line of a block that isn't as it was parked: its stamp, and what was found in its place.
pub fn push_damage(piece: &mut Piece, kept: &Stamp, found: &Found)
    requires { length piece.old + DAMAGE_ROOM ≤ 4096 }
    ensures { piece.new ≡ piece.old ++ ended (damage_words kept.now found.now) }
{
    piece.push_all(b"damaged ");
    push_stamp(piece, kept);
    piece.push(b' ');
    push_found(piece, found);
    piece.push(b'\n');
}
