//! Numbers, most significant byte first.

ghost use Rattle.std.specs.Prelude.{◌≡◌, [], ◌∷◌, ◌++◌, true, OnOk};
ghost use Rattle.frame_fields.specs.Fields.{spelling, spelled, AByte, AWord, ALong, Byte, Word, Long};
ghost use Rattle.frame_fields.specs.FrameLayouts.{Stop, Fits};
ghost use Rattle.frame_fields.specs.Parts.{a_byte, a_word, a_long, optional_long, optional_fields};
ghost use Rattle.frame_fields.specs.Reads.{Finds};
ghost use Rattle.frame_fields.specs.Frames.{Extends};

use crate::ends::ReadEnd;
use crate::framed::Framed;
use far_words::Blob;
use std::alloc::{AllocError, Global};

/// The first byte, and the bytes after it.
pub fn byte_at(bytes: &[u8]) -> Option<(u8, &[u8])>
    ensures { Finds (λ x. Byte x.0) (λ x. x.1.now) (AByte (λ _. true)) bytes.now result }
{
    match bytes {
        [byte, rest @ ..] => Some((*byte, rest)),
        [] => None,
    }
}

/// The number that the first four bytes are, and the bytes after them.
pub fn word_at(bytes: &[u8]) -> Option<(u32, &[u8])>
    ensures { Finds (λ x. Word x.0) (λ x. x.1.now) AWord bytes.now result }
{
    if bytes.len() < 4 {
        return None;
    }
    let (front, rest) = bytes.split_at(4);
    let number = u32::from_be_bytes([front[0], front[1], front[2], front[3]]);
    Some((number, rest))
}

/// The number that the first eight bytes are, and the bytes after them.
fn long_at(bytes: &[u8]) -> Option<(u64, &[u8])>
    ensures { Finds (λ x. Long x.0) (λ x. x.1.now) ALong bytes.now result }
{
    if bytes.len() < 8 {
        return None;
    }
    let (front, rest) = bytes.split_at(8);
    let number = u64::from_be_bytes([
        front[0], front[1], front[2], front[3], front[4], front[5], front[6], front[7],
    ]);
    Some((number, rest))
}

impl Framed for u8 {
    ghost layout = { a_byte Stop };

    ghost fields = { λ number. Byte number ∷ [] };

    fn read(_alloc: Global, bytes: &[u8]) -> Result<(u8, &[u8]), ReadEnd> {
        match byte_at(bytes) {
            Some((number, rest)) => Ok((number, rest)),
            None => Err(ReadEnd::Bad { left: bytes.len() }),
        }
    }
}

impl Framed for u32 {
    ghost layout = { a_word Stop };

    ghost fields = { λ number. Word number ∷ [] };

    fn read(_alloc: Global, bytes: &[u8]) -> Result<(u32, &[u8]), ReadEnd> {
        match word_at(bytes) {
            Some((number, rest)) => Ok((number, rest)),
            None => Err(ReadEnd::Bad { left: bytes.len() }),
        }
    }
}

impl Framed for u64 {
    ghost layout = { a_long Stop };

    ghost fields = { λ number. Long number ∷ [] };

    fn read(_alloc: Global, bytes: &[u8]) -> Result<(u64, &[u8]), ReadEnd> {
        match long_at(bytes) {
            Some((number, rest)) => Ok((number, rest)),
            None => Err(ReadEnd::Bad { left: bytes.len() }),
        }
    }
}

/// A byte 0 and nothing, or a byte 1 and a number.
impl Framed for Option<u64> {
    ghost layout = { optional_long };

    ghost fields = { optional_fields };

    fn read(alloc: Global, bytes: &[u8]) -> Result<(Option<u64>, &[u8]), ReadEnd> {
        let Some((flag, rest)) = byte_at(bytes) else {
            return Err(ReadEnd::Bad { left: bytes.len() });
        };
        match flag {
            0 => Ok((None, rest)),
            1 => {
                let (number, rest) = u64::read(alloc, rest)?;
                Ok((Some(number), rest))
            }
            _ => Err(ReadEnd::Bad { left: bytes.len() }),
        }
    }
}

/// Adds a number of one byte at the end.
#[tactic(auto, unfolding(crate::specs::Fields::spelling))]
pub fn put_byte(out: &mut Blob, number: u8) -> Result<(), AllocError>
    ensures put { OnOk result (out.new ≡ out.old ++ spelling (Byte number)) }
    ensures kept { Extends out.old out.new }
{
    out.push(number)
}

/// Adds a number of four bytes at the end.
#[tactic(auto, unfolding(crate::specs::Fields::spelling))]
pub fn put_word(out: &mut Blob, number: u32) -> Result<(), AllocError>
    ensures put { OnOk result (out.new ≡ out.old ++ spelling (Word number)) }
    ensures kept { Extends out.old out.new }
{
    out.extend_from_slice(&number.to_be_bytes())
}

/// Adds a number of eight bytes at the end.
#[tactic(auto, unfolding(crate::specs::Fields::spelling))]
pub fn put_long(out: &mut Blob, number: u64) -> Result<(), AllocError>
    ensures put { OnOk result (out.new ≡ out.old ++ spelling (Long number)) }
    ensures kept { Extends out.old out.new }
{
    out.extend_from_slice(&number.to_be_bytes())
}

/// Adds a number behind its flag at the end, or a flag that there is none.
pub fn put_optional(out: &mut Blob, number: Option<u64>) -> Result<(), AllocError>
    ensures put { OnOk result (out.new ≡ out.old ++ spelled (optional_fields number)) }
    ensures fits { Fits optional_long (optional_fields number) }
    ensures kept { Extends out.old out.new }
{
    match number {
        None => put_byte(out, 0),
        Some(number) => {
            put_byte(out, 1)?;
            put_long(out, number)
        }
    }
}
