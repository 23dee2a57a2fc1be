//! Paths, their parts, and what names stand for.

ghost use Rattle.std.specs.Prelude.{◌≡◌, [], ◌∷◌, ◌++◌, OnOk};
ghost use Rattle.far_words.specs.Paths.{is_path, is_part};
ghost use Rattle.frame_fields.specs.Fields.{spelling, Byte, Text, After, AByte, AText, AnAfter, IsValue};
ghost use Rattle.frame_fields.specs.FrameLayouts.{Stop};
ghost use Rattle.frame_fields.specs.Parts.{a_path, a_part, part_fields, an_after, a_kind, is_kind, kind_byte};
ghost use Rattle.frame_fields.specs.Reads.{Finds};
ghost use Rattle.frame_fields.specs.Frames.{Extends};

use crate::ends::ReadEnd;
use crate::framed::Framed;
use crate::numbers::{byte_at, put_byte};
use crate::texts::{put_text, text_at};
use far_words::{Blob, Kind, Part, Path};
use std::alloc::{AllocError, Global};

/// A path behind the count of its bytes, and the bytes after it.
fn path_at(bytes: &[u8]) -> Option<(Path, &[u8])>
    ensures { Finds (λ x. Text x.0) (λ x. x.1.now) (AText is_path) bytes.now result }
{
    let Some((text, rest)) = text_at(bytes) else {
        return None;
    };
    let Some(path) = Path::parse(text) else {
        return None;
    };
    Some((path, rest))
}

/// A part of a path behind the count of its bytes, and the bytes after it.
fn part_at(bytes: &[u8]) -> Option<(Part, &[u8])>
    ensures { Finds (λ x. Text x.0) (λ x. x.1.now) (AText is_part) bytes.now result }
{
    let Some((text, rest)) = text_at(bytes) else {
        return None;
    };
    let Some(part) = Part::parse(text) else {
        return None;
    };
    Some((part, rest))
}

/// A part or no byte behind a count, and the bytes after it.
fn after_at(bytes: &[u8]) -> Option<(Option<Part>, &[u8])>
    ensures { Finds (λ x. After x.0) (λ x. x.1.now) AnAfter bytes.now result }
{
    let Some((text, rest)) = text_at(bytes) else {
        return None;
    };
    if text.is_empty() {
        return Some((None, rest));
    }
    let Some(part) = Part::parse(text) else {
        return None;
    };
    Some((Some(part), rest))
}

/// The kind of a name at the front, and the bytes after it.
fn kind_at(bytes: &[u8]) -> Option<(Kind, &[u8])>
    ensures { Finds (λ x. Byte (kind_byte x.0)) (λ x. x.1.now) (AByte is_kind) bytes.now result }
{
    let Some((byte, rest)) = byte_at(bytes) else {
        return None;
    };
    match byte {
        0 => Some((Kind::Dir, rest)),
        1 => Some((Kind::File, rest)),
        2 => Some((Kind::Queue, rest)),
        3 => Some((Kind::Table, rest)),
        _ => None,
    }
}

impl Framed for Path {
    ghost layout = { a_path Stop };

    ghost fields = { λ path. Text path ∷ [] };

    fn read(_alloc: Global, bytes: &[u8]) -> Result<(Path, &[u8]), ReadEnd> {
        match path_at(bytes) {
            Some((path, rest)) => Ok((path, rest)),
            None => Err(ReadEnd::Bad { left: bytes.len() }),
        }
    }
}

impl Framed for Part {
    ghost layout = { a_part Stop };

    ghost fields = { part_fields };

    fn read(_alloc: Global, bytes: &[u8]) -> Result<(Part, &[u8]), ReadEnd> {
        match part_at(bytes) {
            Some((part, rest)) => Ok((part, rest)),
            None => Err(ReadEnd::Bad { left: bytes.len() }),
        }
    }
}

/// A part, or no byte where there is none.
impl Framed for Option<Part> {
    ghost layout = { an_after Stop };

    ghost fields = { λ after. After after ∷ [] };

    fn read(_alloc: Global, bytes: &[u8]) -> Result<(Option<Part>, &[u8]), ReadEnd> {
        match after_at(bytes) {
            Some((after, rest)) => Ok((after, rest)),
            None => Err(ReadEnd::Bad { left: bytes.len() }),
        }
    }
}

impl Framed for Kind {
    ghost layout = { a_kind Stop };

    ghost fields = { λ kind. Byte (kind_byte kind) ∷ [] };

    fn read(_alloc: Global, bytes: &[u8]) -> Result<(Kind, &[u8]), ReadEnd> {
        match kind_at(bytes) {
            Some((kind, rest)) => Ok((kind, rest)),
            None => Err(ReadEnd::Bad { left: bytes.len() }),
        }
    }
}

/// The number of what a name stands for.
fn byte_of(kind: Kind) -> u8
    ensures { result ≡ kind_byte kind }
{
    match kind {
        Kind::Dir => 0,
        Kind::File => 1,
        Kind::Queue => 2,
        Kind::Table => 3,
    }
}

/// Adds a path behind the count of its bytes at the end.
pub fn put_path(out: &mut Blob, path: &Path) -> Result<(), AllocError>
    ensures put { OnOk result (out.new ≡ out.old ++ spelling (Text path.now)) }
    ensures value { IsValue (AText is_path) (Text path.now) }
    ensures kept { Extends out.old out.new }
{
    put_text(out, path.bytes())
}

/// Adds a part of a path behind the count of its bytes at the end.
pub fn put_part(out: &mut Blob, part: &Part) -> Result<(), AllocError>
    ensures put { OnOk result (out.new ≡ out.old ++ spelling (Text part.now)) }
    ensures value { IsValue (AText is_part) (Text part.now) }
    ensures kept { Extends out.old out.new }
{
    put_text(out, part.bytes())
}

/// Adds what a name stands for at the end.
pub fn put_kind(out: &mut Blob, kind: Kind) -> Result<(), AllocError>
    ensures put { OnOk result (out.new ≡ out.old ++ spelling (Byte (kind_byte kind))) }
    ensures value { IsValue (AByte is_kind) (Byte (kind_byte kind)) }
    ensures kept { Extends out.old out.new }
{
    put_byte(out, byte_of(kind))
}

/// Adds a part behind the count of its bytes at the end, or a count of 0 where there is none.
#[tactic(auto, unfolding(crate::specs::Fields::spelling))]
pub fn put_after(out: &mut Blob, after: &Option<Part>) -> Result<(), AllocError>
    ensures put { OnOk result (out.new ≡ out.old ++ spelling (After after.now)) }
    ensures value { IsValue AnAfter (After after.now) }
    ensures kept { Extends out.old out.new }
{
    match after {
        Some(part) => put_text(out, part.bytes()),
        None => put_text(out, &[]),
    }
}
