//! Stamps of parked blocks, and what was found in their place.

ghost use Rattle.std.specs.Prelude.{◌≡◌, ◌++◌, OnOk};
ghost use Rattle.frame_fields.specs.Fields.{spelled};
ghost use Rattle.frame_fields.specs.FrameLayouts.{Fits};
ghost use Rattle.frame_fields.specs.Stamps;
ghost use Rattle.frame_fields.specs.Stamps.{stamp_fields, fault_fields, found_fields};
ghost use Rattle.frame_fields.specs.Frames.{Extends};

use crate::digests::put_digest;
use crate::ends::ReadEnd;
use crate::framed::Framed;
use crate::numbers::{byte_at, put_byte, put_long, put_word};
use far_words::{Blob, Found, ImageFault, Stamp};
use std::alloc::{AllocError, Global};

impl Framed for Stamp {
    ghost layout = { Stamps.stamp };

    ghost fields = { stamp_fields };

    fn read(alloc: Global, bytes: &[u8]) -> Result<(Stamp, &[u8]), ReadEnd> {
        let ((user, (block, (length, (digest, ())))), rest) = <(
            u32,
            (u64, (u32, ([u8; 32], ()))),
        )>::read(alloc, bytes)?;
        Ok((
            Stamp {
                user,
                block,
                length,
                digest,
            },
            rest,
        ))
    }
}

/// A byte that tells which fault it is, and then its fields.
impl Framed for ImageFault {
    ghost layout = { Stamps.fault };

    ghost fields = { fault_fields };

    fn read(alloc: Global, bytes: &[u8]) -> Result<(ImageFault, &[u8]), ReadEnd> {
        let Some((tag, rest)) = byte_at(bytes) else {
            return Err(ReadEnd::Bad { left: bytes.len() });
        };
        match tag {
            0 => {
                let (have, rest) = u32::read(alloc, rest)?;
                Ok((ImageFault::Short { have }, rest))
            }
            1 => Ok((ImageFault::Magic, rest)),
            2 => {
                let (found, rest) = u8::read(alloc, rest)?;
                Ok((ImageFault::Version { found }, rest))
            }
            3 => {
                let ((said, (have, ())), rest) = <(u32, (u32, ()))>::read(alloc, rest)?;
                Ok((ImageFault::Length { said, have }, rest))
            }
            4 => {
                let ((kept, (found, ())), rest) = <([u8; 32], ([u8; 32], ()))>::read(alloc, rest)?;
                Ok((ImageFault::Digest { kept, found }, rest))
            }
            _ => Err(ReadEnd::Bad { left: bytes.len() }),
        }
    }
}

/// A byte that tells what was found, and then its fields.
impl Framed for Found {
    ghost layout = { Stamps.found };

    ghost fields = { found_fields };

    fn read(alloc: Global, bytes: &[u8]) -> Result<(Found, &[u8]), ReadEnd> {
        let Some((tag, rest)) = byte_at(bytes) else {
            return Err(ReadEnd::Bad { left: bytes.len() });
        };
        match tag {
            0 => Ok((Found::Absent, rest)),
            1 => {
                let (fault, rest) = ImageFault::read(alloc, rest)?;
                Ok((Found::Broken { fault }, rest))
            }
            2 => {
                let (len, rest) = u64::read(alloc, rest)?;
                Ok((Found::Longer { len }, rest))
            }
            3 => {
                let (stamp, rest) = Stamp::read(alloc, rest)?;
                Ok((Found::Other { stamp }, rest))
            }
            4 => {
                let (place, rest) = u32::read(alloc, rest)?;
                Ok((Found::Unfit { place }, rest))
            }
            _ => Err(ReadEnd::Bad { left: bytes.len() }),
        }
    }
}

/// Adds a stamp at the end.
pub fn put_stamp(out: &mut Blob, stamp: &Stamp) -> Result<(), AllocError>
    ensures put { OnOk result (out.new ≡ out.old ++ spelled (stamp_fields stamp.now)) }
    ensures fits { OnOk result (Fits Stamps.stamp (stamp_fields stamp.now)) }
    ensures kept { Extends out.old out.new }
{
    put_word(out, stamp.user)?;
    put_long(out, stamp.block)?;
    put_word(out, stamp.length)?;
    put_digest(out, &stamp.digest)
}

/// Adds why bytes are no image at the end.
fn put_fault(out: &mut Blob, fault: &ImageFault) -> Result<(), AllocError>
    ensures put { OnOk result (out.new ≡ out.old ++ spelled (fault_fields fault.now)) }
    ensures fits { OnOk result (Fits Stamps.fault (fault_fields fault.now)) }
    ensures kept { Extends out.old out.new }
{
    match fault {
        ImageFault::Short { have } => {
            put_byte(out, 0)?;
            put_word(out, *have)
        }
        ImageFault::Magic => put_byte(out, 1),
        ImageFault::Version { found } => {
            put_byte(out, 2)?;
            put_byte(out, *found)
        }
        ImageFault::Length { said, have } => {
            put_byte(out, 3)?;
            put_word(out, *said)?;
            put_word(out, *have)
        }
        ImageFault::Digest { kept, found } => {
            put_byte(out, 4)?;
            put_digest(out, kept)?;
            put_digest(out, found)
        }
    }
}

/// Adds what was found at the end.
pub fn put_found(out: &mut Blob, found: &Found) -> Result<(), AllocError>
    ensures put { OnOk result (out.new ≡ out.old ++ spelled (found_fields found.now)) }
    ensures fits { OnOk result (Fits Stamps.found (found_fields found.now)) }
    ensures kept { Extends out.old out.new }
{
    match found {
        Found::Absent => put_byte(out, 0),
        Found::Broken { fault } => {
            put_byte(out, 1)?;
            put_fault(out, fault)
        }
        Found::Longer { len } => {
            put_byte(out, 2)?;
            put_long(out, *len)
        }
        Found::Other { stamp } => {
            put_byte(out, 3)?;
            put_stamp(out, stamp)
        }
        Found::Unfit { place } => {
            put_byte(out, 4)?;
            put_word(out, *place)
        }
    }
}
