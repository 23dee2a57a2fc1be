//! Bytes behind their count.

ghost use Rattle.std.specs.Prelude.{◌≡◌, ◌^◌, ◌<◌, [], ◌∷◌, ◌++◌, length, true, OnOk};
ghost use Rattle.frame_fields.specs.Fields.{spelling, Text, AText, IsValue};
ghost use Rattle.frame_fields.specs.FrameLayouts.{Stop};
ghost use Rattle.frame_fields.specs.Parts.{a_blob};
ghost use Rattle.frame_fields.specs.Reads.{Finds};
ghost use Rattle.frame_fields.specs.Frames.{Extends};

use crate::ends::ReadEnd;
use crate::framed::Framed;
use crate::numbers::word_at;
use far_words::Blob;
use std::alloc::{AllocError, Global};

/// The bytes behind their count, and those after them.
pub fn text_at(bytes: &[u8]) -> Option<(&[u8], &[u8])>
    ensures { Finds (λ x. Text x.0.now) (λ x. x.1.now) (AText (λ _. true)) bytes.now result }
{
    let Some((len, rest)) = word_at(bytes) else {
        return None;
    };
    if rest.len() < len as usize {
        return None;
    }
    let (text, rest) = rest.split_at(len as usize);
    Some((text, rest))
}

impl Framed for Blob {
    ghost layout = { a_blob Stop };

    ghost fields = { λ blob. Text blob ∷ [] };

    fn read(alloc: Global, bytes: &[u8]) -> Result<(Blob, &[u8]), ReadEnd> {
        match text_at(bytes) {
            Some((text, rest)) => {
                let blob = Blob::from_slice(alloc, text)?;
                Ok((blob, rest))
            }
            None => Err(ReadEnd::Bad { left: bytes.len() }),
        }
    }
}

/// Adds bytes behind their count at the end.
#[tactic(auto, unfolding(crate::specs::Fields::spelling))]
pub fn put_text(out: &mut Blob, bytes: &[u8]) -> Result<(), AllocError>
    requires { length bytes.now < 2 ^ 32 }
    ensures put { OnOk result (out.new ≡ out.old ++ spelling (Text bytes.now)) }
    ensures value { IsValue (AText (λ _. true)) (Text bytes.now) }
    ensures kept { Extends out.old out.new }
{
    out.extend_from_slice(&(bytes.len() as u32).to_be_bytes())?;
    out.extend_from_slice(bytes)
}
