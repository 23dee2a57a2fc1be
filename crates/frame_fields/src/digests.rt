//! Digests: 32 bytes.

ghost use Rattle.std.specs.Prelude.{◌≡◌, [], ◌∷◌, ◌++◌, OnOk};
ghost use Rattle.frame_fields.specs.Fields.{spelling, Digest, ADigest, IsValue};
ghost use Rattle.frame_fields.specs.FrameLayouts.{Stop};
ghost use Rattle.frame_fields.specs.Parts.{a_digest};
ghost use Rattle.frame_fields.specs.Reads.{Finds};
ghost use Rattle.frame_fields.specs.Frames.{Extends};

use crate::ends::ReadEnd;
use crate::framed::Framed;
use far_words::Blob;
use std::alloc::{AllocError, Global};

/// The first 32 bytes, and the bytes after them.
fn digest_at(bytes: &[u8]) -> Option<([u8; 32], &[u8])>
    ensures { Finds (λ x. Digest x.0) (λ x. x.1.now) ADigest bytes.now result }
{
    if bytes.len() < 32 {
        return None;
    }
    let (front, rest) = bytes.split_at(32);
    let mut digest = [0; 32];
    digest.copy_from_slice(front);
    Some((digest, rest))
}

impl Framed for [u8; 32] {
    ghost layout = { a_digest Stop };

    ghost fields = { λ digest. Digest digest ∷ [] };

    fn read(_alloc: Global, bytes: &[u8]) -> Result<([u8; 32], &[u8]), ReadEnd> {
        let Some(found) = digest_at(bytes) else {
            return Err(ReadEnd::Bad { left: bytes.len() });
        };
        Ok(found)
    }
}

/// Adds a digest at the end.
#[tactic(auto, unfolding(crate::specs::Fields::spelling))]
pub fn put_digest(out: &mut Blob, digest: &[u8; 32]) -> Result<(), AllocError>
    ensures put { OnOk result (out.new ≡ out.old ++ spelling (Digest digest.now)) }
    ensures value { IsValue ADigest (Digest digest.now) }
    ensures kept { Extends out.old out.new }
{
    out.extend_from_slice(digest.as_slice())
}
