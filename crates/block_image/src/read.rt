//! An image read.

ghost use Rattle.std.specs.Prelude.{◌≡◌, ℕ, List, ◌+◌, ◌^◌, ◌<◌, ◌≤◌, length};
ghost use Rattle.std.specs.Prelude.{drop, slice_range, IfOk, IfErr, OnOk, Ok};
ghost use Rattle.std.specs.Int.{w32, w64, to_be_bytes};
ghost use Rattle.far_words.specs.declared.stamp.Stamp.{Stamp};
ghost use Rattle.block_image.specs.Images.{head, IsImage, IsFault, HasHead};

use crate::image::{HEAD, MAGIC, MOST_IN_BLOCK, VERSION};
use far_words::{ImageFault, Stamp};
use sha2::{Digest, Sha256};

/// A good image: its stamp, and the place from which on its content stands.
#[derive(Clone, Copy, PartialEq, Eq, Debug)]
pub struct View {
    pub stamp: Stamp,
    pub from: usize,
}

// The four bytes at a place, as a number.
fn word_at(bytes: &[u8], at: usize) -> u32
    requires { at + 4 ≤ length bytes.now }
    ensures { slice_range bytes.now at (at + 4) ≡ to_be_bytes w32 result }
{
    let mut word = [0; 4];
    word.copy_from_slice(&bytes[at..at + 4]);
    u32::from_be_bytes(word)
}

// The eight bytes at a place, as a number.
fn long_at(bytes: &[u8], at: usize) -> u64
    requires { at + 8 ≤ length bytes.now }
    ensures { slice_range bytes.now at (at + 8) ≡ to_be_bytes w64 result }
{
    let mut long = [0; 8];
    long.copy_from_slice(&bytes[at..at + 8]);
    u64::from_be_bytes(long)
}

// The digest that stands before the content.
fn kept_digest(bytes: &[u8]) -> [u8; 32]
    requires { head ≤ length bytes.now }
    ensures { result ≡ slice_range bytes.now 21 53 }
{
    let mut digest = [0; 32];
    digest.copy_from_slice(&bytes[21..HEAD]);
    digest
}

// Looks at what stands before the content, but for the digest.
fn check_head(bytes: &[u8]) -> Result<(), ImageFault>
    requires { length bytes.now < 2 ^ 32 }
    ensures ok { OnOk result (HasHead bytes.now) }
    ensures err { IfErr result (IsFault bytes.now) }
{
    if bytes.len() < HEAD {
        return Err(ImageFault::Short {
            have: bytes.len() as u32,
        });
    }
    if bytes[..4] != MAGIC[..] {
        return Err(ImageFault::Magic);
    }
    let found = bytes[4];
    if found != VERSION {
        return Err(ImageFault::Version { found });
    }
    let said = word_at(bytes, 17);
    let have = (bytes.len() - HEAD) as u32;
    if said == 0 || said > MOST_IN_BLOCK || said != have {
        return Err(ImageFault::Length { said, have });
    }
    Ok(())
}

/// Reads an image. It refuses exactly bytes that are no image, and names what is wrong with them first, in the order of
/// [`ImageFault`]. It reads the content once, for the digest, and copies nothing of it.
pub fn read_image(bytes: &[u8]) -> Result<View, ImageFault>
    requires { length bytes.now < 2 ^ 32 }
    ensures ok { IfOk result (λ view. IsImage bytes.now view.stamp (drop view.from bytes.now)) }
    ensures err { IfErr result (IsFault bytes.now) }

    // One reading: bytes that are an image of some content under some stamp are read as that.
    ensures reads { (stamp : Stamp) (content : List ℕ) → IsImage bytes.now stamp content
        → result ≡ Ok (record { stamp = stamp; from = head }) }
{
    check_head(bytes)?;
    let kept = kept_digest(bytes);
    let found = Sha256::digest(&bytes[HEAD..]);
    if kept != found {
        return Err(ImageFault::Digest { kept, found });
    }
    let stamp = Stamp {
        user: word_at(bytes, 5),
        block: long_at(bytes, 9),
        length: word_at(bytes, 17),
        digest: kept,
    };
    Ok(View { stamp, from: HEAD })
}
