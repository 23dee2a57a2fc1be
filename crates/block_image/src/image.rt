//! The stamp of a block, and its image written.

ghost use Rattle.std.specs.Prelude.{◌≡◌, ℕ, List, ◌+◌, ◌^◌, ◌<◌, ◌≤◌, ◌++◌, length, take, drop};
ghost use Rattle.block_image.specs.Images.{head, most, stamp_for, IsStampOf, IsImage};

use far_words::Stamp;
use sha2::{Digest, Sha256};

/// How many bytes of an image stand before its content.
pub const HEAD: usize = 53;

/// How many bytes a block has at most.
pub const MOST_IN_BLOCK: u32 = 65_536;

/// The first bytes of each image: `FMB1`.
pub(crate) const MAGIC: [u8; 4] = *b"FMB1";

/// The version of the images that are written and read.
pub(crate) const VERSION: u8 = 1;

/// The stamp of a user's block with this content. It reads the content once, for the digest.
pub fn stamp_of(user: u32, block: u64, bytes: &[u8]) -> Stamp
    requires { length bytes.now < 2 ^ 32 }
    ensures { result ≡ stamp_for user block bytes.now }
{
    Stamp {
        user,
        block,
        length: bytes.len() as u32,
        digest: Sha256::digest(bytes),
    }
}

// Writes a field at a place, and says where it ends.
fn put_field(out: &mut [u8], at: usize, field: &[u8]) -> usize
    requires { at + length field.now ≤ length out.old }
    ensures end { result ≡ at + length field.now }
    ensures written { take result out.new ≡ take at out.old ++ field.now }
    ensures rest { (n : ℕ) → result ≤ n → drop n out.new ≡ drop n out.old }
{
    let end = at + field.len();
    out[at..end].copy_from_slice(field);
    end
}

/// Writes the image of a block's content to the front of `out`, and says how many bytes that are. The content is copied
/// once.
///
/// `out` has room for the head and the content, the content has 1 to 65,536 bytes, and the stamp is that of the
/// content.
pub fn write_image(stamp: &Stamp, bytes: &[u8], out: &mut [u8]) -> usize
    requires room { head + length bytes.now ≤ length out.old }
    requires some { 1 ≤ length bytes.now }
    requires within { length bytes.now ≤ most }
    requires stamped { IsStampOf stamp.now bytes.now }
    ensures count { result ≡ head + length bytes.now }
    ensures image { IsImage (take result out.new) stamp.now bytes.now }
    ensures rest { drop result out.new ≡ drop result out.old }

    // One spelling: no other bytes are an image of this content under this stamp.
    ensures only { (image : List ℕ) → IsImage image stamp.now bytes.now → image ≡ take result out.new }
{
    let Stamp {
        user,
        block,
        length,
        digest,
    } = *stamp;
    let at = put_field(out, 0, &MAGIC);
    let at = put_field(out, at, &[VERSION]);
    let at = put_field(out, at, &user.to_be_bytes());
    let at = put_field(out, at, &block.to_be_bytes());
    let at = put_field(out, at, &length.to_be_bytes());
    let at = put_field(out, at, &digest);
    put_field(out, at, bytes)
}
