//! Images of blocks, put into a store and fetched from it.

ghost use Rattle.std.specs.Prelude.{◌≡◌, ℕ, List, ◌+◌, ◌^◌, ◌<◌, ◌≤◌, length, drop, IsTrue, IsOk, IfErr, IfOk, OnOk, false};
ghost use Rattle.far_io.specs.Faults.{Follows, HasCause};
ghost use Rattle.block_image.specs.Images.{head, most, stamp_for, IsImage, IsFoundInstead};
ghost use Rattle.shelf_link.specs.Told.{IsSameKind, KeepsOthers, tells};
ghost use Rattle.block_home.specs.Stored.{IsStored, IsStoreEnd, Fetches, Causes};

use crate::end::HomeEnd;
use block_image::{read_image, stamp_of, write_image};
use far_io::Failed;
use far_words::{Found, Stamp};
use shelf_link::{Got, Shelf};

/// Puts the image of a block's content into the store, by way of a buffer, and gives its stamp.
pub(crate) fn put_image<K: Shelf>(
    shelf: &mut K,
    image: &mut [u8],
    user: u32,
    block: u64,
    bytes: &[u8],
) -> Result<Stamp, Failed>
    requires room { head + length bytes.now ≤ length image.old }
    requires some { 1 ≤ length bytes.now }
    requires within { length bytes.now ≤ most }
    ensures stamp { IfOk result (λ stamp. stamp ≡ stamp_for user block bytes.now) }
    ensures stored { OnOk result (IsTrue (tells (K.told shelf.new)) → IsStored (K.told shelf.new) block (stamp_for user block bytes.now) bytes.now) }
    ensures others { KeepsOthers (K.told shelf.old) (K.told shelf.new) block }
    ensures kind { IsSameKind (K.told shelf.old) (K.told shelf.new) }
    ensures cause { HasCause (K.faults shelf.old) (K.faults shelf.new) result }
    ensures buffer { length image.new ≡ length image.old }
{
    let stamp = stamp_of(user, block, bytes);
    let count = write_image(&stamp, bytes, image);
    match shelf.put(block, &image[..count]) {
        Ok(()) => Ok(stamp),
        Err(Failed) => Err(Failed),
    }
}

/// Looks whether bytes are an image with this stamp, and says what they are instead.
fn check_image(bytes: &[u8], kept: &Stamp) -> Result<(), Found>
    requires { length bytes.now < 2 ^ 32 }
    ensures ok { OnOk result (IsImage bytes.now kept.now (drop head bytes.now)) }
    ensures found { IfErr result (IsFoundInstead kept.now) }
    ensures reads { (content : List ℕ) → IsImage bytes.now kept.now content → IsOk result }
{
    match read_image(bytes) {
        Ok(view) => {
            if view.stamp == *kept {
                Ok(())
            } else {
                Err(Found::Other { stamp: view.stamp })
            }
        }
        Err(fault) => Err(Found::Broken { fault }),
    }
}

/// Fetches the image of a parked block into a buffer. After an Ok its content stands there behind the head.
pub(crate) fn fetch_image<K: Shelf>(
    shelf: &mut K,
    image: &mut [u8],
    block: u64,
    kept: &Stamp,
) -> Result<(), HomeEnd>
    requires room { head + kept.now.length ≤ length image.old }
    requires few { length image.old < 2 ^ 32 }
    ensures fetches { Fetches (K.told shelf.old) block kept.now image.new result }
    ensures same { K.told shelf.new ≡ K.told shelf.old }
    ensures cause { Causes (K.faults shelf.old) (K.faults shelf.new) result }
    ensures ends { IfErr result IsStoreEnd }
    ensures buffer { length image.new ≡ length image.old }
{
    match shelf.get(block, image) {
        Ok(Got::Bytes(count)) => match check_image(&image[..count], kept) {
            Ok(()) => Ok(()),
            Err(found) => Err(damaged(kept, found)),
        },
        Ok(Got::Absent) => Err(damaged(kept, Found::Absent)),
        Ok(Got::Longer(len)) => Err(damaged(kept, Found::Longer { len })),
        Err(Failed) => Err(HomeEnd::StoreFault),
    }
}

fn damaged(kept: &Stamp, found: Found) -> HomeEnd
    ensures { result ≡ HomeEnd.Damaged kept.now found }
{
    HomeEnd::Damaged { kept: *kept, found }
}

/// Removes the image of a block, if the block was ever put, by one call. Whether that fails changes nothing of the block.
pub(crate) fn remove_image<K: Shelf>(shelf: &mut K, block: u64, was_put: bool)
    ensures others { KeepsOthers (K.told shelf.old) (K.told shelf.new) block }
    ensures kind { IsSameKind (K.told shelf.old) (K.told shelf.new) }
    ensures follows { Follows (K.faults shelf.old) (K.faults shelf.new) }
    ensures never { was_put ≡ false → shelf.new ≡ shelf.old }
{
    if was_put {
        let _ = shelf.remove(block);
    }
}
