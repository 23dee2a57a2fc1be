//! The bytes of a queue's block: its items, each behind the count of its bytes.
//!
//! The layout is in `docs/FORMATS.md`, and the definitions in `specs/` say besides how a queue's blocks change.
#![tactic(auto)]

ghost use Rattle.std.specs.Prelude.{◌≡◌, ℕ, List, ◌+◌, ◌≤◌, ◌++◌, length, take, drop, OnOk};
ghost use Rattle.std.specs.Int.{w32, to_be_bytes};
ghost use Rattle.queue_block.specs.Items.{head, Fits, item_bytes, BeginsAt, ReadsAt, IsItem};

use far_words::{Blob, Unfit};
use std::alloc::AllocError;

/// How many bytes stand before an item: the count of its own.
pub const HEAD: usize = 4;

/// Adds an item behind its count at the end of a block's bytes.
#[tactic(auto, unfolding(crate::specs::Items::item_bytes))]
pub fn put_item(out: &mut Blob, item: &[u8]) -> Result<(), AllocError>
    requires { Fits item.now }
    ensures put { OnOk result (out.new ≡ out.old ++ item_bytes item.now) }
{
    out.extend_from_slice(&(item.len() as u32).to_be_bytes())?;
    out.extend_from_slice(item)
}

/// The item that begins at a place of a block's bytes, or none where that is their end. Unfit comes exactly where no
/// whole item begins there.
pub fn next_item(bytes: &[u8], at: u32) -> Result<Option<&[u8]>, Unfit>
    requires { at ≤ length bytes.now }
    ensures reads { ReadsAt (λ item. item.now) bytes.now at result }

    // One reading: an item that begins there is what is read.
    ensures only { (item : List ℕ) → BeginsAt bytes.now at item → IsItem (λ item. item.now) item result }
{
    let from = at as usize;
    let left = bytes.len() - from;
    if left == 0 {
        return Ok(None);
    }
    if left < HEAD {
        return Err(Unfit { place: at });
    }
    let len = count_at(bytes, from) as usize;
    if left - HEAD < len {
        return Err(Unfit { place: at });
    }
    let from = from + HEAD;
    Ok(Some(&bytes[from..from + len]))
}

/// The count that stands at a place.
fn count_at(bytes: &[u8], at: usize) -> u32
    requires { at + head ≤ length bytes.now }
    ensures { take head (drop at bytes.now) ≡ to_be_bytes w32 result }
{
    u32::from_be_bytes([bytes[at], bytes[at + 1], bytes[at + 2], bytes[at + 3]])
}
