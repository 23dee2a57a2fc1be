//! What a bucket is ripe for.

ghost use Rattle.std.specs.Prelude.{◌≡◌};
ghost use Rattle.slot_split.specs.Ripe.{act_of};

/// What is done with a bucket that is ripe.
#[derive(Clone, Copy, PartialEq, Eq, Debug)]
pub enum Act {
    /// Its upper slots become a bucket of their own.
    Split,
    /// Its records go to one block.
    Pack,
    /// It and the next bucket become one.
    Merge,
}

/// What a bucket of the slots from `lo` up to but not including `hi` is ripe for, with so many blocks and bytes of
/// records in them, where the next bucket has `next` bytes and a block at most `size`. None where it isn't ripe.
pub fn ripe(lo: u16, hi: u16, blocks: u64, bytes: u64, next: Option<u64>, size: u32) -> Option<Act>
    ensures { result ≡ act_of size lo hi blocks bytes next }
{
    let size = u64::from(size);
    if bytes > size && hi.saturating_sub(lo) >= 2 {
        return Some(Act::Split);
    }
    if blocks >= 2 && bytes <= size {
        return Some(Act::Pack);
    }
    let other = next?;
    let half = size / 2;
    let is_small = other <= half && bytes <= half - other;
    if is_small && (bytes > 0 || other > 0) {
        return Some(Act::Merge);
    }
    None
}
