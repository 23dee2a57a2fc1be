//! Items in the blocks of a home.

ghost use Rattle.std.specs.Prelude.{◌≡◌, ℕ, List, [], ◌∷◌, ◌++◌, ◌+◌, ◌^◌, ◌<◌, ◌≤◌, length, Some, None, IsTrue, IsErr, IfOk, IfErr, OnOk, OnErr};
ghost use Rattle.shelf_link.specs.Blocks as map;
ghost use Rattle.shelf_link.specs.Told.{tells};
ghost use Rattle.block_seats.specs.Purses.{place_of};
ghost use Rattle.block_seats.specs.Seatings.{HasBlock, length_at};
ghost use Rattle.block_home.specs.Homes.{room_of};
ghost use Rattle.block_home.specs.Stored.{Causes, IsStoreEnd};
ghost use Rattle.block_home.specs.Holding.{Holds};
ghost use Rattle.block_home.specs.Calls.{stamp_at, IsUndamaged};
ghost use Rattle.block_list.specs.Lists.{KeepsOthers, parked_of};
ghost use Rattle.block_list.specs.Growth.{ComeIn, AddsBlocks};
ghost use Rattle.block_list.specs.Ends.{IsPreparedEnd, NamesBlock, IsNeverDamaged};
ghost use Rattle.queue_block.specs.Items.{Fits, item_bytes, BeginsAt};
ghost use Rattle.block_queue.specs.Ends.{IsUnfitEnd};

use crate::marks::Mark;
use block_home::{Home, HomeEnd};
use far_words::{Blob, Found, Stamp, Unfit};
use queue_block::{HEAD, next_item, put_item};
use shelf_link::Shelf;
use std::alloc::{AllocError, Global};

/// An item behind its count.
pub(crate) fn item_piece(alloc: Global, item: &[u8]) -> Result<Blob, AllocError>
    requires { Fits item.now }
    ensures { IfOk result (λ piece. piece ≡ item_bytes item.now) }
{
    let mut piece = Blob::new(alloc);
    piece.reserve(HEAD + item.len())?;
    put_item(&mut piece, item)?;
    Ok(piece)
}

/// Writes bytes at the end of a block, which comes into a slice first where it is parked. They fit there, and the home
/// has room for it.
pub(crate) fn write_behind<K: Shelf>(
    home: &mut Home<K>,
    block: u64,
    piece: &[u8],
) -> Result<(), HomeEnd>
    requires there { HasBlock home.old.seats block }
    requires prepared { length (parked_of home.old.seats.purse (block ∷ [])) ≤ room_of home.old.seats }
    requires fits { length_at home.old.seats block + length piece.now ≤ home.old.seats.size }
    ensures bytes { OnOk result ((m : map.Blocks) (bytes : List ℕ)
        → Holds m (K.told home.old.shelf) home.old.user home.old.seats.blocks
        → map.block_at m block ≡ Some bytes
        → Holds (map.with_block m block (bytes ++ piece.now)) (K.told home.new.shelf) home.old.user
        home.new.seats.blocks) }
    ensures came { OnOk result (ComeIn (parked_of home.old.seats.purse (block ∷ [])) home.old.seats home.new.seats) }
    ensures longer { OnOk result (length_at home.new.seats block ≡ length_at home.old.seats block + length piece.now) }
    ensures lengths { (q : ℕ) → length_at home.old.seats q ≤ length_at home.new.seats q }
    ensures few { OnOk result (length_at home.old.seats block < 2 ^ 32) }
    ensures same_blocks { AddsBlocks home.old.seats [] home.new.seats }
    ensures others { KeepsOthers home.old.seats.blocks home.new.seats.blocks (block ∷ []) }
    ensures told { K.told home.new.shelf ≡ K.told home.old.shelf }
    ensures rest { home.new ≡ record home.old { seats = home.new.seats; shelf = home.new.shelf } }
    ensures same { OnErr result (home.new.seats ≡ home.old.seats) }
    ensures ends { IfErr result IsStoreEnd }
    ensures cause { Causes (K.faults home.old.shelf) (K.faults home.new.shelf) result }
    ensures names { NamesBlock home.old.seats (block ∷ []) result }
    ensures telling { IsNeverDamaged (K.told home.old.shelf) home.old.user home.old.seats result }
    ensures void { IsTrue (K.told home.old.shelf).void → place_of home.old.seats.purse block ≡ None → IsErr result }
{
    if let Err(end) = home.load(block) {
        return Err(end);
    }
    let at = home.length(block);
    home.write(block, at, piece);
    Ok(())
}

/// All bytes of a block, through the store where it is parked.
fn content_of<K: Shelf>(home: &mut Home<K>, alloc: Global, block: u64) -> Result<Blob, HomeEnd>
    requires { HasBlock home.old.seats block }
    ensures content { IfOk result (λ content. (m : map.Blocks)
        → Holds m (K.told home.old.shelf) home.old.user home.old.seats.blocks → map.block_at m block ≡ Some content) }
    ensures count { IfOk result (λ content. length content ≡ length_at home.old.seats block) }
    ensures limit { IfOk result (λ content. length content ≤ home.old.seats.size) }
    ensures told { K.told home.new.shelf ≡ K.told home.old.shelf }
    ensures rest { home.new ≡ record home.old { shelf = home.new.shelf } }
    ensures ends { IfErr result IsPreparedEnd }
    ensures cause { Causes (K.faults home.old.shelf) (K.faults home.new.shelf) result }
    ensures names { NamesBlock home.old.seats (block ∷ []) result }
    ensures telling { IsNeverDamaged (K.told home.old.shelf) home.old.user home.old.seats result }
    ensures void { IsTrue (K.told home.old.shelf).void → place_of home.old.seats.purse block ≡ None → IsErr result }
{
    let mut content = Blob::new(alloc);
    if content.resize(home.length(block) as usize, 0).is_err() {
        return Err(HomeEnd::NoMemory);
    }
    match home.read(block, 0, content.items_mut()) {
        Ok(()) => Ok(content),
        Err(end) => Err(end),
    }
}

/// The item at a place of a parked block's content. Damaged comes exactly where no whole one begins there.
fn item_of(alloc: Global, content: &[u8], at: u32, kept: Stamp) -> Result<Blob, HomeEnd>
    requires { at ≤ length content.now }
    ensures item { IfOk result (λ item. (whole : List ℕ) → BeginsAt content.now at whole → item ≡ whole) }
    ensures short { IfOk result (λ item. length item ≤ length content.now) }
    ensures ends { IfErr result (IsUnfitEnd kept) }
    ensures whole { (whole : List ℕ) → BeginsAt content.now at whole → IsUndamaged result }
{
    match next_item(content, at) {
        Ok(Some(item)) => copied(alloc, item),
        Ok(None) => Err(unfit(kept, at)),
        Err(Unfit { place }) => Err(unfit(kept, place)),
    }
}

fn unfit(kept: Stamp, place: u32) -> HomeEnd
    ensures { result ≡ HomeEnd.Damaged kept (Found.Unfit place) }
{
    let found = Found::Unfit { place };
    HomeEnd::Damaged { kept, found }
}

/// The item at a place of a block in a slice. A block that came from a store which doesn't tell its content may have
/// other bytes than were put there, and it has no stamp by which it could be called damaged. Where no whole item begins
/// at the place, what is left of such a block is the item.
fn item_in(alloc: Global, bytes: &[u8], at: u32) -> Result<Blob, HomeEnd>
    requires { at ≤ length bytes.now }
    ensures item { IfOk result (λ item. (whole : List ℕ) → BeginsAt bytes.now at whole → item ≡ whole) }
    ensures short { IfOk result (λ item. length item ≤ length bytes.now) }
    ensures starved { IfErr result (λ end. end ≡ HomeEnd.NoMemory) }
{
    match next_item(bytes, at) {
        Ok(Some(item)) => copied(alloc, item),
        Ok(None) => copied(alloc, &[]),
        Err(_) => copied(alloc, &bytes[at as usize..]),
    }
}

fn copied(alloc: Global, item: &[u8]) -> Result<Blob, HomeEnd>
    ensures item { IfOk result (λ copy. copy ≡ item.now) }
    ensures starved { IfErr result (λ end. end ≡ HomeEnd.NoMemory) }
{
    match Blob::from_slice(alloc, item) {
        Ok(copy) => Ok(copy),
        Err(AllocError) => Err(HomeEnd::NoMemory),
    }
}

/// The first unread item of a block. A parked block is read through the store by one call, and no block moves.
pub(crate) fn read_item<K: Shelf>(
    home: &mut Home<K>,
    alloc: Global,
    mark: &Mark,
) -> Result<Blob, HomeEnd>
    requires there { HasBlock home.old.seats mark.now.block }
    requires within { mark.now.at ≤ length_at home.old.seats mark.now.block }
    ensures item { IfOk result (λ item. (m : map.Blocks) (bytes whole : List ℕ)
        → Holds m (K.told home.old.shelf) home.old.user home.old.seats.blocks
        → map.block_at m mark.now.block ≡ Some bytes → BeginsAt bytes mark.now.at whole → item ≡ whole) }
    ensures short { IfOk result (λ item. length item ≤ home.old.seats.size) }
    ensures told { K.told home.new.shelf ≡ K.told home.old.shelf }
    ensures rest { home.new ≡ record home.old { shelf = home.new.shelf } }
    ensures ends { IfErr result IsPreparedEnd }
    ensures cause { Causes (K.faults home.old.shelf) (K.faults home.new.shelf) result }
    ensures names { NamesBlock home.old.seats (mark.now.block ∷ []) result }
    ensures telling { IsTrue (tells (K.told home.old.shelf)) → (m : map.Blocks) (bytes whole : List ℕ)
        → Holds m (K.told home.old.shelf) home.old.user home.old.seats.blocks
        → map.block_at m mark.now.block ≡ Some bytes → BeginsAt bytes mark.now.at whole → IsUndamaged result }
    ensures void { IsTrue (K.told home.old.shelf).void → place_of home.old.seats.purse mark.now.block ≡ None
        → IsErr result }
{
    let Some(kept) = home.stamp(mark.block) else {
        return item_in(alloc, home.bytes(mark.block), mark.at);
    };
    match content_of(home, alloc, mark.block) {
        Ok(content) => item_of(alloc, content.items(), mark.at, kept),
        Err(end) => Err(end),
    }
}
