//! Blocks of a home that hold a list of bytes.

ghost use Rattle.std.specs.Prelude.{◌≡◌, ◌≢◌, ◌+◌, ◌-◌, ◌*◌, ◌%◌, ◌^◌, ◌<◌, ◌≤◌, ◌++◌, [], List, ℕ, min, length, take, drop, slice_index, vec_len, vec_capacity, IsTrue, IsErr, IfErr, OnOk, OnErr};
ghost use Rattle.std.specs.Int.{div_ceil};
ghost use Rattle.slice_seq.specs.Needs.{is_last_parked};
ghost use Rattle.shelf_link.specs.Blocks as map;
ghost use Rattle.block_home.specs.Homes.{room_of};
ghost use Rattle.block_home.specs.Stored.{Causes, IsStoreEnd};
ghost use Rattle.block_home.specs.Holding.{Holds};
ghost use Rattle.block_home.specs.Calls.{Carries, KeepsLengths};
ghost use Rattle.block_list.specs.Lists.{IsInSlice, KeepsOthers};
ghost use Rattle.block_list.specs.Growth.{ComeIn, AddsBlocks};
ghost use Rattle.block_list.specs.Ends.{NamesBlock, IsNeverDamaged};
ghost use Rattle.block_file.specs.Files.{file_in, HoldsBytes, IsSound, new_blocks, needs_last, needed_last};
ghost use Rattle.block_file.specs.Growth.{IsGrown};
ghost use Rattle.block_file.specs.Ends.{ReadsParked};

use block_home::{Home, HomeEnd};
use shelf_link::Shelf;

/// Whether the last block is in no slice.
pub(crate) fn ends_parked<K: Shelf>(blocks: &[u64], home: &Home<K>) -> bool
    ensures { result ≡ is_last_parked home.now.seats.purse blocks.now }
{
    match blocks.last() {
        Some(block) => home.place(*block).is_none(),
        None => true,
    }
}

/// Brings the last block into a slice, where it is parked and an append of so many bytes needs it. The blocks hold
/// `used` bytes.
pub(crate) fn load_last<K: Shelf>(
    blocks: &[u64],
    home: &mut Home<K>,
    used: u64,
    more: u64,
) -> Result<(), HomeEnd>
    requires sound { IsSound home.old.seats (file_in used blocks.now) }
    requires room { length (needed_last home.old.seats (file_in used blocks.now) more) ≤ room_of home.old.seats }
    ensures came { OnOk result
        (ComeIn (needed_last home.old.seats (file_in used blocks.now) more) home.old.seats home.new.seats) }
    ensures left { OnOk result
        (room_of home.old.seats
        ≤ room_of home.new.seats + length (needed_last home.old.seats (file_in used blocks.now) more)) }
    ensures seated { OnOk result (0 < more → used % home.old.seats.size ≢ 0
        → IsInSlice home.new.seats (slice_index blocks.now (length blocks.now - 1))) }
    ensures lengths { KeepsLengths home.old.seats home.new.seats }
    ensures others { KeepsOthers home.old.seats.blocks home.new.seats.blocks blocks.now }
    ensures holds { Carries home.old.user (K.told home.old.shelf) home.old.seats.blocks
        (K.told home.new.shelf) home.new.seats.blocks }
    ensures told { K.told home.new.shelf ≡ K.told home.old.shelf }
    ensures rest { home.new ≡ record home.old { seats = home.new.seats; shelf = home.new.shelf } }
    ensures same { OnErr result (home.new.seats ≡ home.old.seats) }
    ensures ends { IfErr result IsStoreEnd }
    ensures cause { Causes (K.faults home.old.shelf) (K.faults home.new.shelf) result }
    ensures names { NamesBlock home.old.seats blocks.now result }
    ensures telling { IsNeverDamaged (K.told home.old.shelf) home.old.user home.old.seats result }
    ensures void { IsTrue (K.told home.old.shelf).void
        → IsTrue (needs_last home.old.seats (file_in used blocks.now) more) → IsErr result }
    ensures needed { OnErr result (IsTrue (needs_last home.old.seats (file_in used blocks.now) more)) }
{
    let size = u64::from(home.size());
    if more == 0 || used % size == 0 {
        return Ok(());
    }
    home.load(blocks[blocks.len() - 1])
}

/// Writes into the last block what it has room for, and says how much that is. The blocks hold `used` bytes before.
pub(crate) fn fill_last<K: Shelf>(
    blocks: &[u64],
    home: &mut Home<K>,
    used: u64,
    bytes: &[u8],
) -> usize
    requires sound { IsSound home.old.seats (file_in used blocks.now) }
    requires seated { 0 < length bytes.now → used % home.old.seats.size ≢ 0
        → IsInSlice home.old.seats (slice_index blocks.now (length blocks.now - 1)) }
    ensures count { result ≡ min (length bytes.now) (length blocks.now * home.old.seats.size - used) }
    ensures sound { IsSound home.new.seats (file_in (used + result) blocks.now) }
    ensures bytes { (m : map.Blocks) (old : List ℕ)
        → Holds m (K.told home.old.shelf) home.old.user home.old.seats.blocks
        → used ≡ length old → HoldsBytes home.old.seats.size m blocks.now old
        → IsGrown m (K.told home.new.shelf) home.old.user home.new.seats
        (file_in (used + result) blocks.now) (old ++ take result bytes.now) }
    ensures rest { home.new ≡ record home.old { seats = record home.old.seats { blocks = home.new.seats.blocks } } }
    ensures numbers { AddsBlocks home.old.seats [] home.new.seats }
    ensures others { KeepsOthers home.old.seats.blocks home.new.seats.blocks blocks.now }
    ensures room { room_of home.new.seats ≡ room_of home.old.seats }
    // What `size` says of each home.
    ensures some { 1 ≤ home.old.seats.size }
{
    let size = u64::from(home.size());
    let at = used % size;
    if at == 0 || bytes.is_empty() {
        return 0;
    }
    let last = blocks[blocks.len() - 1];
    let count = bytes.len().min((size - at) as usize);
    home.write(last, at as u32, &bytes[..count]);
    count
}

/// Puts bytes into new blocks, as few as can, after `used` ones that fill the blocks that are there.
pub(crate) fn add_blocks<K: Shelf>(
    blocks: &mut Vec<u64>,
    home: &mut Home<K>,
    used: u64,
    bytes: &[u8],
)
    requires sound { IsSound home.old.seats (file_in used blocks.old.items) }
    requires full { 0 < length bytes.now → used ≡ vec_len blocks.old * home.old.seats.size }
    requires room { div_ceil (length bytes.now) home.old.seats.size ≤ room_of home.old.seats }
    requires space { vec_len blocks.old + div_ceil (length bytes.now) home.old.seats.size ≤ vec_capacity blocks.old }
    ensures sound { IsSound home.new.seats (file_in (used + length bytes.now) blocks.new.items) }
    ensures bytes { (m : map.Blocks) (old : List ℕ)
        → Holds m (K.told home.old.shelf) home.old.user home.old.seats.blocks
        → used ≡ length old → HoldsBytes home.old.seats.size m blocks.old.items old
        → IsGrown m (K.told home.new.shelf) home.old.user home.new.seats
        (file_in (used + length bytes.now) blocks.new.items) (old ++ bytes.now) }
    ensures added { (added : List ℕ) × (blocks.new.items ≡ blocks.old.items ++ added)
        × ComeIn added home.old.seats home.new.seats × AddsBlocks home.old.seats added home.new.seats }
    ensures others { KeepsOthers home.old.seats.blocks home.new.seats.blocks blocks.new.items }
    ensures rest { home.new ≡ record home.old { seats = home.new.seats } }
{
    let size = home.size() as usize;
    let mut done = 0;
    while done < bytes.len() {
        let end = bytes.len().min(done + size);
        let block = home.add(&bytes[done..end]);
        blocks.push_reserved(block);
        done = end;
    }
}

/// Puts bytes after the `used` ones that the blocks hold: the last block is filled first, and then come new blocks, as
/// few as can.
pub(crate) fn extend_blocks<K: Shelf>(
    blocks: &mut Vec<u64>,
    home: &mut Home<K>,
    used: u64,
    bytes: &[u8],
)
    requires sound { IsSound home.old.seats (file_in used blocks.old.items) }
    requires limit { used + length bytes.now < 2 ^ 64 }
    requires seated { 0 < length bytes.now → used % home.old.seats.size ≢ 0
        → IsInSlice home.old.seats (slice_index blocks.old.items (length blocks.old.items - 1)) }
    requires room { new_blocks home.old.seats.size used (length bytes.now) ≤ room_of home.old.seats }
    requires space { vec_len blocks.old + new_blocks home.old.seats.size used (length bytes.now)
        ≤ vec_capacity blocks.old }
    ensures sound { IsSound home.new.seats (file_in (used + length bytes.now) blocks.new.items) }
    ensures bytes { (m : map.Blocks) (old : List ℕ)
        → Holds m (K.told home.old.shelf) home.old.user home.old.seats.blocks
        → used ≡ length old → HoldsBytes home.old.seats.size m blocks.old.items old
        → IsGrown m (K.told home.new.shelf) home.old.user home.new.seats
        (file_in (used + length bytes.now) blocks.new.items) (old ++ bytes.now) }
    ensures added { (added : List ℕ) × (blocks.new.items ≡ blocks.old.items ++ added)
        × ComeIn added home.old.seats home.new.seats × AddsBlocks home.old.seats added home.new.seats }
    ensures others { KeepsOthers home.old.seats.blocks home.new.seats.blocks blocks.new.items }
    ensures rest { home.new ≡ record home.old { seats = home.new.seats } }
{
    let filled = fill_last(blocks, home, used, bytes);
    add_blocks(blocks, home, used + filled as u64, &bytes[filled..]);
}

/// Fills `out` with the bytes from place `from` on. The blocks hold `used` bytes.
pub(crate) fn read_blocks<K: Shelf>(
    blocks: &[u64],
    home: &mut Home<K>,
    used: u64,
    from: u64,
    out: &mut [u8],
) -> Result<(), HomeEnd>
    requires sound { IsSound home.old.seats (file_in used blocks.now) }
    requires within { 0 < length out.old → from + length out.old ≤ used }
    requires fits { from + length out.old < 2 ^ 64 }
    ensures bytes { OnOk result ((m : map.Blocks) (bytes : List ℕ)
        → Holds m (K.told home.old.shelf) home.old.user home.old.seats.blocks
        → used ≡ length bytes → HoldsBytes home.old.seats.size m blocks.now bytes
        → out.new ≡ take (length out.old) (drop from bytes)) }
    ensures told { K.told home.new.shelf ≡ K.told home.old.shelf }
    ensures rest { home.new ≡ record home.old { shelf = home.new.shelf } }
    ensures ends { IfErr result IsStoreEnd }
    ensures cause { Causes (K.faults home.old.shelf) (K.faults home.new.shelf) result }
    ensures names { NamesBlock home.old.seats blocks.now result }
    ensures telling { IsNeverDamaged (K.told home.old.shelf) home.old.user home.old.seats result }
    ensures void { IsTrue (K.told home.old.shelf).void
        → ReadsParked home.old.seats (file_in used blocks.now) from (length out.old) → IsErr result }
{
    let size = u64::from(home.size());
    let mut done = 0;
    while done < out.len() {
        let at = from + done as u64;
        let start = at % size;
        let end = out.len().min(done + (size - start) as usize);
        home.read(
            blocks[(at / size) as usize],
            start as u32,
            &mut out[done..end],
        )?;
        done = end;
    }
    Ok(())
}
