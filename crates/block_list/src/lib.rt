//! Lists of blocks in a home: what files, and other contents that are kept in blocks, do with all of theirs.
//!
//! A content keeps a list of block numbers. Its blocks are counted, parked, brought back and ended here, over the home's
//! contract alone, so over every store. Nothing here takes memory but the numbers that [`load_blocks`] may need.
#![tactic(auto)]

ghost use Rattle.std.specs.Prelude.{◌≡◌, ◌<◌, ◌≤◌, ℕ, length, take, IsTrue, IsErr, IfErr, OnOk, OnErr, IsOkUnless, Err};
ghost use Rattle.far_io.specs.Faults.{Follows, HasCause};
ghost use Rattle.shelf_link.specs.Blocks as map;
ghost use Rattle.shelf_link.specs.Told.{IsSameKind};
ghost use Rattle.slice_seq.specs.Ascending.{ascending};
ghost use Rattle.block_seats.specs.Seatings.{used_of, granted_of, open_of};
ghost use Rattle.block_home.specs.Homes.{room_of};
ghost use Rattle.block_home.specs.Stored.{Causes, IsStoreEnd};
ghost use Rattle.block_home.specs.Holding.{Holds};
ghost use Rattle.block_home.specs.Calls.{Carries, KeepsLengths};
ghost use Rattle.block_list.specs.Lists.{AreThere, KeepsOthers, parked_of, seated_of, without_all};
ghost use Rattle.block_list.specs.Growth.{ComeIn, GoOut, with_numbers};
ghost use Rattle.block_list.specs.Ends.{IsPreparedEnd, NamesBlock, IsNeverDamaged};

use block_home::{Home, HomeEnd, StoreFault};
use shelf_link::Shelf;

/// Ends these blocks, each once.
pub fn cut_blocks<K: Shelf>(home: &mut Home<K>, blocks: &[u64])
    requires { AreThere home.old.seats blocks.now }
    ensures holds { (m : map.Blocks) → Holds m (K.told home.old.shelf) home.old.user home.old.seats.blocks
        → Holds (without_all m blocks.now) (K.told home.new.shelf) home.old.user home.new.seats.blocks }
    ensures blocks { home.new.seats.blocks ≡ without_all home.old.seats.blocks blocks.now }
    ensures goes { GoOut blocks.now home.old.seats home.new.seats }
    ensures others { KeepsOthers home.old.seats.blocks home.new.seats.blocks blocks.now }
    ensures follows { Follows (K.faults home.old.shelf) (K.faults home.new.shelf) }
    ensures kind { IsSameKind (K.told home.old.shelf) (K.told home.new.shelf) }
    ensures rest { home.new ≡ record home.old { seats = home.new.seats; shelf = home.new.shelf } }
{
    for block in blocks {
        home.cut(*block);
    }
}

/// Parks those of these blocks that are in slices, in the list's order. It stops at the first that the store doesn't
/// take: that one stays in its slice, and those before it stay parked.
pub fn park_blocks<K: Shelf>(home: &mut Home<K>, blocks: &[u64]) -> Result<(), StoreFault>
    requires { AreThere home.old.seats blocks.now }
    ensures holds { Carries home.old.user (K.told home.old.shelf) home.old.seats.blocks
        (K.told home.new.shelf) home.new.seats.blocks }
    ensures ok { OnOk result (GoOut (seated_of home.old.seats.purse blocks.now) home.old.seats home.new.seats) }
    ensures err { OnErr result ((n : ℕ)
        × GoOut (take n (seated_of home.old.seats.purse blocks.now)) home.old.seats home.new.seats) }
    ensures lengths { KeepsLengths home.old.seats home.new.seats }
    ensures others { KeepsOthers home.old.seats.blocks home.new.seats.blocks blocks.now }
    ensures cause { HasCause (K.faults home.old.shelf) (K.faults home.new.shelf) result }
    ensures kind { IsSameKind (K.told home.old.shelf) (K.told home.new.shelf) }
    ensures rest { home.new ≡ record home.old { seats = home.new.seats; shelf = home.new.shelf } }
{
    for block in blocks {
        home.park(*block)?;
    }
    Ok(())
}

/// Parks those of these blocks that are in slices, in ascending order of their numbers, in which it leaves the list. Else
/// it is as [`park_blocks`]. A content whose list stands in another order hands over a copy, in room that it keeps for it.
pub fn park_numbers<K: Shelf>(home: &mut Home<K>, numbers: &mut [u64]) -> Result<(), StoreFault>
    requires { AreThere home.old.seats numbers.old }
    ensures order { numbers.new ≡ ascending numbers.old }
    ensures holds { Carries home.old.user (K.told home.old.shelf) home.old.seats.blocks
        (K.told home.new.shelf) home.new.seats.blocks }
    ensures ok { OnOk result
        (GoOut (seated_of home.old.seats.purse (ascending numbers.old)) home.old.seats home.new.seats) }
    ensures err { OnErr result ((n : ℕ)
        × GoOut (take n (seated_of home.old.seats.purse (ascending numbers.old))) home.old.seats home.new.seats) }
    ensures lengths { KeepsLengths home.old.seats home.new.seats }
    ensures others { KeepsOthers home.old.seats.blocks home.new.seats.blocks numbers.old }
    ensures cause { HasCause (K.faults home.old.shelf) (K.faults home.new.shelf) result }
    ensures kind { IsSameKind (K.told home.old.shelf) (K.told home.new.shelf) }
    ensures rest { home.new ≡ record home.old { seats = home.new.seats; shelf = home.new.shelf } }
{
    numbers.sort_unstable();
    park_blocks(home, numbers)
}

/// How many of these blocks are in no slice: so many slices a load of them needs.
pub fn count_parked<K: Shelf>(home: &Home<K>, blocks: &[u64]) -> u64
    ensures { result ≡ length (parked_of home.now.seats.purse blocks.now) }
{
    let mut count = 0;
    for block in blocks {
        if home.place(*block).is_none() {
            count += 1;
        }
    }
    count
}

/// Brings those of these blocks into slices that are in none, in the list's order, up to the first that the store doesn't
/// give: that one stays parked, and those before it stay in their slices. The home has room for them: see
/// [`count_parked`] and [`Home::prepare`].
pub fn load_prepared<K: Shelf>(home: &mut Home<K>, blocks: &[u64]) -> Result<(), HomeEnd>
    requires there { AreThere home.old.seats blocks.now }
    requires prepared { length (parked_of home.old.seats.purse blocks.now) ≤ room_of home.old.seats }
    ensures holds { Carries home.old.user (K.told home.old.shelf) home.old.seats.blocks
        (K.told home.new.shelf) home.new.seats.blocks }
    ensures ok { OnOk result (ComeIn (parked_of home.old.seats.purse blocks.now) home.old.seats home.new.seats) }
    ensures err { OnErr result ((n : ℕ)
        × ComeIn (take n (parked_of home.old.seats.purse blocks.now)) home.old.seats home.new.seats) }
    ensures lengths { KeepsLengths home.old.seats home.new.seats }
    ensures others { KeepsOthers home.old.seats.blocks home.new.seats.blocks blocks.now }
    ensures told { K.told home.new.shelf ≡ K.told home.old.shelf }
    ensures rest { home.new ≡ record home.old { seats = home.new.seats; shelf = home.new.shelf } }
    ensures ends { IfErr result IsStoreEnd }
    ensures cause { Causes (K.faults home.old.shelf) (K.faults home.new.shelf) result }
    ensures names { NamesBlock home.old.seats blocks.now result }
    ensures telling { IsNeverDamaged (K.told home.old.shelf) home.old.user home.old.seats result }
    ensures void { IsTrue (K.told home.old.shelf).void → 0 < length (parked_of home.old.seats.purse blocks.now)
        → IsErr result }
{
    for block in blocks {
        home.load(*block)?;
    }
    Ok(())
}

/// Prepares the home for those of these blocks that are in no slice, and brings them into slices as [`load_prepared`]
/// does. Exhausted comes exactly where they are more than the held slices that are unused, and then nothing has changed.
/// It takes memory where the home's numbers are too few, and where that isn't found no block has moved.
pub fn load_blocks<K: Shelf>(home: &mut Home<K>, blocks: &[u64]) -> Result<(), HomeEnd>
    requires { AreThere home.old.seats blocks.now }
    ensures exhausted { open_of home.old.seats < length (parked_of home.old.seats.purse blocks.now)
        → result ≡ Err (HomeEnd.Exhausted (length (parked_of home.old.seats.purse blocks.now))
        (used_of home.old.seats) (granted_of home.old.seats)) }
    ensures kept { open_of home.old.seats < length (parked_of home.old.seats.purse blocks.now) → home.new ≡ home.old }
    ensures starved { result ≡ Err HomeEnd.NoMemory → home.new ≡ home.old }
    ensures enough { length (parked_of home.old.seats.purse blocks.now) ≤ open_of home.old.seats
        → IfErr result IsPreparedEnd }
    ensures ready { length (parked_of home.old.seats.purse blocks.now) ≤ room_of home.old.seats
        → IfErr result IsStoreEnd }
    ensures holds { Carries home.old.user (K.told home.old.shelf) home.old.seats.blocks
        (K.told home.new.shelf) home.new.seats.blocks }
    ensures ok { OnOk result (ComeIn (parked_of home.old.seats.purse blocks.now)
        (with_numbers home.old.seats home.new.seats.numbers) home.new.seats) }
    ensures err { OnErr result ((n : ℕ) × ComeIn (take n (parked_of home.old.seats.purse blocks.now))
        (with_numbers home.old.seats home.new.seats.numbers) home.new.seats) }
    ensures more { home.old.seats.numbers ≤ home.new.seats.numbers }
    ensures lengths { KeepsLengths home.old.seats home.new.seats }
    ensures others { KeepsOthers home.old.seats.blocks home.new.seats.blocks blocks.now }
    ensures told { K.told home.new.shelf ≡ K.told home.old.shelf }
    ensures rest { home.new ≡ record home.old { seats = home.new.seats; shelf = home.new.shelf } }
    ensures cause { Causes (K.faults home.old.shelf) (K.faults home.new.shelf) result }
    ensures names { NamesBlock home.old.seats blocks.now result }
    ensures telling { IsNeverDamaged (K.told home.old.shelf) home.old.user home.old.seats result }
    ensures void { IsTrue (K.told home.old.shelf).void → 0 < length (parked_of home.old.seats.purse blocks.now)
        → IsErr result }
{
    let need = count_parked(home, blocks);
    home.prepare(need)?;
    load_prepared(home, blocks)
}
