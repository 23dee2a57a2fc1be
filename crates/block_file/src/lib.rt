//! Files in a home: each is a list of bytes, in blocks that are all full but the last.
//!
//! What a file needs of its home, and what its calls do to slices and blocks, holds over every store. Its bytes are
//! spoken of by way of every map from block numbers to bytes that the home holds.
#![tactic(auto)]

ghost use Rattle.std.specs.Prelude.{◌≡◌, ◌+◌, ◌-◌, ◌*◌, ◌^◌, ◌<◌, ◌≤◌, ◌++◌, [], min, length, take, drop, slice_get, vec_len, vec_capacity, is_some, IsTrue, IsOk, IsErr, IfOk, IfErr, OnOk, OnErr, List, ℕ, Err, Ok};
ghost use Rattle.std.specs.Ordering.{nat_cmp};
ghost use Rattle.std.specs.FinMap.{find};
ghost use Rattle.far_io.specs.Faults.{Follows, HasCause};
ghost use Rattle.far_words.specs.declared.limits.TheConstants.{MOST_IN_FILE};
ghost use Rattle.shelf_link.specs.Blocks as map;
ghost use Rattle.shelf_link.specs.Told.{IsSameKind};
ghost use Rattle.block_seats.specs.Seatings.{SeatingView, IsAlike};
ghost use Rattle.block_home.specs.Homes.{room_of};
ghost use Rattle.block_home.specs.Stored.{Causes, IsStoreEnd};
ghost use Rattle.block_home.specs.Holding.{Holds};
ghost use Rattle.block_home.specs.Calls.{Carries, KeepsLengths};

use crate::blocks::{ends_parked, extend_blocks, load_last, read_blocks};
use block_home::{Home, HomeEnd, StoreFault};
use block_list::{count_parked, cut_blocks, load_prepared, park_blocks};
use far_words::Blob;
use shelf_link::Shelf;
use std::alloc::Global;
use std::marker::Model;

mod blocks;

/// A file: how many bytes it has, and the numbers of its blocks in a home.
///
/// Its bytes stand in the home alone, so each call is handed the home that the file was made in.
#[derive(Drop)]
pub struct FileBody {
    length: u64,
    blocks: Vec<u64>,
}

impl Model for FileBody {
    ghost use Rattle.block_file.specs.Files.{FileView};

    ghost Value = { FileView };

    ghost view = { λ f. record { length = f.length; blocks = f.blocks.items } };
}

impl FileBody {
    ghost use Rattle.block_list.specs.Lists.{KeepsOthers, parked_of, seated_of, without_all};
    ghost use Rattle.block_list.specs.Growth.{ComeIn, GoOut, Grows};
    ghost use Rattle.block_list.specs.Ends.{IsPreparedEnd, NamesBlock, IsNeverDamaged};
    ghost use Rattle.block_file.specs.Files.{FileView, IsFile, IsSound, empty_file, need_of, needs_last, needed_last};
    ghost use Rattle.block_file.specs.Growth.{IsGrown};
    ghost use Rattle.block_file.specs.Ends.{ReadsParked};

    /// A file without bytes, which needs no block.
    pub fn new(alloc: Global) -> FileBody
        ensures file { result ≡ empty_file }
        ensures bytes { (size : ℕ) (m : map.Blocks) → IsFile size m result [] }
        ensures sound { (seats : SeatingView) → IsSound seats result }
    {
        FileBody {
            length: 0,
            blocks: Vec::new(alloc),
        }
    }

    /// How many bytes the file has.
    pub fn length(&self) -> u64
        ensures { result ≡ self.now.length }
    {
        self.length
    }

    /// The number of the block with the bytes from `index` times the block size on.
    pub fn block(&self, index: u64) -> Option<u64>
        ensures { result ≡ slice_get self.now.blocks index }
    {
        self.blocks.get(index as usize).copied()
    }

    /// How many slices an append of so many bytes needs in the home, which the home has to prepare before it: one for
    /// each new block, and one for the last block where bytes go into it and it is in no slice.
    pub fn need<K: Shelf>(&self, home: &Home<K>, more: u64) -> u64
        requires limit { self.now.length + more ≤ MOST_IN_FILE }
        ensures { result ≡ need_of home.now.seats self.now more }
    {
        let size = u64::from(home.size());
        let new = (self.length + more).div_ceil(size) - self.length.div_ceil(size);
        if more > 0 && self.length % size > 0 && ends_parked(&self.blocks, home) {
            new + 1
        } else {
            new
        }
    }

    /// Puts bytes at the end of the file, and gives its new length. The last block is filled first, and then come new
    /// blocks, as few as can. A last block that is parked comes into a slice before bytes go into it. The home has room
    /// for all of them: see [`need`](FileBody::need) and [`Home::prepare`]. At an `Err` the file and the home's blocks
    /// and slices are as they were. It is want of memory, or the last block was needed and the store didn't give it.
    pub fn append<K: Shelf>(&mut self, home: &mut Home<K>, bytes: &[u8]) -> Result<u64, HomeEnd>
        requires sound { IsSound home.old.seats self.old }
        requires limit { self.old.length + length bytes.now ≤ MOST_IN_FILE }
        requires prepared { need_of home.old.seats self.old (length bytes.now) ≤ room_of home.old.seats }

        ensures bytes { OnOk result ((m : map.Blocks) (old : List ℕ)
            → Holds m (K.told home.old.shelf) home.old.user home.old.seats.blocks
            → IsFile home.old.seats.size m self.old old
            → IsGrown m (K.told home.new.shelf) home.old.user home.new.seats self.new (old ++ bytes.now)) }
        ensures length { IfOk result (λ length. length ≡ self.new.length) }
        ensures long { OnOk result (self.new.length ≡ self.old.length + length bytes.now) }
        ensures sound { IsSound home.new.seats self.new }
        ensures grows { OnOk result (Grows home.old.seats (needed_last home.old.seats self.old (length bytes.now))
            (drop (length self.old.blocks) self.new.blocks) home.new.seats) }
        ensures stay { take (length self.old.blocks) self.new.blocks ≡ self.old.blocks }
        ensures others { KeepsOthers home.old.seats.blocks home.new.seats.blocks self.new.blocks }
        ensures told { K.told home.new.shelf ≡ K.told home.old.shelf }
        ensures rest { home.new ≡ record home.old { seats = home.new.seats; shelf = home.new.shelf } }

        ensures seats_stay { OnErr result (home.new.seats ≡ home.old.seats) }
        ensures file_stays { OnErr result (self.new ≡ self.old) }
        ensures ends { IfErr result IsPreparedEnd }
        ensures cause { Causes (K.faults home.old.shelf) (K.faults home.new.shelf) result }
        ensures names { NamesBlock home.old.seats self.old.blocks result }
        ensures telling { IsNeverDamaged (K.told home.old.shelf) home.old.user home.old.seats result }
        ensures void { IsTrue (K.told home.old.shelf).void
            → IsTrue (needs_last home.old.seats self.old (length bytes.now)) → IsErr result }
        ensures fits { need_of home.old.seats self.old (length bytes.now) ≡ 0 → IsOk result }
    {
        let more = bytes.len() as u64;
        let need = self.need(home, more);
        if self.blocks.reserve(need as usize).is_err() {
            return Err(HomeEnd::NoMemory);
        }
        load_last(&self.blocks, home, self.length, more)?;
        extend_blocks(&mut self.blocks, home, self.length, bytes);
        self.length += more;
        Ok(self.length)
    }

    /// Reads `len` bytes from place `from` on, or as many as there are, in place of what `out` had. Parked blocks are
    /// read through the store, and no block moves. After an `Err` `out` is empty. It is want of memory, or a parked
    /// block was needed and the store didn't give it.
    pub fn read<K: Shelf>(
        &mut self,
        home: &mut Home<K>,
        from: u64,
        len: u32,
        out: &mut Blob,
    ) -> Result<(), HomeEnd>
        requires sound { IsSound home.old.seats self.old }
        ensures bytes { OnOk result ((m : map.Blocks) (bytes : List ℕ)
            → Holds m (K.told home.old.shelf) home.old.user home.old.seats.blocks
            → IsFile home.old.seats.size m self.old bytes → out.new ≡ take len (drop from bytes)) }
        ensures count { OnOk result (length out.new ≡ min len (self.old.length - from)) }
        ensures err { OnErr result (out.new ≡ []) }
        ensures told { K.told home.new.shelf ≡ K.told home.old.shelf }
        ensures rest { home.new ≡ record home.old { shelf = home.new.shelf } }
        ensures file_stays { self.new ≡ self.old }
        ensures sound { IsSound home.new.seats self.new }

        ensures ends { IfErr result IsPreparedEnd }
        ensures cause { Causes (K.faults home.old.shelf) (K.faults home.new.shelf) result }
        ensures names { NamesBlock home.old.seats self.old.blocks result }
        ensures telling { IsNeverDamaged (K.told home.old.shelf) home.old.user home.old.seats result }
        ensures void { IsTrue (K.told home.old.shelf).void → ReadsParked home.old.seats self.old from len
            → IsErr result }
    {
        out.clear();
        let count = self.length.saturating_sub(from).min(u64::from(len));
        if out.resize(count as usize, 0).is_err() {
            return Err(HomeEnd::NoMemory);
        }
        if let Err(end) = read_blocks(&self.blocks, home, self.length, from, out.items_mut()) {
            out.clear();
            return Err(end);
        }
        Ok(())
    }

    /// Ends the file's blocks. It has no bytes then.
    pub fn cut_all<K: Shelf>(&mut self, home: &mut Home<K>)
        requires sound { IsSound home.old.seats self.old }
        ensures file { self.new ≡ empty_file }
        ensures holds { (m : map.Blocks) → Holds m (K.told home.old.shelf) home.old.user home.old.seats.blocks
            → Holds (without_all m self.old.blocks) (K.told home.new.shelf) home.old.user home.new.seats.blocks }
        ensures blocks { home.new.seats.blocks ≡ without_all home.old.seats.blocks self.old.blocks }
        ensures goes { GoOut self.old.blocks home.old.seats home.new.seats }
        ensures others { KeepsOthers home.old.seats.blocks home.new.seats.blocks self.old.blocks }
        ensures follows { Follows (K.faults home.old.shelf) (K.faults home.new.shelf) }
        ensures kind { IsSameKind (K.told home.old.shelf) (K.told home.new.shelf) }
        ensures rest { home.new ≡ record home.old { seats = home.new.seats; shelf = home.new.shelf } }
    {
        cut_blocks(home, &self.blocks);
        self.blocks.clear();
        self.length = 0;
    }

    /// Parks the file's blocks that are in slices, in their order. It stops at the first that the store doesn't take:
    /// that one stays in its slice, and those before it stay parked.
    pub fn park<K: Shelf>(&self, home: &mut Home<K>) -> Result<(), StoreFault>
        requires sound { IsSound home.old.seats self.now }
        ensures holds { Carries home.old.user (K.told home.old.shelf) home.old.seats.blocks
            (K.told home.new.shelf) home.new.seats.blocks }
        ensures ok { OnOk result
            (GoOut (seated_of home.old.seats.purse self.now.blocks) home.old.seats home.new.seats) }
        ensures err { OnErr result ((n : ℕ)
            × GoOut (take n (seated_of home.old.seats.purse self.now.blocks)) home.old.seats home.new.seats) }
        ensures lengths { KeepsLengths home.old.seats home.new.seats }
        ensures sound { IsSound home.new.seats self.now }
        ensures others { KeepsOthers home.old.seats.blocks home.new.seats.blocks self.now.blocks }
        ensures cause { HasCause (K.faults home.old.shelf) (K.faults home.new.shelf) result }
        ensures kind { IsSameKind (K.told home.old.shelf) (K.told home.new.shelf) }
        ensures rest { home.new ≡ record home.old { seats = home.new.seats; shelf = home.new.shelf } }
    {
        park_blocks(home, &self.blocks)
    }

    /// How many of the file's blocks are parked: so many slices a load of them needs.
    pub fn need_to_load<K: Shelf>(&self, home: &Home<K>) -> u64
        ensures { result ≡ length (parked_of home.now.seats.purse self.now.blocks) }
    {
        count_parked(home, &self.blocks)
    }

    /// Brings the file's parked blocks into slices, in their order. The home has room for them: see
    /// [`need_to_load`](FileBody::need_to_load) and [`Home::prepare`]. It stops at the first that the store doesn't
    /// give: that one stays parked, and those before it stay in their slices.
    pub fn load<K: Shelf>(&self, home: &mut Home<K>) -> Result<(), HomeEnd>
        requires sound { IsSound home.old.seats self.now }
        requires prepared { length (parked_of home.old.seats.purse self.now.blocks) ≤ room_of home.old.seats }
        ensures holds { Carries home.old.user (K.told home.old.shelf) home.old.seats.blocks
            (K.told home.new.shelf) home.new.seats.blocks }
        ensures ok { OnOk result
            (ComeIn (parked_of home.old.seats.purse self.now.blocks) home.old.seats home.new.seats) }
        ensures err { OnErr result ((n : ℕ)
            × ComeIn (take n (parked_of home.old.seats.purse self.now.blocks)) home.old.seats home.new.seats) }
        ensures lengths { KeepsLengths home.old.seats home.new.seats }
        ensures sound { IsSound home.new.seats self.now }
        ensures others { KeepsOthers home.old.seats.blocks home.new.seats.blocks self.now.blocks }
        ensures told { K.told home.new.shelf ≡ K.told home.old.shelf }
        ensures rest { home.new ≡ record home.old { seats = home.new.seats; shelf = home.new.shelf } }

        ensures ends { IfErr result IsStoreEnd }
        ensures cause { Causes (K.faults home.old.shelf) (K.faults home.new.shelf) result }
        ensures names { NamesBlock home.old.seats self.now.blocks result }
        ensures telling { IsNeverDamaged (K.told home.old.shelf) home.old.user home.old.seats result }
        ensures void { IsTrue (K.told home.old.shelf).void → 0 < length (parked_of home.old.seats.purse self.now.blocks)
            → IsErr result }
    {
        load_prepared(home, &self.blocks)
    }
}
