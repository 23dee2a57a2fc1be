//! The home.
ghost use Rattle.std.specs.Prelude.{◌≡◌, ℕ, ◌==◌, if◌then◌else◌, ◌⊎◌, ◌+◌, ◌≤◌, ◌<◌, [], length, is_some, take, drop, IsTrue, IsOk, IsErr, IfOk, IfErr, OnOk, OnErr, IsOkUnless, Some, None, false, Ok, Err};
ghost use Rattle.std.specs.Ordering.{nat_cmp};
ghost use Rattle.std.specs.FinMap.{put};
ghost use Rattle.far_io.specs.Faults.{Follows, HasCause};
ghost use Rattle.slice_seq.specs.Slice.{raised};
ghost use Rattle.slice_seq.specs.Used.{written_at};
ghost use Rattle.shelf_link.specs.Told.{IsSameKind, is_sure};
ghost use Rattle.block_seats.specs.Tables.{without};
ghost use Rattle.block_seats.specs.Blocks.{InSlice, block_at, was_put};
ghost use Rattle.block_seats.specs.Purses.{next_place, with_block, without_block, place_of};
ghost use Rattle.block_seats.specs.Noted.{no_moves, noting_placed, noting_freed};
ghost use Rattle.block_seats.specs.Seatings.{HasBlock, IsSeated, bytes_at, length_at, granted_of, used_of, open_of, IsAlike, empty_seating, can_hold, with_slice, with_stray, IsNewNumber};
ghost use Rattle.block_home.specs.Homes.{HomeView, room_of};
ghost use Rattle.block_home.specs.Stored.{Causes, IsStoreEnd};
ghost use Rattle.block_home.specs.Holding.{Holds};
ghost use Rattle.block_home.specs.Calls.{Carries, CarriesWith, CarriesWithout, IsSound, IsPart, IsLoaded, IsReplaced, IsParked, IsKept, KeepsLengths, stamp_at};

use crate::end::{HomeEnd, StoreFault};
use crate::stored::{fetch_image, put_image, remove_image};
use block_image::HEAD;
use block_seats::Seating;
use far_io::Failed;
use shelf_link::Shelf;
use slice_seq::Slice;
use std::alloc::{AllocError, Global};
use std::marker::Model;

mod told;
mod yields;

/// The blocks of one user, each in a slice that the user holds or parked in the user's store.
///
/// A block has a number, by which its bytes are found, and 1 to `size` bytes. `new` and `prepare` take memory, and no
/// other call does. Each call takes a few steps and those of its bytes, however many blocks and slices there are.
#[derive(Drop)]
pub struct Home<K> {
    user: u32,
    seats: Seating,
    /// Room for one image.
    image: Vec<u8>,
    shelf: K,
}

impl<K> Model for Home<K> {
    ghost use Rattle.std.specs.Prelude.{◌≡◌, ◌+◌, ◌≤◌, length};
    ghost use Rattle.block_image.specs.Images.{head};
    ghost use Rattle.block_home.specs.Homes.{HomeView};

    ghost Value = { HomeView K };

    ghost view = { λ h. record { user = h.user; seats = h.seats; shelf = h.shelf } };

    ghost invariant = { λ h. (length h.image.items ≡ head + h.seats.size) × (h.seats.size ≤ 65536) };
}

impl<K: Shelf + Drop> Home<K> {
    /// A home without blocks and slices, over a store. `size` is how many bytes a block has at most, and `slices` how
    /// many slices the home has room for: they have the ids below it.
    pub fn new(
        alloc: Global,
        user: u32,
        size: u32,
        slices: u32,
        shelf: K,
    ) -> Result<Home<K>, AllocError>
        requires some { 1 ≤ size }
        requires limit { size ≤ 65536 }
        ensures home { IfOk result (λ home. home ≡ record { user = user; seats = empty_seating size slices; shelf = shelf }) }
        ensures holds { IfOk result (λ home. IsTrue (is_sure (K.told shelf)) → Holds [] (K.told home.shelf) user home.seats.blocks) }
    {
        let seats = Seating::new(alloc, size, slices)?;
        let image = vec![in alloc; 0u8; HEAD + size as usize]?;
        Ok(Home {
            user,
            seats,
            image,
            shelf,
        })
    }
}

impl<K: Shelf> Home<K> {
    /// Makes sure that so many blocks can be placed: after an Ok there is room for them. Exhausted comes exactly where
    /// more are needed than held slices are unused, and with the purse's own numbers. It takes memory where numbers are
    /// too few for so many new blocks.
    pub fn prepare(&mut self, need: u64) -> Result<(), HomeEnd>
        ensures ready { OnOk result (need ≤ room_of self.new.seats) }
        ensures exhausted { open_of self.old.seats < need → result ≡ Err (HomeEnd.Exhausted need (used_of self.old.seats) (granted_of self.old.seats)) }
        ensures cause { need ≤ open_of self.old.seats → IsOkUnless result HomeEnd.NoMemory }
        ensures ok { need ≤ room_of self.old.seats → IsOk result }
        ensures counts { granted_of self.old.seats ≡ used_of self.old.seats + open_of self.old.seats }
        ensures more { self.old.seats.numbers ≤ self.new.seats.numbers }
        ensures rest { self.new ≡ record self.old { seats = record self.old.seats { numbers = self.new.seats.numbers } } }
        ensures same { OnErr result (self.new ≡ self.old) }
    {
        if need > u64::from(self.seats.open()) {
            return Err(HomeEnd::Exhausted {
                need,
                used: u64::from(self.seats.used()),
                granted: u64::from(self.seats.granted()),
            });
        }
        match self.seats.reserve(need as u32) {
            Ok(()) => Ok(()),
            Err(AllocError) => Err(HomeEnd::NoMemory),
        }
    }

    /// Makes a block of these bytes and places it. The block's number is the lowest that names no block: see
    /// [`next_number`](Home::next_number).
    pub fn add(&mut self, bytes: &[u8]) -> u64
        requires room { 1 ≤ room_of self.old.seats }
        requires some { 1 ≤ length bytes.now }
        requires fits { length bytes.now ≤ self.old.seats.size }
        ensures number { IsNewNumber self.old.seats result }
        ensures holds { CarriesWith self.old.user result bytes.now (K.told self.old.shelf) self.old.seats.blocks (K.told self.new.shelf) self.new.seats.blocks }
        ensures blocks { self.new.seats.blocks ≡ put nat_cmp result (InSlice bytes.now false) self.old.seats.blocks }
        ensures purse { self.new.seats.purse ≡ with_block self.old.seats.purse result }
        ensures places { (block : ℕ) → place_of self.new.seats.purse block ≡ (if block == result then next_place self.old.seats.purse else place_of self.old.seats.purse block) }
        ensures left { room_of self.new.seats + 1 ≡ room_of self.old.seats }
        ensures moves { self.new.seats.moves ≡ noting_placed self.old.seats.moves (next_place self.old.seats.purse) result }
        ensures alike { IsAlike self.old.seats self.new.seats }
        ensures rest { self.new ≡ record self.old { seats = self.new.seats } }
    {
        self.seats.add(bytes)
    }

    /// Writes bytes over a block's own, from place `at` on, and past its end where they reach so far.
    pub fn write(&mut self, block: u64, at: u32, bytes: &[u8])
        requires resident { IsSeated self.old.seats block }
        requires within { at ≤ length_at self.old.seats block }
        requires fits { at + length bytes.now ≤ self.old.seats.size }
        ensures holds { CarriesWith self.old.user block (written_at (bytes_at self.old.seats block) at bytes.now) (K.told self.old.shelf) self.old.seats.blocks (K.told self.new.shelf) self.new.seats.blocks }
        ensures blocks { self.new.seats.blocks ≡ put nat_cmp block (InSlice (written_at (bytes_at self.old.seats block) at bytes.now) (was_put (block_at self.old.seats.blocks block))) self.old.seats.blocks }
        ensures room { room_of self.new.seats ≡ room_of self.old.seats }
        ensures rest { self.new ≡ record self.old { seats = record self.old.seats { blocks = self.new.seats.blocks } } }
    {
        self.seats.write(block, at, bytes);
    }

    /// Reads a part of a block, through the store where it is parked. It takes no slice. After an `Err` `out` is as it
    /// was.
    pub fn read(&mut self, block: u64, from: u32, out: &mut [u8]) -> Result<(), HomeEnd>
        requires there { HasBlock self.old.seats block }
        requires within { from + length out.old ≤ length_at self.old.seats block }
        ensures bytes { OnOk result (IsPart self.old.user block from out.new (K.told self.old.shelf) self.old.seats.blocks) }
        ensures sound { IsSound self.old.user block (K.told self.old.shelf) self.old.seats.blocks result }
        ensures cause { Causes (K.faults self.old.shelf) (K.faults self.new.shelf) result }
        ensures ends { IfErr result IsStoreEnd }
        ensures away { OnErr result (place_of self.old.seats.purse block ≡ None) }
        ensures void { IsTrue (K.told self.old.shelf).void → place_of self.old.seats.purse block ≡ None → IsErr result }
        ensures told { K.told self.new.shelf ≡ K.told self.old.shelf }
        ensures err { OnErr result (out.new ≡ out.old) }
        ensures rest { self.new ≡ record self.old { shelf = self.new.shelf } }
    {
        let Some(stamp) = self.seats.stamp(block) else {
            copy_part(self.seats.bytes(block), from as usize, out);
            return Ok(());
        };
        match fetch_image(&mut self.shelf, &mut self.image, block, &stamp) {
            Ok(()) => {
                let content = &self.image[HEAD..HEAD + stamp.length as usize];
                copy_part(content, from as usize, out);
                Ok(())
            }
            Err(end) => Err(end),
        }
    }

    /// Brings a parked block back into a slice. Its image stays in the store. A block that is in a slice stays there.
    pub fn load(&mut self, block: u64) -> Result<(), HomeEnd>
        requires there { HasBlock self.old.seats block }
        requires room { IsSeated self.old.seats block ⊎ (1 ≤ room_of self.old.seats) }
        ensures holds { Carries self.old.user (K.told self.old.shelf) self.old.seats.blocks (K.told self.new.shelf) self.new.seats.blocks }
        ensures sound { IsSound self.old.user block (K.told self.old.shelf) self.old.seats.blocks result }
        ensures cause { Causes (K.faults self.old.shelf) (K.faults self.new.shelf) result }
        ensures ends { IfErr result IsStoreEnd }
        ensures away { OnErr result (place_of self.old.seats.purse block ≡ None) }
        ensures void { IsTrue (K.told self.old.shelf).void → place_of self.old.seats.purse block ≡ None → IsErr result }
        ensures told { K.told self.new.shelf ≡ K.told self.old.shelf }
        ensures placed { OnOk result (IsLoaded block self.old.seats self.new.seats) }
        ensures seated { OnOk result (IsSeated self.new.seats block × (stamp_at self.new.seats.blocks block ≡ None)) }
        ensures lengths { KeepsLengths self.old.seats self.new.seats }
        ensures same { OnErr result (self.new.seats ≡ self.old.seats) }
        ensures rest { self.new ≡ record self.old { seats = self.new.seats; shelf = self.new.shelf } }
    {
        let Some(stamp) = self.seats.stamp(block) else {
            return Ok(());
        };
        match fetch_image(&mut self.shelf, &mut self.image, block, &stamp) {
            Ok(()) => {
                let content = &self.image[HEAD..HEAD + stamp.length as usize];
                self.seats.place_again(block, content);
                Ok(())
            }
            Err(end) => Err(end),
        }
    }

    /// Parks a block: its image is put into the store by one call, and its slice is free. Where the store fails, the block
    /// stays in its slice. A block that is parked stays so.
    pub fn park(&mut self, block: u64) -> Result<(), StoreFault>
        requires { HasBlock self.old.seats block }
        ensures holds { Carries self.old.user (K.told self.old.shelf) self.old.seats.blocks (K.told self.new.shelf) self.new.seats.blocks }
        ensures cause { HasCause (K.faults self.old.shelf) (K.faults self.new.shelf) result }
        ensures kind { IsSameKind (K.told self.old.shelf) (K.told self.new.shelf) }
        ensures parked { OnOk result (IsParked self.old.user block self.old.seats self.new.seats) }
        ensures stays { OnErr result (IsKept block self.old.seats self.new.seats) }
        ensures lengths { KeepsLengths self.old.seats self.new.seats }
        ensures rest { self.new ≡ record self.old { seats = self.new.seats; shelf = self.new.shelf } }
    {
        if self.seats.place(block).is_none() {
            return Ok(());
        }
        match put_image(
            &mut self.shelf,
            &mut self.image,
            self.user,
            block,
            self.seats.bytes(block),
        ) {
            Ok(stamp) => {
                self.seats.park(block, stamp);
                Ok(())
            }
            Err(Failed) => {
                self.seats.note_put(block);
                Err(StoreFault)
            }
        }
    }

    /// Ends a block. Its slice, if it is in one, is free for the next one, under the same number. The image of a block
    /// that was ever put is removed by one call, whose failure changes nothing of it: an image that is left is never read.
    pub fn cut(&mut self, block: u64)
        requires { HasBlock self.old.seats block }
        ensures holds { CarriesWithout self.old.user block (K.told self.old.shelf) self.old.seats.blocks (K.told self.new.shelf) self.new.seats.blocks }
        ensures follows { Follows (K.faults self.old.shelf) (K.faults self.new.shelf) }
        ensures kind { IsSameKind (K.told self.old.shelf) (K.told self.new.shelf) }
        ensures never_put { was_put (block_at self.old.seats.blocks block) ≡ false → self.new.shelf ≡ self.old.shelf }
        ensures blocks { self.new.seats.blocks ≡ without block self.old.seats.blocks }
        ensures purse { self.new.seats.purse ≡ without_block self.old.seats.purse block }
        ensures places { (other : ℕ) → place_of self.new.seats.purse other ≡ (if other == block then None else place_of self.old.seats.purse other) }
        ensures moves { self.new.seats.moves ≡ noting_freed self.old.seats.moves (place_of self.old.seats.purse block) }
        ensures alike { IsAlike self.old.seats self.new.seats }
        ensures rest { self.new ≡ record self.old { seats = self.new.seats; shelf = self.new.shelf } }
    {
        remove_image(&mut self.shelf, block, self.seats.was_put(block));
        self.seats.cut(block);
    }

    /// Makes these bytes a block's bytes, wherever they were: a parked block comes into the next slice.
    pub fn replace(&mut self, block: u64, bytes: &[u8])
        requires there { HasBlock self.old.seats block }
        requires room { IsSeated self.old.seats block ⊎ (1 ≤ room_of self.old.seats) }
        requires some { 1 ≤ length bytes.now }
        requires fits { length bytes.now ≤ self.old.seats.size }
        ensures holds { CarriesWith self.old.user block bytes.now (K.told self.old.shelf) self.old.seats.blocks (K.told self.new.shelf) self.new.seats.blocks }
        ensures replaced { IsReplaced block bytes.now self.old.seats self.new.seats }
        ensures rest { self.new ≡ record self.old { seats = self.new.seats } }
    {
        if self.seats.place(block).is_some() {
            self.seats.set(block, bytes);
        } else {
            self.seats.place_again(block, bytes);
        }
    }

    /// Takes a slice in, whose number rises by one unless it is worn. A slice that can't be held under its id, since
    /// another of that id is or the home has no room for the id, came out of order: it is kept aside, counts as used
    /// and is never placed.
    pub fn grant(&mut self, slice: Slice)
        requires size { slice.size ≡ self.old.seats.size }
        requires room { granted_of self.old.seats < self.old.seats.slices }
        ensures held { IsTrue (can_hold self.old.seats slice.id) → self.old.seats.strays ≡ 0 → self.new.seats ≡ with_slice self.old.seats slice.id (raised slice.number) }
        ensures aside { can_hold self.old.seats slice.id ≡ false → self.new.seats ≡ with_stray self.old.seats }
        ensures either { (self.new.seats ≡ with_slice self.old.seats slice.id (raised slice.number)) ⊎ (self.new.seats ≡ with_stray self.old.seats) }
        ensures granted { granted_of self.new.seats ≡ granted_of self.old.seats + 1 }
        ensures places { (block : ℕ) → place_of self.new.seats.purse block ≡ place_of self.old.seats.purse block }
        ensures alike { self.new.seats ≡ record self.old.seats { purse = self.new.seats.purse; strays = self.new.seats.strays } }
        ensures rest { self.new ≡ record self.old { seats = self.new.seats } }
    {
        self.seats.grant(slice);
    }

    /// Forgets the moves.
    pub fn clear_moves(&mut self)
        ensures { self.new ≡ record self.old { seats = record self.old.seats { moves = no_moves self.old.seats.moves.most } } }
    {
        self.seats.clear_moves();
    }
}

/// Copies a part of a block's bytes, from place `from` on, over all of `out`.
fn copy_part(bytes: &[u8], from: usize, out: &mut [u8])
    requires { from + length out.old ≤ length bytes.now }
    ensures { out.new ≡ take (length out.old) (drop from bytes.now) }
{
    let end = from + out.len();
    out.copy_from_slice(&bytes[from..end]);
}
