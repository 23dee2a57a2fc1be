//! Blocks under numbers and the slices that they lie in.
ghost use Rattle.std.specs.Prelude.{◌≡◌, ℕ, ◌==◌, ◌↔◌, if◌then◌else◌, IfSome, ◌+◌, ◌≤◌, ◌<◌, ◌⊎◌, length, is_some, not, IsTrue, IsSome, IsNone, IsOk, IfOk, OnOk, OnErr, Some, None, true, false};
ghost use Rattle.std.specs.declared.option.Option.{Option};
ghost use Rattle.std.specs.Ordering.{nat_cmp};
ghost use Rattle.std.specs.FinMap.{find, put};
ghost use Rattle.std.specs.List.Sorted.{IsStrictlySortedBy};
ghost use Rattle.std.specs.Map.{keys_of};
ghost use Rattle.std.specs.Option.{option_map, option_map_or, option_and_then};
ghost use Rattle.slice_seq.specs.Used.{written_at};
ghost use Rattle.slice_seq.specs.Slice.{raised};
ghost use Rattle.slice_seq.specs.Purses.{is_worn};
ghost use Rattle.block_seats.specs.Tables.{without};
ghost use Rattle.block_seats.specs.Blocks.{InSlice, InStore, block_at, stamp_of, was_put};
ghost use Rattle.block_seats.specs.Purses.{next_place, next_idle, with_block, without_block, place_of};
ghost use Rattle.block_seats.specs.Noted.{no_moves, noting_placed, noting_freed};
ghost use Rattle.block_seats.specs.Seatings.{SeatingView, HasBlock, IsSeated, bytes_at, length_at, granted_of, used_of, open_of, spare_of, leaving, can_hold, with_slice, TakesIdle, IsAlike, empty_seating, with_stray, IsNewNumber};

use crate::cell::{
    Cell, end_use, extend_cells, free_cells, note_put, put_cell, set_cell, write_cell,
};
use crate::moves::{HomeMoves, PlacedBlock};
use crate::seat::{Seat, begin_use, free_seats, insert_open, put_seat, take_slice};
use crate::start::{empty_tables, seat_sets};
use far_words::Stamp;
use id_set::IdSet;
use slice_seq::Slice;
use std::alloc::{AllocError, Global};
use std::marker::Model;

mod told;

/// The blocks of one user, each in a slice that the user holds or known by the stamp of its image in a store, and the
/// slices.
///
/// A block has a number, by which it is found, and 1 to `size` bytes. `new` and `reserve` take memory, and no other call
/// does. Each call takes a few steps and those of its bytes, however many blocks and slices there are.
pub struct Seating {
    alloc: Global,
    size: u32,
    slices: u32,
    seats: Vec<Seat>,
    cells: Vec<Cell>,
    open_seats: IdSet,
    empty_seats: IdSet,
    idle_seats: IdSet,
    busy_seats: IdSet,
    vacant_cells: IdSet,
    moves: HomeMoves,
}

impl Model for Seating {
    ghost use Rattle.block_seats.specs.Seatings.{SeatingView};

    ghost Value = { SeatingView };

    ghost use Rattle.block_seats.specs.Well.{view_of, IsWell};

    ghost view = { view_of };

    ghost invariant = { IsWell };
}

impl Seating {
    /// No blocks and no slices. `size` is how many bytes a block has at most, and `slices` for how many slices there is
    /// room: they have the ids below it. There are numbers for as many blocks.
    pub fn new(alloc: Global, size: u32, slices: u32) -> Result<Seating, AllocError>
        requires some { 1 ≤ size }
        requires limit { size ≤ 65536 }
        ensures { IfOk result (λ seating. seating ≡ empty_seating size slices) }
    {
        let moves = HomeMoves::new(alloc, slices)?;
        let vacant_cells = IdSet::full(alloc, slices)?;
        let (open_seats, empty_seats, idle_seats, busy_seats) = seat_sets(alloc, slices)?;
        let (seats, cells) = empty_tables(alloc, slices)?;
        Ok(Seating {
            alloc,
            size,
            slices,
            seats,
            cells,
            open_seats,
            empty_seats,
            idle_seats,
            busy_seats,
            vacant_cells,
            moves,
        })
    }

    /// Makes sure that there are numbers for so many new blocks. Where they are too few, their count is doubled at
    /// least, so this takes a few steps for each block that is ever added. At an `Err` nothing has changed.
    pub fn reserve(&mut self, need: u32) -> Result<(), AllocError>
        ensures ready { OnOk result (need ≤ spare_of self.new) }
        ensures more { self.old.numbers ≤ self.new.numbers }
        ensures rest { self.new ≡ record self.old { numbers = self.new.numbers } }
        ensures same { OnErr result (self.new ≡ self.old) }
        ensures ok { need ≤ spare_of self.old → IsOk result }
    {
        if need <= self.vacant_cells.count() {
            return Ok(());
        }
        let bound = self.vacant_cells.bound();
        let more = bound.max(need);
        let Some(grown) = bound.checked_add(more) else {
            return Err(AllocError);
        };
        self.cells.reserve(more as usize)?;
        self.vacant_cells.grow(self.alloc, grown, true)?;
        extend_cells(&mut self.cells, more);
        Ok(())
    }

    /// Makes a block of these bytes and places it. The block's number is the lowest that names no block: see
    /// [`next_number`](Seating::next_number).
    pub fn add(&mut self, bytes: &[u8]) -> u64
        requires open { 1 ≤ open_of self.old }
        requires number { 1 ≤ spare_of self.old }
        requires some { 1 ≤ length bytes.now }
        requires fits { length bytes.now ≤ self.old.size }
        ensures number { IsNewNumber self.old result }
        ensures blocks { self.new.blocks ≡ put nat_cmp result (InSlice bytes.now false) self.old.blocks }
        ensures purse { self.new.purse ≡ with_block self.old.purse result }
        ensures places { (block : ℕ) → place_of self.new.purse block ≡ (if block == result then next_place self.old.purse else place_of self.old.purse block) }
        ensures open { open_of self.new + 1 ≡ open_of self.old }
        ensures spare { spare_of self.new + 1 ≡ spare_of self.old }
        ensures moves { self.new.moves ≡ noting_placed self.old.moves (next_place self.old.purse) result }
        ensures rest { IsAlike self.old self.new }
    {
        let block = self.next_number();
        self.seat(block, bytes, false);
        block
    }

    /// Places a block that is in the store, with these bytes.
    pub fn place_again(&mut self, block: u64, bytes: &[u8])
        requires there { HasBlock self.old block }
        requires away { place_of self.old.purse block ≡ None }
        requires open { 1 ≤ open_of self.old }
        requires some { 1 ≤ length bytes.now }
        requires fits { length bytes.now ≤ self.old.size }
        ensures blocks { self.new.blocks ≡ put nat_cmp block (InSlice bytes.now true) self.old.blocks }
        ensures purse { self.new.purse ≡ with_block self.old.purse block }
        ensures places { (other : ℕ) → place_of self.new.purse other ≡ (if other == block then next_place self.old.purse else place_of self.old.purse other) }
        ensures open { open_of self.new + 1 ≡ open_of self.old }
        ensures spare { spare_of self.new ≡ spare_of self.old }
        ensures moves { self.new.moves ≡ noting_placed self.old.moves (next_place self.old.purse) block }
        ensures rest { IsAlike self.old self.new }
    {
        self.seat(block, bytes, true);
    }

    // Places a block in the lowest open slice.
    fn seat(&mut self, block: u64, bytes: &[u8], was: bool)
        requires number { (block < self.old.numbers) ⊎ HasBlock self.old block }
        requires away { place_of self.old.purse block ≡ None }
        requires open { 1 ≤ open_of self.old }
        requires some { 1 ≤ length bytes.now }
        requires fits { length bytes.now ≤ self.old.size }
        ensures blocks { self.new.blocks ≡ put nat_cmp block (InSlice bytes.now was) self.old.blocks }
        ensures purse { self.new.purse ≡ with_block self.old.purse block }
        ensures places { (other : ℕ) → place_of self.new.purse other ≡ (if other == block then next_place self.old.purse else place_of self.old.purse other) }
        ensures open { open_of self.new + 1 ≡ open_of self.old }
        ensures spare { spare_of self.new + (if is_some (find nat_cmp block self.old.blocks) then 0 else 1) ≡ spare_of self.old }
        ensures moves { self.new.moves ≡ noting_placed self.old.moves (next_place self.old.purse) block }
        ensures rest { IsAlike self.old self.new }
    {
        let Some(slice) = self.open_seats.first() else {
            unreachable!()
        };
        let cell = block as u32;
        let used = begin_use(&mut self.seats, slice, cell, bytes);
        let number = used.number();
        put_cell(&mut self.cells, cell, Cell::Resident { used, put: was });
        self.open_seats.remove(slice);
        self.vacant_cells.remove(cell);
        self.idle_seats.remove(slice);
        self.busy_seats.insert(slice);
        self.moves.note_placed(PlacedBlock {
            slice,
            number,
            block,
        });
    }

    /// Writes bytes over a block's own, from place `at` on, and past its end where they reach so far.
    pub fn write(&mut self, block: u64, at: u32, bytes: &[u8])
        requires seated { IsSeated self.old block }
        requires within { at ≤ length_at self.old block }
        requires fits { at + length bytes.now ≤ self.old.size }
        ensures blocks { self.new.blocks ≡ put nat_cmp block (InSlice (written_at (bytes_at self.old block) at bytes.now) (was_put (block_at self.old.blocks block))) self.old.blocks }
        ensures spare { spare_of self.new ≡ spare_of self.old }
        ensures rest { self.new ≡ record self.old { blocks = self.new.blocks } }
    {
        write_cell(&mut self.cells, block, at, bytes);
    }

    /// Makes these bytes those of a block in a slice.
    pub fn set(&mut self, block: u64, bytes: &[u8])
        requires seated { IsSeated self.old block }
        requires some { 1 ≤ length bytes.now }
        requires fits { length bytes.now ≤ self.old.size }
        ensures blocks { self.new.blocks ≡ put nat_cmp block (InSlice bytes.now (was_put (block_at self.old.blocks block))) self.old.blocks }
        ensures spare { spare_of self.new ≡ spare_of self.old }
        ensures rest { self.new ≡ record self.old { blocks = self.new.blocks } }
    {
        set_cell(&mut self.cells, block, bytes);
    }

    /// Notes that a block in a slice was put into the store.
    pub fn note_put(&mut self, block: u64)
        requires { IsSeated self.old block }
        ensures blocks { self.new.blocks ≡ put nat_cmp block (InSlice (bytes_at self.old block) true) self.old.blocks }
        ensures spare { spare_of self.new ≡ spare_of self.old }
        ensures rest { self.new ≡ record self.old { blocks = self.new.blocks } }
    {
        note_put(&mut self.cells, block);
    }

    /// Ends the use of a block's slice, which is free for the next one, under the same number. The block is in the store
    /// from then on, under this stamp.
    pub fn park(&mut self, block: u64, stamp: Stamp)
        requires seated { IsSeated self.old block }
        requires some { 1 ≤ stamp.length }
        requires fits { stamp.length ≤ self.old.size }
        ensures blocks { self.new.blocks ≡ put nat_cmp block (InStore stamp) self.old.blocks }
        ensures purse { self.new.purse ≡ without_block self.old.purse block }
        ensures idle { next_idle self.old.purse ≡ None → next_idle self.new.purse ≡ place_of self.old.purse block }
        ensures places { (other : ℕ) → place_of self.new.purse other ≡ (if other == block then None else place_of self.old.purse other) }
        ensures left { IfSome (place_of self.old.purse block) (λ place. open_of self.new ≡ open_of self.old + (if is_worn place.1 then 0 else 1)) }
        ensures spare { spare_of self.new ≡ spare_of self.old }
        ensures moves { self.new.moves ≡ noting_freed self.old.moves (place_of self.old.purse block) }
        ensures rest { IsAlike self.old self.new }
    {
        self.unseat(block, Some(stamp));
    }

    /// Ends a block. Its slice, if it is in one, is free for the next one, under the same number.
    pub fn cut(&mut self, block: u64)
        requires { HasBlock self.old block }
        ensures blocks { self.new.blocks ≡ without block self.old.blocks }
        ensures purse { self.new.purse ≡ without_block self.old.purse block }
        ensures places { (other : ℕ) → place_of self.new.purse other ≡ (if other == block then None else place_of self.old.purse other) }
        ensures left { open_of self.new ≡ open_of self.old + (if option_map_or (λ place. not (is_worn place.1)) (place_of self.old.purse block) false then 1 else 0) }
        ensures spare { spare_of self.new ≡ spare_of self.old + 1 }
        ensures moves { self.new.moves ≡ noting_freed self.old.moves (place_of self.old.purse block) }
        ensures rest { IsAlike self.old self.new }
    {
        if self.place(block).is_some() {
            self.unseat(block, None);
        } else {
            self.forget(block);
        }
    }

    // Takes a block out of its slice. It is in the store under this stamp, or gone where there is none.
    fn unseat(&mut self, block: u64, stamp: Option<Stamp>)
        requires seated { IsSeated self.old block }
        requires fits { IfSome stamp (λ stamp. (1 ≤ stamp.length) × (stamp.length ≤ self.old.size)) }
        ensures blocks { self.new.blocks ≡ leaving stamp block self.old.blocks }
        ensures purse { self.new.purse ≡ without_block self.old.purse block }
        ensures idle { next_idle self.old.purse ≡ None → next_idle self.new.purse ≡ place_of self.old.purse block }
        ensures places { (other : ℕ) → place_of self.new.purse other ≡ (if other == block then None else place_of self.old.purse other) }
        ensures left { IfSome (place_of self.old.purse block) (λ place. open_of self.new ≡ open_of self.old + (if is_worn place.1 then 0 else 1)) }
        ensures spare { spare_of self.new ≡ spare_of self.old + (if is_some stamp then 0 else 1) }
        ensures moves { self.new.moves ≡ noting_freed self.old.moves (place_of self.old.purse block) }
        ensures rest { IsAlike self.old self.new }
    {
        let freed = end_use(&mut self.cells, block, stamp);
        let id = freed.id();
        self.moves.note_freed(id, freed.number());
        insert_open(&mut self.open_seats, &freed);
        self.vacant_cells.set(block as u32, stamp.is_none());
        self.idle_seats.insert(id);
        self.busy_seats.remove(id);
        put_seat(&mut self.seats, id, Seat::Idle(freed));
    }

    // Ends a block that is in the store.
    fn forget(&mut self, block: u64)
        requires there { HasBlock self.old block }
        requires away { place_of self.old.purse block ≡ None }
        ensures blocks { self.new.blocks ≡ without block self.old.blocks }
        ensures spare { spare_of self.new ≡ spare_of self.old + 1 }
        ensures rest { self.new ≡ record self.old { blocks = self.new.blocks } }
    {
        put_cell(&mut self.cells, block as u32, Cell::Vacant);
        self.vacant_cells.insert(block as u32);
    }

    /// Takes a slice in, whose number rises by one unless it is worn. A slice that can't be held under its id, since
    /// another of that id is or there is no room for the id, came out of order: it is kept aside, counts as used
    /// and is never placed.
    pub fn grant(&mut self, slice: Slice)
        requires size { slice.size ≡ self.old.size }
        requires room { granted_of self.old < self.old.slices }
        ensures held { IsTrue (can_hold self.old slice.id) → self.old.strays ≡ 0 → self.new ≡ with_slice self.old slice.id (raised slice.number) }
        ensures aside { can_hold self.old slice.id ≡ false → self.new ≡ with_stray self.old }
        ensures either { (self.new ≡ with_slice self.old slice.id (raised slice.number)) ⊎ (self.new ≡ with_stray self.old) }
        ensures granted { granted_of self.new ≡ granted_of self.old + 1 }
        ensures places { (block : ℕ) → place_of self.new.purse block ≡ place_of self.old.purse block }
        ensures rest { self.new ≡ record self.old { purse = self.new.purse; strays = self.new.strays } }
    {
        let slice = slice.grant();
        let id = slice.id();
        if self.empty_seats.contains(id) {
            insert_open(&mut self.open_seats, &slice);
            self.empty_seats.remove(id);
            self.idle_seats.insert(id);
            put_seat(&mut self.seats, id, Seat::Idle(slice));
        } else {
            self.keep_aside(slice);
        }
    }

    /// Keeps a slice at the seat of another id.
    fn keep_aside(&mut self, slice: Slice)
        requires { granted_of self.old < self.old.slices }
        ensures { self.new ≡ with_stray self.old }
    {
        let Some(id) = self.empty_seats.first() else {
            unreachable!()
        };
        self.empty_seats.remove(id);
        self.idle_seats.insert(id);
        put_seat(&mut self.seats, id, Seat::Stray(slice));
    }

    /// Takes out the slice without a block of lowest id, worn or not. None where each slice that is held has a block. One
    /// that is kept aside counts as lying at the id at which it is kept.
    pub fn take_idle(&mut self) -> Option<Slice>
        ensures taken { IfSome result (λ slice. TakesIdle slice self.old self.new ⊎ (self.old ≡ with_stray self.new)) }
        ensures none { IsNone result → (next_idle self.old.purse ≡ None) × (self.old.strays ≡ 0) }
        ensures same { IsNone result → self.new ≡ self.old }
        ensures granted { IsSome result → granted_of self.old ≡ granted_of self.new + 1 }
        ensures places { (block : ℕ) → place_of self.new.purse block ≡ place_of self.old.purse block }
        ensures rest { self.new ≡ record self.old { purse = self.new.purse; strays = self.new.strays } }
    {
        let Some(id) = self.idle_seats.first() else {
            return None;
        };
        let slice = take_slice(&mut self.seats, id);
        self.idle_seats.remove(id);
        self.open_seats.remove(id);
        self.empty_seats.insert(id);
        Some(slice)
    }

    /// Forgets the moves.
    pub fn clear_moves(&mut self)
        ensures { self.new ≡ record self.old { moves = no_moves self.old.moves.most } }
    {
        self.moves.clear();
    }
}

impl Drop for Seating {
    /// Gives the memory of all slices back.
    fn drop(self) {
        let Seating {
            alloc: _,
            size: _,
            slices: _,
            seats,
            cells,
            open_seats: _,
            empty_seats: _,
            idle_seats: _,
            busy_seats: _,
            vacant_cells: _,
            moves: _,
        } = self;
        free_seats(seats);
        free_cells(cells);
    }
}
