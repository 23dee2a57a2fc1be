//! What a seating tells.
ghost use Rattle.std.specs.Prelude.{◌≡◌, ℕ, ◌↔◌, IfSome, ◌+◌, ◌≤◌, ◌<◌, length, is_some, IsTrue, IsSome, None, false};
ghost use Rattle.std.specs.Ordering.{nat_cmp};
ghost use Rattle.std.specs.FinMap.{find};
ghost use Rattle.std.specs.List.Sorted.{IsStrictlySortedBy};
ghost use Rattle.std.specs.Map.{keys_of};
ghost use Rattle.std.specs.Option.{option_map, option_and_then};
ghost use Rattle.block_seats.specs.Blocks.{block_at, stamp_of, was_put};
ghost use Rattle.block_seats.specs.Purses.{place_of, block_in, first_block};
ghost use Rattle.block_seats.specs.Seatings.{HasBlock, IsSeated, bytes_at, length_at, granted_of, used_of, open_of, spare_of, can_hold, IsNewNumber};

use super::Seating;
use crate::cell::{cell_length, cell_put, cell_stamp, is_there, slice_at, used_at};
use crate::moves::HomeMoves;
use crate::seat::{number_at, seat_block};
use far_words::Stamp;

impl Seating {
    /// Whether a number names a block.
    pub fn has(&self, block: u64) -> bool
        ensures { result ≡ is_some (find nat_cmp block self.now.blocks) }
    {
        is_there(&self.cells, block)
    }

    /// The bytes of a block in a slice.
    pub fn bytes(&self, block: u64) -> &[u8]
        requires { IsSeated self.now block }
        ensures value { result.now ≡ bytes_at self.now block }
        ensures counted { length result.now ≡ length_at self.now block }
        ensures some { 1 ≤ length result.now }
        ensures limit { length result.now ≤ self.now.size }
    {
        used_at(&self.cells, block).read()
    }

    /// The stamp of a block in the store. None where the block is in a slice, or there is none.
    pub fn stamp(&self, block: u64) -> Option<Stamp>
        ensures stamp { result ≡ option_and_then stamp_of (find nat_cmp block self.now.blocks) }
        ensures away { IsSome result → place_of self.now.purse block ≡ None }
        ensures seated { HasBlock self.now block → result ≡ None → IsSeated self.now block }
        ensures fits { IfSome result (λ stamp. (1 ≤ stamp.length) × (stamp.length ≤ self.now.size)) }
    {
        cell_stamp(&self.cells, block)
    }

    /// Whether a block was ever put into the store.
    pub fn was_put(&self, block: u64) -> bool
        ensures { result ≡ was_put (block_at self.now.blocks block) }
    {
        cell_put(&self.cells, block)
    }

    /// How many bytes a block has, wherever it is.
    pub fn length(&self, block: u64) -> u32
        requires { HasBlock self.now block }
        ensures value { result ≡ length_at self.now block }
        ensures some { 1 ≤ result }
        ensures limit { result ≤ self.now.size }
    {
        cell_length(&self.cells, block)
    }

    /// The slice that a block lies in, and the slice's number. None where there is no such block, or it is in the store.
    pub fn place(&self, block: u64) -> Option<(u32, u64)>
        ensures place { result ≡ place_of self.now.purse block }
        ensures there { IsSome result → HasBlock self.now block }
        ensures unstamped { IsSome result → option_and_then stamp_of (find nat_cmp block self.now.blocks) ≡ None }
    {
        slice_at(&self.cells, block)
    }

    /// The block that lies in a slice, and the slice's number. None where no block does.
    pub fn block_at(&self, slice: u32) -> Option<(u64, u64)>
        ensures { result ≡ block_in self.now.purse slice }
    {
        seat_block(&self.seats, slice)
    }

    /// The block in the slice of lowest id that has one. None where no slice has.
    pub fn lowest_seated(&self) -> Option<u64>
        ensures block { result ≡ first_block self.now.purse }
        ensures seated { IfSome result (λ block. IsSeated self.now block × HasBlock self.now block) }
    {
        let id = self.busy_seats.first()?;
        let (block, _number) = seat_block(&self.seats, id)?;
        Some(block)
    }

    /// The number of a held slice. None where none of that id is held.
    pub fn number(&self, slice: u32) -> Option<u64>
        ensures { result ≡ option_map (λ held. held.number) (find nat_cmp slice self.now.purse) }
    {
        number_at(&self.seats, slice)
    }

    /// How many bytes a block has at most.
    pub fn size(&self) -> u32
        ensures value { result ≡ self.now.size }
        ensures some { 1 ≤ self.now.size }
        ensures limit { self.now.size ≤ 65536 }
    {
        self.size
    }

    /// How many of the held slices can't take a block: those with one, and the worn ones.
    pub fn used(&self) -> u32
        ensures { result ≡ used_of self.now }
    {
        self.granted() - self.open()
    }

    /// How many slices are held.
    pub fn granted(&self) -> u32
        ensures { result ≡ granted_of self.now }
    {
        self.slices - self.empty_seats.count()
    }

    /// Whether as many slices are held as there is room for. While none is kept aside, no slice can be held then.
    pub fn is_full(&self) -> bool
        ensures full { IsTrue result ↔ (self.now.slices ≤ granted_of self.now) }
        ensures open { (slice : ℕ) → IsTrue (can_hold self.now slice) → self.now.strays ≡ 0 → result ≡ false }
    {
        self.empty_seats.count() == 0
    }

    /// How many of the held slices can take a block.
    pub fn open(&self) -> u32
        ensures value { result ≡ open_of self.now }
        ensures ordered { IsStrictlySortedBy nat_cmp (keys_of self.now.purse) }
    {
        self.open_seats.count()
    }

    /// The lowest number that names no block: the next block that is made gets it.
    pub fn next_number(&self) -> u64
        ensures number { IsNewNumber self.now result }
        ensures nowhere { place_of self.now.purse result ≡ None }
        ensures room { 1 ≤ spare_of self.now → result < self.now.numbers }
    {
        match self.vacant_cells.first() {
            Some(number) => u64::from(number),
            None => u64::from(self.vacant_cells.bound()),
        }
    }

    /// For how many new blocks there are numbers.
    pub fn spare(&self) -> u32
        ensures { result ≡ spare_of self.now }
    {
        self.vacant_cells.count()
    }

    /// The moves since they were cleared last.
    pub fn moves(&self) -> &HomeMoves
        ensures { result.now ≡ self.now.moves }
    {
        &self.moves
    }
}
