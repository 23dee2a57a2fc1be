//! What a home tells.
ghost use Rattle.std.specs.Prelude.{◌≡◌, ℕ, ◌↔◌, ◌≤◌, length, is_some, IsTrue, IsSome, None, false};
ghost use Rattle.std.specs.Ordering.{nat_cmp};
ghost use Rattle.std.specs.FinMap.{find};
ghost use Rattle.std.specs.List.Sorted.{IsStrictlySortedBy};
ghost use Rattle.std.specs.Map.{keys_of};
ghost use Rattle.std.specs.Option.{option_map};
ghost use Rattle.block_seats.specs.Purses.{place_of, block_in};
ghost use Rattle.block_seats.specs.Seatings.{HasBlock, IsSeated, bytes_at, length_at, granted_of, used_of, can_hold, IsNewNumber};
ghost use Rattle.block_home.specs.Homes.{room_of};
ghost use Rattle.block_home.specs.Calls.{stamp_at};

use super::Home;
use block_seats::HomeMoves;
use far_words::Stamp;
use shelf_link::Shelf;

impl<K: Shelf> Home<K> {
    /// Whether a number names a block.
    pub fn has(&self, block: u64) -> bool
        ensures { result ≡ is_some (find nat_cmp block self.now.seats.blocks) }
    {
        self.seats.has(block)
    }

    /// How many bytes a block has, wherever it is.
    pub fn length(&self, block: u64) -> u32
        requires { HasBlock self.now.seats block }
        ensures value { result ≡ length_at self.now.seats block }
        ensures some { 1 ≤ result }
        ensures limit { result ≤ self.now.seats.size }
    {
        self.seats.length(block)
    }

    /// The bytes of a block in a slice.
    pub fn bytes(&self, block: u64) -> &[u8]
        requires { IsSeated self.now.seats block }
        ensures value { result.now ≡ bytes_at self.now.seats block }
        ensures counted { length result.now ≡ length_at self.now.seats block }
        ensures limit { length result.now ≤ self.now.seats.size }
    {
        self.seats.bytes(block)
    }

    /// The slice that a block lies in, and the slice's number. None where there is no such block, or it is parked.
    pub fn place(&self, block: u64) -> Option<(u32, u64)>
        ensures place { result ≡ place_of self.now.seats.purse block }
        ensures there { IsSome result → HasBlock self.now.seats block }
        ensures unstamped { IsSome result → stamp_at self.now.seats.blocks block ≡ None }
    {
        self.seats.place(block)
    }

    /// The stamp that was kept of a parked block. None where the block is in a slice, or there is none.
    pub fn stamp(&self, block: u64) -> Option<Stamp>
        ensures stamp { result ≡ stamp_at self.now.seats.blocks block }
        ensures away { IsSome result → place_of self.now.seats.purse block ≡ None }
        ensures seated { HasBlock self.now.seats block → result ≡ None → IsSeated self.now.seats block }
    {
        self.seats.stamp(block)
    }

    /// The block that lies in a slice, and the slice's number. None where no block does.
    pub fn block_at(&self, slice: u32) -> Option<(u64, u64)>
        ensures { result ≡ block_in self.now.seats.purse slice }
    {
        self.seats.block_at(slice)
    }

    /// The number of a held slice. None where none of that id is held.
    pub fn number(&self, slice: u32) -> Option<u64>
        ensures { result ≡ option_map (λ held. held.number) (find nat_cmp slice self.now.seats.purse) }
    {
        self.seats.number(slice)
    }

    /// The lowest number that names no block: the next block that is made gets it.
    pub fn next_number(&self) -> u64
        ensures { IsNewNumber self.now.seats result }
    {
        self.seats.next_number()
    }

    /// How many bytes a block has at most.
    pub fn size(&self) -> u32
        ensures value { result ≡ self.now.seats.size }
        ensures some { 1 ≤ self.now.seats.size }
        ensures limit { self.now.seats.size ≤ 65536 }
    {
        self.seats.size()
    }

    /// How many of the held slices can't take a block: those with one, and the worn ones.
    pub fn used(&self) -> u32
        ensures { result ≡ used_of self.now.seats }
    {
        self.seats.used()
    }

    /// How many slices are held.
    pub fn granted(&self) -> u32
        ensures { result ≡ granted_of self.now.seats }
    {
        self.seats.granted()
    }

    /// How many new blocks can be placed without memory.
    pub fn room(&self) -> u32
        ensures value { result ≡ room_of self.now.seats }
        ensures ordered { IsStrictlySortedBy nat_cmp (keys_of self.now.seats.purse) }
    {
        self.seats.open().min(self.seats.spare())
    }

    /// Whether as many slices are held as the home has room for. While none is kept aside, no slice can be held then.
    pub fn is_full(&self) -> bool
        ensures full { IsTrue result ↔ (self.now.seats.slices ≤ granted_of self.now.seats) }
        ensures open { (slice : ℕ) → IsTrue (can_hold self.now.seats slice) → self.now.seats.strays ≡ 0 → result ≡ false }
    {
        self.seats.is_full()
    }

    /// The moves since they were cleared last.
    pub fn moves(&self) -> &HomeMoves
        ensures { result.now ≡ self.now.seats.moves }
    {
        self.seats.moves()
    }
}
