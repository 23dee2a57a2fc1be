//! A home over a store in memory that holds all its slices.

ghost use Rattle.std.specs.Prelude.{◌≡◌, ◌≤◌, IfOk};
ghost use Rattle.block_seats.specs.Seatings.{granted_of};

use block_home::Home;
use shelf_link::ShelfMem;
use slice_seq::Slice;
use std::alloc::{AllocError, Global};

/// The most slices of a home.
pub const MOST_SLICES: u64 = 1 << 22;

/// A home that holds all slices that it has room for, over a store in memory.
pub fn full_home(alloc: Global, size: u32, slices: u32) -> Result<Home<ShelfMem>, AllocError>
    requires some { 1 ≤ size }
    requires limit { size ≤ 65536 }
    ensures size { IfOk result (λ home. home.seats.size ≡ size) }
{
    let shelf = ShelfMem::new(alloc, Vec::new(alloc));
    let mut home = Home::new(alloc, 0, size, slices, shelf)?;
    for id in 0..slices {
        let slice = Slice::fresh(alloc, id, size, 0)?;
        home.grant(slice);
    }
    Ok(home)
}
