//! Room for one block.

ghost use Rattle.std.specs.Prelude.{◌≡◌, ◌≤◌, [], length, vec_len, vec_capacity, IfOk};
ghost use Rattle.shelf_link.specs.Slots.{AreSized};

use crate::shelf::fill;
use std::alloc::{AllocError, Global};
use std::marker::Model;

/// Room for the bytes of one block, which is taken when it is made.
#[derive(Drop)]
pub(crate) struct Slot {
    block: u64,
    len: usize,
    room: Vec<u8>,
}

impl Model for Slot {
    ghost use Rattle.std.specs.Prelude.{◌≤◌, take, vec_len};
    ghost use Rattle.shelf_link.specs.Slots.{SlotView};

    ghost Value = { SlotView };

    ghost view = { λ s. record { block = s.block; bytes = take s.len s.room.items; size = vec_len s.room } };

    ghost invariant = { λ s. s.len ≤ vec_len s.room };
}

impl Slot {
    /// Room for so many bytes.
    pub(crate) fn new(alloc: Global, size: usize) -> Result<Slot, AllocError>
        ensures { IfOk result (λ slot. slot ≡ record { block = 0; bytes = []; size = size }) }
    {
        Ok(Slot {
            block: 0,
            len: 0,
            room: vec![in alloc; 0u8; size]?,
        })
    }

    /// Keeps these bytes, as those of a block. It takes no memory.
    pub(crate) fn set(&mut self, block: u64, bytes: &[u8])
        requires { length bytes.now ≤ self.old.size }
        ensures { self.new ≡ record { block = block; bytes = bytes.now; size = self.old.size } }
    {
        self.block = block;
        self.len = bytes.len();
        fill(self.room.as_mut_slice(), bytes);
    }

    /// The number of the block.
    pub(crate) fn block(&self) -> u64
        ensures { result ≡ self.now.block }
    {
        self.block
    }

    /// The bytes of the block.
    pub(crate) fn bytes(&self) -> &[u8]
        ensures { result.now ≡ self.now.bytes }
    {
        &self.room[..self.len]
    }
}

/// So many slots, each with room for `size` bytes.
pub(crate) fn fresh_slots(alloc: Global, count: usize, size: usize) -> Result<Vec<Slot>, AllocError>
    ensures count { IfOk result (λ slots. vec_len slots ≡ count) }
    ensures places { IfOk result (λ slots. count ≤ vec_capacity slots) }
    ensures sized { IfOk result (λ slots. AreSized size slots.items) }
{
    let mut slots = Vec::with_capacity(alloc, count)?;
    for _done in 0..count {
        let slot = Slot::new(alloc, size)?;
        slots.push_reserved(slot);
    }
    Ok(slots)
}
