//! A shelf whose room is reserved.

ghost use Rattle.std.specs.Prelude.{◌≡◌, ◌+◌, ◌-◌, ◌<◌, ◌≤◌, ◌↔◌, ◌⊎◌, [], length};
ghost use Rattle.std.specs.Prelude.{vec_len, vec_capacity, is_some, IsTrue, IfOk, IfErr, IsErr, IsOk, OnErr, OnOk, Some, None};
ghost use Rattle.std.specs.List.{insert};
ghost use Rattle.far_io.specs.Faults.{HasCause, Rose, Follows, counted, one_more};
ghost use Rattle.shelf_link.specs.Blocks.{block_at, with_block, without_block};
ghost use Rattle.shelf_link.specs.Shelves.{IsTooSmall, room_after, taken_by};
ghost use Rattle.shelf_link.specs.Slots.{IsAt, IsGapFor};
ghost use Rattle.shelf_link.specs.Told.{telling, StandsThere, IsSameKind, KeepsOthers, IsWithin, Gives};

use crate::shelf::{Got, Shelf, hand_out};
use crate::slot::{Slot, fresh_slots};
use far_io::Failed;
use std::alloc::{AllocError, Global};
use std::marker::Model;

/// A shelf with room for so many blocks at a time, of at most so many bytes each. It reserves all of it when it is made
/// and takes no memory afterwards.
///
/// A block that it holds is put again in its own room, and a remove gives that room back.
#[derive(Drop)]
pub struct SureShelf {
    held: Vec<Slot>,
    spare: Vec<Slot>,
    size: usize,
    faults: u64,
}

impl Model for SureShelf {
    ghost use Rattle.shelf_link.specs.Shelves.{SureShelfView};
    ghost use Rattle.shelf_link.specs.Sure.{view_of, IsSure};

    ghost Value = { SureShelfView };

    ghost view = { view_of };

    ghost invariant = { IsSure };
}

impl SureShelf {
    /// A shelf that holds nothing, with room for `blocks` blocks of at most `bytes` bytes each.
    pub fn new(alloc: Global, blocks: usize, bytes: usize) -> Result<Self, AllocError>
        ensures { IfOk result (λ shelf. shelf ≡ record { blocks = []; room = blocks; size = bytes; faults = 0 }) }
    {
        Ok(SureShelf {
            held: Vec::with_capacity(alloc, blocks)?,
            spare: fresh_slots(alloc, blocks, bytes)?,
            size: bytes,
            faults: 0,
        })
    }

    /// How many calls failed.
    pub fn faults(&self) -> u64
        ensures { result ≡ self.now.faults }
    {
        self.faults
    }

    // Where a block stands, or would stand.
    fn find(&self, block: u64) -> Result<usize, usize>
        ensures found { IfOk result (IsAt self.now.blocks block) }
        ensures gap { IfErr result (IsGapFor self.now.blocks block) }
        ensures there { OnOk result (IsTrue (is_some (block_at self.now.blocks block))) }
        ensures absent { OnErr result (block_at self.now.blocks block ≡ None) }
    {
        self.held.binary_search_by_key(&block, |slot| slot.block())
    }

    // Puts a block that stands there, in its own room.
    fn put_again(&mut self, at: usize, block: u64, bytes: &[u8])
        requires there { IsAt self.old.blocks block at }
        requires fits { length bytes.now ≤ self.old.size }
        ensures { self.new ≡ record self.old { blocks = with_block self.old.blocks block bytes.now } }
    {
        let slot = &mut self.held[at];
        slot.set(block, bytes);
    }

    // Puts a block that would stand there, in room that is left.
    fn put_new(&mut self, at: usize, block: u64, bytes: &[u8])
        requires gap { IsGapFor self.old.blocks block at }
        requires fits { length bytes.now ≤ self.old.size }
        requires room { 1 ≤ self.old.room }
        ensures { self.new ≡ record self.old {
          blocks = with_block self.old.blocks block bytes.now;
          room = self.old.room - 1;
        } }
    {
        let Some(mut slot) = self.spare.pop() else {
            unreachable!()
        };
        slot.set(block, bytes);
        insert_slot(&mut self.held, at, slot);
    }

    // Takes out the block that stands there, and keeps its room.
    fn take_out(&mut self, at: usize, block: u64)
        requires { IsAt self.old.blocks block at }
        ensures { self.new ≡ record self.old {
          blocks = without_block self.old.blocks block;
          room = self.old.room + 1;
        } }
    {
        let slot = self.held.remove(at);
        self.spare.push_reserved(slot);
    }

    // Counts a fault.
    fn fail(&mut self) -> Failed
        ensures counted { self.new ≡ record self.old { faults = one_more self.old.faults } }
        ensures follows { Follows (counted self.old.faults) (counted self.new.faults) }
        ensures rose { Rose (counted self.old.faults) (counted self.new.faults) }
    {
        self.faults = self.faults.saturating_add(1);
        Failed
    }

    // The bytes of the block that stands there.
    fn bytes_at(&self, at: usize, block: u64) -> &[u8]
        requires { IsAt self.now.blocks block at }
        ensures { block_at self.now.blocks block ≡ Some result.now }
    {
        let _ = block;
        self.held[at].bytes()
    }
}

// Puts a slot at a place, where the table has room for it.
fn insert_slot(held: &mut Vec<Slot>, at: usize, slot: Slot)
    requires within { at ≤ vec_len held.old }
    requires room { vec_len held.old < vec_capacity held.old }
    ensures items { held.new.items ≡ insert held.old.items at slot }
    ensures len { vec_len held.new ≡ vec_len held.old + 1 }
    ensures places { vec_capacity held.new ≡ vec_capacity held.old }
{
    match held.insert(at, slot) {
        Ok(()) => {}
        Err(_) => unreachable!(),
    }
}

impl Shelf for SureShelf {
    ghost told = { λ s. telling s.blocks };

    ghost faults = { λ s. counted s.faults };

    fn put(&mut self, block: u64, bytes: &[u8]) -> Result<(), Failed>
        ensures held { OnOk result (StandsThere (telling self.new.blocks) block (Some bytes.now)) }
        ensures others { KeepsOthers (telling self.old.blocks) (telling self.new.blocks) block }
        ensures kind { IsSameKind (telling self.old.blocks) (telling self.new.blocks) }
        ensures cause { HasCause (counted self.old.faults) (counted self.new.faults) result }

        // It fails exactly where the room that is left is too small, and then what stood under the block stays.
        ensures full { IsErr result ↔ IsTooSmall self.old block (length bytes.now) }
        ensures ok { OnOk result (self.new ≡ record self.old {
          blocks = with_block self.old.blocks block bytes.now;
          room = room_after self.old block;
        }) }
        ensures err { OnErr result (self.new ≡ record self.old { faults = one_more self.old.faults }) }
    {
        if self.size < bytes.len() {
            return Err(self.fail());
        }
        match self.find(block) {
            Ok(at) => {
                self.put_again(at, block, bytes);
                Ok(())
            }
            Err(_) if self.spare.is_empty() => Err(self.fail()),
            Err(at) => {
                self.put_new(at, block, bytes);
                Ok(())
            }
        }
    }

    fn get(&mut self, block: u64, out: &mut [u8]) -> Result<Got, Failed>
        ensures gives { IfOk result (Gives (telling self.old.blocks) block out.new) }
        ensures bound { IfOk result (IsWithin out.new) }
        ensures same { telling self.new.blocks ≡ telling self.old.blocks }
        ensures cause { HasCause (counted self.old.faults) (counted self.new.faults) result }

        // It never fails.
        ensures ok { IsOk result }
        ensures all { self.new ≡ self.old }
    {
        Ok(match self.find(block) {
            Ok(at) => hand_out(Some(self.bytes_at(at, block)), out),
            Err(_) => Got::Absent,
        })
    }

    fn remove(&mut self, block: u64) -> Result<(), Failed>
        ensures gone { OnOk result (StandsThere (telling self.new.blocks) block None) }
        ensures others { KeepsOthers (telling self.old.blocks) (telling self.new.blocks) block }
        ensures kind { IsSameKind (telling self.old.blocks) (telling self.new.blocks) }
        ensures cause { HasCause (counted self.old.faults) (counted self.new.faults) result }

        // It never fails, and gives back the room of a block that stood there.
        ensures ok { IsOk result }
        ensures all { self.new ≡ record self.old {
          blocks = without_block self.old.blocks block;
          room = self.old.room + taken_by self.old block;
        } }
    {
        if let Ok(at) = self.find(block) {
            self.take_out(at, block);
        }
        Ok(())
    }
}
