//! A shelf in memory.

ghost use Rattle.std.specs.Prelude.{◌≡◌, ◌↔◌, [], Contains, IfOk, IsErr, OnErr, OnOk, Some, None};
ghost use Rattle.far_io.specs.Faults.{HasCause, counted};
ghost use Rattle.shelf_link.specs.Blocks.{with_block, without_block};
ghost use Rattle.shelf_link.specs.Calls.{no_calls, with_call, with_fault};
ghost use Rattle.shelf_link.specs.Told.{telling, StandsThere, IsSameKind, KeepsOthers, IsWithin, Gives};

use crate::calls::Calls;
use crate::kept::Kept;
use crate::shelf::{Got, Shelf, hand_out};
use far_io::Failed;
use std::alloc::{AllocError, Global};
use std::marker::Model;

/// A shelf that keeps its blocks in memory. Its calls are counted together, from 0; those whose numbers are listed
/// fail, and puts for which no memory is found. The count of calls stands still at the greatest u64, and so does that of
/// faults.
#[derive(Drop)]
pub struct ShelfMem {
    blocks: Kept,
    calls: Calls,
}

impl Model for ShelfMem {
    ghost use Rattle.shelf_link.specs.Shelves.{ShelfMemView};

    ghost Value = { ShelfMemView };

    ghost view = { λ s. record { blocks = s.blocks; calls = s.calls } };
}

impl ShelfMem {
    /// A shelf that holds nothing, and whose calls of the listed numbers fail.
    pub fn new(alloc: Global, fails: Vec<u64>) -> Self
        ensures { result ≡ record { blocks = []; calls = no_calls fails.items } }
    {
        ShelfMem {
            blocks: Kept::new(alloc),
            calls: Calls::new(fails),
        }
    }

    /// How many calls were made.
    pub fn calls(&self) -> u64
        ensures { result ≡ self.now.calls.calls }
    {
        self.calls.calls()
    }

    /// How many calls failed.
    pub fn faults(&self) -> u64
        ensures { result ≡ self.now.calls.faults }
    {
        self.calls.faults()
    }
}

impl Shelf for ShelfMem {
    ghost told = { λ s. telling s.blocks };

    ghost faults = { λ s. counted s.calls.faults };

    fn put(&mut self, block: u64, bytes: &[u8]) -> Result<(), Failed>
        ensures held { OnOk result (StandsThere (telling self.new.blocks) block (Some bytes.now)) }
        ensures others { KeepsOthers (telling self.old.blocks) (telling self.new.blocks) block }
        ensures kind { IsSameKind (telling self.old.blocks) (telling self.new.blocks) }
        ensures cause { HasCause (counted self.old.calls.faults) (counted self.new.calls.faults) result }

        // It fails at the calls that were listed, else for want of memory alone, and then all blocks stay.
        ensures listed { Contains self.old.calls.fails self.old.calls.calls → IsErr result }
        ensures ok { OnOk result (self.new ≡ record {
          blocks = with_block self.old.blocks block bytes.now;
          calls = with_call self.old.calls;
        }) }
        ensures err { OnErr result (self.new ≡ record {
          blocks = self.old.blocks;
          calls = with_fault self.old.calls;
        }) }
    {
        self.calls.begin()?;
        match self.blocks.put(block, bytes) {
            Ok(()) => Ok(()),
            Err(AllocError) => Err(self.calls.fail()),
        }
    }

    fn get(&mut self, block: u64, out: &mut [u8]) -> Result<Got, Failed>
        ensures gives { IfOk result (Gives (telling self.old.blocks) block out.new) }
        ensures bound { IfOk result (IsWithin out.new) }
        ensures same { telling self.new.blocks ≡ telling self.old.blocks }
        ensures cause { HasCause (counted self.old.calls.faults) (counted self.new.calls.faults) result }

        // It fails exactly at the calls that were listed.
        ensures listed { IsErr result ↔ Contains self.old.calls.fails self.old.calls.calls }
        ensures ok { OnOk result (self.new ≡ record {
          blocks = self.old.blocks;
          calls = with_call self.old.calls;
        }) }
        ensures err { OnErr result (self.new ≡ record {
          blocks = self.old.blocks;
          calls = with_fault self.old.calls;
        }) }
    {
        self.calls.begin()?;
        Ok(hand_out(self.blocks.get(block), out))
    }

    fn remove(&mut self, block: u64) -> Result<(), Failed>
        ensures gone { OnOk result (StandsThere (telling self.new.blocks) block None) }
        ensures others { KeepsOthers (telling self.old.blocks) (telling self.new.blocks) block }
        ensures kind { IsSameKind (telling self.old.blocks) (telling self.new.blocks) }
        ensures cause { HasCause (counted self.old.calls.faults) (counted self.new.calls.faults) result }

        // It fails exactly at the calls that were listed, and then what stood under the block stays.
        ensures listed { IsErr result ↔ Contains self.old.calls.fails self.old.calls.calls }
        ensures ok { OnOk result (self.new ≡ record {
          blocks = without_block self.old.blocks block;
          calls = with_call self.old.calls;
        }) }
        ensures err { OnErr result (self.new ≡ record {
          blocks = self.old.blocks;
          calls = with_fault self.old.calls;
        }) }
    {
        self.calls.begin()?;
        self.blocks.remove(block);
        Ok(())
    }
}
