//! Blocks that are kept in memory, by their numbers.

ghost use Rattle.std.specs.Prelude.{◌≡◌, ◌+◌, [], OnOk, OnErr};
ghost use Rattle.std.specs.Option.{option_copied};
ghost use Rattle.shelf_link.specs.Blocks.{block_at, with_block, without_block};

use far_io::Raw;
use std::alloc::{AllocError, Global};
use std::collections::BTreeMap;
use std::marker::Model;

/// Bytes under block numbers.
#[derive(Drop)]
pub(crate) struct Kept {
    alloc: Global,
    map: BTreeMap<u64, Raw>,
}

impl Model for Kept {
    ghost use Rattle.std.specs.Ordering.{nat_cmp};
    ghost use Rattle.std.specs.BTreeMap.{IsOrdered};
    ghost use Rattle.shelf_link.specs.Blocks.{Blocks};

    ghost Value = { Blocks };

    ghost view = { λ k. k.map.entries };

    ghost invariant = { λ k. IsOrdered nat_cmp k.map };
}

impl Kept {
    /// Nothing is kept. It takes no memory until the first put.
    pub(crate) fn new(alloc: Global) -> Kept
        ensures { result ≡ [] }
    {
        Kept {
            alloc,
            map: BTreeMap::new(alloc),
        }
    }

    /// Keeps these bytes under a number, in place of what was kept there. At an `Err` all stands as it was.
    pub(crate) fn put(&mut self, block: u64, bytes: &[u8]) -> Result<(), AllocError>
        ensures ok { OnOk result (self.new ≡ with_block self.old block bytes.now) }
        ensures err { OnErr result (self.new ≡ self.old) }
    {
        let copy = Raw::from_slice(self.alloc, bytes)?;
        match self.map.insert(block, copy) {
            Ok(_) => Ok(()),
            Err(_) => Err(AllocError),
        }
    }

    /// The bytes under a number.
    pub(crate) fn get(&self, block: u64) -> Option<&[u8]>
        ensures { option_copied result ≡ block_at self.now block }
    {
        match self.map.get(&block) {
            Some(bytes) => Some(bytes.items()),
            None => None,
        }
    }

    /// Keeps nothing under a number.
    pub(crate) fn remove(&mut self, block: u64)
        ensures { self.new ≡ without_block self.old block }
    {
        self.map.remove(&block);
    }
}
