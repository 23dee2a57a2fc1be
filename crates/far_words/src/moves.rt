//! What one event moved.
ghost use Rattle.std.specs.Prelude.{◌≡◌, ℕ, ◌+◌, ◌<◌, ◌≤◌, ◌++◌, ◌∷◌, [], length, IfOk, OnOk, OnErr};
ghost use Rattle.std.specs.List.Sorted.{IsPermutation, IsNonDecreasingBy};

use crate::path::Path;
use std::alloc::{AllocError, AllocFailed, Global};
use std::marker::Model;

/// A block that came into a slice: the slice, its number from then on, and the place of the block.
///
/// The index is the block's place in its file, from 0.
#[derive(PartialEq, Eq, Debug, Drop)]
pub struct PlacedRow {
    pub slice: u32,
    pub number: u64,
    pub path: Path,
    pub index: u64,
}

/// The moves of one event: the slices that lost their block, each with the number under which it was used, and the blocks that
/// came into a slice.
#[derive(Debug, Drop)]
pub struct Moves {
    freed: Vec<(u32, u64)>,
    placed: Vec<PlacedRow>,
}

impl Model for Moves {
    ghost use Rattle.std.specs.Prelude.{vec_capacity};
    ghost use Rattle.far_words.specs.Moves.{MovesView};

    ghost Value = { MovesView };

    ghost view = { λ moves. record { room = vec_capacity moves.freed; freed = moves.freed.items; placed = moves.placed.items } };
}

impl Moves {
    ghost use Rattle.far_words.specs.Moves.{no_moves, with_freed, with_placed};

    /// No moves, with room for so many freed slices.
    pub fn new(alloc: Global, room: usize) -> Result<Moves, AllocError>
        ensures { IfOk result (λ moves. moves ≡ no_moves room) }
    {
        let freed = Vec::with_capacity(alloc, room)?;
        Ok(Moves {
            freed,
            placed: Vec::new(alloc),
        })
    }

    /// The freed slices, each with the number under which it was used.
    pub fn freed(&self) -> &[(u32, u64)]
        ensures { result.now ≡ self.now.freed }
    {
        self.freed.as_slice()
    }

    /// The placed blocks.
    pub fn placed(&self) -> &[PlacedRow]
        ensures { result.now ≡ self.now.placed }
    {
        self.placed.as_slice()
    }

    /// Notes a slice that lost its block. It takes no memory.
    pub fn push_freed(&mut self, slice: u32, number: u64)
        requires { length self.old.freed < self.old.room }
        ensures { self.new ≡ with_freed self.old (slice, number) }
    {
        self.freed.push_reserved((slice, number));
    }

    /// Notes a block that came into a slice. At an `Err` the moves stand as they were.
    pub fn push_placed(&mut self, row: PlacedRow) -> Result<(), AllocError>
        ensures ok { OnOk result (self.new ≡ with_placed self.old row) }
        ensures err { OnErr result (self.new ≡ self.old) }
    {
        match self.placed.push(row) {
            Ok(()) => Ok(()),
            Err(AllocFailed { value: _ }) => Err(AllocError),
        }
    }

    /// Notes these placed blocks in place of those that were noted. It takes no memory.
    pub fn set_placed(&mut self, rows: Vec<PlacedRow>)
        ensures { self.new ≡ record self.old { placed = rows.items } }
    {
        self.placed = rows;
    }

    /// Notes these slices as those that lost their block in place of those that were noted, in the order of their ids. It takes no
    /// memory.
    pub fn set_freed(&mut self, slices: &[(u32, u64)])
        requires { length slices.now ≤ self.old.room }
        ensures freed { IsPermutation slices.now self.new.freed }
        ensures order { IsNonDecreasingBy (λ slice. slice.0) self.new.freed }
        ensures rest { self.new ≡ record self.old { freed = self.new.freed } }
    {
        self.freed.clear();
        for slice in slices {
            self.freed.push_reserved(*slice);
        }
        self.freed.sort_unstable_by_key(|slice| slice.0);
    }

    /// Forgets all moves. The room stays.
    pub fn clear(&mut self)
        ensures { self.new ≡ no_moves self.old.room }
    {
        self.freed.clear();
        self.placed.clear();
    }
}
