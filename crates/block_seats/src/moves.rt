//! What a home notes of its moves.
ghost use Rattle.std.specs.Prelude.{◌≡◌, IfOk};
ghost use Rattle.block_seats.specs.Noted.{NotedView, no_moves, with_freed, with_placed};

use std::alloc::{AllocError, Global};
use std::marker::Model;

/// A block was placed in a slice, which has this number since.
#[derive(Clone, Copy, PartialEq, Eq, Debug)]
pub struct PlacedBlock {
    pub slice: u32,
    pub number: u64,
    pub block: u64,
}

/// The moves since they were cleared last: the slices that lost their block, each with the number under which it was
/// used, and the placements, both in the order in which they came. Each list keeps as many as the home has room for
/// slices, in room that is reserved with the home, and leaves out what comes after these.
#[derive(Drop)]
pub struct HomeMoves {
    most: usize,
    freed: Vec<(u32, u64)>,
    placed: Vec<PlacedBlock>,
}

impl Model for HomeMoves {
    ghost use Rattle.std.specs.Prelude.{◌≤◌, vec_len, vec_capacity};
    ghost use Rattle.block_seats.specs.Noted.{NotedView};

    ghost Value = { NotedView };

    ghost view = { λ m. record { most = m.most; freed = m.freed.items; placed = m.placed.items } };

    ghost invariant = { λ m. (vec_len m.freed ≤ m.most) × (vec_len m.placed ≤ m.most) × (m.most ≤ vec_capacity m.freed) × (m.most ≤ vec_capacity m.placed) };
}

impl HomeMoves {
    /// Takes the room for so many moves of each kind.
    pub(crate) fn new(alloc: Global, most: u32) -> Result<HomeMoves, AllocError>
        ensures { IfOk result (λ moves. moves ≡ no_moves most) }
    {
        let most = most as usize;
        Ok(HomeMoves {
            most,
            freed: Vec::with_capacity(alloc, most)?,
            placed: Vec::with_capacity(alloc, most)?,
        })
    }

    /// The slices that lost their block, as pairs of id and number.
    pub fn freed(&self) -> &[(u32, u64)]
        ensures { result.now ≡ self.now.freed }
    {
        self.freed.as_slice()
    }

    /// The blocks that were placed.
    pub fn placed(&self) -> &[PlacedBlock]
        ensures { result.now ≡ self.now.placed }
    {
        self.placed.as_slice()
    }

    pub(crate) fn note_freed(&mut self, slice: u32, number: u64)
        ensures { self.new ≡ with_freed self.old (slice, number) }
    {
        if self.freed.len() < self.most {
            self.freed.push_reserved((slice, number));
        }
    }

    pub(crate) fn note_placed(&mut self, row: PlacedBlock)
        ensures { self.new ≡ with_placed self.old row }
    {
        if self.placed.len() < self.most {
            self.placed.push_reserved(row);
        }
    }

    pub(crate) fn clear(&mut self)
        ensures { self.new ≡ no_moves self.old.most }
    {
        self.freed.clear();
        self.placed.clear();
    }
}
