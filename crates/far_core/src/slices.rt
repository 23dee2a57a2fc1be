//! Slices that no user holds.
ghost use Rattle.std.specs.Prelude.{◌≡◌, [], IfOk, reverse, vec_capacity, vec_len};
ghost use Rattle.far_core.specs.Runs.{fresh_pool};
ghost use Rattle.far_core.specs.Cores.{sized};

use slice_seq::Slice;
use std::alloc::{AllocError, Global};

/// Ends slices, each by [`Slice::free`]: those of a pool and a hand that are dropped, and of a pool that can't be made
/// whole. It gives their memory back.
pub fn free_all(mut slices: Vec<Slice>) {
    while let Some(slice) = slices.pop() {
        slice.free();
    }
    slices.destroy_empty();
}

/// Slices of `size` bytes with the ids below `count`, the lowest last.
pub fn fresh_slices(alloc: Global, count: u32, size: u32) -> Result<Vec<Slice>, AllocError>
    ensures slices { IfOk result (λ slices. reverse slices.items ≡ sized size (fresh_pool count)) }
    ensures all { IfOk result (λ slices. vec_len slices ≡ count) }
{
    let mut slices = Vec::with_capacity(alloc, count as usize)?;
    for made in 0..count {
        match Slice::fresh(alloc, count - 1 - made, size, 0) {
            Ok(slice) => slices.push_reserved(slice),
            Err(error) => {
                free_all(slices);
                return Err(error);
            }
        }
    }
    Ok(slices)
}

/// The slices that no user holds. All of them have room in the hand.
pub struct Slices {
    /// The free slices, the lowest last.
    pub pool: Vec<Slice>,
    /// The slices in hand: the one that came last is the last.
    pub hand: Vec<Slice>,
}

impl Slices {
    /// All slices in the pool.
    pub fn new(alloc: Global, count: u32, size: u32) -> Result<Slices, AllocError>
        ensures pool { IfOk result (λ slices. reverse slices.pool.items ≡ sized size (fresh_pool count)) }
        ensures hand { IfOk result (λ slices. slices.hand.items ≡ []) }
        ensures room { IfOk result (λ slices. vec_capacity slices.hand ≡ count) }
        ensures all { IfOk result (λ slices. vec_len slices.pool ≡ count) }
    {
        let pool = fresh_slices(alloc, count, size)?;
        match Vec::with_capacity(alloc, count as usize) {
            Ok(hand) => Ok(Slices { pool, hand }),
            Err(error) => {
                free_all(pool);
                Err(error)
            }
        }
    }
}

impl Drop for Slices {
    /// Ends all of them, and gives their memory back.
    fn drop(self) {
        let Slices { pool, hand } = self;
        free_all(pool);
        free_all(hand);
    }
}
