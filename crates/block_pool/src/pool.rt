//! The free slices.
ghost use Rattle.std.specs.Prelude.{◌≡◌, ◌<◌, ◌↔◌, ◌∷◌, [], length, All, IsNone, IfNone, IfSome, IfOk, vec_len, is_some, IsTrue, slice_set, slice_index_or};
ghost use Rattle.std.specs.Ordering.{nat_cmp};
ghost use Rattle.std.specs.FinMap.{find, put};
ghost use Rattle.block_pool.specs.Pools.{fresh_slices, full_pool};

use id_set::IdSet;
use slice_seq::Slice;
use std::alloc::{AllocError, Global};
use std::marker::Model;
use std::mem;

/// The free slices, each in a place of its own.
///
/// All room is reserved when the pool is made, and only `new` takes memory. Each other call takes a few steps, however
/// many slices there are. A pool that is dropped ends its slices by [`Slice::free`].
pub struct Pool {
    places: Vec<Option<Slice>>,
    /// The places that have a slice.
    free: IdSet,
}

impl Model for Pool {
    ghost use Rattle.block_pool.specs.Pools.{PoolView};
    ghost use Rattle.block_pool.specs.Inside.{pool_view, IsWellPool};

    ghost Value = { PoolView };

    ghost view = { pool_view };

    ghost invariant = { IsWellPool };
}

/// Ends slices, each by [`Slice::free`], and gives their memory back.
fn free_all(mut places: Vec<Option<Slice>>) {
    while let Some(place) = places.pop() {
        match place {
            Some(slice) => slice.free(),
            None => {}
        }
    }
    places.destroy_empty();
}

/// A place for each id below `count`, with a slice of `size` bytes under number 0.
fn fresh_places(alloc: Global, count: u32, size: u32) -> Result<Vec<Option<Slice>>, AllocError>
    ensures { IfOk result (λ places. places.items ≡ fresh_slices size count) }
{
    let mut places = Vec::with_capacity(alloc, count as usize)?;
    for id in 0..count {
        match Slice::fresh(alloc, id, size, 0) {
            Ok(slice) => places.push_reserved(Some(slice)),
            Err(error) => {
                free_all(places);
                return Err(error);
            }
        }
    }
    Ok(places)
}

/// Takes the slice out of a place.
fn emptied(places: &mut Vec<Option<Slice>>, id: u32) -> Slice
    requires { IsTrue (is_some (slice_index_or places.old.items id None)) }
    ensures slice { Some result ≡ slice_index_or places.old.items id None }
    ensures places { places.new.items ≡ slice_set places.old.items id None }
{
    match mem::replace(&mut places[id as usize], None) {
        Some(slice) => slice,
        None => unreachable!(),
    }
}

/// Puts a slice into an empty place.
fn fill(places: &mut Vec<Option<Slice>>, id: u32, slice: Slice)
    requires within { id < vec_len places.old }
    requires empty { slice_index_or places.old.items id None ≡ None }
    ensures { places.new.items ≡ slice_set places.old.items id (Some slice) }
{
    match mem::replace(&mut places[id as usize], Some(slice)) {
        Some(_other) => unreachable!(),
        None => {}
    }
}

impl Pool {
    /// A pool of all slices with the ids below `count`, each of `size` bytes and under number 0.
    pub fn new(alloc: Global, count: u32, size: u32) -> Result<Pool, AllocError>
        ensures { IfOk result (λ pool. pool ≡ full_pool count size) }
    {
        let free = IdSet::full(alloc, count)?;
        let places = fresh_places(alloc, count, size)?;
        Ok(Pool { places, free })
    }

    /// How many slices are free.
    pub fn count(&self) -> u32
        ensures { result ≡ length self.now.slices }
    {
        self.free.count()
    }

    /// Takes out the free slice of lowest id, as it was given back. There is none exactly where the pool is empty.
    pub fn take_lowest(&mut self) -> Option<Slice>
        ensures none { IsNone result ↔ (self.old.slices ≡ []) }
        ensures same { IfNone result (self.new ≡ self.old) }
        ensures taken { IfSome result (λ slice. self.old.slices ≡ (slice.id, slice) ∷ self.new.slices) }
        ensures lowest { IfSome result (λ slice. All (λ e. slice.id < e.0) self.new.slices) }
        ensures known { IfSome result (λ slice. slice.id < self.old.bound) }
        ensures away { IfSome result (λ slice. find nat_cmp slice.id self.new.slices ≡ None) }
        ensures bound { self.new.bound ≡ self.old.bound }
    {
        let id = self.free.first()?;
        self.free.remove(id);
        Some(emptied(&mut self.places, id))
    }

    /// Puts a slice into the pool, as it is.
    pub fn give_back(&mut self, slice: Slice)
        requires within { slice.id < self.old.bound }
        requires away { find nat_cmp slice.id self.old.slices ≡ None }
        ensures { self.new ≡ record self.old { slices = put nat_cmp slice.id slice self.old.slices } }
    {
        let id = slice.id();
        self.free.insert(id);
        fill(&mut self.places, id, slice);
    }
}

impl Drop for Pool {
    /// Ends the free slices, and gives their memory back.
    fn drop(self) {
        let Pool { places, free: _ } = self;
        free_all(places);
    }
}
