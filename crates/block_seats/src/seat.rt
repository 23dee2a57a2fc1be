//! A place of the table of slices.
ghost use Rattle.std.specs.Prelude.{◌≡◌, ◌+◌, ◌≤◌, ◌<◌, IsTrue, length, IfOk, false, replicate, slice_index_or, slice_set, vec_len};
ghost use Rattle.std.specs.Option.{option_map};
ghost use Rattle.block_seats.specs.Seats.{block_of, held_in, is_open, is_bare, keeps_slice, slice_in};

use id_set::IdSet;
use slice_seq::{Slice, Used};
use std::alloc::{AllocError, Global};
use std::mem;

/// What stands at one id of the table of slices.
pub(crate) enum Seat {
    /// No slice.
    Empty,
    /// A held slice without a block.
    Idle(Slice),
    /// A held slice with a block, which has the slice's buffer.
    Busy { block: u32, number: u64 },
    /// A slice of another id, which was granted out of order. It is kept and never used.
    Stray(Slice),
}

/// Puts something in the place of what stands there, and hands that out.
pub(crate) fn swapped<T>(places: &mut Vec<T>, at: usize, other: T) -> T
    requires { at < vec_len places.old }
    ensures out { result ≡ slice_index_or places.old.items at result }
    ensures places { places.new.items ≡ slice_set places.old.items at other }
{
    mem::replace(&mut places[at], other)
}

/// Puts a seat in the place of one that has no slice by itself.
pub(crate) fn put_seat(seats: &mut Vec<Seat>, id: u32, seat: Seat)
    requires within { id < vec_len seats.old }
    requires bare { IsTrue (is_bare (slice_index_or seats.old.items id Seat.Empty)) }
    ensures { seats.new.items ≡ slice_set seats.old.items id seat }
{
    match swapped(seats, id as usize, seat) {
        Seat::Empty => {}
        Seat::Busy {
            block: _,
            number: _,
        } => {}
        Seat::Idle(_other) => unreachable!(),
        Seat::Stray(_other) => unreachable!(),
    }
}

/// The number under which an open slice takes its next block.
fn next_number(seat: &Seat) -> u64
    requires { IsTrue (is_open seat.now) }
    ensures { result ≡ (slice_in seat.now).number + 1 }
{
    match seat {
        Seat::Idle(slice) => slice.number() + 1,
        _ => unreachable!(),
    }
}

/// Begins the use of an open slice for a block with these bytes.
pub(crate) fn begin_use(seats: &mut Vec<Seat>, id: u32, block: u32, bytes: &[u8]) -> Used
    requires within { id < vec_len seats.old }
    requires open { IsTrue (is_open (slice_index_or seats.old.items id Seat.Empty)) }
    requires fits { length bytes.now ≤ (slice_in (slice_index_or seats.old.items id Seat.Empty)).size }
    ensures used { let slice = slice_in (slice_index_or seats.old.items id Seat.Empty) in
        result ≡ record { id = slice.id; size = slice.size; number = slice.number + 1; bytes = bytes.now } }
    ensures seats { let slice = slice_in (slice_index_or seats.old.items id Seat.Empty) in
        seats.new.items ≡ slice_set seats.old.items id (Seat.Busy block (slice.number + 1)) }
{
    let number = next_number(&seats[id as usize]);
    match swapped(seats, id as usize, Seat::Busy { block, number }) {
        Seat::Idle(slice) => match slice.fresh_use() {
            Ok(mut used) => {
                used.set(bytes);
                used
            }
            Err(_other) => unreachable!(),
        },
        _other => unreachable!(),
    }
}

/// Takes the slice out of a seat that has one without a block.
pub(crate) fn take_slice(seats: &mut Vec<Seat>, id: u32) -> Slice
    requires { IsTrue (keeps_slice (slice_index_or seats.old.items id Seat.Empty)) }
    ensures slice { result ≡ slice_in (slice_index_or seats.old.items id Seat.Empty) }
    ensures seats { seats.new.items ≡ slice_set seats.old.items id Seat.Empty }
{
    match swapped(seats, id as usize, Seat::Empty) {
        Seat::Idle(slice) => slice,
        Seat::Stray(slice) => slice,
        _other => unreachable!(),
    }
}

/// Adds an idle slice to the open ones, unless it is worn.
pub(crate) fn insert_open(open_seats: &mut IdSet, slice: &Slice)
    requires within { slice.now.id < length open_seats.old }
    requires shut { slice_index_or open_seats.old slice.now.id false ≡ false }
    ensures { open_seats.new ≡ slice_set open_seats.old slice.now.id (is_open (Seat.Idle slice.now)) }
{
    if !slice.is_worn() {
        open_seats.insert(slice.id());
    }
}

/// The block of a seat and its slice's number, if there is one.
pub(crate) fn seat_block(seats: &Vec<Seat>, id: u32) -> Option<(u64, u64)>
    ensures { result ≡ block_of (slice_index_or seats.now.items id Seat.Empty) }
{
    match seats.get(id as usize) {
        Some(Seat::Busy { block, number }) => Some((u64::from(*block), *number)),
        _ => None,
    }
}

/// The number of the slice that is held under an id, if there is one.
pub(crate) fn number_at(seats: &Vec<Seat>, id: u32) -> Option<u64>
    ensures { result ≡ option_map (λ held. held.number) (held_in (slice_index_or seats.now.items id Seat.Empty)) }
{
    match seats.get(id as usize) {
        Some(Seat::Idle(slice)) => Some(slice.number()),
        Some(Seat::Busy { block: _, number }) => Some(*number),
        _ => None,
    }
}

/// A table in which no slice is held.
pub(crate) fn empty_seats(alloc: Global, count: u32) -> Result<Vec<Seat>, AllocError>
    ensures { IfOk result (λ seats. seats.items ≡ replicate count Seat.Empty) }
{
    let mut seats = Vec::with_capacity(alloc, count as usize)?;
    for _done in 0..count {
        seats.push_reserved(Seat::Empty);
    }
    Ok(seats)
}

/// Gives the memory of a table's slices back.
pub(crate) fn free_seats(mut seats: Vec<Seat>) {
    while let Some(seat) = seats.pop() {
        match seat {
            Seat::Idle(slice) => slice.free(),
            Seat::Stray(slice) => slice.free(),
            Seat::Empty => {}
            Seat::Busy {
                block: _,
                number: _,
            } => {}
        }
    }
    seats.destroy_empty();
}
