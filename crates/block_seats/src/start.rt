//! Tables and sets in which no slice is held and no block is.
ghost use Rattle.std.specs.Prelude.{◌≡◌, IfOk, true, false, replicate};

use crate::cell::{Cell, vacant_cells};
use crate::seat::{Seat, empty_seats, free_seats};
use id_set::IdSet;
use std::alloc::{AllocError, Global};

/// Two sets without members.
fn empty_sets(alloc: Global, bound: u32) -> Result<(IdSet, IdSet), AllocError>
    ensures first { IfOk result (λ sets. sets.0 ≡ replicate bound false) }
    ensures second { IfOk result (λ sets. sets.1 ≡ replicate bound false) }
{
    Ok((IdSet::new(alloc, bound)?, IdSet::new(alloc, bound)?))
}

/// The sets of a table's seats: the open ones, the empty ones, those with a slice without a block, and those with a block.
pub(crate) fn seat_sets(
    alloc: Global,
    count: u32,
) -> Result<(IdSet, IdSet, IdSet, IdSet), AllocError>
    ensures open { IfOk result (λ sets. sets.0 ≡ replicate count false) }
    ensures empty { IfOk result (λ sets. sets.1 ≡ replicate count true) }
    ensures idle { IfOk result (λ sets. sets.2 ≡ replicate count false) }
    ensures busy { IfOk result (λ sets. sets.3 ≡ replicate count false) }
{
    let empty_seats = IdSet::full(alloc, count)?;
    let open_seats = IdSet::new(alloc, count)?;
    let (idle_seats, busy_seats) = empty_sets(alloc, count)?;
    Ok((open_seats, empty_seats, idle_seats, busy_seats))
}

/// Tables in which no slice is held and no block is.
pub(crate) fn empty_tables(alloc: Global, count: u32) -> Result<(Vec<Seat>, Vec<Cell>), AllocError>
    ensures seats { IfOk result (λ tables. tables.0.items ≡ replicate count Seat.Empty) }
    ensures cells { IfOk result (λ tables. tables.1.items ≡ replicate count Cell.Vacant) }
{
    let seats = empty_seats(alloc, count)?;
    match vacant_cells(alloc, count) {
        Ok(cells) => Ok((seats, cells)),
        Err(error) => {
            free_seats(seats);
            Err(error)
        }
    }
}
