//! A place of the table of blocks.
ghost use Rattle.std.specs.Prelude.{◌≡◌, ◌<◌, ◌≤◌, ◌+◌, ◌++◌, length, is_some, IsTrue, IfOk, None, true, replicate, slice_index_or, slice_set, vec_len, vec_capacity};
ghost use Rattle.std.specs.Option.{option_and_then};
ghost use Rattle.block_seats.specs.Seats.{slice_of, used_in, put_in, view_in, left_cell};
ghost use Rattle.block_seats.specs.Blocks.{seen, length_of, stamp_of, was_put};
ghost use Rattle.slice_seq.specs.Used.{written_at};

use crate::seat::swapped;
use far_words::Stamp;
use slice_seq::{Slice, Used};
use std::alloc::{AllocError, Global};

/// What stands at one number of the table of blocks.
pub(crate) enum Cell {
    /// No block.
    Vacant,
    /// A block in a slice, and whether it was ever put into the store.
    Resident { used: Used, put: bool },
    /// A block in the store.
    Parked(Stamp),
}

/// Puts something into the place of a cell without a slice.
pub(crate) fn put_cell(cells: &mut Vec<Cell>, block: u32, cell: Cell)
    requires within { block < vec_len cells.old }
    requires away { slice_of (slice_index_or cells.old.items block Cell.Vacant) ≡ None }
    ensures { cells.new.items ≡ slice_set cells.old.items block cell }
{
    match swapped(cells, block as usize, cell) {
        Cell::Vacant => {}
        Cell::Parked(_stamp) => {}
        Cell::Resident {
            used: _other,
            put: _,
        } => unreachable!(),
    }
}

/// What is left of a block that leaves its slice: its stamp, or nothing where there is none.
fn left(stamp: Option<Stamp>) -> Cell
    ensures { result ≡ left_cell stamp }
{
    match stamp {
        Some(stamp) => Cell::Parked(stamp),
        None => Cell::Vacant,
    }
}

/// Takes a block out of its slice and ends the use of that.
pub(crate) fn end_use(cells: &mut Vec<Cell>, block: u64, stamp: Option<Stamp>) -> Slice
    requires { IsTrue (is_some (slice_of (slice_index_or cells.old.items block Cell.Vacant))) }
    ensures slice { let used = used_in (slice_index_or cells.old.items block Cell.Vacant) in
        result ≡ record { id = used.id; size = used.size; number = used.number } }
    ensures cells { cells.new.items ≡ slice_set cells.old.items block (left_cell stamp) }
{
    match swapped(cells, block as usize, left(stamp)) {
        Cell::Resident { used, put: _ } => used.retire(),
        _other => unreachable!(),
    }
}

/// The slice of a block that is in one.
pub(crate) fn used_at(cells: &Vec<Cell>, block: u64) -> &Used
    requires { IsTrue (is_some (slice_of (slice_index_or cells.now.items block Cell.Vacant))) }
    ensures { result.now ≡ used_in (slice_index_or cells.now.items block Cell.Vacant) }
{
    match &cells[block as usize] {
        Cell::Resident { used, put: _ } => used,
        _ => unreachable!(),
    }
}

/// The slice of a block and its number, if the block is in one.
pub(crate) fn slice_at(cells: &Vec<Cell>, block: u64) -> Option<(u32, u64)>
    ensures { result ≡ slice_of (slice_index_or cells.now.items block Cell.Vacant) }
{
    match cells.get(block as usize) {
        Some(Cell::Resident { used, put: _ }) => Some((used.id(), used.number())),
        _ => None,
    }
}

/// Whether a number names a block.
pub(crate) fn is_there(cells: &Vec<Cell>, block: u64) -> bool
    ensures { result ≡ is_some (view_in (slice_index_or cells.now.items block Cell.Vacant)) }
{
    match cells.get(block as usize) {
        Some(Cell::Resident { used: _, put: _ }) => true,
        Some(Cell::Parked(_stamp)) => true,
        _ => false,
    }
}

/// How many bytes a block has, wherever it is. 0 where there is no such block.
pub(crate) fn cell_length(cells: &Vec<Cell>, block: u64) -> u32
    ensures { result ≡ length_of (seen (view_in (slice_index_or cells.now.items block Cell.Vacant))) }
{
    match cells.get(block as usize) {
        Some(Cell::Resident { used, put: _ }) => used.length(),
        Some(Cell::Parked(stamp)) => stamp.length,
        _ => 0,
    }
}

/// Whether a block was ever put into the store.
pub(crate) fn cell_put(cells: &Vec<Cell>, block: u64) -> bool
    ensures { result ≡ was_put (seen (view_in (slice_index_or cells.now.items block Cell.Vacant))) }
{
    match cells.get(block as usize) {
        Some(Cell::Resident { used: _, put }) => *put,
        Some(Cell::Parked(_stamp)) => true,
        _ => false,
    }
}

/// The stamp of a block in the store.
pub(crate) fn cell_stamp(cells: &Vec<Cell>, block: u64) -> Option<Stamp>
    ensures { result ≡ option_and_then stamp_of (view_in (slice_index_or cells.now.items block Cell.Vacant)) }
{
    match cells.get(block as usize) {
        Some(Cell::Parked(stamp)) => Some(*stamp),
        _ => None,
    }
}

/// Writes bytes over those of a block in a slice.
pub(crate) fn write_cell(cells: &mut Vec<Cell>, block: u64, at: u32, bytes: &[u8])
    requires there { IsTrue (is_some (slice_of (slice_index_or cells.old.items block Cell.Vacant))) }
    requires within { at ≤ length (used_in (slice_index_or cells.old.items block Cell.Vacant)).bytes }
    requires fits { at + length bytes.now ≤ (used_in (slice_index_or cells.old.items block Cell.Vacant)).size }
    ensures { let cell = slice_index_or cells.old.items block Cell.Vacant in let used = used_in cell in
        cells.new.items ≡ slice_set cells.old.items block (Cell.Resident (record used { bytes = written_at used.bytes at bytes.now }) (put_in cell)) }
{
    let cell = &mut cells[block as usize];
    match cell {
        Cell::Resident { used, put: _ } => used.write_at(at, bytes),
        _ => unreachable!(),
    }
}

/// Makes these bytes those of a block in a slice.
pub(crate) fn set_cell(cells: &mut Vec<Cell>, block: u64, bytes: &[u8])
    requires there { IsTrue (is_some (slice_of (slice_index_or cells.old.items block Cell.Vacant))) }
    requires fits { length bytes.now ≤ (used_in (slice_index_or cells.old.items block Cell.Vacant)).size }
    ensures { let cell = slice_index_or cells.old.items block Cell.Vacant in
        cells.new.items ≡ slice_set cells.old.items block (Cell.Resident (record (used_in cell) { bytes = bytes.now }) (put_in cell)) }
{
    let cell = &mut cells[block as usize];
    match cell {
        Cell::Resident { used, put: _ } => used.set(bytes),
        _ => unreachable!(),
    }
}

/// Notes that a block in a slice was put into the store.
pub(crate) fn note_put(cells: &mut Vec<Cell>, block: u64)
    requires { IsTrue (is_some (slice_of (slice_index_or cells.old.items block Cell.Vacant))) }
    ensures { let cell = slice_index_or cells.old.items block Cell.Vacant in
        cells.new.items ≡ slice_set cells.old.items block (Cell.Resident (used_in cell) true) }
{
    let cell = &mut cells[block as usize];
    match cell {
        Cell::Resident { used: _, put } => *put = true,
        _ => unreachable!(),
    }
}

/// Puts so many vacant places at the end, for which there is room.
pub(crate) fn extend_cells(cells: &mut Vec<Cell>, more: u32)
    requires { vec_len cells.old + more ≤ vec_capacity cells.old }
    ensures { cells.new.items ≡ cells.old.items ++ replicate more Cell.Vacant }
{
    for _done in 0..more {
        cells.push_reserved(Cell::Vacant);
    }
}

/// A table in which no block is.
pub(crate) fn vacant_cells(alloc: Global, count: u32) -> Result<Vec<Cell>, AllocError>
    ensures { IfOk result (λ cells. cells.items ≡ replicate count Cell.Vacant) }
{
    let mut cells = Vec::with_capacity(alloc, count as usize)?;
    extend_cells(&mut cells, count);
    Ok(cells)
}

/// Gives the memory of a table's blocks back.
pub(crate) fn free_cells(mut cells: Vec<Cell>) {
    while let Some(cell) = cells.pop() {
        match cell {
            Cell::Resident { used, put: _ } => used.retire().free(),
            Cell::Parked(_stamp) => {}
            Cell::Vacant => {}
        }
    }
    cells.destroy_empty();
}
